ghost use Rattle.indexmap.specs.IndexMap.{get};
ghost use Rattle.indexmap.specs.IndexSet.{contains};
ghost use Rattle.srb_ancestors.specs.LinEnds.{IsFirstCircular, IsLinEnd};
ghost use Rattle.srb_ancestors.specs.Lists.{AreLins, lin_at};
ghost use Rattle.srb_ancestors.specs.Placing.{AllMade, AllVisited, EndsMade, IsClosed, IsMade, IsPlaced, IsVisited, NoneReachesItself, StandingMade, StayRight};
ghost use Rattle.srb_ancestors.specs.Rows.{AreRows};
ghost use Rattle.srb_ancestors.specs.Ways.{AreSettled};
ghost use Rattle.srb_rules.specs.Links.{Reaches, leads as leads_by};
ghost use Rattle.std.specs.List.{list_any};
ghost use Rattle.srb_rules.specs.declared.link.Link as link_type;
ghost use Rattle.std.specs.Prelude.{◌≡◌, ◌↔◌, ℕ, List, bytes_eq, length, IfErr, IfOk, IsTrue, MatchOption, OnOk, Some, slice_get};

use crate::order::order;
use crate::rows::{Rows, rows_of};
use crate::search::leads;
use crate::settled::settled;
use crate::step::{Lists, list_of};
use crate::{LinEnd, Lins, Parents};
use indexmap::{IndexMap, IndexSet};
use srb_rules::Link;
use srb_terms::{Name, NoMemory};
use std::alloc::Global;

/// The linearization of each name that stands in a link. There is none where a class or module reaches itself.
pub fn linearize(alloc: Global, p: &Parents) -> Result<Lins, LinEnd>
    ensures lins { IfOk result (λ lins. AreLins p.now (lin_at lins)) }
    ensures none { OnOk result (NoneReachesItself p.now) }
    ensures end { IfErr result (IsLinEnd p.now) }
{
    let links = p.as_slice();
    let rows = rows_of(alloc, links)?;
    let order = order(alloc, &rows)?;
    let settled = settled(alloc, &rows, order.as_slice())?;
    match first_circular(alloc, links, &rows, &settled)? {
        Some(link) => Err(LinEnd::Circular {
            class: link.of.copied()?,
        }),
        None => {
            let lists = lists(alloc, links.len(), &rows, order.as_slice())?;
            Ok(Lins::from_map(lists))
        }
    }
}

// The first link that begins at a name that reaches itself.
fn first_circular<'a>(
    alloc: Global,
    links: &'a [Link],
    rows: &Rows,
    settled: &IndexSet<Name>,
) -> Result<Option<&'a Link>, NoMemory>
    requires rows { AreRows links.now (get bytes_eq rows.now) }
    requires settled { AreSettled links.now (contains bytes_eq settled.now) }
    ensures { IfOk result (λ o. MatchOption o (NoneReachesItself links.now) (λ l. IsFirstCircular links.now l.now.of)) }
{
    'links: for link in links {
        let found = reaches_itself(alloc, rows, settled, &link.of)?;
        if found {
            return Ok(Some(link));
        }
    }
    Ok(None)
}

// Whether the name reaches itself. No search is needed where every way from it ends.
fn reaches_itself(
    alloc: Global,
    rows: &Rows,
    settled: &IndexSet<Name>,
    name: &Name,
) -> Result<bool, NoMemory>
    ensures { IfOk result (λ b. (ls : List link_type.Link) → AreRows ls (get bytes_eq rows.now) → AreSettled ls (contains bytes_eq settled.now) → (IsTrue b ↔ Reaches ls name.now name.now)) }
{
    if settled.contains(name) {
        return Ok(false);
    }
    match rows.get(name) {
        None => Ok(false),
        Some(row) => some_leads(alloc, rows, row.as_slice(), name),
    }
}

// Whether the end of some link is the name, or reaches it.
fn some_leads(alloc: Global, rows: &Rows, row: &[Link], name: &Name) -> Result<bool, NoMemory>
    ensures { IfOk result (λ b. (ls : List link_type.Link) → AreRows ls (get bytes_eq rows.now) → b ≡ list_any (λ (l : link_type.Link). leads_by ls l.to name.now) row.now) }
{
    'links: for link in row {
        let found = leads(alloc, rows, &link.to, name)?;
        if found {
            return Ok(true);
        }
    }
    Ok(false)
}

// The lists of all names, where no link is circular. The rows in the given order give all of them; if they did not, passes over the
// rows would go on until they do.
fn lists(alloc: Global, count: usize, rows: &Rows, order: &[usize]) -> Result<Lists, NoMemory>
    ensures { IfOk result (λ m. (ls : List link_type.Link) → AreRows ls (get bytes_eq rows.now) → length ls ≡ count → NoneReachesItself ls → AreLins ls (get bytes_eq m)) }
{
    let mut lists = IndexMap::new(alloc);
    'order: for index in order {
        visit(alloc, rows, &mut lists, *index)?;
    }
    fill(alloc, count, rows, &mut lists)?;
    Ok(lists)
}

// Passes over the rows, until each name has its list.
fn fill(alloc: Global, count: usize, rows: &Rows, lists: &mut Lists) -> Result<(), NoMemory>
    requires { IsClosed (get bytes_eq lists.old) }
    ensures right { OnOk result (StayRight (get bytes_eq rows.now) (get bytes_eq lists.old) (get bytes_eq lists.new)) }
    ensures made { OnOk result (StandingMade (get bytes_eq rows.now) count (get bytes_eq lists.new)) }
{
    'passes: for turn in 0..count {
        let _turn = turn;
        if have_all(rows, lists) {
            return Ok(());
        }
        pass(alloc, rows, lists)?;
    }
    pass(alloc, rows, lists)
}

// Whether each name has its list.
fn have_all(rows: &Rows, lists: &Lists) -> bool
    ensures { IsTrue result → AllMade (get bytes_eq rows.now) (get bytes_eq lists.now) }
{
    'rows: for index in 0..rows.len() {
        if !has_list(rows, lists, index) {
            return false;
        }
    }
    true
}

// Whether the name of the row at `index` has its list.
fn has_list(rows: &Rows, lists: &Lists, index: usize) -> bool
    ensures { IsTrue result → (name : List ℕ) → (row : List link_type.Link) → slice_get rows.now.entries index ≡ Some (name, row) → IsMade (get bytes_eq lists.now) name }
{
    match rows.get_index(index) {
        None => true,
        Some((name, _row)) => lists.contains_key(name),
    }
}

// Gives each name its list, where the ends of the links of its row have theirs.
fn pass(alloc: Global, rows: &Rows, lists: &mut Lists) -> Result<(), NoMemory>
    requires { IsClosed (get bytes_eq lists.old) }
    ensures { OnOk result (AllVisited (get bytes_eq rows.now) (get bytes_eq lists.old) (get bytes_eq lists.new)) }
{
    'rows: for index in 0..rows.len() {
        visit(alloc, rows, lists, index)?;
    }
    Ok(())
}

// Gives the name of the row at `index` its list, where the ends of the links of the row have theirs.
fn visit(alloc: Global, rows: &Rows, lists: &mut Lists, index: usize) -> Result<(), NoMemory>
    requires { IsClosed (get bytes_eq lists.old) }
    ensures closed { OnOk result (IsClosed (get bytes_eq lists.new)) }
    ensures visited { OnOk result (IsVisited rows.now.entries (get bytes_eq rows.now) index (get bytes_eq lists.old) (get bytes_eq lists.new)) }
{
    match rows.get_index(index) {
        None => Ok(()),
        Some((name, row)) => place(alloc, lists, name, row.as_slice()),
    }
}

// Gives the name its list, where the ends of the links of its row have theirs.
fn place(alloc: Global, lists: &mut Lists, name: &Name, row: &[Link]) -> Result<(), NoMemory>
    requires { IsClosed (get bytes_eq lists.old) }
    ensures { OnOk result (IsPlaced name.now row.now (get bytes_eq lists.old) (get bytes_eq lists.new)) }
{
    if lists.contains_key(name) {
        return Ok(());
    }
    if !have_lists(lists, row) {
        return Ok(());
    }
    let list = list_of(alloc, lists, row, name)?;
    lists.insert(name.copied()?, list)?;
    Ok(())
}

// Whether the end of each link has a list.
fn have_lists(lists: &Lists, row: &[Link]) -> bool
    ensures yes { IsTrue result → EndsMade (get bytes_eq lists.now) row.now }
    ensures no { EndsMade (get bytes_eq lists.now) row.now → IsTrue result }
{
    'links: for link in row {
        if !lists.contains_key(&link.to) {
            return false;
        }
    }
    true
}
