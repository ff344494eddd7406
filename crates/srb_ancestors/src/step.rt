ghost use Rattle.indexmap.specs.IndexMap.{get};
ghost use Rattle.srb_ancestors.specs.Lists.{list_in};
ghost use Rattle.srb_ancestors.specs.Ways.{HasEnd};
ghost use Rattle.srb_rules.specs.Lin as rules;
ghost use Rattle.srb_terms.specs.NameSets.{has_name};
ghost use Rattle.std.specs.List.{filter};
ghost use Rattle.std.specs.Prelude.{◌≡◌, ℕ, List, [], ◌∷◌, ◌++◌, ◌||◌, not, false, bytes_eq, if◌then◌else◌, IfOk, OnOk};

use indexmap::IndexMap;
use srb_rules::Link;
use srb_terms::{How, Name, Names, NoMemory};
use std::alloc::Global;

/// The lists that were made, by name.
pub type Lists = IndexMap<Name, Names>;

/// The list of `c` by the links from it and the lists of their ends, in none of which it stands. It shares the list of the superclass,
/// or that of the one module where there is no superclass.
pub fn list_of(alloc: Global, lists: &Lists, row: &[Link], c: &Name) -> Result<Names, NoMemory>
    requires { (d : List ℕ) → HasEnd row.now d → has_name c.now (list_in (get bytes_eq lists.now) d) ≡ false }
    ensures { IfOk result (λ n. n ≡ rules.lin_by (list_in (get bytes_eq lists.now)) row.now c.now) }
{
    let below = below(lists, row)?;
    let modules = modules(alloc, row)?;
    if modules.len() == 1 && below.is_empty() {
        let list = list_at(lists, &modules[0])?;
        return list.pushed(alloc, c.copied()?);
    }
    let here = here(alloc, lists, &below, modules.as_slice(), c)?;
    put_before(alloc, here.as_slice(), below)
}

// The list of this name, which shares all of it.
fn list_at(lists: &Lists, name: &Name) -> Result<Names, NoMemory>
    ensures { IfOk result (λ n. n ≡ list_in (get bytes_eq lists.now) name.now) }
{
    match lists.get(name) {
        None => Ok(Names::new()),
        Some(list) => list.copied(),
    }
}

// The list of the superclass, or none.
fn below(lists: &Lists, row: &[Link]) -> Result<Names, NoMemory>
    ensures { IfOk result (λ n. n ≡ rules.lin_below (list_in (get bytes_eq lists.now)) (rules.superclass_in row.now)) }
{
    'links: for link in row {
        if is_super(link.how) {
            return list_at(lists, &link.to);
        }
    }
    Ok(Names::new())
}

fn is_super(how: How) -> bool
    ensures { result ≡ rules.is_super how }
{
    match how {
        How::Super => true,
        How::Include => false,
        How::Extend => false,
    }
}

fn is_include(how: How) -> bool
    ensures { result ≡ rules.is_include how }
{
    match how {
        How::Super => false,
        How::Include => true,
        How::Extend => false,
    }
}

// The included modules, each at its first place.
fn modules(alloc: Global, row: &[Link]) -> Result<Vec<Name>, NoMemory>
    ensures { IfOk result (λ ms. ms.items ≡ rules.included_in row.now) }
{
    let mut modules = Vec::new(alloc);
    'links: for link in row {
        add_module(&mut modules, link)?;
    }
    Ok(modules)
}

// Adds the module that the link includes, unless it is there.
fn add_module(modules: &mut Vec<Name>, link: &Link) -> Result<(), NoMemory>
    ensures { OnOk result (modules.new.items ≡ (if rules.is_include link.now.how then (if has_name link.now.to modules.old.items then modules.old.items else modules.old.items ++ link.now.to ∷ []) else modules.old.items)) }
{
    if !is_include(link.how) {
        return Ok(());
    }
    if has(modules.as_slice(), &link.to) {
        return Ok(());
    }
    modules.push(link.to.copied()?)?;
    Ok(())
}

// Whether the name is among them.
fn has(names: &[Name], name: &Name) -> bool
    ensures { result ≡ has_name name.now names.now }
{
    'names: for other in names {
        if other.as_str() == name.as_str() {
            return true;
        }
    }
    false
}

// Adds what the module of this name adds: the names of its list that stand neither in `below` nor here.
fn add_list(
    alloc: Global,
    lists: &Lists,
    below: &Names,
    name: &Name,
    here: &mut Vec<Name>,
) -> Result<(), NoMemory>
    ensures { OnOk result (here.new.items ≡ rules.joined below.now here.old.items (list_in (get bytes_eq lists.now) name.now)) }
{
    let list = list_at(lists, name)?;
    let mut more = new_names(alloc, here.as_slice(), below, &list)?;
    here.append(&mut more)
}

// `c`, and what its modules add, from the last to the first.
fn here(
    alloc: Global,
    lists: &Lists,
    below: &Names,
    modules: &[Name],
    c: &Name,
) -> Result<Vec<Name>, NoMemory>
    ensures { IfOk result (λ v. v.items ≡ rules.with_modules (list_in (get bytes_eq lists.now)) below.now c.now modules.now) }
{
    let mut here = Vec::new(alloc);
    here.push(c.copied()?)?;
    'modules: for index in (0..modules.len()).rev() {
        add_list(alloc, lists, below, &modules[index], &mut here)?;
    }
    Ok(here)
}

// The names of the list that stand neither in `below` nor here.
fn new_names(
    alloc: Global,
    here: &[Name],
    below: &Names,
    list: &Names,
) -> Result<Vec<Name>, NoMemory>
    ensures { IfOk result (λ v. v.items ≡ filter (λ name. not (has_name name below.now || has_name name here.now)) list.now) }
{
    let mut more = Vec::new(alloc);
    let mut at = list;
    'names: while let Some((name, rest)) = at.split() {
        add_new(here, below, name, &mut more)?;
        at = rest;
    }
    Ok(more)
}

// Adds the name, if it stands neither in `below` nor here.
fn add_new(here: &[Name], below: &Names, name: &Name, more: &mut Vec<Name>) -> Result<(), NoMemory>
    ensures { OnOk result (more.new.items ≡ more.old.items ++ (if not (has_name name.now below.now || has_name name.now here.now) then name.now ∷ [] else [])) }
{
    if below.contains(name) {
        return Ok(());
    }
    if has(here, name) {
        return Ok(());
    }
    more.push(name.copied()?)?;
    Ok(())
}

// The names before the list, which is shared.
fn put_before(alloc: Global, here: &[Name], below: Names) -> Result<Names, NoMemory>
    ensures { IfOk result (λ n. n ≡ here.now ++ below) }
{
    let mut list = below;
    'names: for index in (0..here.len()).rev() {
        list = list.pushed(alloc, here[index].copied()?)?;
    }
    Ok(list)
}
