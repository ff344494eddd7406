ghost use Rattle.indexmap.specs.IndexMap.{get};
ghost use Rattle.indexmap.specs.IndexSet.{contains};
ghost use Rattle.srb_ancestors.specs.Rows.{AreRows};
ghost use Rattle.srb_ancestors.specs.Ways.{AreSettled, HasEnd, SettlesAt};
ghost use Rattle.srb_rules.specs.declared.link.Link as link_type;
ghost use Rattle.std.specs.Prelude.{◌≡◌, ℕ, List, true, bytes_eq, IfOk, IsTrue, OnOk};

use crate::rows::Rows;
use indexmap::IndexSet;
use srb_rules::Link;
use srb_terms::{Name, NoMemory};
use std::alloc::Global;

/// Names from which every way ends, told by going over the rows once in the given order.
pub fn settled(alloc: Global, rows: &Rows, order: &[usize]) -> Result<IndexSet<Name>, NoMemory>
    ensures { IfOk result (λ s. (ls : List link_type.Link) → AreRows ls (get bytes_eq rows.now) → AreSettled ls (contains bytes_eq s)) }
{
    let mut settled = IndexSet::new(alloc);
    'order: for index in order {
        visit(rows, &mut settled, *index)?;
    }
    Ok(settled)
}

// Settles the name of the row at `index`, where the ends of its links are settled.
fn visit(rows: &Rows, settled: &mut IndexSet<Name>, index: usize) -> Result<(), NoMemory>
    ensures { OnOk result ((ls : List link_type.Link) → AreRows ls (get bytes_eq rows.now) → AreSettled ls (contains bytes_eq settled.old) → AreSettled ls (contains bytes_eq settled.new)) }
{
    match rows.get_index(index) {
        None => Ok(()),
        Some((name, row)) => settle(settled, name, row.as_slice()),
    }
}

// Settles the name, where the ends of the links of its row are settled.
fn settle(settled: &mut IndexSet<Name>, name: &Name, row: &[Link]) -> Result<(), NoMemory>
    ensures { OnOk result (SettlesAt name.now row.now (contains bytes_eq settled.old) (contains bytes_eq settled.new)) }
{
    if !are_settled(settled, row) {
        return Ok(());
    }
    settled.insert(name.copied()?)?;
    Ok(())
}

// Whether the end of each link is settled.
fn are_settled(settled: &IndexSet<Name>, row: &[Link]) -> bool
    ensures { IsTrue result → (d : List ℕ) → HasEnd row.now d → contains bytes_eq settled.now d ≡ true }
{
    'links: for link in row {
        if !settled.contains(&link.to) {
            return false;
        }
    }
    true
}
