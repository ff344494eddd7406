ghost use Rattle.indexmap.specs.IndexMap.{get};
ghost use Rattle.srb_ancestors.specs.Rows.{AreRows};
ghost use Rattle.srb_ancestors.specs.Search.{with_ends};
ghost use Rattle.srb_rules.specs.Links as links;
ghost use Rattle.srb_rules.specs.declared.link.Link as link_type;
ghost use Rattle.std.specs.Prelude.{◌≡◌, List, [], bytes_eq, unwrap_or, IfOk, OnOk};

use crate::rows::Rows;
use indexmap::IndexSet;
use srb_rules::Link;
use srb_terms::{Name, NoMemory};
use std::alloc::Global;

/// Whether `from` is `to`, or reaches it. The names that were seen stand in a set, in the order in which their links are followed.
pub fn leads(alloc: Global, rows: &Rows, from: &Name, to: &Name) -> Result<bool, NoMemory>
    ensures { IfOk result (λ b. (ls : List link_type.Link) → AreRows ls (get bytes_eq rows.now) → b ≡ links.leads ls from.now to.now) }
{
    let mut seen = IndexSet::new(alloc);
    seen.insert(from.copied()?)?;
    'places: for at in 0..usize::MAX {
        match seen.get_index(at) {
            None => return Ok(false),
            Some(name) => {
                if name.is_same(to) {
                    return Ok(true);
                }
                let name = name.copied()?;
                follow(rows, &mut seen, &name)?;
            }
        }
    }
    let _count = seen.len();
    Ok(false)
}

// Adds the ends of the links from `name` to the names seen.
fn follow(rows: &Rows, seen: &mut IndexSet<Name>, name: &Name) -> Result<(), NoMemory>
    ensures { OnOk result (seen.new.keys ≡ with_ends seen.old.keys (unwrap_or (get bytes_eq rows.now name.now) [])) }
{
    match rows.get(name) {
        None => Ok(()),
        Some(row) => add_ends(seen, row.as_slice()),
    }
}

// Adds the ends of the links to the names seen.
fn add_ends(seen: &mut IndexSet<Name>, row: &[Link]) -> Result<(), NoMemory>
    ensures { OnOk result (seen.new.keys ≡ with_ends seen.old.keys row.now) }
{
    'links: for link in row {
        seen.insert(link.to.copied()?)?;
    }
    Ok(())
}
