ghost use Rattle.indexmap.specs.IndexMap.{get};
ghost use Rattle.indexmap.specs.IndexSet.{contains};
ghost use Rattle.srb_ancestors.specs.Rows.{AreRows};
ghost use Rattle.srb_ancestors.specs.Ways.{AreSettled};
ghost use Rattle.srb_rules.specs.Links.{HasLink, circular_links, is_circular as is_circular_by};
ghost use Rattle.srb_rules.specs.declared.link.Link as link_type;
ghost use Rattle.std.specs.Prelude.{◌≡◌, List, [], ◌∷◌, ◌++◌, bytes_eq, if◌then◌else◌, IfOk, OnOk};

use crate::Parents;
use crate::order::order;
use crate::rows::{Rows, copied, rows_of};
use crate::search::leads;
use crate::settled::settled;
use indexmap::IndexSet;
use srb_rules::Link;
use srb_terms::{Items, Name, NoMemory};
use std::alloc::Global;

/// The circular references, in the order of the references, each as often as it stands.
pub fn circular(alloc: Global, p: &Parents) -> Result<Parents, NoMemory>
    ensures { IfOk result (λ found. found ≡ circular_links p.now) }
{
    let links = p.as_slice();
    let rows = rows_of(alloc, links)?;
    let order = order(alloc, &rows)?;
    let settled = settled(alloc, &rows, order.as_slice())?;
    let mut found = Items::new(alloc);
    'links: for link in links {
        add_circular(alloc, &rows, &settled, link, &mut found)?;
    }
    Ok(found)
}

// Adds the link to those found, if it is circular.
fn add_circular(
    alloc: Global,
    rows: &Rows,
    settled: &IndexSet<Name>,
    link: &Link,
    found: &mut Items<Link>,
) -> Result<(), NoMemory>
    ensures { OnOk result ((ls : List link_type.Link) → AreRows ls (get bytes_eq rows.now) → AreSettled ls (contains bytes_eq settled.now) → HasLink ls link.now.of link.now.to → found.new ≡ found.old ++ (if is_circular_by ls link.now then link.now ∷ [] else [])) }
{
    if is_circular(alloc, rows, settled, link)? {
        found.push(copied(link)?)?;
    }
    Ok(())
}

/// Whether the link is circular. No search is needed where every way from its beginning ends.
pub fn is_circular(
    alloc: Global,
    rows: &Rows,
    settled: &IndexSet<Name>,
    link: &Link,
) -> Result<bool, NoMemory>
    ensures { IfOk result (λ b. (ls : List link_type.Link) → AreRows ls (get bytes_eq rows.now) → AreSettled ls (contains bytes_eq settled.now) → HasLink ls link.now.of link.now.to → b ≡ is_circular_by ls link.now) }
{
    if settled.contains(&link.of) {
        return Ok(false);
    }
    leads(alloc, rows, &link.to, &link.of)
}
