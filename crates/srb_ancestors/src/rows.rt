ghost use Rattle.indexmap.specs.IndexMap.{get};
ghost use Rattle.srb_ancestors.specs.Rows.{AreRows, with_link_at};
ghost use Rattle.std.specs.Prelude.{◌≡◌, ℕ, List, [], ◌∷◌, ◌++◌, bytes_eq, unwrap_or, IfOk, OnOk};

use indexmap::IndexMap;
use srb_rules::Link;
use srb_terms::{Items, Name, NoMemory};
use std::alloc::Global;

/// The links from each name, in their order. Each name that stands in a link has a row.
pub type Rows = IndexMap<Name, Items<Link>>;

/// A copy of `link` that shares its names.
pub fn copied(link: &Link) -> Result<Link, NoMemory>
    ensures { IfOk result (λ l. l ≡ link.now) }
{
    Ok(Link {
        of: link.of.copied()?,
        to: link.to.copied()?,
        how: link.how,
    })
}

/// The rows of `links`.
pub fn rows_of(alloc: Global, links: &[Link]) -> Result<Rows, NoMemory>
    ensures { IfOk result (λ rows. AreRows links.now (get bytes_eq rows)) }
{
    let mut rows = IndexMap::new(alloc);
    'links: for link in links {
        add(alloc, &mut rows, link)?;
    }
    Ok(rows)
}

// Adds the link to the row of its beginning, and a row for its end where there is none.
fn add(alloc: Global, rows: &mut Rows, link: &Link) -> Result<(), NoMemory>
    ensures { OnOk result ((c : List ℕ) → get bytes_eq rows.new c ≡ with_link_at c (get bytes_eq rows.old c) link.now) }
{
    let old = rows.insert(link.of.copied()?, Items::new(alloc))?;
    let row = with_link(alloc, old, link)?;
    rows.insert(link.of.copied()?, row)?;
    if !rows.contains_key(&link.to) {
        rows.insert(link.to.copied()?, Items::new(alloc))?;
    }
    Ok(())
}

// The row with the link at its end, a new one where there was none.
fn with_link(alloc: Global, old: Option<Items<Link>>, link: &Link) -> Result<Items<Link>, NoMemory>
    ensures { IfOk result (λ row. row ≡ unwrap_or old [] ++ link.now ∷ []) }
{
    let mut row = match old {
        Some(row) => row,
        None => Items::new(alloc),
    };
    row.push(copied(link)?)?;
    Ok(row)
}
