ghost use Rattle.std.specs.Prelude.{◌≡◌, ◌&&◌, ◌||◌, ℕ, List, [], OnOk, IfOk, bytes_eq, if◌then◌else◌};
ghost use Rattle.std.specs.List.{fold};
ghost use Rattle.std.specs.Option.{option_copied};
ghost use Rattle.indexmap.specs.IndexMap.{get};
ghost use Rattle.srb_rules.specs.Circles.{goes, is_named};
ghost use Rattle.srb_rules.specs.FullNames.{BASIC_OBJECT};
ghost use Rattle.srb_table.specs.Circular.{circle_after, grown};
ghost use Rattle.srb_terms.specs.Worlds.{is_among};

use indexmap::IndexMap;
use srb_rules::Link;
use srb_terms::{Name, Names, NoMemory};
use std::alloc::Global;

/// The table of circular references: each circular link, and the superclass that would decide for `BasicObject`.
pub fn circles(
    alloc: Global,
    circular: &[Link],
    decided: Option<&Name>,
) -> Result<IndexMap<Name, Names>, NoMemory>
    ensures { IfOk result (λ table. (c d : List ℕ) → is_among d (get bytes_eq table c) ≡ (goes circular.now c d || (bytes_eq c BASIC_OBJECT && is_named d (option_copied decided.entry)))) }
{
    let mut table = IndexMap::new(alloc);
    add_all(alloc, &mut table, circular)?;
    match decided {
        None => Ok(table),
        Some(superclass) => {
            let basic_object = Name::from_str(alloc, "BasicObject")?;
            add(alloc, &mut table, &basic_object, superclass)?;
            Ok(table)
        }
    }
}

// Adds the links.
fn add_all(alloc: Global, table: &mut IndexMap<Name, Names>, links: &[Link]) -> Result<(), NoMemory>
    ensures { OnOk result ((c : List ℕ) → get bytes_eq table.new c ≡ fold (circle_after c) (get bytes_eq table.old c) links.now) }
{
    'links: for link in links {
        add(alloc, table, &link.of, &link.to)?;
    }
    Ok(())
}

// Adds a name in front of the list of another. The list before it is shared, not copied.
fn add(
    alloc: Global,
    table: &mut IndexMap<Name, Names>,
    of: &Name,
    to: &Name,
) -> Result<(), NoMemory>
    ensures { OnOk result ((c : List ℕ) → get bytes_eq table.new c ≡ (if bytes_eq of.now c then grown (get bytes_eq table.old c) to.now else get bytes_eq table.old c)) }
{
    let list = match table.get(of) {
        Some(list) => list.copied()?,
        None => Names::new(),
    };
    table.insert(of.copied()?, list.pushed(alloc, to.copied()?)?)?;
    Ok(())
}
