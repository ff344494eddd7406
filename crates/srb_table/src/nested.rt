ghost use Rattle.std.specs.Prelude.{◌≡◌, ◌&&◌, ℕ, List, Some, OnOk, IfOk, bytes_eq, if◌then◌else◌};
ghost use Rattle.std.specs.Option.{option_and_then};
ghost use Rattle.indexmap.specs.IndexMap.{get};
ghost use Rattle.srb_terms.specs.Worlds.{inner_at, value_of};

use indexmap::IndexMap;
use srb_terms::{Name, NoMemory};
use std::alloc::Global;

/// Values by two names: a table of tables.
pub type Nested<V> = IndexMap<Name, IndexMap<Name, V>>;

/// Puts a value at two names, in place of the one that stood there.
pub fn put<V: Drop>(
    alloc: Global,
    table: &mut Nested<V>,
    outer: &Name,
    name: Name,
    value: V,
) -> Result<(), NoMemory>
    ensures { OnOk result ((o n : List ℕ) → inner_at o n table.new.entries ≡ (if bytes_eq outer.now o && bytes_eq name n then Some value else inner_at o n table.old.entries)) }
{
    let old = replace(table, outer, IndexMap::new(alloc))?;
    let values = with_value(alloc, old, name, value)?;
    replace(table, outer, values)?;
    Ok(())
}

// Puts the values of a name in place of the old ones, which are given back.
fn replace<V: Drop>(
    table: &mut Nested<V>,
    outer: &Name,
    values: IndexMap<Name, V>,
) -> Result<Option<IndexMap<Name, V>>, NoMemory>
    ensures old { IfOk result (λ old. old ≡ get bytes_eq table.old outer.now) }
    ensures new { OnOk result ((o : List ℕ) → get bytes_eq table.new o ≡ (if bytes_eq outer.now o then Some values else get bytes_eq table.old o)) }
{
    let old = table.insert(outer.copied()?, values)?;
    Ok(old)
}

// The values with one more, a new table where there was none.
fn with_value<V: Drop>(
    alloc: Global,
    old: Option<IndexMap<Name, V>>,
    name: Name,
    value: V,
) -> Result<IndexMap<Name, V>, NoMemory>
    ensures { IfOk result (λ values. (n : List ℕ) → value_of n values.entries ≡ (if bytes_eq name n then Some value else option_and_then (λ table. value_of n table.entries) old)) }
{
    let mut values = match old {
        Some(values) => values,
        None => IndexMap::new(alloc),
    };
    values.insert(name, value)?;
    Ok(values)
}
