ghost use Rattle.std.specs.Prelude.{◌≡◌, ℕ, List, [], ◌∷◌, Some, unwrap_or, OnOk, IfOk, bytes_eq, if◌then◌else◌};
ghost use Rattle.std.specs.List.{fold};
ghost use Rattle.std.specs.Option.{option_or};
ghost use Rattle.indexmap.specs.IndexMap.{get};
ghost use Rattle.srb_table.specs.Steps.{entry_after, lin_entry};

use indexmap::IndexMap;
use srb_summary::Summary;
use srb_terms::{Fact, Kind, Name, Names, NoMemory, World};
use std::alloc::Global;

/// Adds the linearization of each class and module that is declared by the facts of some files.
pub fn add_lins(
    alloc: Global,
    w: &World,
    lins: &IndexMap<Name, Names>,
    table: &mut IndexMap<Name, Names>,
    files: &[Summary],
) -> Result<(), NoMemory>
    ensures { OnOk result ((c : List ℕ) → get bytes_eq table.new c ≡ fold (fold (entry_after (lin_entry w.now (get bytes_eq lins.now)) c)) (get bytes_eq table.old c) files.now) }
{
    'files: for file in files {
        add_lins_of_file(alloc, w, lins, table, file.facts())?;
    }
    Ok(())
}

/// Adds the linearization of each class and module that is declared by the facts of a file.
pub fn add_lins_of_file(
    alloc: Global,
    w: &World,
    lins: &IndexMap<Name, Names>,
    table: &mut IndexMap<Name, Names>,
    facts: &[Fact],
) -> Result<(), NoMemory>
    ensures { OnOk result ((c : List ℕ) → get bytes_eq table.new c ≡ fold (entry_after (lin_entry w.now (get bytes_eq lins.now)) c) (get bytes_eq table.old c) facts.now) }
{
    'facts: for fact in facts {
        add_lins_of_fact(alloc, w, lins, table, fact)?;
    }
    Ok(())
}

// Adds the linearization of the class or module that a fact declares.
fn add_lins_of_fact(
    alloc: Global,
    w: &World,
    lins: &IndexMap<Name, Names>,
    table: &mut IndexMap<Name, Names>,
    fact: &Fact,
) -> Result<(), NoMemory>
    ensures { OnOk result ((c : List ℕ) → get bytes_eq table.new c ≡ entry_after (lin_entry w.now (get bytes_eq lins.now)) c (get bytes_eq table.old c) fact.now) }
{
    match fact {
        Fact::Scope { name, .. } => add(alloc, w, lins, table, name),
        Fact::Parent { .. } => Ok(()),
        Fact::Value { .. } => Ok(()),
        Fact::Method { .. } => Ok(()),
        Fact::Ivar { .. } => Ok(()),
    }
}

// Adds the linearization of a class or module that has none yet.
fn add(
    alloc: Global,
    w: &World,
    lins: &IndexMap<Name, Names>,
    table: &mut IndexMap<Name, Names>,
    name: &Name,
) -> Result<(), NoMemory>
    ensures { OnOk result ((c : List ℕ) → get bytes_eq table.new c ≡ (if bytes_eq name.now c then option_or (get bytes_eq table.old c) (lin_entry w.now (get bytes_eq lins.now) name.now) else get bytes_eq table.old c)) }
{
    if table.contains_key(name) {
        return Ok(());
    }
    match lin(alloc, w, lins, name)? {
        None => Ok(()),
        Some(found) => put(table, name, found),
    }
}

// Puts a list of names into a table.
pub fn put(table: &mut IndexMap<Name, Names>, name: &Name, list: Names) -> Result<(), NoMemory>
    ensures { OnOk result ((c : List ℕ) → get bytes_eq table.new c ≡ (if bytes_eq name.now c then Some list else get bytes_eq table.old c)) }
{
    table.insert(name.copied()?, list)?;
    Ok(())
}

// The linearization of a class or module. One that has no links stands in it alone.
fn lin(
    alloc: Global,
    w: &World,
    lins: &IndexMap<Name, Names>,
    name: &Name,
) -> Result<Option<Names>, NoMemory>
    ensures { IfOk result (λ lin. lin ≡ lin_entry w.now (get bytes_eq lins.now) name.now) }
{
    match w.kind(name) {
        Some(Kind::Class) => Ok(Some(lin_of(alloc, lins, name)?)),
        Some(Kind::Module) => Ok(Some(lin_of(alloc, lins, name)?)),
        Some(Kind::Value) => Ok(None),
        None => Ok(None),
    }
}

fn lin_of(alloc: Global, lins: &IndexMap<Name, Names>, name: &Name) -> Result<Names, NoMemory>
    ensures { IfOk result (λ lin. lin ≡ unwrap_or (get bytes_eq lins.now name.now) (name.now ∷ [])) }
{
    match lins.get(name) {
        Some(found) => found.copied(),
        None => Names::new().pushed(alloc, name.copied()?),
    }
}
