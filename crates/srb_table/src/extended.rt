ghost use Rattle.std.specs.Prelude.{◌≡◌, ℕ, List, [], unwrap_or, OnOk, IfOk, bytes_eq, if◌then◌else◌};
ghost use Rattle.std.specs.List.{fold};
ghost use Rattle.std.specs.Option.{option_or};
ghost use Rattle.indexmap.specs.IndexMap.{get};
ghost use Rattle.srb_table.specs.Steps.{entry_after, extended_entry};

use crate::extends::Extends;
use crate::lins::put;
use indexmap::IndexMap;
use srb_summary::Summary;
use srb_terms::{Fact, Kind, Name, Names, NoMemory, World};
use std::alloc::Global;

/// Adds the modules that each class and module extends that is declared by the facts of some files.
pub fn add_extended(
    alloc: Global,
    w: &World,
    extends: &Extends,
    table: &mut IndexMap<Name, Names>,
    files: &[Summary],
) -> Result<(), NoMemory>
    ensures { OnOk result ((c : List ℕ) → get bytes_eq table.new c ≡ fold (fold (entry_after (extended_entry w.now (get bytes_eq extends.now)) c)) (get bytes_eq table.old c) files.now) }
{
    'files: for file in files {
        add_extended_of_file(alloc, w, extends, table, file.facts())?;
    }
    Ok(())
}

/// Adds the modules that each class and module extends that is declared by the facts of a file.
pub fn add_extended_of_file(
    alloc: Global,
    w: &World,
    extends: &Extends,
    table: &mut IndexMap<Name, Names>,
    facts: &[Fact],
) -> Result<(), NoMemory>
    ensures { OnOk result ((c : List ℕ) → get bytes_eq table.new c ≡ fold (entry_after (extended_entry w.now (get bytes_eq extends.now)) c) (get bytes_eq table.old c) facts.now) }
{
    'facts: for fact in facts {
        add_extended_of_fact(alloc, w, extends, table, fact)?;
    }
    Ok(())
}

// Adds the modules of the class or module that a fact declares.
fn add_extended_of_fact(
    alloc: Global,
    w: &World,
    extends: &Extends,
    table: &mut IndexMap<Name, Names>,
    fact: &Fact,
) -> Result<(), NoMemory>
    ensures { OnOk result ((c : List ℕ) → get bytes_eq table.new c ≡ entry_after (extended_entry w.now (get bytes_eq extends.now)) c (get bytes_eq table.old c) fact.now) }
{
    match fact {
        Fact::Scope { name, .. } => add(alloc, w, extends, table, name),
        Fact::Parent { .. } => Ok(()),
        Fact::Value { .. } => Ok(()),
        Fact::Method { .. } => Ok(()),
        Fact::Ivar { .. } => Ok(()),
    }
}

// Adds the modules of a class or module that has none yet.
fn add(
    alloc: Global,
    w: &World,
    extends: &Extends,
    table: &mut IndexMap<Name, Names>,
    name: &Name,
) -> Result<(), NoMemory>
    ensures { OnOk result ((c : List ℕ) → get bytes_eq table.new c ≡ (if bytes_eq name.now c then option_or (get bytes_eq table.old c) (extended_entry w.now (get bytes_eq extends.now) name.now) else get bytes_eq table.old c)) }
{
    if table.contains_key(name) {
        return Ok(());
    }
    match modules(alloc, w, extends, name)? {
        None => Ok(()),
        Some(found) => put(table, name, found),
    }
}

// The modules that a class or module extends.
fn modules(
    alloc: Global,
    w: &World,
    extends: &Extends,
    name: &Name,
) -> Result<Option<Names>, NoMemory>
    ensures { IfOk result (λ names. names ≡ extended_entry w.now (get bytes_eq extends.now) name.now) }
{
    match w.kind(name) {
        Some(Kind::Class) => Ok(Some(listed(alloc, extends, name)?)),
        Some(Kind::Module) => Ok(Some(listed(alloc, extends, name)?)),
        Some(Kind::Value) => Ok(None),
        None => Ok(None),
    }
}

fn listed(alloc: Global, extends: &Extends, name: &Name) -> Result<Names, NoMemory>
    ensures { IfOk result (λ names. names ≡ unwrap_or (get bytes_eq extends.now name.now) []) }
{
    match extends.get(name) {
        Some(found) => names_of(alloc, found.as_slice()),
        None => Ok(Names::new()),
    }
}

// Names as a list that shares its tails.
fn names_of(alloc: Global, items: &[Name]) -> Result<Names, NoMemory>
    ensures { IfOk result (λ names. names ≡ items.now) }
{
    let mut names = Names::new();
    let mut rest = items;
    while let Some((last, front)) = rest.split_last() {
        names = names.pushed(alloc, last.copied()?)?;
        rest = front;
    }
    Ok(names)
}
