ghost use Rattle.std.specs.Prelude.{◌≡◌, ℕ, List, [], Some, OnOk, IfOk, bytes_eq, if◌then◌else◌};
ghost use Rattle.std.specs.List.{fold};
ghost use Rattle.std.specs.Option.{option_copied};
ghost use Rattle.indexmap.specs.IndexMap.{get};
ghost use Rattle.srb_table.specs.Steps.{extended_after, listed, mixed_at};

use crate::references::mixed;
use indexmap::IndexMap;
use srb_summary::Summary;
use srb_terms::{Fact, How, Items, Name, Names, NoMemory, Path, World};
use std::alloc::Global;

/// The modules that classes and modules extend, the first one first.
pub type Extends = IndexMap<Name, Items<Name>>;

/// Adds the modules that are extended, in their order, by the facts of some files.
pub fn add_extends(
    alloc: Global,
    w: &World,
    table: &mut Extends,
    files: &[Summary],
) -> Result<(), NoMemory>
    ensures { OnOk result ((c : List ℕ) → get bytes_eq table.new c ≡ fold (fold (extended_after (mixed_at w.now) c)) (get bytes_eq table.old c) files.now) }
{
    'files: for file in files {
        add_extends_of_file(alloc, w, table, file.facts())?;
    }
    Ok(())
}

/// Adds the modules that are extended, in their order, by the facts of a file.
pub fn add_extends_of_file(
    alloc: Global,
    w: &World,
    table: &mut Extends,
    facts: &[Fact],
) -> Result<(), NoMemory>
    ensures { OnOk result ((c : List ℕ) → get bytes_eq table.new c ≡ fold (extended_after (mixed_at w.now) c) (get bytes_eq table.old c) facts.now) }
{
    'facts: for fact in facts {
        add_extends_of_fact(alloc, w, table, fact)?;
    }
    Ok(())
}

// Adds the module of an `extend`.
fn add_extends_of_fact(
    alloc: Global,
    w: &World,
    table: &mut Extends,
    fact: &Fact,
) -> Result<(), NoMemory>
    ensures { OnOk result ((c : List ℕ) → get bytes_eq table.new c ≡ extended_after (mixed_at w.now) c (get bytes_eq table.old c) fact.now) }
{
    match fact {
        Fact::Parent { of, scope, to, how } => match how {
            How::Super => Ok(()),
            How::Include => Ok(()),
            How::Extend => extend(alloc, w, table, of, scope, to),
        },
        Fact::Scope { .. } => Ok(()),
        Fact::Value { .. } => Ok(()),
        Fact::Method { .. } => Ok(()),
        Fact::Ivar { .. } => Ok(()),
    }
}

// Adds the module for which a path stands.
fn extend(
    alloc: Global,
    w: &World,
    table: &mut Extends,
    of: &Name,
    scope: &Names,
    path: &Path,
) -> Result<(), NoMemory>
    ensures { OnOk result ((c : List ℕ) → get bytes_eq table.new c ≡ (if bytes_eq of.now c then listed (get bytes_eq table.old c) (mixed_at w.now scope.now path.now) else get bytes_eq table.old c)) }
{
    match mixed(w, scope, path) {
        None => Ok(()),
        Some(found) => append(alloc, table, of, found),
    }
}

// Adds a name to the list of another.
fn append(alloc: Global, table: &mut Extends, of: &Name, to: &Name) -> Result<(), NoMemory>
    ensures { OnOk result ((c : List ℕ) → get bytes_eq table.new c ≡ (if bytes_eq of.now c then listed (get bytes_eq table.old c) (Some to.now) else get bytes_eq table.old c)) }
{
    let old = table.insert(of.copied()?, Items::new(alloc))?;
    let list = longer(alloc, old, to)?;
    table.insert(of.copied()?, list)?;
    Ok(())
}

// The list with one more name, a new one where there was none.
fn longer(alloc: Global, old: Option<Items<Name>>, to: &Name) -> Result<Items<Name>, NoMemory>
    ensures { IfOk result (λ list. Some list ≡ listed old (Some to.now)) }
{
    let mut list = match old {
        Some(list) => list,
        None => Items::new(alloc),
    };
    list.push(to.copied()?)?;
    Ok(list)
}
