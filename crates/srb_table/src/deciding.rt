ghost use Rattle.std.specs.Prelude.{◌≡◌, ℕ, List, [], Some, OnOk, IfOk, bytes_eq, if◌then◌else◌};
ghost use Rattle.std.specs.List.{fold};
ghost use Rattle.std.specs.Option.{option_copied, option_or};
ghost use Rattle.indexmap.specs.IndexMap.{get};
ghost use Rattle.srb_table.specs.Steps.{deciding_after, inherited_at};

use crate::references::inherited;
use indexmap::IndexMap;
use srb_summary::Summary;
use srb_terms::{Fact, How, Name, Names, NoMemory, Path, World};

/// The superclasses that are written.
pub type Deciding = IndexMap<Name, Name>;

/// Adds the superclasses that are written, the first one of each class, by the facts of some files.
pub fn add_deciding(w: &World, table: &mut Deciding, files: &[Summary]) -> Result<(), NoMemory>
    ensures { OnOk result ((c : List ℕ) → get bytes_eq table.new c ≡ fold (fold (deciding_after (inherited_at w.now) c)) (get bytes_eq table.old c) files.now) }
{
    'files: for file in files {
        add_deciding_of_file(w, table, file.facts())?;
    }
    Ok(())
}

/// Adds the superclasses that are written, the first one of each class, by the facts of a file.
pub fn add_deciding_of_file(w: &World, table: &mut Deciding, facts: &[Fact]) -> Result<(), NoMemory>
    ensures { OnOk result ((c : List ℕ) → get bytes_eq table.new c ≡ fold (deciding_after (inherited_at w.now) c) (get bytes_eq table.old c) facts.now) }
{
    'facts: for fact in facts {
        add_deciding_of_fact(w, table, fact)?;
    }
    Ok(())
}

// Adds the superclass that a fact gives.
fn add_deciding_of_fact(w: &World, table: &mut Deciding, fact: &Fact) -> Result<(), NoMemory>
    ensures { OnOk result ((c : List ℕ) → get bytes_eq table.new c ≡ deciding_after (inherited_at w.now) c (get bytes_eq table.old c) fact.now) }
{
    match fact {
        Fact::Parent { of, scope, to, how } => match how {
            How::Super => decide(w, table, of, scope, to),
            How::Include => Ok(()),
            How::Extend => Ok(()),
        },
        Fact::Scope { .. } => Ok(()),
        Fact::Value { .. } => Ok(()),
        Fact::Method { .. } => Ok(()),
        Fact::Ivar { .. } => Ok(()),
    }
}

// Adds the superclass of a class that has none yet.
fn decide(
    w: &World,
    table: &mut Deciding,
    of: &Name,
    scope: &Names,
    path: &Path,
) -> Result<(), NoMemory>
    ensures { OnOk result ((c : List ℕ) → get bytes_eq table.new c ≡ (if bytes_eq of.now c then option_or (get bytes_eq table.old c) (inherited_at w.now scope.now path.now) else get bytes_eq table.old c)) }
{
    if table.contains_key(of) {
        return Ok(());
    }
    match inherited(w, scope, path) {
        None => Ok(()),
        Some(found) => put(table, of, found),
    }
}

// Puts a name into a table of names.
pub fn put(table: &mut IndexMap<Name, Name>, of: &Name, to: &Name) -> Result<(), NoMemory>
    ensures { OnOk result ((c : List ℕ) → get bytes_eq table.new c ≡ (if bytes_eq of.now c then Some to.now else get bytes_eq table.old c)) }
{
    table.insert(of.copied()?, to.copied()?)?;
    Ok(())
}
