ghost use Rattle.std.specs.Prelude.{◌≡◌, ℕ, List, [], Some, OnOk, IfOk, bytes_eq, if◌then◌else◌};
ghost use Rattle.std.specs.List.{fold};
ghost use Rattle.std.specs.Option.{option_copied, option_or};
ghost use Rattle.indexmap.specs.IndexMap.{get};
ghost use Rattle.srb_rules.specs.FullNames.{BASIC_OBJECT, OBJECT};
ghost use Rattle.srb_table.specs.Steps.{entry_after, super_entry};

use crate::deciding::{Deciding, put};
use indexmap::IndexMap;
use srb_summary::Summary;
use srb_terms::{Fact, Kind, Name, NoMemory, World};

/// Adds the superclass of each class that is declared by the facts of some files.
pub fn add_superclasses(
    w: &World,
    deciding: &Deciding,
    object: &Name,
    table: &mut IndexMap<Name, Name>,
    files: &[Summary],
) -> Result<(), NoMemory>
    requires { object.now ≡ OBJECT }
    ensures { OnOk result ((c : List ℕ) → get bytes_eq table.new c ≡ fold (fold (entry_after (super_entry w.now (get bytes_eq deciding.now)) c)) (get bytes_eq table.old c) files.now) }
{
    'files: for file in files {
        add_superclasses_of_file(w, deciding, object, table, file.facts())?;
    }
    Ok(())
}

/// Adds the superclass of each class that is declared by the facts of a file.
pub fn add_superclasses_of_file(
    w: &World,
    deciding: &Deciding,
    object: &Name,
    table: &mut IndexMap<Name, Name>,
    facts: &[Fact],
) -> Result<(), NoMemory>
    requires { object.now ≡ OBJECT }
    ensures { OnOk result ((c : List ℕ) → get bytes_eq table.new c ≡ fold (entry_after (super_entry w.now (get bytes_eq deciding.now)) c) (get bytes_eq table.old c) facts.now) }
{
    'facts: for fact in facts {
        add_superclasses_of_fact(w, deciding, object, table, fact)?;
    }
    Ok(())
}

// Adds the superclass of the class that a fact declares.
fn add_superclasses_of_fact(
    w: &World,
    deciding: &Deciding,
    object: &Name,
    table: &mut IndexMap<Name, Name>,
    fact: &Fact,
) -> Result<(), NoMemory>
    requires { object.now ≡ OBJECT }
    ensures { OnOk result ((c : List ℕ) → get bytes_eq table.new c ≡ entry_after (super_entry w.now (get bytes_eq deciding.now)) c (get bytes_eq table.old c) fact.now) }
{
    match fact {
        Fact::Scope { name, .. } => add(w, deciding, object, table, name),
        Fact::Parent { .. } => Ok(()),
        Fact::Value { .. } => Ok(()),
        Fact::Method { .. } => Ok(()),
        Fact::Ivar { .. } => Ok(()),
    }
}

// Adds the superclass of a class that has none yet.
fn add(
    w: &World,
    deciding: &Deciding,
    object: &Name,
    table: &mut IndexMap<Name, Name>,
    name: &Name,
) -> Result<(), NoMemory>
    requires { object.now ≡ OBJECT }
    ensures { OnOk result ((c : List ℕ) → get bytes_eq table.new c ≡ (if bytes_eq name.now c then option_or (get bytes_eq table.old c) (super_entry w.now (get bytes_eq deciding.now) name.now) else get bytes_eq table.old c)) }
{
    if table.contains_key(name) {
        return Ok(());
    }
    match superclass(w, deciding, object, name) {
        None => Ok(()),
        Some(found) => put(table, name, found),
    }
}

// The superclass of a class.
fn superclass<'a>(
    w: &World,
    deciding: &'a Deciding,
    object: &'a Name,
    name: &Name,
) -> Option<&'a Name>
    requires { object.now ≡ OBJECT }
    ensures { option_copied result ≡ super_entry w.now (get bytes_eq deciding.now) name.now }
{
    match w.kind(name) {
        Some(Kind::Class) => {
            if is_basic_object(name) {
                None
            } else {
                match deciding.get(name) {
                    None => Some(object),
                    Some(found) => Some(found),
                }
            }
        }
        Some(Kind::Module) => None,
        Some(Kind::Value) => None,
        None => None,
    }
}

fn is_basic_object(name: &Name) -> bool
    ensures { result ≡ bytes_eq name.now BASIC_OBJECT }
{
    name.as_str() == "BasicObject"
}
