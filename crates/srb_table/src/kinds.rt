ghost use Rattle.std.specs.Prelude.{◌≡◌, ℕ, List, Some, OnOk, bytes_eq, if◌then◌else◌};
ghost use Rattle.srb_terms.specs.declared.fact.Kind.TheVariants as variant;
ghost use Rattle.std.specs.List.{fold};
ghost use Rattle.std.specs.Option.{option_or};
ghost use Rattle.indexmap.specs.IndexMap.{get};
ghost use Rattle.srb_table.specs.Steps.{kind_after, with_body};

use indexmap::IndexMap;
use srb_summary::Summary;
use srb_terms::{Fact, Kind, Name, NoMemory};

/// The kinds of names.
pub type Kinds = IndexMap<Name, Kind>;

/// Adds the names that the facts of some files declare.
pub fn add_kinds(kinds: &mut Kinds, files: &[Summary]) -> Result<(), NoMemory>
    ensures { OnOk result ((c : List ℕ) → get bytes_eq kinds.new c ≡ fold (fold (kind_after c)) (get bytes_eq kinds.old c) files.now) }
{
    'files: for file in files {
        add_kinds_of_file(kinds, file.facts())?;
    }
    Ok(())
}

/// Adds the names that the facts of a file declare.
pub fn add_kinds_of_file(kinds: &mut Kinds, facts: &[Fact]) -> Result<(), NoMemory>
    ensures { OnOk result ((c : List ℕ) → get bytes_eq kinds.new c ≡ fold (kind_after c) (get bytes_eq kinds.old c) facts.now) }
{
    'facts: for fact in facts {
        add_kind(kinds, fact)?;
    }
    Ok(())
}

// Adds the name that a fact declares.
fn add_kind(kinds: &mut Kinds, fact: &Fact) -> Result<(), NoMemory>
    ensures { OnOk result ((c : List ℕ) → get bytes_eq kinds.new c ≡ kind_after c (get bytes_eq kinds.old c) fact.now) }
{
    match fact {
        Fact::Scope { name, kind } => match kind {
            Kind::Class => add_body(kinds, name, Kind::Class),
            Kind::Module => add_body(kinds, name, Kind::Module),
            Kind::Value => Ok(()),
        },
        Fact::Value { name, .. } => add_value(kinds, name),
        Fact::Parent { .. } => Ok(()),
        Fact::Method { .. } => Ok(()),
        Fact::Ivar { .. } => Ok(()),
    }
}

// Adds the name of a class or module, whose first declaration counts.
fn add_body(kinds: &mut Kinds, name: &Name, new: Kind) -> Result<(), NoMemory>
    ensures { OnOk result ((c : List ℕ) → get bytes_eq kinds.new c ≡ (if bytes_eq name.now c then with_body new (get bytes_eq kinds.old c) else get bytes_eq kinds.old c)) }
{
    match kinds.get(name) {
        Some(Kind::Class) => Ok(()),
        Some(Kind::Module) => Ok(()),
        Some(Kind::Value) => put(kinds, name, new),
        None => put(kinds, name, new),
    }
}

// Adds the name of a value constant, where it is new.
fn add_value(kinds: &mut Kinds, name: &Name) -> Result<(), NoMemory>
    ensures { OnOk result ((c : List ℕ) → get bytes_eq kinds.new c ≡ (if bytes_eq name.now c then option_or (get bytes_eq kinds.old c) (Some variant.Value) else get bytes_eq kinds.old c)) }
{
    if kinds.contains_key(name) {
        Ok(())
    } else {
        put(kinds, name, Kind::Value)
    }
}

fn put(kinds: &mut Kinds, name: &Name, new: Kind) -> Result<(), NoMemory>
    ensures { OnOk result ((c : List ℕ) → get bytes_eq kinds.new c ≡ (if bytes_eq name.now c then Some new else get bytes_eq kinds.old c)) }
{
    kinds.insert(name.copied()?, new)?;
    Ok(())
}
