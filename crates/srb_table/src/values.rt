ghost use Rattle.std.specs.Prelude.{◌≡◌, ℕ, List, Some, OnOk, IfOk, bytes_eq, if◌then◌else◌};
ghost use Rattle.std.specs.List.{fold};
ghost use Rattle.indexmap.specs.IndexMap.{get};
ghost use Rattle.srb_rules.specs.Values.{given_type, is_value};
ghost use Rattle.srb_sig.specs.Views.{view_at};
ghost use Rattle.srb_terms.specs.Worlds.{kind_at};
ghost use Rattle.srb_table.specs.Members.{reads_by};
ghost use Rattle.srb_table.specs.Steps.{value_after};

use indexmap::IndexMap;
use srb_sig::type_or_untyped;
use srb_summary::Summary;
use srb_terms::{Fact, Given, Kind, Name, Names, NoMemory, Ty, World};
use std::alloc::Global;

/// Adds the types of value constants by the facts of some files.
pub fn add_values(
    alloc: Global,
    w: &World,
    table: &mut IndexMap<Name, Ty>,
    files: &[Summary],
) -> Result<(), NoMemory>
    ensures { OnOk result ((c : List ℕ) → get bytes_eq table.new c ≡ fold (fold (value_after w.now c)) (get bytes_eq table.old c) files.now) }
{
    'files: for file in files {
        add_values_of_file(alloc, w, table, file.facts())?;
    }
    Ok(())
}

/// Adds the types of value constants by the facts of a file.
pub fn add_values_of_file(
    alloc: Global,
    w: &World,
    table: &mut IndexMap<Name, Ty>,
    facts: &[Fact],
) -> Result<(), NoMemory>
    ensures { OnOk result ((c : List ℕ) → get bytes_eq table.new c ≡ fold (value_after w.now c) (get bytes_eq table.old c) facts.now) }
{
    'facts: for fact in facts {
        add_values_of_fact(alloc, w, table, fact)?;
    }
    Ok(())
}

// Adds the type that a fact gives.
fn add_values_of_fact(
    alloc: Global,
    w: &World,
    table: &mut IndexMap<Name, Ty>,
    fact: &Fact,
) -> Result<(), NoMemory>
    ensures { OnOk result ((c : List ℕ) → get bytes_eq table.new c ≡ value_after w.now c (get bytes_eq table.old c) fact.now) }
{
    match fact {
        Fact::Value { name, scope, given } => add(alloc, w, table, name, scope, given),
        Fact::Scope { .. } => Ok(()),
        Fact::Parent { .. } => Ok(()),
        Fact::Method { .. } => Ok(()),
        Fact::Ivar { .. } => Ok(()),
    }
}

// Adds the type of a constant assignment, unless the name is that of a class or module.
fn add(
    alloc: Global,
    w: &World,
    table: &mut IndexMap<Name, Ty>,
    name: &Name,
    scope: &Names,
    given: &Given,
) -> Result<(), NoMemory>
    ensures { OnOk result ((c : List ℕ) → get bytes_eq table.new c ≡ (if bytes_eq name.now c then (if is_value (kind_at w.now name.now) then Some (given_type (reads_by (view_at w.now)) scope.now given.now) else get bytes_eq table.old c) else get bytes_eq table.old c)) }
{
    match w.kind(name) {
        Some(Kind::Value) => put(table, name, type_of(alloc, w, scope, given)?),
        Some(Kind::Class) => Ok(()),
        Some(Kind::Module) => Ok(()),
        None => Ok(()),
    }
}

fn put(table: &mut IndexMap<Name, Ty>, name: &Name, ty: Ty) -> Result<(), NoMemory>
    ensures { OnOk result ((c : List ℕ) → get bytes_eq table.new c ≡ (if bytes_eq name.now c then Some ty else get bytes_eq table.old c)) }
{
    table.insert(name.copied()?, ty)?;
    Ok(())
}

// The type that an assignment gives.
fn type_of(alloc: Global, w: &World, scope: &Names, given: &Given) -> Result<Ty, NoMemory>
    ensures { IfOk result (λ t. t ≡ given_type (reads_by (view_at w.now)) scope.now given.now) }
{
    match given {
        Given::Literal(class) => Ok(Ty::Class(class.copied()?)),
        Given::Typed(text) => type_or_untyped(alloc, w, scope, text),
        Given::Unknown => Ok(Ty::Untyped),
    }
}
