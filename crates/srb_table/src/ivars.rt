ghost use Rattle.std.specs.Prelude.{◌≡◌, ℕ, List, OnOk};
ghost use Rattle.std.specs.List.{fold};
ghost use Rattle.srb_sig.specs.Views.{view_at};
ghost use Rattle.srb_table.specs.Steps.{ivar_after};
ghost use Rattle.srb_terms.specs.Worlds.{inner_at};

use crate::nested::{Nested, put};
use srb_sig::type_or_untyped;
use srb_summary::Summary;
use srb_terms::{Fact, NoMemory, Ty, World};
use std::alloc::Global;

/// Adds the types of the instance variables of instances, or of those of class objects, that the facts of some files declare.
pub fn add_ivars(
    alloc: Global,
    w: &World,
    meta: bool,
    table: &mut Nested<Ty>,
    files: &[Summary],
) -> Result<(), NoMemory>
    ensures { OnOk result ((owner name : List ℕ) → inner_at owner name table.new.entries ≡ fold (fold (ivar_after (view_at w.now) meta owner name)) (inner_at owner name table.old.entries) files.now) }
{
    'files: for file in files {
        add_ivars_of_file(alloc, w, meta, table, file.facts())?;
    }
    Ok(())
}

/// Adds the types of the instance variables of instances, or of those of class objects, that the facts of a file declare.
pub fn add_ivars_of_file(
    alloc: Global,
    w: &World,
    meta: bool,
    table: &mut Nested<Ty>,
    facts: &[Fact],
) -> Result<(), NoMemory>
    ensures { OnOk result ((owner name : List ℕ) → inner_at owner name table.new.entries ≡ fold (ivar_after (view_at w.now) meta owner name) (inner_at owner name table.old.entries) facts.now) }
{
    'facts: for fact in facts {
        add_ivar_of_fact(alloc, w, meta, table, fact)?;
    }
    Ok(())
}

// Adds the type of the instance variable that a fact declares, in place of one that was declared before.
fn add_ivar_of_fact(
    alloc: Global,
    w: &World,
    meta: bool,
    table: &mut Nested<Ty>,
    fact: &Fact,
) -> Result<(), NoMemory>
    ensures { OnOk result ((owner name : List ℕ) → inner_at owner name table.new.entries ≡ ivar_after (view_at w.now) meta owner name (inner_at owner name table.old.entries) fact.now) }
{
    match fact {
        Fact::Ivar {
            owner,
            scope,
            meta: object,
            name,
            given,
        } => {
            if *object == meta {
                let ty = type_or_untyped(alloc, w, scope, given)?;
                put(alloc, table, owner, name.copied()?, ty)
            } else {
                Ok(())
            }
        }
        Fact::Scope { .. } => Ok(()),
        Fact::Parent { .. } => Ok(()),
        Fact::Value { .. } => Ok(()),
        Fact::Method { .. } => Ok(()),
    }
}
