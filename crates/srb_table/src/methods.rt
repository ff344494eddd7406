ghost use Rattle.std.specs.Prelude.{◌≡◌, ℕ, List, OnOk, IfOk, map};
ghost use Rattle.std.specs.List.{fold};
ghost use Rattle.srb_sig.specs.Views.{view_at};
ghost use Rattle.srb_table.specs.Members as spec;
ghost use Rattle.srb_table.specs.Steps.{method_after};
ghost use Rattle.srb_terms.specs.Worlds.{inner_at};

use crate::nested::{Nested, put};
use srb_sig::{SigEnd, SigRead, read_sig};
use srb_summary::Summary;
use srb_terms::{
    Fact, Items, Method, Name, Names, NoMemory, Param, ParamShape, Shapes, SigText, Ty, World,
};
use std::alloc::{AllocError, Global};

/// Adds the methods of instances, or those of class objects, that the facts of some files declare.
pub fn add_methods(
    alloc: Global,
    w: &World,
    meta: bool,
    table: &mut Nested<Method>,
    files: &[Summary],
) -> Result<(), NoMemory>
    ensures { OnOk result ((owner name : List ℕ) → inner_at owner name table.new.entries ≡ fold (fold (method_after (view_at w.now) meta owner name)) (inner_at owner name table.old.entries) files.now) }
{
    'files: for file in files {
        add_methods_of_file(alloc, w, meta, table, file.facts())?;
    }
    Ok(())
}

/// Adds the methods of instances, or those of class objects, that the facts of a file declare.
pub fn add_methods_of_file(
    alloc: Global,
    w: &World,
    meta: bool,
    table: &mut Nested<Method>,
    facts: &[Fact],
) -> Result<(), NoMemory>
    ensures { OnOk result ((owner name : List ℕ) → inner_at owner name table.new.entries ≡ fold (method_after (view_at w.now) meta owner name) (inner_at owner name table.old.entries) facts.now) }
{
    'facts: for fact in facts {
        add_method_of_fact(alloc, w, meta, table, fact)?;
    }
    Ok(())
}

// Adds the method that a fact declares, in place of one that was declared before.
fn add_method_of_fact(
    alloc: Global,
    w: &World,
    meta: bool,
    table: &mut Nested<Method>,
    fact: &Fact,
) -> Result<(), NoMemory>
    ensures { OnOk result ((owner name : List ℕ) → inner_at owner name table.new.entries ≡ method_after (view_at w.now) meta owner name (inner_at owner name table.old.entries) fact.now) }
{
    match fact {
        Fact::Method {
            owner,
            scope,
            meta: object,
            name,
            params,
            sig,
        } => {
            if *object == meta {
                let method = given(alloc, w, owner, scope, name, params, sig)?;
                put(alloc, table, owner, name.copied()?, method)
            } else {
                Ok(())
            }
        }
        Fact::Scope { .. } => Ok(()),
        Fact::Parent { .. } => Ok(()),
        Fact::Value { .. } => Ok(()),
        Fact::Ivar { .. } => Ok(()),
    }
}

// The method that a declaration gives. A malformed signature gives no types.
fn given(
    alloc: Global,
    w: &World,
    owner: &Name,
    scope: &Names,
    name: &Name,
    params: &Shapes,
    sig: &Option<SigText>,
) -> Result<Method, NoMemory>
    ensures { IfOk result (λ m. m ≡ spec.method_given (view_at w.now) owner.now scope.now name.now params.now sig.now) }
{
    match sig {
        None => untyped(alloc, owner, name, params.as_slice()),
        Some(sig) => match read_sig(alloc, w, scope, params, sig) {
            Ok(read) => typed(owner, name, read),
            Err(SigEnd::Malformed) => untyped(alloc, owner, name, params.as_slice()),
            Err(SigEnd::NoMemory) => Err(AllocError),
        },
    }
}

// A method with the types of its signature.
fn typed(owner: &Name, name: &Name, read: SigRead) -> Result<Method, NoMemory>
    ensures { IfOk result (λ m. m ≡ spec.typed_method owner.now name.now read) }
{
    let SigRead { params, result, .. } = read;
    Ok(Method {
        owner: owner.copied()?,
        name: name.copied()?,
        params,
        result,
        typed: true,
    })
}

// A method without types.
fn untyped(
    alloc: Global,
    owner: &Name,
    name: &Name,
    shapes: &[ParamShape],
) -> Result<Method, NoMemory>
    ensures { IfOk result (λ m. m ≡ spec.untyped_method owner.now name.now shapes.now) }
{
    let params = untyped_params(alloc, shapes)?;
    Ok(Method {
        owner: owner.copied()?,
        name: name.copied()?,
        params,
        result: Ty::Untyped,
        typed: false,
    })
}

// The parameters of a method without types.
fn untyped_params(alloc: Global, shapes: &[ParamShape]) -> Result<Items<Param>, NoMemory>
    ensures { IfOk result (λ ps. ps ≡ map spec.untyped_param shapes.now) }
{
    let mut params = Items::new(alloc);
    'shapes: for shape in shapes {
        params.push(untyped_param(shape)?)?;
    }
    Ok(params)
}

fn untyped_param(shape: &ParamShape) -> Result<Param, NoMemory>
    ensures { IfOk result (λ p. p ≡ spec.untyped_param shape.now) }
{
    Ok(Param {
        name: shape.name.copied()?,
        kind: shape.kind,
        ty: Ty::Untyped,
    })
}
