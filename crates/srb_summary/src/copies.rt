//! Copies of facts. They share the long names in them.

ghost use Rattle.std.specs.Prelude.{◌≡◌, IfOk};

use srb_terms::{Fact, Given, Items, Label, NoMemory, Outline, ParamShape, SigText, TyText};
use std::alloc::Global;

/// A copy of an outline. Its depth bounds the recursion.
#[cycle(copies)]
#[tactic(auto, using(crate::proofs::Outlines::made_again))]
fn copied_outline(alloc: Global, outline: &Outline) -> Result<Outline, NoMemory>
    ensures { IfOk result (λ o. o ≡ outline.now) }
{
    Ok(Outline {
        label: Label {
            kind: outline.label.kind,
            words: outline.label.words.copied()?,
        },
        parts: copied_outlines(alloc, outline.parts.as_slice())?,
    })
}

/// Copies of outlines.
#[cycle(copies)]
fn copied_outlines(alloc: Global, outlines: &[Outline]) -> Result<Items<Outline>, NoMemory>
    ensures { IfOk result (λ os. os ≡ outlines.now) }
{
    let mut copies = Vec::with_capacity(alloc, outlines.len())?;
    'outlines: for outline in outlines {
        copies.push(copied_outline(alloc, outline)?)?;
    }
    Ok(Items::from_vec(copies))
}

/// A copy of a type's text.
fn copied_type(alloc: Global, text: &TyText) -> Result<TyText, NoMemory>
    ensures { IfOk result (λ t. t ≡ text.now) }
{
    Ok(TyText {
        tree: copied_outline(alloc, &text.tree)?,
    })
}

/// A copy of a signature's text, if there is one.
fn copied_sig(alloc: Global, text: &Option<SigText>) -> Result<Option<SigText>, NoMemory>
    ensures { IfOk result (λ t. t ≡ text.now) }
{
    match text {
        None => Ok(None),
        Some(text) => Ok(Some(SigText {
            tree: copied_outline(alloc, &text.tree)?,
        })),
    }
}

/// A copy of what is told of a constant's type.
fn copied_given(alloc: Global, given: &Given) -> Result<Given, NoMemory>
    ensures { IfOk result (λ g. g ≡ given.now) }
{
    match given {
        Given::Literal(class) => Ok(Given::Literal(class.copied()?)),
        Given::Typed(text) => Ok(Given::Typed(copied_type(alloc, text)?)),
        Given::Unknown => Ok(Given::Unknown),
    }
}

/// A copy of a parameter. It takes no memory.
fn copied_shape(shape: &ParamShape) -> Result<ParamShape, NoMemory>
    ensures { IfOk result (λ s. s ≡ shape.now) }
{
    Ok(ParamShape {
        name: shape.name.copied()?,
        kind: shape.kind,
    })
}

/// A copy of parameters.
fn copied_shapes(alloc: Global, shapes: &[ParamShape]) -> Result<Items<ParamShape>, NoMemory>
    ensures { IfOk result (λ copies. copies ≡ shapes.now) }
{
    let mut copies = Items::new(alloc);
    'shapes: for shape in shapes {
        copies.push(copied_shape(shape)?)?;
    }
    Ok(copies)
}

/// A copy of a fact.
fn copied_fact(alloc: Global, fact: &Fact) -> Result<Fact, NoMemory>
    ensures { IfOk result (λ f. f ≡ fact.now) }
{
    match fact {
        Fact::Scope { name, kind } => Ok(Fact::Scope {
            name: name.copied()?,
            kind: *kind,
        }),
        Fact::Parent { of, scope, to, how } => Ok(Fact::Parent {
            of: of.copied()?,
            scope: scope.copied()?,
            to: to.copied()?,
            how: *how,
        }),
        Fact::Value { name, scope, given } => Ok(Fact::Value {
            name: name.copied()?,
            scope: scope.copied()?,
            given: copied_given(alloc, given)?,
        }),
        Fact::Method {
            owner,
            scope,
            meta,
            name,
            params,
            sig,
        } => Ok(Fact::Method {
            owner: owner.copied()?,
            scope: scope.copied()?,
            meta: *meta,
            name: name.copied()?,
            params: copied_shapes(alloc, params.as_slice())?,
            sig: copied_sig(alloc, sig)?,
        }),
        Fact::Ivar {
            owner,
            scope,
            meta,
            name,
            given,
        } => Ok(Fact::Ivar {
            owner: owner.copied()?,
            scope: scope.copied()?,
            meta: *meta,
            name: name.copied()?,
            given: copied_type(alloc, given)?,
        }),
    }
}

/// A copy of facts.
pub fn copied_facts(alloc: Global, facts: &[Fact]) -> Result<Items<Fact>, NoMemory>
    ensures { IfOk result (λ copies. copies ≡ facts.now) }
{
    let mut copies = Items::new(alloc);
    'facts: for fact in facts {
        copies.push(copied_fact(alloc, fact)?)?;
    }
    Ok(copies)
}
