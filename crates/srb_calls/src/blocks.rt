//! The types of a block's parameters.

ghost use Rattle.std.specs.Prelude.{◌≡◌, [], replicate, IfOk};
ghost use Rattle.srb_terms.specs.declared.ty.Ty.TheVariants as ty;
ghost use Rattle.srb_shapes.specs.Lineages.{lineage_at};
ghost use Rattle.srb_calls.specs.Blocks as spec;

use crate::args::{Arg, GivenBlock};
use crate::letters::{is_letter, put_in};
use srb_terms::{Items, NoMemory, Param, ParamKind, Ty, World};
use srb_types::any;
use std::alloc::Global;

fn is_never(t: &Ty) -> bool
    ensures { result ≡ spec.is_never t.now }
{
    match t {
        Ty::Never => true,
        _ => false,
    }
}

/// `T.any` of two types.
#[tactic(auto, unfolding(crate::specs::Blocks::either))]
pub(crate) fn either(alloc: Global, w: &World, a: Ty, b: Ty) -> Result<Ty, NoMemory>
    ensures { IfOk result (λ t. t ≡ spec.either (lineage_at w.now) a b) }
{
    if is_never(&a) {
        return Ok(b);
    }
    if is_never(&b) {
        return Ok(a);
    }
    any(alloc, w, &a, &b)
}

/// The number of names of a block.
pub(crate) fn names(block: &Option<GivenBlock>) -> u32
    ensures { result ≡ spec.names_of block.now }
{
    match block {
        None => 0,
        Some(given) => given.names,
    }
}

/// The type that a block answers.
pub(crate) fn block_type(block: &Option<GivenBlock>) -> Result<Ty, NoMemory>
    ensures { IfOk result (λ t. t ≡ spec.block_type block.now) }
{
    match block {
        None => Ok(Ty::Untyped),
        Some(given) => given.ty.copied(),
    }
}

fn is_block(kind: ParamKind) -> bool
    ensures { result ≡ spec.is_block kind }
{
    match kind {
        ParamKind::Required => false,
        ParamKind::Optional => false,
        ParamKind::Key => false,
        ParamKind::KeyOptional => false,
        ParamKind::Block => true,
        ParamKind::Rest => false,
    }
}

// Whether the parameter is one of a block that a built-in method gives.
fn is_given(p: &Param) -> bool
    ensures { result ≡ spec.is_given p.now }
{
    is_block(p.kind) && is_letter(&p.name)
}

// Some types with that of a parameter, if it is given to a block.
fn with_given(
    alloc: Global,
    w: &World,
    part: &Ty,
    positional: &[Arg],
    given: Items<Ty>,
    p: &Param,
) -> Result<Items<Ty>, NoMemory>
    ensures { IfOk result (λ ts. ts ≡ spec.with_given (lineage_at w.now) part.now positional.now given p.now) }
{
    let mut given = given;
    if is_given(p) {
        given.push(put_in(alloc, w, &p.ty, part, positional, &Ty::Untyped)?)?;
    }
    Ok(given)
}

/// The types that a method with these parameters gives to its block.
pub(crate) fn gives(
    alloc: Global,
    w: &World,
    part: &Ty,
    positional: &[Arg],
    params: &[Param],
) -> Result<Items<Ty>, NoMemory>
    ensures { IfOk result (λ ts. ts ≡ spec.gives (lineage_at w.now) part.now positional.now [] params.now) }
{
    let mut given = Items::new(alloc);
    'params: for p in params {
        given = with_given(alloc, w, part, positional, given, p)?;
    }
    Ok(given)
}

// So often `T.untyped`.
fn untyped(alloc: Global, names: u32) -> Result<Items<Ty>, NoMemory>
    ensures { IfOk result (λ ts. ts ≡ replicate names ty.Untyped) }
{
    let mut types = Items::new(alloc);
    'names: for index in 0..names {
        types.push(Ty::Untyped)?;
    }
    Ok(types)
}

/// So often `T.noreturn`.
pub(crate) fn never(alloc: Global, names: u32) -> Result<Items<Ty>, NoMemory>
    ensures { IfOk result (λ ts. ts ≡ replicate names ty.Never) }
{
    let mut types = Items::new(alloc);
    'names: for index in 0..names {
        types.push(Ty::Never)?;
    }
    Ok(types)
}

/// The types of a block's names, of which there are so many.
#[tactic(auto, unfolding(crate::specs::Blocks::named))]
pub(crate) fn named(alloc: Global, names: u32, given: Items<Ty>) -> Result<Items<Ty>, NoMemory>
    ensures { IfOk result (λ ts. ts ≡ spec.named names given) }
{
    let count = names as usize;
    if given.len() < count {
        untyped(alloc, names)
    } else {
        let mut given = given;
        given.truncate(count);
        Ok(given)
    }
}

/// `T.any` for each name.
pub(crate) fn each_either(
    alloc: Global,
    w: &World,
    a: &[Ty],
    b: &[Ty],
) -> Result<Items<Ty>, NoMemory>
    ensures { IfOk result (λ ts. ts ≡ spec.each_either (lineage_at w.now) [] a.now b.now) }
{
    let mut joined = Items::new(alloc);
    let mut rest = b;
    'types: for t in a {
        match rest {
            [] => {
                return Ok(joined);
            }
            [u, more @ ..] => {
                joined.push(either(alloc, w, t.copied()?, u.copied()?)?)?;
                rest = more;
            }
        }
    }
    Ok(joined)
}
