//! Types by the types that stand in them.

ghost use Rattle.std.specs.Prelude.{◌≡◌, ◌*◌, nat_lt, IfOk};
ghost use Rattle.srb_types.specs.Normal as normal;
ghost use Rattle.srb_sig.specs.Types as spec;
ghost use Rattle.srb_sig.specs.Views.{view_at};

use crate::forms::TypeForm;
use crate::reading::{Read, Row, with_wrong};
use crate::wrong::Cause;
use srb_terms::{Name, NoMemory, Ty, World};
use srb_types::{all, any, any_after, array, hash};
use std::alloc::Global;

/// `T.nilable` of the first of some types.
fn nilable(alloc: Global, w: &World, types: &[Ty]) -> Result<Ty, NoMemory>
    ensures { IfOk result (λ t. t ≡ normal.any_of (view_at w.now).lineage (spec.first_type types.now) spec.NIL) }
{
    let nil = Ty::Class(Name::from_str(alloc, "NilClass")?);
    any(alloc, w, &first_type(types)?, &nil)
}

/// The first of some types.
fn first_type(types: &[Ty]) -> Result<Ty, NoMemory>
    ensures { IfOk result (λ t. t ≡ spec.first_type types.now) }
{
    match types {
        [] => Ok(Ty::Untyped),
        [first, ..] => first.copied(),
    }
}

/// The second of some types.
fn second_type(types: &[Ty]) -> Result<Ty, NoMemory>
    ensures { IfOk result (λ t. t ≡ spec.second_type types.now) }
{
    match types {
        [] => Ok(Ty::Untyped),
        [_, rest @ ..] => first_type(rest),
    }
}

/// `T.any` of some types.
fn any_list(alloc: Global, w: &World, types: &[Ty]) -> Result<Ty, NoMemory>
    ensures { IfOk result (λ t. t ≡ normal.any_list (view_at w.now).lineage types.now) }
{
    any_after(alloc, w, Ty::Never, types)
}

/// `T.all` of a type and of some more.
fn all_after(alloc: Global, w: &World, first: &Ty, types: &[Ty]) -> Result<Ty, NoMemory>
    ensures { IfOk result (λ t. t ≡ spec.all_after (view_at w.now).lineage first.now types.now) }
{
    let mut so_far = first.copied()?;
    'types: for ty in types {
        so_far = all(alloc, w, &so_far, ty)?;
    }
    Ok(so_far)
}

/// `T.all` of some types.
fn all_list(alloc: Global, w: &World, types: &[Ty]) -> Result<Ty, NoMemory>
    ensures { IfOk result (λ t. t ≡ spec.all_list (view_at w.now).lineage types.now) }
{
    match types {
        [] => Ok(Ty::Untyped),
        [first, rest @ ..] => all_after(alloc, w, first, rest),
    }
}

/// The type of a form in which these types stand.
fn formed(alloc: Global, w: &World, form: TypeForm, types: &[Ty]) -> Result<Ty, NoMemory>
    ensures { IfOk result (λ t. t ≡ spec.formed (view_at w.now).lineage form types.now) }
{
    match form {
        TypeForm::Nilable => nilable(alloc, w, types),
        TypeForm::AnyOf => any_list(alloc, w, types),
        TypeForm::AllOf => all_list(alloc, w, types),
        TypeForm::ArrayOf => array(alloc, w, &first_type(types)?),
        TypeForm::HashOf => hash(alloc, w, &first_type(types)?, &second_type(types)?),
        TypeForm::ProcOf => Ok(Ty::Class(Name::from_str(alloc, "Proc")?)),
        _ => Ok(Ty::Untyped),
    }
}

/// How many parts a type has.
#[tactic(auto, unfolding(srb_shapes::specs::Parts::parts_of))]
fn count(t: &Ty) -> usize
    ensures { result ≡ spec.count_of t.now }
{
    match t {
        Ty::Never => 0,
        Ty::Any(parts) => parts.get().as_slice().len(),
        _ => 1,
    }
}

/// A product, or 257 where it passes 256.
fn times(product: usize, count: usize) -> usize
    ensures { result ≡ spec.capped (product * count) }
{
    match product.checked_mul(count) {
        None => 257,
        Some(product) => { if product > 256 { 257 } else { product } }
    }
}

/// Whether a `T.all` of some types would have more than 256 parts. Counting ends there, but for a type without a part.
#[tactic(auto, using(crate::proofs::Products::capped_step, crate::proofs::Products::from_one, crate::proofs::Products::to_one))]
fn passes(types: &[Ty]) -> bool
    ensures { result ≡ nat_lt 256 (spec.product_of types.now) }
{
    let mut product = 1;
    'types: for ty in types {
        product = times(product, count(ty));
    }
    product > 256
}

/// Whether these are too many types for a form.
fn is_too_large(form: TypeForm, types: &[Ty]) -> bool
    ensures { result ≡ spec.is_too_large form types.now }
{
    match form {
        TypeForm::AllOf => passes(types),
        _ => false,
    }
}

/// The expression of this form and number, after the types in it were read; so many parts were wrong before it.
pub fn formed_reading(
    alloc: Global,
    w: &World,
    form: TypeForm,
    part: u32,
    wrong: usize,
    row: Row,
) -> Result<Read, NoMemory>
    ensures { IfOk result (λ r. r ≡ spec.formed_reading (view_at w.now).lineage form part wrong row) }
{
    let Row { types, notes } = row;
    if notes.wrong.len() != wrong {
        Ok(Read {
            ty: Ty::Untyped,
            notes,
        })
    } else if is_too_large(form, types.as_slice()) {
        Ok(Read {
            ty: Ty::Untyped,
            notes: with_wrong(part, Cause::Malformed, notes)?,
        })
    } else {
        Ok(Read {
            ty: formed(alloc, w, form, types.as_slice())?,
            notes,
        })
    }
}
