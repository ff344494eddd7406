//! The letters of the built-in table, which a call puts in their places.

ghost use Rattle.std.specs.Prelude.{◌≡◌, map, codes, IfOk};
ghost use Rattle.std.specs.List.{list_any};
ghost use Rattle.srb_terms.specs.declared.ty.Ty.TheVariants as ty;
ghost use Rattle.srb_shapes.specs.Lineages.{lineage_at};
ghost use Rattle.srb_types.specs.Normal.{any_list, without_of};
ghost use Rattle.srb_calls.specs.Letters as spec;

use crate::args::Arg;
use srb_subtype::is_sub;
use srb_terms::{Boxed, Items, Name, NoMemory, Ty, World};
use srb_types::{any, array, hash, without};
use std::alloc::Global;

fn class(alloc: Global, name: &str) -> Result<Ty, NoMemory>
    ensures { IfOk result (λ t. t ≡ ty.Class name.now) }
{
    Ok(Ty::Class(Name::from_str(alloc, name)?))
}

// The class of a name, which shares that of a type where the type is this class.
fn class_near(alloc: Global, name: &str, near: &Ty) -> Result<Ty, NoMemory>
    ensures { IfOk result (λ t. t ≡ ty.Class name.now) }
{
    match near {
        Ty::Class(c) if c.as_str() == name => near.copied(),
        _ => class(alloc, name),
    }
}

// The elements of an array.
#[tactic(auto, unfolding(crate::specs::Letters::element_of))]
fn element(part: &Ty) -> Result<Ty, NoMemory>
    ensures { IfOk result (λ t. t ≡ spec.element_of part.now) }
{
    match part {
        Ty::Arr(e) => e.get().copied(),
        _ => Ok(Ty::Untyped),
    }
}

// The keys of a hash.
#[tactic(auto, unfolding(crate::specs::Letters::key_of))]
fn key(part: &Ty) -> Result<Ty, NoMemory>
    ensures { IfOk result (λ t. t ≡ spec.key_of part.now) }
{
    match part {
        Ty::Hsh(k, _) => k.get().copied(),
        _ => Ok(Ty::Untyped),
    }
}

// The values of a hash.
#[tactic(auto, unfolding(crate::specs::Letters::value_of))]
fn value(part: &Ty) -> Result<Ty, NoMemory>
    ensures { IfOk result (λ t. t ≡ spec.value_of part.now) }
{
    match part {
        Ty::Hsh(_, v) => v.get().copied(),
        _ => Ok(Ty::Untyped),
    }
}

// The number that arithmetic of a receiver with an argument of this type gives. It takes no memory where they are `Integer` and `Integer` or
// `Float`.
fn number_by(alloc: Global, w: &World, part: &Ty, t: &Ty) -> Result<Ty, NoMemory>
    ensures { IfOk result (λ u. u ≡ spec.number_by (lineage_at w.now) t.now) }
{
    let integer = class_near(alloc, "Integer", part)?;
    if is_sub(w, t, &integer) {
        return Ok(integer);
    }
    let float = class_near(alloc, "Float", t)?;
    if is_sub(w, t, &float) {
        return Ok(float);
    }
    class(alloc, "Numeric")
}

fn number(alloc: Global, w: &World, part: &Ty, positional: &[Arg]) -> Result<Ty, NoMemory>
    ensures { IfOk result (λ t. t ≡ spec.number_of (lineage_at w.now) positional.now) }
{
    match positional {
        [] => class(alloc, "Numeric"),
        [first, ..] => number_by(alloc, w, part, &first.ty),
    }
}

// The elements of an array without `NilClass`.
fn compact(alloc: Global, w: &World, part: &Ty) -> Result<Ty, NoMemory>
    ensures { IfOk result (λ t. t ≡ without_of (lineage_at w.now) (spec.element_of part.now) (ty.Class (codes "NilClass"))) }
{
    without(alloc, w, &element(part)?, &class(alloc, "NilClass")?)
}

// The type for which a name stands.
fn letter(
    alloc: Global,
    w: &World,
    name: &Name,
    part: &Ty,
    positional: &[Arg],
    block: &Ty,
) -> Result<Ty, NoMemory>
    ensures { IfOk result (λ t. t ≡ spec.letter_of (lineage_at w.now) part.now positional.now block.now name.now) }
{
    let text = name.as_str();
    if text == "%E" {
        element(part)
    } else if text == "%K" {
        key(part)
    } else if text == "%V" {
        value(part)
    } else if text == "%B" {
        block.copied()
    } else if text == "%N" {
        number(alloc, w, part, positional)
    } else if text == "%self" {
        part.copied()
    } else if text == "%C" {
        compact(alloc, w, part)
    } else {
        Ok(Ty::Class(name.copied()?))
    }
}

/// Whether a name begins with `%`.
pub(crate) fn is_letter(name: &Name) -> bool
    ensures { result ≡ spec.is_letter name.now }
{
    match name.as_bytes() {
        [] => false,
        [first, ..] => *first == b'%',
    }
}

/// Whether a letter stands in a type.
#[cycle(holding)]
#[tactic(auto, unfolding(crate::specs::Letters::has_letter))]
pub(crate) fn has_letter(t: &Ty) -> bool
    ensures { result ≡ spec.has_letter t.now }
{
    match t {
        Ty::Untyped => false,
        Ty::Never => false,
        Ty::Class(name) => is_letter(name),
        Ty::Meta(_) => false,
        Ty::Arr(e) => has_letter(e.get()),
        Ty::Hsh(k, v) => has_letter(k.get()) || has_letter(v.get()),
        Ty::Any(parts) => one_has_letter(parts.get().as_slice()),
        Ty::All(members) => one_has_letter(members.get().as_slice()),
    }
}

#[cycle(holding)]
fn one_has_letter(parts: &[Ty]) -> bool
    ensures { result ≡ list_any (λ b. b) (map spec.has_letter parts.now) }
{
    'parts: for part in parts {
        if has_letter(part) {
            return true;
        }
    }
    false
}

// A type with the letters put in, in normal form.
#[cycle(putting)]
#[tactic(auto, unfolding(crate::specs::Letters::put_anew))]
fn put_anew(
    alloc: Global,
    w: &World,
    t: &Ty,
    part: &Ty,
    positional: &[Arg],
    block: &Ty,
) -> Result<Ty, NoMemory>
    ensures { IfOk result (λ u. u ≡ spec.put_anew (lineage_at w.now) part.now positional.now block.now t.now) }
{
    match t {
        Ty::Untyped => Ok(Ty::Untyped),
        Ty::Never => Ok(Ty::Never),
        Ty::Class(name) => letter(alloc, w, name, part, positional, block),
        Ty::Meta(name) => Ok(Ty::Meta(name.copied()?)),
        Ty::Arr(e) => {
            let element = put_anew(alloc, w, e.get(), part, positional, block)?;
            array(alloc, w, &element)
        }
        Ty::Hsh(k, v) => {
            let key = put_anew(alloc, w, k.get(), part, positional, block)?;
            let value = put_anew(alloc, w, v.get(), part, positional, block)?;
            hash(alloc, w, &key, &value)
        }
        Ty::Any(parts) => put_parts(alloc, w, parts.get().as_slice(), part, positional, block),
        Ty::All(members) => {
            let members = put_members(alloc, w, members.get().as_slice(), part, positional, block)?;
            Ok(Ty::All(Boxed::new(alloc, members)?))
        }
    }
}

// `T.any` of some parts, each of them with the letters put in.
#[cycle(putting)]
fn put_parts(
    alloc: Global,
    w: &World,
    parts: &[Ty],
    part: &Ty,
    positional: &[Arg],
    block: &Ty,
) -> Result<Ty, NoMemory>
    ensures { IfOk result (λ u. u ≡ any_list (lineage_at w.now) (map (spec.put_anew (lineage_at w.now) part.now positional.now block.now) parts.now)) }
{
    let mut joined = Ty::Never;
    'parts: for p in parts {
        let p = put_anew(alloc, w, p, part, positional, block)?;
        joined = any(alloc, w, &joined, &p)?;
    }
    Ok(joined)
}

#[cycle(putting)]
fn put_members(
    alloc: Global,
    w: &World,
    members: &[Ty],
    part: &Ty,
    positional: &[Arg],
    block: &Ty,
) -> Result<Items<Ty>, NoMemory>
    ensures { IfOk result (λ ts. ts ≡ map (spec.put_anew (lineage_at w.now) part.now positional.now block.now) members.now) }
{
    let mut put = Items::new(alloc);
    'members: for m in members {
        put.push(put_anew(alloc, w, m, part, positional, block)?)?;
    }
    Ok(put)
}

/// A type of a method with the letters put in, in normal form. A type without letters is shared.
#[tactic(auto, unfolding(crate::specs::Letters::put_in))]
pub(crate) fn put_in(
    alloc: Global,
    w: &World,
    t: &Ty,
    part: &Ty,
    positional: &[Arg],
    block: &Ty,
) -> Result<Ty, NoMemory>
    ensures { IfOk result (λ u. u ≡ spec.put_in (lineage_at w.now) part.now positional.now block.now t.now) }
{
    if has_letter(t) {
        put_anew(alloc, w, t, part, positional, block)
    } else {
        t.copied()
    }
}
