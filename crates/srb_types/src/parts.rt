//! The parts of a type, and the list of parts of a normal form.

ghost use Rattle.std.specs.Prelude.{◌≡◌, ◌≤◌, [], ◌∷◌, ◌++◌, not, length, insert, IfOk, OnOk, if◌then◌else◌};
ghost use Rattle.std.specs.List.{filter, list_any};
ghost use Rattle.srb_shapes.specs.Comparing as comparing;
ghost use Rattle.srb_shapes.specs.Lineages.{lineage_at};
ghost use Rattle.srb_shapes.specs.Parts as spec;
ghost use Rattle.srb_terms.specs.declared.ty.Ty.TheVariants as ty;
ghost use Rattle.srb_types.specs.Normal as normal;
ghost use Rattle.srb_types.specs.Order.{is_before, placed};
ghost use Rattle.srb_types.specs.Shown.{shown};

use crate::names::is_under;
use crate::order::is_before;
use crate::showing::show;
use srb_shapes::is_within;
use srb_terms::{Boxed, Items, Name, Names, NoMemory, Ty, Words, World};
use std::alloc::Global;
use std::slice;

/// Whether a type is `T.untyped`.
pub(crate) fn is_untyped(t: &Ty) -> bool
    ensures { result ≡ normal.is_untyped t.now }
{
    match t {
        Ty::Untyped => true,
        _ => false,
    }
}

/// The parts of a type.
#[tactic(auto, unfolding(srb_shapes::specs::Parts::parts_of))]
pub(crate) fn parts(t: &Ty) -> &[Ty]
    ensures { result.now ≡ spec.parts_of t.now }
{
    match t {
        Ty::Never => &[],
        Ty::Any(parts) => parts.get().as_slice(),
        _ => slice::from_ref(t),
    }
}

/// The type that has these parts.
pub(crate) fn of_parts(alloc: Global, parts: Vec<Ty>) -> Result<Ty, NoMemory>
    ensures { IfOk result (λ t. t ≡ spec.of_parts parts.items) }
{
    match parts.as_slice() {
        [] => Ok(Ty::Never),
        [part] => part.copied(),
        _ => Ok(Ty::Any(Boxed::new(alloc, Items::from_vec(parts))?)),
    }
}

/// Whether all that belongs to a part belongs to another one.
pub(crate) fn lies_in(w: &World, p: &Ty, q: &Ty) -> bool
    ensures { result ≡ comparing.lies_in (lineage_at w.now) p.now q.now }
{
    match q {
        Ty::Class(d) => lies_in_class(w, p, q, d),
        _ => is_within(true, w, p, q),
    }
}

// The same for a class or module `q`. Whether a class lies in it is one look-up.
fn lies_in_class(w: &World, p: &Ty, q: &Ty, d: &Name) -> bool
    requires { q.now ≡ ty.Class d.now }
    ensures { result ≡ comparing.lies_in (lineage_at w.now) p.now q.now }
{
    match p {
        Ty::Class(c) => is_under(w, c, d),
        _ => is_within(true, w, p, q),
    }
}

/// Whether a type is a subtype of another.
pub(crate) fn is_sub(w: &World, t: &Ty, u: &Ty) -> bool
    ensures { result ≡ comparing.is_sub_of (lineage_at w.now) t.now u.now }
{
    is_within(false, w, t, u)
}

// Whether a class lies in a part, by its linearization.
fn is_class_in(w: &World, p: &Ty, c: &Name, names: &Names, q: &Ty) -> bool
    requires class { p.now ≡ ty.Class c.now }
    requires names { names.now ≡ (lineage_at w.now).lin c.now }
    ensures { result ≡ comparing.lies_in (lineage_at w.now) p.now q.now }
{
    match q {
        Ty::Class(d) => names.contains(d),
        _ => is_within(true, w, p, q),
    }
}

// Whether a class lies in one of some parts, by its linearization.
fn is_class_in_one(w: &World, p: &Ty, c: &Name, names: &Names, parts: &[Ty]) -> bool
    requires class { p.now ≡ ty.Class c.now }
    requires names { names.now ≡ (lineage_at w.now).lin c.now }
    ensures { result ≡ list_any (λ q. comparing.lies_in (lineage_at w.now) p.now q) parts.now }
{
    'parts: for part in parts {
        if is_class_in(w, p, c, names, part) {
            return true;
        }
    }
    false
}

// Whether a part lies in one of others, each pair compared by itself.
fn is_in_one(w: &World, p: &Ty, parts: &[Ty]) -> bool
    ensures { result ≡ list_any (λ q. comparing.lies_in (lineage_at w.now) p.now q) parts.now }
{
    'parts: for part in parts {
        if lies_in(w, p, part) {
            return true;
        }
    }
    false
}

/// Whether a part lies in one of others. The linearization of a class is looked up once.
pub(crate) fn lies_in_one(w: &World, p: &Ty, parts: &[Ty]) -> bool
    ensures { result ≡ list_any (λ q. comparing.lies_in (lineage_at w.now) p.now q) parts.now }
{
    match p {
        Ty::Class(c) => match w.lin(c) {
            None => is_class_in_one(w, p, c, &Names::new(), parts),
            Some(names) => is_class_in_one(w, p, c, names, parts),
        },
        _ => is_in_one(w, p, parts),
    }
}

/// Whether one of others lies in a part.
pub(crate) fn has_inner(w: &World, p: &Ty, parts: &[Ty]) -> bool
    ensures { result ≡ list_any (λ q. comparing.lies_in (lineage_at w.now) q p.now) parts.now }
{
    'parts: for part in parts {
        if lies_in(w, part, p) {
            return true;
        }
    }
    false
}

/// Adds a copy of a part where it is to be kept.
pub(crate) fn push_if(keep: bool, parts: &mut Vec<Ty>, part: &Ty) -> Result<(), NoMemory>
    ensures { OnOk result (parts.new.items ≡ (if keep then parts.old.items ++ part.now ∷ [] else parts.old.items)) }
{
    if keep {
        parts.push(part.copied()?)?;
    }
    Ok(())
}

/// Copies of the parts that don't lie in this one, with room for it.
pub(crate) fn outer_parts(
    alloc: Global,
    w: &World,
    p: &Ty,
    parts: &[Ty],
) -> Result<Vec<Ty>, NoMemory>
    ensures { IfOk result (λ ts. ts.items ≡ filter (λ q. not (comparing.lies_in (lineage_at w.now) q p.now)) parts.now) }
{
    let mut rest = Vec::with_capacity(alloc, parts.len().saturating_add(1))?;
    'parts: for part in parts {
        push_if(!lies_in(w, part, p), &mut rest, part)?;
    }
    Ok(rest)
}

// Drops the parts that lie in this one.
fn drop_inner(alloc: Global, w: &World, p: &Ty, parts: &mut Vec<Ty>) -> Result<(), NoMemory>
    ensures { OnOk result (parts.new.items ≡ filter (λ q. not (comparing.lies_in (lineage_at w.now) q p.now)) parts.old.items) }
{
    if has_inner(w, p, parts.as_slice()) {
        *parts = outer_parts(alloc, w, p, parts.as_slice())?;
    }
    Ok(())
}

// Whether a text stands before that of a part. A class is compared without making a text.
#[tactic(auto, unfolding(crate::specs::Shown::shown))]
fn is_before_part(alloc: Global, t: &Words, part: &Ty) -> Result<bool, NoMemory>
    ensures { IfOk result (λ b. b ≡ is_before t.now (shown part.now)) }
{
    match part {
        Ty::Class(name) => Ok(is_before(t.as_str(), name.as_str())),
        _ => {
            let text = show(alloc, part)?;
            Ok(is_before(t.as_str(), text.as_str()))
        }
    }
}

/// The index at which a part with this text belongs: that after the last part whose text doesn't come after its own.
pub(crate) fn place(alloc: Global, p: &Ty, t: &Words, parts: &[Ty]) -> Result<usize, NoMemory>
    requires { t.now ≡ shown p.now }
    ensures { IfOk result (λ at. (at ≤ length parts.now) × (placed shown p.now parts.now ≡ insert parts.now at p.now)) }
{
    let mut at = parts.len();
    'parts: while at > 0 {
        if !is_before_part(alloc, t, &parts[at - 1])? {
            return Ok(at);
        }
        at -= 1;
    }
    Ok(0)
}

/// Puts a part at its place.
pub(crate) fn put(alloc: Global, p: &Ty, parts: &mut Vec<Ty>) -> Result<(), NoMemory>
    ensures { OnOk result (parts.new.items ≡ placed shown p.now parts.old.items) }
{
    let text = show(alloc, p)?;
    let at = place(alloc, p, &text, parts.as_slice())?;
    parts.insert(at, p.copied()?)?;
    Ok(())
}

/// Adds a part at its place. It is dropped where it lies in another, and those that lie in it are dropped.
#[tactic(auto, unfolding(crate::specs::Normal::with_part))]
pub(crate) fn add_part(
    alloc: Global,
    w: &World,
    p: &Ty,
    parts: &mut Vec<Ty>,
) -> Result<(), NoMemory>
    ensures { OnOk result (parts.new.items ≡ normal.with_part (lineage_at w.now) parts.old.items p.now) }
{
    if lies_in_one(w, p, parts.as_slice()) {
        return Ok(());
    }
    drop_inner(alloc, w, p, parts)?;
    put(alloc, p, parts)
}

/// Adds parts one by one.
pub(crate) fn add_parts(
    alloc: Global,
    w: &World,
    more: &[Ty],
    parts: &mut Vec<Ty>,
) -> Result<(), NoMemory>
    ensures { OnOk result (parts.new.items ≡ normal.with_parts (lineage_at w.now) parts.old.items more.now) }
{
    'more: for p in more {
        add_part(alloc, w, p, parts)?;
    }
    Ok(())
}
