//! Intersections.

ghost use Rattle.std.specs.Prelude.{◌≡◌, IfOk, OnOk};
ghost use Rattle.srb_shapes.specs.Lineages.{lineage_at};
ghost use Rattle.srb_terms.specs.declared.ty.Ty.TheVariants as ty;
ghost use Rattle.srb_types.specs.Normal as spec;

use crate::names::{meet_classes, meet_names, names_of};
use crate::parts::{add_part, is_untyped, lies_in, of_parts, parts};
use srb_terms::{Boxed, Name, NoMemory, Ty, World};
use std::alloc::Global;

// The part that lies in the other one.
#[tactic(auto, unfolding(crate::specs::Normal::inner_part))]
fn inner_part(w: &World, p: &Ty, q: &Ty) -> Result<Option<Ty>, NoMemory>
    ensures { IfOk result (λ t. t ≡ spec.inner_part (lineage_at w.now) p.now q.now) }
{
    if lies_in(w, p, q) {
        Ok(Some(p.copied()?))
    } else if lies_in(w, q, p) {
        Ok(Some(q.copied()?))
    } else {
        Ok(None)
    }
}

// The meet of a part that is no array and no hash with another part, by their names.
#[tactic(auto, unfolding(crate::specs::Normal::meet_plain))]
fn meet_named(alloc: Global, w: &World, p: &Ty, q: &Ty) -> Result<Option<Ty>, NoMemory>
    ensures { IfOk result (λ t. t ≡ spec.meet_plain (lineage_at w.now) p.now q.now) }
{
    match names_of(alloc, p)? {
        None => inner_part(w, p, q),
        Some(names) => match names_of(alloc, q)? {
            None => inner_part(w, p, q),
            Some(more) => meet_names(alloc, w, names, more.as_slice()),
        },
    }
}

// The meet of a class or module with another part.
#[tactic(auto, unfolding(crate::specs::Normal::meet_plain, crate::specs::Normal::names_of))]
fn meet_class(alloc: Global, w: &World, p: &Ty, c: &Name, q: &Ty) -> Result<Option<Ty>, NoMemory>
    requires { p.now ≡ ty.Class c.now }
    ensures { IfOk result (λ t. t ≡ spec.meet_plain (lineage_at w.now) p.now q.now) }
{
    match q {
        Ty::Class(d) => meet_classes(alloc, w, c, d),
        _ => meet_named(alloc, w, p, q),
    }
}

// The meet of a part that is no array and no hash with another part. That of two classes makes no lists of names.
fn meet_plain(alloc: Global, w: &World, p: &Ty, q: &Ty) -> Result<Option<Ty>, NoMemory>
    ensures { IfOk result (λ t. t ≡ spec.meet_plain (lineage_at w.now) p.now q.now) }
{
    match p {
        Ty::Class(c) => meet_class(alloc, w, p, c, q),
        _ => meet_named(alloc, w, p, q),
    }
}

// Adds a part, where there is one.
fn add_met(alloc: Global, w: &World, met: Option<Ty>, found: &mut Vec<Ty>) -> Result<(), NoMemory>
    ensures { OnOk result (found.new.items ≡ spec.with_met (lineage_at w.now) found.old.items met) }
{
    match met {
        None => Ok(()),
        Some(p) => add_part(alloc, w, &p, found),
    }
}

/// `T.all` of two types in normal form. The depth of the first one bounds the recursion.
#[cycle(meets)]
pub fn all(alloc: Global, w: &World, a: &Ty, b: &Ty) -> Result<Ty, NoMemory>
    ensures { IfOk result (λ t. t ≡ spec.all_of (lineage_at w.now) a.now b.now) }
{
    if is_untyped(a) || is_untyped(b) {
        return Ok(Ty::Untyped);
    }
    let mut found = Vec::new(alloc);
    add_meets(alloc, w, a, parts(b), &mut found)?;
    of_parts(alloc, found)
}

// Adds the meets of a type with parts.
#[cycle(meets)]
fn add_meets(
    alloc: Global,
    w: &World,
    a: &Ty,
    others: &[Ty],
    found: &mut Vec<Ty>,
) -> Result<(), NoMemory>
    ensures { OnOk result (found.new.items ≡ spec.meets_of (lineage_at w.now) a.now others.now found.old.items) }
{
    match a {
        Ty::Untyped => add_row(alloc, w, a, others, found),
        Ty::Never => Ok(()),
        Ty::Class(_) => add_row(alloc, w, a, others, found),
        Ty::Meta(_) => add_row(alloc, w, a, others, found),
        Ty::Arr(_) => add_row(alloc, w, a, others, found),
        Ty::Hsh(_, _) => add_row(alloc, w, a, others, found),
        Ty::Any(ps) => add_each(alloc, w, ps.get().as_slice(), others, found),
        Ty::All(_) => add_row(alloc, w, a, others, found),
    }
}

// Adds those of each of some parts.
#[cycle(meets)]
fn add_each(
    alloc: Global,
    w: &World,
    ps: &[Ty],
    others: &[Ty],
    found: &mut Vec<Ty>,
) -> Result<(), NoMemory>
    ensures { OnOk result (found.new.items ≡ spec.meets_each (spec.meets_of (lineage_at w.now)) ps.now others.now found.old.items) }
{
    'parts: for p in ps {
        add_meets(alloc, w, p, others, found)?;
    }
    Ok(())
}

// Adds those of one part.
#[cycle(meets)]
fn add_row(
    alloc: Global,
    w: &World,
    p: &Ty,
    others: &[Ty],
    found: &mut Vec<Ty>,
) -> Result<(), NoMemory>
    ensures { OnOk result (found.new.items ≡ spec.with_meets (lineage_at w.now) (spec.meet_parts (lineage_at w.now) p.now) others.now found.old.items) }
{
    'others: for other in others {
        add_met(alloc, w, meet_parts(alloc, w, p, other)?, found)?;
    }
    Ok(())
}

// The meet of two parts.
#[cycle(meets)]
#[tactic(auto, unfolding(crate::specs::Normal::meet_parts, crate::specs::Normal::meet_hash))]
fn meet_parts(alloc: Global, w: &World, p: &Ty, q: &Ty) -> Result<Option<Ty>, NoMemory>
    ensures { IfOk result (λ t. t ≡ spec.meet_parts (lineage_at w.now) p.now q.now) }
{
    match p {
        Ty::Untyped => meet_plain(alloc, w, p, q),
        Ty::Never => Ok(None),
        Ty::Class(_) => meet_plain(alloc, w, p, q),
        Ty::Meta(_) => meet_plain(alloc, w, p, q),
        Ty::Arr(e) => meet_array(alloc, w, e.get(), q),
        Ty::Hsh(k, v) => match q {
            Ty::Hsh(l, u) => {
                let key = all_boxed(alloc, w, k.get(), l.get())?;
                let value = all_boxed(alloc, w, v.get(), u.get())?;
                Ok(Some(Ty::Hsh(key, value)))
            }
            _ => inner_hash(alloc, w, k.get(), v.get(), q),
        },
        Ty::Any(_) => Ok(None),
        Ty::All(_) => meet_plain(alloc, w, p, q),
    }
}

// `T.all` of two types, for an argument.
#[cycle(meets)]
fn all_boxed(alloc: Global, w: &World, a: &Ty, b: &Ty) -> Result<Boxed<Ty>, NoMemory>
    ensures { IfOk result (λ t. t ≡ spec.all_of (lineage_at w.now) a.now b.now) }
{
    Boxed::new(alloc, all(alloc, w, a, b)?)
}

// An array meets an array in that of the meet of their elements.
#[cycle(meets)]
#[tactic(auto, unfolding(crate::specs::Normal::meet_array))]
fn meet_array(alloc: Global, w: &World, e: &Ty, q: &Ty) -> Result<Option<Ty>, NoMemory>
    ensures { IfOk result (λ t. t ≡ spec.meet_array (lineage_at w.now) e.now (spec.meets_of (lineage_at w.now) e.now) q.now) }
{
    match q {
        Ty::Arr(f) => {
            let element = all_boxed(alloc, w, e, f.get())?;
            Ok(Some(Ty::Arr(element)))
        }
        _ => inner_array(alloc, w, e, q),
    }
}

// The array, or the part, that lies in the other one.
fn inner_array(alloc: Global, w: &World, e: &Ty, q: &Ty) -> Result<Option<Ty>, NoMemory>
    ensures { IfOk result (λ t. t ≡ spec.inner_part (lineage_at w.now) (ty.Arr e.now) q.now) }
{
    let p = Ty::Arr(Boxed::new(alloc, e.copied()?)?);
    inner_part(w, &p, q)
}

// The hash, or the part, that lies in the other one.
fn inner_hash(alloc: Global, w: &World, k: &Ty, v: &Ty, q: &Ty) -> Result<Option<Ty>, NoMemory>
    ensures { IfOk result (λ t. t ≡ spec.inner_part (lineage_at w.now) (ty.Hsh k.now v.now) q.now) }
{
    let p = Ty::Hsh(
        Boxed::new(alloc, k.copied()?)?,
        Boxed::new(alloc, v.copied()?)?,
    );
    inner_part(w, &p, q)
}

/// What a value of the first type is where it is also known to be of the second. `T.untyped` adds nothing.
#[tactic(auto, unfolding(crate::specs::Normal::meet_of))]
pub fn meet(alloc: Global, w: &World, a: &Ty, b: &Ty) -> Result<Ty, NoMemory>
    ensures { IfOk result (λ t. t ≡ spec.meet_of (lineage_at w.now) a.now b.now) }
{
    if is_untyped(a) {
        b.copied()
    } else if is_untyped(b) {
        a.copied()
    } else {
        all(alloc, w, a, b)
    }
}
