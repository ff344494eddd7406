//! Unions, and what is left of them.

ghost use Rattle.std.specs.Prelude.{◌≡◌, ◌∷◌, false, not, IfOk, MatchOption};
ghost use Rattle.std.specs.List.{filter, list_any};
ghost use Rattle.srb_shapes.specs.Comparing.{is_sub_of, lies_in};
ghost use Rattle.srb_shapes.specs.Lineages.{lineage_at};
ghost use Rattle.srb_shapes.specs.Parts.{of_parts, parts_of};
ghost use Rattle.srb_types.specs.Normal as spec;

use crate::parts::{
    add_parts, is_sub, is_untyped, lies_in_one, of_parts, outer_parts, parts, push_if, put,
};
use srb_terms::{NoMemory, Ty, World};
use std::alloc::Global;

// The first of some parts that lies in none of others, and those after it.
fn first_outer<'a>(w: &World, more: &'a [Ty], parts: &[Ty]) -> Option<(&'a Ty, &'a [Ty])>
    ensures { MatchOption result (spec.with_parts (lineage_at w.now) parts.now more.now ≡ parts.now) (λ r.
        (list_any (λ q. lies_in (lineage_at w.now) r.0.now q) parts.now ≡ false)
        × (spec.with_parts (lineage_at w.now) parts.now more.now ≡ spec.with_parts (lineage_at w.now) parts.now (r.0.now ∷ r.1.now))) }
{
    let mut rest = more;
    'rest: while let [p, after @ ..] = rest {
        if !lies_in_one(w, p, parts) {
            return Some((p, after));
        }
        rest = after;
    }
    None
}

// The parts with more, the first of which lies in none of them.
#[tactic(auto, unfolding(crate::specs::Normal::with_part))]
fn joined(alloc: Global, w: &World, parts: &[Ty], p: &Ty, more: &[Ty]) -> Result<Vec<Ty>, NoMemory>
    requires { list_any (λ q. lies_in (lineage_at w.now) p.now q) parts.now ≡ false }
    ensures { IfOk result (λ ts. ts.items ≡ spec.with_parts (lineage_at w.now) parts.now (p.now ∷ more.now)) }
{
    let mut all = outer_parts(alloc, w, p, parts)?;
    put(alloc, p, &mut all)?;
    add_parts(alloc, w, more, &mut all)?;
    Ok(all)
}

// The union of the parts of a type: the type itself, but for a union of fewer than two.
#[tactic(auto, unfolding(srb_shapes::specs::Parts::parts_of))]
fn together(t: &Ty) -> Result<Ty, NoMemory>
    ensures { IfOk result (λ u. u ≡ of_parts (parts_of t.now)) }
{
    match t {
        Ty::Any(parts) => match parts.get().as_slice() {
            [] => Ok(Ty::Never),
            [part] => part.copied(),
            _ => t.copied(),
        },
        _ => t.copied(),
    }
}

/// `T.any` of two types in normal form. Where the second adds nothing, the answer shares the parts of the first, and takes no memory.
#[tactic(auto, unfolding(crate::specs::Normal::any_of))]
pub fn any(alloc: Global, w: &World, a: &Ty, b: &Ty) -> Result<Ty, NoMemory>
    ensures { IfOk result (λ t. t ≡ spec.any_of (lineage_at w.now) a.now b.now) }
{
    if is_untyped(a) || is_untyped(b) {
        return Ok(Ty::Untyped);
    }
    match first_outer(w, parts(b), parts(a)) {
        None => together(a),
        Some((p, more)) => of_parts(alloc, joined(alloc, w, parts(a), p, more)?),
    }
}

// The parts that are no subtypes of this type.
fn parts_beside(alloc: Global, w: &World, parts: &[Ty], b: &Ty) -> Result<Vec<Ty>, NoMemory>
    ensures { IfOk result (λ ts. ts.items ≡ filter (λ p. not (is_sub_of (lineage_at w.now) p b.now)) parts.now) }
{
    let mut rest = Vec::new(alloc);
    'parts: for part in parts {
        push_if(!is_sub(w, part, b), &mut rest, part)?;
    }
    Ok(rest)
}

/// The first type without the parts that are subtypes of the second.
#[tactic(auto, unfolding(crate::specs::Normal::without_of))]
pub fn without(alloc: Global, w: &World, a: &Ty, b: &Ty) -> Result<Ty, NoMemory>
    ensures { IfOk result (λ t. t ≡ spec.without_of (lineage_at w.now) a.now b.now) }
{
    if is_untyped(a) {
        return a.copied();
    }
    of_parts(alloc, parts_beside(alloc, w, parts(a), b)?)
}
