//! The parts of a type in shown order.

ghost use Rattle.std.specs.Prelude.{◌≡◌, IfOk};
ghost use Rattle.std.specs.List.{list_any};
ghost use Rattle.srb_shapes.specs.Parts.{parts_of};
ghost use Rattle.srb_types.specs.Order.{is_before};
ghost use Rattle.srb_types.specs.Shown.{BOOLEAN, shown};
ghost use Rattle.srb_calls.specs.Order as spec;

use srb_terms::{NoMemory, Ty};
use srb_types::show;
use std::alloc::Global;
use std::slice;

/// The parts of a type.
#[tactic(auto, unfolding(srb_shapes::specs::Parts::parts_of))]
pub(crate) fn parts(t: &Ty) -> &[Ty]
    ensures { result.now ≡ parts_of t.now }
{
    match t {
        Ty::Never => &[],
        Ty::Any(parts) => parts.get().as_slice(),
        _ => slice::from_ref(t),
    }
}

// Whether a part is the class of this name.
fn is_named(name: &str, t: &Ty) -> bool
    ensures { result ≡ spec.is_named name.now t.now }
{
    match t {
        Ty::Class(c) => c.as_str() == name,
        _ => false,
    }
}

// Whether a part stands before `T::Boolean`. A class is compared without making a text.
fn is_before_boolean(alloc: Global, t: &Ty) -> Result<bool, NoMemory>
    ensures { IfOk result (λ b. b ≡ is_before (shown t.now) BOOLEAN) }
{
    let text = show(alloc, t)?;
    Ok(text.as_str() < "T::Boolean")
}

/// Where a part stands: before `T::Boolean` (0), in it as its first or second part (1, 2), or after it (3).
#[tactic(auto, unfolding(crate::specs::Order::rank))]
pub(crate) fn rank(alloc: Global, t: &Ty) -> Result<usize, NoMemory>
    ensures { IfOk result (λ n. n ≡ spec.rank t.now) }
{
    if is_named("FalseClass", t) {
        return Ok(1);
    }
    if is_named("TrueClass", t) {
        return Ok(2);
    }
    if is_before_boolean(alloc, t)? {
        Ok(0)
    } else {
        Ok(3)
    }
}

fn has(name: &str, parts: &[Ty]) -> bool
    ensures { result ≡ list_any (spec.is_named name.now) parts.now }
{
    'parts: for part in parts {
        if is_named(name, part) {
            return true;
        }
    }
    false
}

/// Whether both booleans are among the parts.
pub(crate) fn has_both(parts: &[Ty]) -> bool
    ensures { result ≡ spec.has_both parts.now }
{
    has("TrueClass", parts) && has("FalseClass", parts)
}
