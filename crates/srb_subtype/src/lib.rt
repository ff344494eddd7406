//! Subtyping: whether each value of one type is one of another, as far as the classes, modules and their linearizations of a symbol
//! table tell. It takes no memory.
#![tactic(auto)]

ghost use Rattle.std.specs.Prelude.{◌≡◌};
ghost use Rattle.srb_shapes.specs.Comparing.{is_sub_of};
ghost use Rattle.srb_shapes.specs.Lineages.{lineage_at};

use srb_shapes::is_within;
use srb_terms::{Ty, World};

#[cfg(test)]
mod tests;

/// Whether `t` is a subtype of `u`: what belongs to `t` belongs to `u`, where nothing belongs to `T.untyped` in `t` and everything to
/// `T.untyped` in `u`. It takes no memory, and the depth of the types bounds its recursion.
pub fn is_sub(w: &World, t: &Ty, u: &Ty) -> bool
    ensures { result ≡ is_sub_of (lineage_at w.now) t.now u.now }
{
    is_within(false, w, t, u)
}
