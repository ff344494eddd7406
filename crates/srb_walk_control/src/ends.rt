//! The ends of branches and clauses, added in place: what a level adds after it judged a tree is never inlined.

ghost use Rattle.std.specs.Prelude.{◌≡◌, OnOk};
ghost use Rattle.srb_judgement.specs.Ends as spec;
ghost use Rattle.srb_judgement.specs.Environments.{Silent};
ghost use Rattle.srb_judgement.specs.States.{judged, moved};
ghost use Rattle.srb_judgement.specs.Views.{seen_ends, seen_environment, seen_state};

use srb_judgement::ends::{Ends, all_ends, no_ends, with_end, with_first_end};
use srb_judgement::environments::Environment;
use srb_judgement::language::Language;
use srb_judgement::states::State;
use srb_terms::{NoMemory, Ty};
use std::alloc::Global;

/// Adds one more end, which has this type and whose environment is taken out of the state.
#[inline(never)]
pub fn add_end<L: Language>(
    alloc: Global,
    language: &L,
    ends: &mut Ends,
    ty: Ty,
    state: &mut State,
) -> Result<(), NoMemory>
    ensures ends { OnOk result (seen_ends ends.new ≡ spec.with_end (L.the language.now) (seen_ends ends.old) (judged ty (seen_state state.old))) }
    ensures state { OnOk result (seen_state state.new ≡ moved Silent (seen_state state.old)) }
{
    let before = std::mem::replace(ends, no_ends(language));
    *ends = with_end(alloc, language, before, ty, state)?;
    Ok(())
}

/// Adds the end of the first body of a guard, or of its `else`, in front.
#[inline(never)]
pub fn add_first_end<L: Language>(
    alloc: Global,
    language: &L,
    ends: &mut Ends,
    after: Environment,
    ty: Ty,
) -> Result<(), NoMemory>
    ensures { OnOk result (seen_ends ends.new ≡ spec.with_first_end (L.the language.now) (seen_ends ends.old) (seen_environment after) ty) }
{
    let before = std::mem::replace(ends, no_ends(language));
    *ends = with_first_end(alloc, language, before, after, ty)?;
    Ok(())
}

/// The type of the whole, whose environment is that of its ends.
#[inline(never)]
pub fn whole<L: Language>(language: &L, ends: &mut Ends, state: &mut State) -> Ty
    ensures { judged result (seen_state state.new) ≡ spec.all_ends (L.the language.now) (seen_ends ends.old) (seen_state state.old) }
{
    let all = std::mem::replace(ends, no_ends(language));
    all_ends(language, all, state)
}
