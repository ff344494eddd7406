//! Expressions in environments that are live, dead and silent.

ghost use Rattle.std.specs.Prelude.{◌≡◌, IfOk, OnOk};
ghost use Rattle.srb_judgement.specs.Reaching as spec;
ghost use Rattle.srb_terms.specs.declared.ty.Ty.{Ty};
ghost use Rattle.srb_judgement.specs.States.{State as Passed, judged};
ghost use Rattle.srb_judgement.specs.Views.{seen_state, seen_tested, settled};
ghost use Rattle.srb_judgement.specs.Unreached as unreached;

use crate::environments::Environment;
use crate::errors::unreachable;
use crate::language::Language;
use crate::states::State;
use crate::tested::Tested;
use srb_terms::{NoMemory, Span, Ty};
use std::alloc::Global;

/// What stands after an expression of this type: it ends a live environment where the type is `T.noreturn`.
pub fn close<L: Language>(language: &L, ty: &Ty, state: &mut State)
    ensures { judged ty.now (seen_state state.new) ≡ spec.closed (L.the language.now) (judged ty.now (seen_state state.old)) }
{
    if language.is_never(ty) {
        state.stop();
    }
}

/// Tells of an expression that is the first one that isn't reached.
fn tell(alloc: Global, span: Span, state: &mut State) -> Result<(), NoMemory>
    ensures { OnOk result (seen_state state.new ≡ unreached.told (seen_state state.old).environment span (seen_state state.old)) }
{
    match state.environment {
        Environment::Live(_) => Ok(()),
        Environment::Dead => {
            state.environment = Environment::Silent;
            state.error(unreachable(alloc, span)?)
        }
        Environment::Silent => Ok(()),
    }
}

/// The type of an expression in an environment that isn't live: nothing of it is judged, and the first one is told of.
pub fn not_reached<L: Language>(
    alloc: Global,
    language: &L,
    span: Span,
    state: &mut State,
) -> Result<Ty, NoMemory>
    ensures { IfOk result (λ ty. judged ty (seen_state state.new) ≡ unreached.not_reached (L.the language.now) (seen_state state.old).environment span (seen_state state.old)) }
{
    tell(alloc, span, state)?;
    Ok(language.never())
}

/// The same of a condition: both of its sides are silent.
pub fn not_tested<L: Language>(
    alloc: Global,
    language: &L,
    span: Span,
    state: &mut State,
) -> Result<Tested, NoMemory>
    ensures { IfOk result (λ t. seen_tested t (seen_state state.new) ≡ unreached.not_tested (L.the language.now) (seen_state state.old).environment span (seen_state state.old)) }
{
    tell(alloc, span, state)?;
    Ok(Tested {
        ty: language.never(),
        truth: Environment::Silent,
        falsehood: Environment::Silent,
    })
}

/// What was judged as a value, as a condition: both sides are what stands after it.
pub fn both_sides(alloc: Global, ty: Ty, state: &mut State) -> Result<Tested, NoMemory>
    ensures { IfOk result (λ t. settled (seen_tested t (seen_state state.new)) ≡ settled (spec.both_sides (judged ty (seen_state state.old)))) }
{
    let truth = state.take_environment();
    Ok(Tested {
        ty,
        falsehood: truth.copied(alloc)?,
        truth,
    })
}

/// A side that the type of the condition excludes is dead.
pub fn excluding<L: Language>(
    alloc: Global,
    language: &L,
    tested: Tested,
) -> Result<Tested, NoMemory>
    ensures { IfOk result (λ t. (s : Passed Ty) → seen_tested t s ≡ spec.excluding (L.the language.now) (seen_tested tested s)) }
{
    let Tested {
        ty,
        truth,
        falsehood,
    } = tested;
    let can_hold = language.can_be_truthy(alloc, &ty)?;
    let can_fail = language.can_be_falsy(alloc, &ty)?;
    Ok(Tested {
        ty,
        truth: truth.ended_if(!can_hold),
        falsehood: falsehood.ended_if(!can_fail),
    })
}
