//! Loops.

ghost use Rattle.std.specs.Prelude.{◌≡◌, map, IfOk, OnOk};
ghost use Rattle.srb_judgement.specs.Blocks.{left_type};
ghost use Rattle.srb_judgement.specs.Environments.{Live, joined};
ghost use Rattle.srb_judgement.specs.Kept.{AtEach, sees};
ghost use Rattle.srb_judgement.specs.Loops as spec;
ghost use Rattle.srb_judgement.specs.States.{judged};
ghost use Rattle.srb_judgement.specs.Steps.{head_kept, unless_seen, with_unseen};
ghost use Rattle.srb_judgement.specs.Types.{any_after};
ghost use Rattle.srb_judgement.specs.Views.{seen_environment, seen_left, seen_rows, seen_state};

use crate::contexts::Context;
use crate::environments::{Environment, Rows, copied_rows, joined_rows};
use crate::language::Language;
use crate::states::{Jumps, Left, State, no_jumps};
use crate::types::{any_if, nil_type};
use srb_terms::{Name, NoMemory, Ty};
use std::alloc::Global;

/// The environment in which a variable has this type, where it isn't visible.
fn unless_seen(
    context: &Context,
    ty: &Ty,
    name: &Name,
    e: Environment,
) -> Result<Environment, NoMemory>
    ensures { IfOk result (λ r. seen_environment r ≡ unless_seen (sees context.now name.now) name.now ty.now (seen_environment e)) }
{
    if context.is_visible(name) {
        Ok(e)
    } else {
        e.assigned(name.copied()?, ty.copied()?)
    }
}

/// The environment in which each of these variables that isn't visible has this type.
pub fn with_unseen(
    context: &Context,
    ty: &Ty,
    names: &[Name],
    e: Environment,
) -> Result<Environment, NoMemory>
    ensures { IfOk result (λ r. seen_environment r ≡ with_unseen context.now ty.now names.now (seen_environment e)) }
{
    let mut all = e;
    'names: for name in names {
        all = unless_seen(context, ty, name, all)?;
    }
    Ok(all)
}

/// Goes to a loop's head in its environment.
fn head_with<L: Language>(
    alloc: Global,
    language: &L,
    context: &Context,
    assigns: &[Name],
    state: &mut State,
) -> Result<Jumps, NoMemory>
    ensures state { OnOk result (seen_state state.new ≡ head_kept (L.the language.now) context.now assigns.now (seen_state state.old)) }
    ensures jumps { IfOk result (λ outer. outer ≡ state.old.jumps) }
{
    let entry = state.take_environment();
    state.environment = with_unseen(context, &language.untyped(), assigns, entry)?;
    Ok(std::mem::replace(&mut state.jumps, no_jumps(alloc)))
}

/// Goes to a loop's head, with the names of all variables that are assigned in the loop and in blocks inside it. The answer is the jumps of
/// what is around.
pub fn head<L: Language>(
    alloc: Global,
    language: &L,
    context: &Context,
    assigns: &[Name],
    state: &mut State,
) -> Result<Jumps, NoMemory>
    ensures state { OnOk result (AtEach context.now (λ c. seen_state state.new ≡ spec.head (L.the language.now) assigns.now c (seen_state state.old))) }
    ensures jumps { IfOk result (λ outer. outer ≡ state.old.jumps) }
{
    head_with(alloc, language, context, assigns, state)
}

/// The `T.any` of a type and the types that jumps carry.
pub fn any_left<L: Language>(
    alloc: Global,
    language: &L,
    so_far: Ty,
    lefts: &[Left],
) -> Result<Ty, NoMemory>
    ensures { IfOk result (λ r. r ≡ any_after (L.the language.now) so_far (map left_type (map seen_left lefts.now))) }
{
    let mut all = so_far;
    'lefts: for left in lefts {
        all = language.any(alloc, &all, &left.ty)?;
    }
    Ok(all)
}

/// The join of an environment and a live one.
fn joined_live<L: Language>(
    alloc: Global,
    language: &L,
    e: Environment,
    others: &Rows,
) -> Result<Environment, NoMemory>
    ensures { IfOk result (λ r. seen_environment r ≡ joined (L.the language.now) (seen_environment e) (Live (seen_rows others.now.entries))) }
{
    match e {
        Environment::Live(rows) => Ok(Environment::Live(joined_rows(
            alloc, language, &rows, others,
        )?)),
        Environment::Dead => Ok(Environment::Live(copied_rows(alloc, others)?)),
        Environment::Silent => Ok(Environment::Live(copied_rows(alloc, others)?)),
    }
}

/// The join of an environment and those of jumps.
fn joined_breaks<L: Language>(
    alloc: Global,
    language: &L,
    e: Environment,
    lefts: &[Left],
) -> Result<Environment, NoMemory>
    ensures { IfOk result (λ r. seen_environment r ≡ spec.joined_breaks (L.the language.now) (seen_environment e) (map seen_left lefts.now)) }
{
    let mut all = e;
    'lefts: for left in lefts {
        all = joined_live(alloc, language, all, &left.rows)?;
    }
    Ok(all)
}

/// The type of a loop, after its body, with the falsehood of its condition and the jumps of what is around.
pub fn loop_left<L: Language>(
    alloc: Global,
    language: &L,
    falsehood: Environment,
    outer: Jumps,
    state: &mut State,
) -> Result<Ty, NoMemory>
    ensures { IfOk result (λ r. judged r (seen_state state.new) ≡ spec.loop_left (L.the language.now) (seen_environment falsehood) (map seen_left outer.breaks) (map seen_left outer.nexts) (seen_state state.old)) }
{
    let nil = nil_type(language)?;
    let first = any_if(alloc, language, &language.never(), falsehood.is_live(), nil)?;
    let inner = std::mem::replace(&mut state.jumps, outer);
    let ty = any_left(alloc, language, first, inner.breaks.as_slice())?;
    state.environment = joined_breaks(alloc, language, falsehood, inner.breaks.as_slice())?;
    Ok(ty)
}
