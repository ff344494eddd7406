//! `return`, `break` and `next`.

ghost use Rattle.std.specs.Prelude.{◌≡◌, map, IfOk, OnOk};
ghost use Rattle.std.specs.Option.{option_copied};
ghost use Rattle.srb_judgement.specs.Jumps as spec;
ghost use Rattle.srb_judgement.specs.Kept.{AtEach};
ghost use Rattle.srb_judgement.specs.States.{judged};
ghost use Rattle.srb_judgement.specs.Views.{seen_environment, seen_left, seen_state};

use crate::contexts::Context;
use crate::environments::{Environment, copied_rows};
use crate::errors::wrong_result;
use crate::language::Language;
use crate::states::{Left, State};
use rb_tree::syntax::Jump;
use srb_terms::{Items, NoMemory, Span, Ty};
use std::alloc::Global;

/// Checks a result that stands at this place: 7005 unless its type is a subtype.
pub fn check_result<L: Language>(
    alloc: Global,
    language: &L,
    expected: Option<&Ty>,
    place: Span,
    ty: &Ty,
    state: &mut State,
) -> Result<(), NoMemory>
    ensures { OnOk result (seen_state state.new ≡ spec.checked_result (L.the language.now) (option_copied expected.entry) place ty.now (seen_state state.old)) }
{
    match expected {
        None => Ok(()),
        Some(expected) => {
            if language.is_sub(ty, expected) {
                Ok(())
            } else {
                state.error(wrong_result(alloc, language, place, expected, ty)?)
            }
        }
    }
}

/// Checks the value of a jump, if it is a `return`.
fn check_jump<L: Language>(
    alloc: Global,
    language: &L,
    word: Jump,
    expected: Option<&Ty>,
    place: Span,
    ty: &Ty,
    state: &mut State,
) -> Result<(), NoMemory>
    ensures { OnOk result (seen_state state.new ≡ spec.checked_jump (L.the language.now) word (option_copied expected.entry) place ty.now (seen_state state.old)) }
{
    match word {
        Jump::Return => check_result(alloc, language, expected, place, ty, state),
        Jump::Break => Ok(()),
        Jump::Next => Ok(()),
    }
}

/// With a jump environment, where the jump is reached.
fn left_in(
    alloc: Global,
    environment: &Environment,
    ty: Ty,
    lefts: &mut Items<Left>,
) -> Result<(), NoMemory>
    ensures { OnOk result (map seen_left lefts.new ≡ spec.left_in (seen_environment environment.now) ty (map seen_left lefts.old)) }
{
    match environment {
        Environment::Live(rows) => lefts.push(Left {
            ty,
            rows: copied_rows(alloc, rows)?,
        }),
        Environment::Dead => Ok(()),
        Environment::Silent => Ok(()),
    }
}

/// With the jump environment of a `break` or `next` in a loop or block.
fn leave_by(
    alloc: Global,
    inside: bool,
    word: Jump,
    ty: Ty,
    state: &mut State,
) -> Result<(), NoMemory>
    ensures { OnOk result (seen_state state.new ≡ spec.left_by inside word ty (seen_state state.old)) }
{
    if !inside {
        return Ok(());
    }
    match word {
        Jump::Return => Ok(()),
        Jump::Break => left_in(alloc, &state.environment, ty, &mut state.jumps.breaks),
        Jump::Next => left_in(alloc, &state.environment, ty, &mut state.jumps.nexts),
    }
}

/// Jumps with a value of this type, which stands at this place, in or outside of loops and blocks, with the type against which results are
/// checked.
fn jump_by<L: Language>(
    alloc: Global,
    language: &L,
    inside: bool,
    expected: Option<&Ty>,
    word: Jump,
    place: Span,
    ty: Ty,
    state: &mut State,
) -> Result<Ty, NoMemory>
    ensures { IfOk result (λ r. judged r (seen_state state.new) ≡ spec.jumped_by (L.the language.now) inside (option_copied expected.entry) word place (judged ty (seen_state state.old))) }
{
    check_jump(alloc, language, word, expected, place, &ty, state)?;
    leave_by(alloc, inside, word, ty, state)?;
    state.stop();
    Ok(language.never())
}

/// Jumps with a value of this type, which stands at this place. Its own type is the answer.
pub fn jump<L: Language>(
    alloc: Global,
    language: &L,
    context: &Context,
    word: Jump,
    place: Span,
    ty: Ty,
    state: &mut State,
) -> Result<Ty, NoMemory>
    ensures { IfOk result (λ r. AtEach context.now (λ c. judged r (seen_state state.new) ≡ spec.jumped (L.the language.now) word place c (judged ty (seen_state state.old)))) }
{
    jump_by(
        alloc,
        language,
        context.inside,
        context.result.as_ref(),
        word,
        place,
        ty,
        state,
    )
}
