//! Loops: `while` and `until`, also as modifiers.

ghost use Rattle.std.specs.Prelude.{◌≡◌, ◌++◌, true, false, map, IfOk, OnOk};
ghost use Rattle.srb_judgement.specs.Branches.{turned};
ghost use Rattle.srb_judgement.specs.Kept.{seen_context};
ghost use Rattle.srb_judgement.specs.Loops as loops_spec;
ghost use Rattle.srb_judgement.specs.States.{judged, moved, seeing, with_jumps};
ghost use Rattle.srb_judgement.specs.Views.{seen_environment, seen_left, seen_state};
ghost use Rattle.srb_walk.specs.Assigned.{names_of};
ghost use Rattle.srb_walk.specs.Judging as spec;
ghost use Rattle.srb_walk.specs.Known as known;

use crate::branches::test_condition;
use rb_tree::syntax::{Test, Tree};
use srb_judgement::contexts::Context;
use srb_judgement::language::Language;
use srb_judgement::loops::{head, loop_left};
use srb_judgement::states::{Jumps, State};
use srb_judgement::tested::Tested;
use srb_terms::{NoMemory, Ty};
use srb_walk::around::after;
use srb_walk::names::loop_names;
use srb_walk::walking::Walk;
use std::alloc::Global;

/// Goes to the head of a loop with this condition and body. The answer is the jumps of what is around.
fn to_head<L: Language>(
    alloc: Global,
    language: &L,
    context: &Context,
    state: &mut State,
    condition: &Tree,
    body: &Tree,
) -> Result<Jumps, NoMemory>
    ensures state { OnOk result (seen_state state.new ≡ loops_spec.head (L.the language.now) (names_of (L.the language.now) true condition.now ++ names_of (L.the language.now) true body.now) (seen_context context.now) (seen_state state.old)) }
    ensures jumps { IfOk result (λ outer. outer ≡ state.old.jumps) }
{
    let names = loop_names(alloc, language, condition, body)?;
    head(alloc, language, context, names.as_slice(), state)
}

/// Judges a loop whose condition stands after its body, from its head on. The context is that inside of it.
fn after_body<W: Walk, L: Language>(
    alloc: Global,
    walk: &W,
    language: &L,
    context: &Context,
    state: &mut State,
    outer: Jumps,
    which: Test,
    condition: &Tree,
    body: &Tree,
) -> Result<Ty, NoMemory>
    ensures { IfOk result (λ ty. judged ty (seen_state state.new) ≡ loops_spec.loop_after (L.the language.now) (known.part_in (L.the language.now) body.now) (seen_context context.now)
        (with_jumps (map seen_left outer.breaks) (map seen_left outer.nexts) (seen_state state.old))
        (turned which (spec.test_of (L.the language.now) condition.now (seeing (names_of (L.the language.now) false body.now) (seen_context context.now)) (seen_state state.old)))) }
{
    let beside = after(alloc, language, context, body)?;
    let tested = test_condition(
        alloc,
        walk,
        language,
        beside.of(context),
        state,
        which,
        condition,
    )?;
    loop_body(alloc, walk, language, context, state, outer, tested, body)
}

/// Judges a statement with `while` or `until` after it.
pub fn modified_loop<W: Walk, L: Language>(
    alloc: Global,
    walk: &W,
    language: &L,
    context: &Context,
    state: &mut State,
    which: Test,
    statement: &Tree,
    condition: &Tree,
) -> Result<Ty, NoMemory>
    ensures { IfOk result (λ ty. judged ty (seen_state state.new) ≡ loops_spec.modified_loop (L.the language.now) which (known.part_in (L.the language.now) statement.now) (known.part_in (L.the language.now) condition.now) (seen_context context.now) (seen_state state.old)) }
{
    let inner = context.in_loop(alloc, language, &state.environment)?;
    let outer = to_head(alloc, language, context, state, condition, statement)?;
    after_body(
        alloc, walk, language, &inner, state, outer, which, condition, statement,
    )
}

/// Judges the part of a loop after its condition, and answers the type of the loop. The context is that inside of it, after the condition.
pub fn loop_body<W: Walk, L: Language>(
    alloc: Global,
    walk: &W,
    language: &L,
    context: &Context,
    state: &mut State,
    outer: Jumps,
    tested: Tested,
    body: &Tree,
) -> Result<Ty, NoMemory>
    ensures { IfOk result (λ ty. judged ty (seen_state state.new) ≡ loops_spec.loop_left (L.the language.now) (seen_environment tested.falsehood) (map seen_left outer.breaks) (map seen_left outer.nexts)
        (spec.judge_of (L.the language.now) body.now (seen_context context.now) (moved (seen_environment tested.truth) (seen_state state.old))).state) }
{
    let Tested {
        ty: _,
        truth,
        falsehood,
    } = tested;
    state.environment = truth;
    walk.judge(alloc, language, context, state, body)?;
    loop_left(alloc, language, falsehood, outer, state)
}

/// Judges a loop whose condition stands before its body, from its head on. The context is that inside of it.
fn before_body<W: Walk, L: Language>(
    alloc: Global,
    walk: &W,
    language: &L,
    context: &Context,
    state: &mut State,
    outer: Jumps,
    which: Test,
    condition: &Tree,
    body: &Tree,
) -> Result<Ty, NoMemory>
    ensures { IfOk result (λ ty. judged ty (seen_state state.new) ≡ loops_spec.loop_after (L.the language.now) (known.part_in (L.the language.now) body.now) (seeing (names_of (L.the language.now) false condition.now) (seen_context context.now))
        (with_jumps (map seen_left outer.breaks) (map seen_left outer.nexts) (seen_state state.old))
        (turned which (spec.test_of (L.the language.now) condition.now (seen_context context.now) (seen_state state.old)))) }
{
    let tested = test_condition(alloc, walk, language, context, state, which, condition)?;
    let last = after(alloc, language, context, condition)?;
    loop_body(
        alloc,
        walk,
        language,
        last.of(context),
        state,
        outer,
        tested,
        body,
    )
}

/// Judges `while` or `until`.
pub fn while_loop<W: Walk, L: Language>(
    alloc: Global,
    walk: &W,
    language: &L,
    context: &Context,
    state: &mut State,
    which: Test,
    condition: &Tree,
    body: &Tree,
) -> Result<Ty, NoMemory>
    ensures { IfOk result (λ ty. judged ty (seen_state state.new) ≡ loops_spec.loop_judged (L.the language.now) which (known.part_in (L.the language.now) condition.now) (known.part_in (L.the language.now) body.now) (seen_context context.now) (seen_state state.old)) }
{
    let inner = context.in_loop(alloc, language, &state.environment)?;
    let outer = to_head(alloc, language, context, state, condition, body)?;
    before_body(
        alloc, walk, language, &inner, state, outer, which, condition, body,
    )
}
