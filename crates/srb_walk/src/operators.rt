//! Operators.

ghost use Rattle.std.specs.Prelude.{◌≡◌, IfOk};
ghost use Rattle.srb_terms.specs.declared.ty.Ty.{Ty};
ghost use Rattle.srb_judgement.specs.Kept.{seen_context};
ghost use Rattle.srb_judgement.specs.Operators as operators_spec;
ghost use Rattle.srb_judgement.specs.States as states_spec;
ghost use Rattle.srb_judgement.specs.States.{judged};
ghost use Rattle.srb_judgement.specs.Views.{seen_state, seen_tested};
ghost use Rattle.srb_walk.specs.Judging as spec;
ghost use Rattle.srb_walk.specs.Known as known;

use crate::around::after;
use crate::walking::Walk;
use rb_tree::syntax::{Binary, Tree, Unary};
use rb_views::place::prefix_operator;
use srb_judgement::calls::call_alone;
use srb_judgement::contexts::Context;
use srb_judgement::language::Language;
use srb_judgement::operators::{and_whole, method_name, or_whole};
use srb_judgement::sent::{Arguments, Given};
use srb_judgement::states::State;
use srb_judgement::tested::Tested;
use srb_judgement::types::boolean_type;
use srb_terms::{Items, Name, NoMemory, Span, Ty};
use std::alloc::Global;

/// Judges `b` of `a && b`, with a as a condition.
pub fn and_right<W: Walk, L: Language>(
    alloc: Global,
    walk: &W,
    language: &L,
    context: &Context,
    state: &mut State,
    left: Tested,
    right: &Tree,
) -> Result<Ty, NoMemory>
    ensures { IfOk result (λ ty. judged ty (seen_state state.new) ≡ operators_spec.and_after (L.the language.now) (spec.judge_of (L.the language.now) right.now) (seen_context context.now) (seen_tested left (seen_state state.old))) }
{
    let Tested {
        ty,
        truth,
        falsehood,
    } = left;
    state.environment = truth;
    let other = walk.judge(alloc, language, context, state, right)?;
    and_whole(alloc, language, &ty, falsehood, other, state)
}

/// Judges `b` of `a || b`, with a as a condition.
pub fn or_right<W: Walk, L: Language>(
    alloc: Global,
    walk: &W,
    language: &L,
    context: &Context,
    state: &mut State,
    left: Tested,
    right: &Tree,
) -> Result<Ty, NoMemory>
    ensures { IfOk result (λ ty. judged ty (seen_state state.new) ≡ operators_spec.or_after (L.the language.now) (spec.judge_of (L.the language.now) right.now) (seen_context context.now) (seen_tested left (seen_state state.old))) }
{
    let Tested {
        ty,
        truth,
        falsehood,
    } = left;
    state.environment = falsehood;
    let other = walk.judge(alloc, language, context, state, right)?;
    or_whole(alloc, language, &ty, truth, other, state)
}

/// Judges the argument of an operator on a receiver of this type, and calls its method.
pub fn operator_call<W: Walk, L: Language>(
    alloc: Global,
    walk: &W,
    language: &L,
    context: &Context,
    state: &mut State,
    receiver: &Ty,
    operator: Binary,
    place: Span,
    right: &Tree,
) -> Result<Ty, NoMemory>
    ensures { IfOk result (λ ty. judged ty (seen_state state.new) ≡ operators_spec.after_left (L.the language.now) (known.part_in (L.the language.now) right.now).it (operators_spec.method_name operator) place (seen_context context.now) (judged receiver.now (seen_state state.old))) }
{
    let ty = walk.judge(alloc, language, context, state, right)?;
    let mut given = Arguments {
        positional: Items::new(alloc),
        keys: Items::new(alloc),
    };
    given.positional.push(Given {
        ty,
        span: right.span(),
    })?;
    let name = Name::from_str(alloc, method_name(operator))?;
    call_alone(alloc, language, receiver, &name, place, &given, state)
}

/// The type of the call of an operator in front of an operand of this type.
pub fn prefix_call<L: Language>(
    alloc: Global,
    language: &L,
    state: &mut State,
    receiver: &Ty,
    name: &str,
    place: Span,
) -> Result<Ty, NoMemory>
    ensures { IfOk result (λ ty. (c : states_spec.Context Ty) → judged ty (seen_state state.new) ≡ operators_spec.on_operand (L.the language.now) name.now place c (judged receiver.now (seen_state state.old))) }
{
    let given = Arguments {
        positional: Items::new(alloc),
        keys: Items::new(alloc),
    };
    let name = Name::from_str(alloc, name)?;
    call_alone(alloc, language, receiver, &name, place, &given, state)
}

/// Judges an operator in front of its operand.
pub fn unary<W: Walk, L: Language>(
    alloc: Global,
    walk: &W,
    language: &L,
    context: &Context,
    state: &mut State,
    operator: Unary,
    operand: &Tree,
    span: Span,
) -> Result<Ty, NoMemory>
    ensures { IfOk result (λ ty. judged ty (seen_state state.new) ≡ operators_spec.unary_judged (L.the language.now) operator (known.part_in (L.the language.now) operand.now).it span (seen_context context.now) (seen_state state.old)) }
{
    let ty = walk.judge(alloc, language, context, state, operand)?;
    let place = prefix_operator(span);
    match operator {
        Unary::Minus => prefix_call(alloc, language, state, &ty, "-@", place),
        Unary::Plus => prefix_call(alloc, language, state, &ty, "+@", place),
        Unary::Tilde => prefix_call(alloc, language, state, &ty, "~", place),
        Unary::Not => boolean_type(language),
    }
}

/// Judges `a && b`.
fn and<W: Walk, L: Language>(
    alloc: Global,
    walk: &W,
    language: &L,
    context: &Context,
    state: &mut State,
    left: &Tree,
    right: &Tree,
) -> Result<Ty, NoMemory>
    ensures { IfOk result (λ ty. judged ty (seen_state state.new) ≡ operators_spec.and_judged (L.the language.now) (spec.test_of (L.the language.now) left.now) (known.part_in (L.the language.now) left.now).it.declares (spec.judge_of (L.the language.now) right.now) (seen_context context.now) (seen_state state.old)) }
{
    let tested = walk.test(alloc, language, context, state, left)?;
    let inner = after(alloc, language, context, left)?;
    and_right(
        alloc,
        walk,
        language,
        inner.of(context),
        state,
        tested,
        right,
    )
}

/// Judges `a || b`.
fn or<W: Walk, L: Language>(
    alloc: Global,
    walk: &W,
    language: &L,
    context: &Context,
    state: &mut State,
    left: &Tree,
    right: &Tree,
) -> Result<Ty, NoMemory>
    ensures { IfOk result (λ ty. judged ty (seen_state state.new) ≡ operators_spec.or_judged (L.the language.now) (spec.test_of (L.the language.now) left.now) (known.part_in (L.the language.now) left.now).it.declares (spec.judge_of (L.the language.now) right.now) (seen_context context.now) (seen_state state.old)) }
{
    let tested = walk.test(alloc, language, context, state, left)?;
    let inner = after(alloc, language, context, left)?;
    or_right(
        alloc,
        walk,
        language,
        inner.of(context),
        state,
        tested,
        right,
    )
}

/// Judges an operator that is a call.
pub fn called<W: Walk, L: Language>(
    alloc: Global,
    walk: &W,
    language: &L,
    context: &Context,
    state: &mut State,
    operator: Binary,
    place: Span,
    left: &Tree,
    right: &Tree,
) -> Result<Ty, NoMemory>
    ensures { IfOk result (λ ty. judged ty (seen_state state.new) ≡ operators_spec.operator_judged (L.the language.now) (known.part_in (L.the language.now) left.now).it (operators_spec.method_name operator) place (known.part_in (L.the language.now) right.now).it (seen_context context.now) (seen_state state.old)) }
{
    let ty = walk.judge(alloc, language, context, state, left)?;
    let inner = after(alloc, language, context, left)?;
    operator_call(
        alloc,
        walk,
        language,
        inner.of(context),
        state,
        &ty,
        operator,
        place,
        right,
    )
}

/// Judges an operator between two operands.
pub fn binary<W: Walk, L: Language>(
    alloc: Global,
    walk: &W,
    language: &L,
    context: &Context,
    state: &mut State,
    operator: Binary,
    place: Span,
    left: &Tree,
    right: &Tree,
) -> Result<Ty, NoMemory>
    ensures { IfOk result (λ ty. judged ty (seen_state state.new) ≡ operators_spec.binary_judged (L.the language.now) operator place (known.part_in (L.the language.now) left.now) (known.part_in (L.the language.now) right.now) (seen_context context.now) (seen_state state.old)) }
{
    match operator {
        Binary::And => and(alloc, walk, language, context, state, left, right),
        Binary::Or => or(alloc, walk, language, context, state, left, right),
        _ => called(
            alloc, walk, language, context, state, operator, place, left, right,
        ),
    }
}
