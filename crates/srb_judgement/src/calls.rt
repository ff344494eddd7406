//! Calls, whose receivers, arguments and blocks were judged.

ghost use Rattle.std.specs.Prelude.{◌≡◌, None, Some, IfOk, OnOk};
ghost use Rattle.srb_terms.specs.declared.ty.Ty.{Ty};
ghost use Rattle.srb_judgement.specs.Calls as spec;
ghost use Rattle.srb_judgement.specs.States.{Context as Around, State as Passed, judged};
ghost use Rattle.srb_judgement.specs.Types.{nil_type};
ghost use Rattle.srb_judgement.specs.Views.{seen_answer, seen_arguments, seen_block_judged, seen_environment, seen_state};

use crate::blocks::BlockJudged;
use crate::built_in::BuiltIn;
use crate::environments::{Environment, joined};
use crate::language::Language;
use crate::sent::{Answer, Arguments, GivenBlock};
use crate::states::State;
use crate::types::{any_after, any_if, has_nil, nil_type};
use srb_terms::{Items, Name, NoMemory, Span, Ty};
use std::alloc::Global;

/// The type of a call that was answered, with the types of its block's `break`s.
fn answered<L: Language>(
    alloc: Global,
    language: &L,
    answer: Answer,
    breaks: &[Ty],
    state: &mut State,
) -> Result<Ty, NoMemory>
    ensures { IfOk result (λ r. judged r (seen_state state.new) ≡ spec.answered (L.the language.now) (seen_answer answer) breaks.now (seen_state state.old)) }
{
    let Answer {
        result: ty,
        block: _,
        errors,
    } = answer;
    state.more_errors(errors)?;
    any_after(alloc, language, ty, breaks)
}

/// The type of a call without a block.
pub fn call_alone<L: Language>(
    alloc: Global,
    language: &L,
    receiver: &Ty,
    name: &Name,
    name_span: Span,
    arguments: &Arguments,
    state: &mut State,
) -> Result<Ty, NoMemory>
    ensures { IfOk result (λ r. (c : Around Ty) → judged r (seen_state state.new) ≡ spec.call_with (L.the language.now) None receiver.now name.now name_span c (seen_arguments arguments.now (seen_state state.old))) }
{
    let answer = language.call(alloc, receiver, name, name_span, arguments, None)?;
    answered(alloc, language, answer, &[], state)
}

/// The types that a call gives to the parameters of its block.
pub fn block_types<L: Language>(
    alloc: Global,
    language: &L,
    receiver: &Ty,
    name: &Name,
    name_span: Span,
    arguments: &Arguments,
    count: usize,
) -> Result<Items<Ty>, NoMemory>
    ensures { IfOk result (λ types. (s : Passed Ty) → types ≡ spec.types_given (L.the language.now) receiver.now name.now name_span (seen_arguments arguments.now s) count) }
{
    let block = GivenBlock {
        names: count,
        ty: language.untyped(),
    };
    let Answer {
        result: _,
        block: types,
        errors: _,
    } = language.call(alloc, receiver, name, name_span, arguments, Some(&block))?;
    Ok(types)
}

/// The type of a call with a block that has so many parameters and was judged.
pub fn call_with_block<L: Language>(
    alloc: Global,
    language: &L,
    receiver: &Ty,
    name: &Name,
    name_span: Span,
    arguments: &Arguments,
    count: usize,
    judged_block: BlockJudged,
    state: &mut State,
) -> Result<Ty, NoMemory>
    ensures { IfOk result (λ r. (s : Passed Ty) → judged r (seen_state state.new) ≡ spec.with_block (L.the language.now) receiver.now name.now name_span (seen_arguments arguments.now s) count (seen_block_judged judged_block (seen_state state.old))) }
{
    let BlockJudged { ty, breaks } = judged_block;
    let block = GivenBlock { names: count, ty };
    let answer = language.call(alloc, receiver, name, name_span, arguments, Some(&block))?;
    answered(alloc, language, answer, breaks.as_slice(), state)
}

/// After a call by `&.`, the environment is the join of those before and after its arguments.
pub fn join_before<L: Language>(
    alloc: Global,
    language: &L,
    before: Environment,
    ty: &Ty,
    state: &mut State,
) -> Result<(), NoMemory>
    ensures { OnOk result (judged ty.now (seen_state state.new) ≡ spec.joined_before (L.the language.now) (seen_environment before) (judged ty.now (seen_state state.old))) }
{
    let after = state.take_environment();
    state.environment = joined(alloc, language, before, after)?;
    Ok(())
}

/// The type of a call by `&.`, which also has `NilClass` where the receiver's type has it.
pub fn or_nil_of<L: Language>(
    alloc: Global,
    language: &L,
    receiver: &Ty,
    ty: &Ty,
) -> Result<Ty, NoMemory>
    ensures { IfOk result (λ r. (s : Passed Ty) → judged r s ≡ spec.or_nil_of (L.the language.now) receiver.now (judged ty.now s)) }
{
    let nil = nil_type(language)?;
    any_if(alloc, language, ty, has_nil(language, receiver), nil)
}

/// What is left of the receiver's type of a call by `&.`: it without `NilClass`.
pub fn left_of<L: Language>(alloc: Global, language: &L, receiver: &Ty) -> Result<Ty, NoMemory>
    ensures { IfOk result (λ r. r ≡ (L.the language.now).without receiver.now (nil_type (L.the language.now))) }
{
    language.without(alloc, receiver, language.built_in(BuiltIn::NilClass))
}
