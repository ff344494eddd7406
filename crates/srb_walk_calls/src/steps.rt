//! Steps of the judgement as the walk takes them: with the context around, and the state so far.

ghost use Rattle.std.specs.Prelude.{◌≡◌, None, IfOk, OnOk};
ghost use Rattle.srb_judgement.specs.Assertions as assertions;
ghost use Rattle.srb_judgement.specs.Assignments as assignments;
ghost use Rattle.srb_judgement.specs.Calls as calls;
ghost use Rattle.srb_judgement.specs.Kept.{seen_context};
ghost use Rattle.srb_judgement.specs.States.{judged};
ghost use Rattle.srb_judgement.specs.Views.{seen_arguments, seen_block_judged, seen_state};

use srb_judgement::assertions::must_type;
use srb_judgement::assignments::to_call;
use srb_judgement::blocks::BlockJudged;
use srb_judgement::calls::{block_types, call_alone, call_with_block, or_nil_of};
use srb_judgement::contexts::Context;
use srb_judgement::language::Language;
use srb_judgement::sent::Arguments;
use srb_judgement::states::State;
use srb_terms::{Items, Name, NoMemory, Span, Ty};
use std::alloc::Global;

/// The type of a call without a block.
pub fn alone<L: Language>(
    alloc: Global,
    language: &L,
    context: &Context,
    state: &mut State,
    receiver: &Ty,
    name: &Name,
    name_span: Span,
    given: &Arguments,
) -> Result<Ty, NoMemory>
    ensures { IfOk result (λ ty. judged ty (seen_state state.new) ≡ calls.call_with (L.the language.now) None receiver.now name.now name_span (seen_context context.now) (seen_arguments given.now (seen_state state.old))) }
{
    call_alone(alloc, language, receiver, name, name_span, given, state)
}

/// The types that a call gives to so many parameters of its block.
pub fn types_given<L: Language>(
    alloc: Global,
    language: &L,
    state: &State,
    receiver: &Ty,
    name: &Name,
    name_span: Span,
    given: &Arguments,
    count: usize,
) -> Result<Items<Ty>, NoMemory>
    ensures { IfOk result (λ types. types ≡ calls.types_given (L.the language.now) receiver.now name.now name_span (seen_arguments given.now (seen_state state.now)) count) }
{
    block_types(alloc, language, receiver, name, name_span, given, count)
}

/// The type of a call with a block that was judged.
pub fn with_block<L: Language>(
    alloc: Global,
    language: &L,
    state: &mut State,
    receiver: &Ty,
    name: &Name,
    name_span: Span,
    given: &Arguments,
    count: usize,
    left: BlockJudged,
) -> Result<Ty, NoMemory>
    ensures { IfOk result (λ ty. judged ty (seen_state state.new) ≡ calls.with_block (L.the language.now) receiver.now name.now name_span (seen_arguments given.now (seen_state state.old)) count (seen_block_judged left (seen_state state.old))) }
{
    call_with_block(
        alloc, language, receiver, name, name_span, given, count, left, state,
    )
}

/// The type of a call by `&.`, which has `NilClass` where its receiver had it.
pub fn or_nil<L: Language>(
    alloc: Global,
    language: &L,
    state: &State,
    receiver: &Ty,
    ty: &Ty,
) -> Result<Ty, NoMemory>
    ensures { IfOk result (λ r. judged r (seen_state state.now) ≡ calls.or_nil_of (L.the language.now) receiver.now (judged ty.now (seen_state state.now))) }
{
    or_nil_of(alloc, language, receiver, ty)
}

/// The type of `T.must` of a value of this type.
pub fn must<L: Language>(
    alloc: Global,
    language: &L,
    state: &State,
    ty: &Ty,
) -> Result<Ty, NoMemory>
    ensures { IfOk result (λ r. judged r (seen_state state.now) ≡ assertions.must_judged (L.the language.now) (judged ty.now (seen_state state.now))) }
{
    must_type(alloc, language, ty)
}

/// Calls a method that writes a value of this type, which stands at this place, after these arguments.
pub fn write<L: Language>(
    alloc: Global,
    language: &L,
    context: &Context,
    state: &mut State,
    receiver: &Ty,
    name: &Name,
    name_span: Span,
    given: Arguments,
    place: Span,
    ty: &Ty,
) -> Result<(), NoMemory>
    ensures { OnOk result (judged ty.now (seen_state state.new) ≡ assignments.to_call (L.the language.now) receiver.now name.now name_span (seen_arguments given (seen_state state.old)) place (seen_context context.now) (judged ty.now (seen_state state.old))) }
{
    to_call(
        alloc, language, receiver, name, name_span, given, place, ty, state,
    )
}
