//! Assignments, whose values were judged.

ghost use Rattle.std.specs.Prelude.{◌≡◌, [], ◌∷◌, ◌++◌, IfOk, OnOk};
ghost use Rattle.std.specs.Option.{option_copied};
ghost use Rattle.srb_terms.specs.declared.ty.Ty.{Ty};
ghost use Rattle.srb_judgement.specs.Assignments as spec;
ghost use Rattle.srb_judgement.specs.Kept.{AtEach};
ghost use Rattle.srb_judgement.specs.States.{Context as Around, State as Passed, judged};
ghost use Rattle.srb_judgement.specs.Views.{seen_arguments, seen_state};

use crate::calls::call_alone;
use crate::contexts::Context;
use crate::errors::wrong_type;
use crate::language::Language;
use crate::pins::assign;
use crate::sent::{Arguments, Given};
use crate::states::State;
use srb_terms::{Name, NoMemory, Span, Ty};
use std::alloc::Global;

/// The name of the method that writes the attribute with this name.
pub fn writer(alloc: Global, name: &Name) -> Result<Name, NoMemory>
    ensures { IfOk result (λ n. n ≡ spec.writer name.now) }
{
    let mut text = String::from_str(alloc, name.as_str())?;
    text.push_str("=")?;
    Name::from_string(text)
}

/// Assigns a value of this type, which stands at this place, to a variable.
pub fn to_variable<L: Language>(
    alloc: Global,
    language: &L,
    context: &Context,
    name: &Name,
    place: Span,
    ty: &Ty,
    state: &mut State,
) -> Result<(), NoMemory>
    ensures { OnOk result (AtEach context.now (λ c. judged ty.now (seen_state state.new) ≡ spec.to_variable (L.the language.now) name.now place c (judged ty.now (seen_state state.old)))) }
{
    assign(alloc, language, context, name, ty, place, state)
}

/// Checks a value of this type, which stands at this place, against a declared type, if there is one: 7007 unless it is a subtype.
pub fn check_by<L: Language>(
    alloc: Global,
    language: &L,
    declared: Option<&Ty>,
    place: Span,
    ty: &Ty,
    state: &mut State,
) -> Result<(), NoMemory>
    ensures { OnOk result (judged ty.now (seen_state state.new) ≡ spec.checked_by (L.the language.now) (option_copied declared.entry) place (judged ty.now (seen_state state.old))) }
{
    match declared {
        None => Ok(()),
        Some(expected) => {
            if language.is_sub(ty, expected) {
                Ok(())
            } else {
                state.error(wrong_type(alloc, language, place, expected, ty)?)
            }
        }
    }
}

/// Checks a value of this type, which stands at this place, against the declared type of an instance variable of this class or module, or
/// of its class object, if `meta`.
fn check_variable<L: Language>(
    alloc: Global,
    language: &L,
    owner: &Name,
    meta: bool,
    name: &Name,
    place: Span,
    ty: &Ty,
    state: &mut State,
) -> Result<(), NoMemory>
    ensures { OnOk result (judged ty.now (seen_state state.new) ≡ spec.checked_by (L.the language.now) ((L.the language.now).instance_variable owner.now meta name.now) place (judged ty.now (seen_state state.old))) }
{
    let declared = language.instance_variable(alloc, owner, meta, name)?;
    check_by(alloc, language, declared.as_ref(), place, ty, state)
}

/// Assigns a value of this type, which stands at this place, to an instance variable.
pub fn to_instance_variable<L: Language>(
    alloc: Global,
    language: &L,
    context: &Context,
    name: &Name,
    place: Span,
    ty: &Ty,
    state: &mut State,
) -> Result<(), NoMemory>
    ensures { OnOk result (AtEach context.now (λ c. judged ty.now (seen_state state.new) ≡ spec.to_instance_variable (L.the language.now) name.now place c (judged ty.now (seen_state state.old)))) }
{
    check_variable(
        alloc,
        language,
        &context.owner,
        context.meta,
        name,
        place,
        ty,
        state,
    )
}

/// Arguments with a value of this type, which stands at this place, after them.
fn with_value(arguments: Arguments, place: Span, ty: &Ty) -> Result<Arguments, NoMemory>
    ensures positional { IfOk result (λ all. all.positional ≡ arguments.positional ++ record { ty = ty.now; span = place } ∷ []) }
    ensures keys { IfOk result (λ all. all.keys ≡ arguments.keys) }
{
    let Arguments {
        mut positional,
        keys,
    } = arguments;
    positional.push(Given {
        ty: ty.copied()?,
        span: place,
    })?;
    Ok(Arguments { positional, keys })
}

/// Calls a method that writes a value of this type, which stands at this place, after these arguments.
pub fn to_call<L: Language>(
    alloc: Global,
    language: &L,
    receiver: &Ty,
    name: &Name,
    name_span: Span,
    arguments: Arguments,
    place: Span,
    ty: &Ty,
    state: &mut State,
) -> Result<(), NoMemory>
    ensures { OnOk result ((c : Around Ty) (s : Passed Ty) → judged ty.now (seen_state state.new) ≡ spec.to_call (L.the language.now) receiver.now name.now name_span (seen_arguments arguments s) place c (judged ty.now (seen_state state.old))) }
{
    let all = with_value(arguments, place, ty)?;
    let _answer = call_alone(alloc, language, receiver, name, name_span, &all, state)?;
    Ok(())
}
