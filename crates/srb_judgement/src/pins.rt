//! Assignments to variables that are pinned, and to those that aren't.

ghost use Rattle.std.specs.Prelude.{◌≡◌, OnOk};
ghost use Rattle.std.specs.Option.{option_copied};
ghost use Rattle.srb_judgement.specs.Kept.{AtEach};
ghost use Rattle.srb_judgement.specs.Pins as spec;
ghost use Rattle.srb_judgement.specs.Views.{seen_state};

use crate::contexts::Context;
use crate::errors::stays;
use crate::language::Language;
use crate::states::State;
use srb_terms::{Name, NoMemory, Span, Ty};
use std::alloc::Global;

/// Gives a variable a type, with its pinned type, if it has one.
fn assigned_by<L: Language>(
    alloc: Global,
    language: &L,
    pinned: Option<&Ty>,
    name: &Name,
    ty: &Ty,
    place: Span,
    state: &mut State,
) -> Result<(), NoMemory>
    ensures { OnOk result (seen_state state.new ≡ spec.assigned_by (L.the language.now) (option_copied pinned.entry) name.now ty.now place (seen_state state.old)) }
{
    match pinned {
        None => state.give(name, ty.copied()?),
        Some(pin) => {
            if language.is_sub(ty, pin) {
                state.give(name, ty.copied()?)
            } else {
                state.give(name, pin.copied()?)?;
                state.error(stays(alloc, language, place, name, pin, ty)?)
            }
        }
    }
}

/// Assigns a value of this type, which stands at this place, to a variable. A pinned variable keeps its type where the value doesn't fit.
pub fn assign<L: Language>(
    alloc: Global,
    language: &L,
    context: &Context,
    name: &Name,
    ty: &Ty,
    place: Span,
    state: &mut State,
) -> Result<(), NoMemory>
    ensures { OnOk result (AtEach context.now (λ c. seen_state state.new ≡ spec.assign (L.the language.now) c name.now ty.now place (seen_state state.old))) }
{
    assigned_by(
        alloc,
        language,
        context.pinned(name),
        name,
        ty,
        place,
        state,
    )
}
