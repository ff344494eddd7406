//! Literals, constants, variables and instance variables.

ghost use Rattle.std.specs.Prelude.{◌≡◌, IfOk};
ghost use Rattle.srb_judgement.specs.Kept.{AtEach};
ghost use Rattle.srb_judgement.specs.States.{judged};
ghost use Rattle.srb_judgement.specs.Views.{seen_environment, seen_meaning, seen_state};
ghost use Rattle.srb_judgement.specs.Words as spec;

use crate::contexts::Context;
use crate::environments::{Environment, variable_type};
use crate::errors::not_declared;
use crate::language::Language;
use crate::meaning::Meaning;
use crate::states::State;
use crate::types::any_of;
use srb_terms::{Name, Names, NoMemory, Span, Ty};
use std::alloc::Global;

/// The type of the elements of an array literal, or of the keys or values of a hash literal: their `T.any`, or `T.untyped` where there is
/// none.
pub fn element_type<L: Language>(alloc: Global, language: &L, types: &[Ty]) -> Result<Ty, NoMemory>
    ensures { IfOk result (λ r. r ≡ spec.element_type (L.the language.now) types.now) }
{
    match types {
        [] => Ok(language.untyped()),
        [_, ..] => any_of(alloc, language, types),
    }
}

/// The type of a constant that means this.
fn type_meant<L: Language>(alloc: Global, language: &L, meaning: Meaning) -> Result<Ty, NoMemory>
    ensures { IfOk result (λ r. r ≡ spec.constant_type (L.the language.now) (seen_meaning meaning)) }
{
    match meaning {
        Meaning::Class(name) => language.class_object(alloc, &name),
        Meaning::Module(name) => language.class_object(alloc, &name),
        Meaning::Value(ty) => Ok(ty),
        Meaning::Unresolved => Ok(language.untyped()),
    }
}

/// The type of the constant with this path, in the bodies `scope`.
pub fn constant_type<L: Language>(
    alloc: Global,
    language: &L,
    scope: &Names,
    path: &Names,
) -> Result<Ty, NoMemory>
    ensures { IfOk result (λ r. r ≡ spec.constant_type (L.the language.now) ((L.the language.now).meaning scope.now path.now)) }
{
    let meaning = language.meaning(alloc, scope, path)?;
    type_meant(alloc, language, meaning)
}

/// The type of a variable in this environment.
pub fn type_at<L: Language>(
    language: &L,
    environment: &Environment,
    name: &Name,
) -> Result<Ty, NoMemory>
    ensures { IfOk result (λ r. r ≡ spec.type_at (L.the language.now) (seen_environment environment.now) name.now) }
{
    match environment {
        Environment::Live(rows) => variable_type(language, rows, name).copied(),
        Environment::Dead => Ok(language.never()),
        Environment::Silent => Ok(language.never()),
    }
}

/// The declared type of an instance variable, or `T.untyped` and 6002 where there is none.
fn declared_or<L: Language>(
    alloc: Global,
    language: &L,
    declared: Option<Ty>,
    name: &Name,
    span: Span,
    state: &mut State,
) -> Result<Ty, NoMemory>
    ensures { IfOk result (λ r. judged r (seen_state state.new) ≡ spec.declared_or (L.the language.now) declared name.now span (seen_state state.old)) }
{
    match declared {
        Some(ty) => Ok(ty),
        None => {
            state.error(not_declared(alloc, span, name)?)?;
            Ok(language.untyped())
        }
    }
}

/// The type of the instance variable at this place, of this class or module, or of its class object, if `meta`.
fn variable_of<L: Language>(
    alloc: Global,
    language: &L,
    owner: &Name,
    meta: bool,
    name: &Name,
    span: Span,
    state: &mut State,
) -> Result<Ty, NoMemory>
    ensures { IfOk result (λ r. judged r (seen_state state.new) ≡ spec.declared_or (L.the language.now) ((L.the language.now).instance_variable owner.now meta name.now) name.now span (seen_state state.old)) }
{
    let declared = language.instance_variable(alloc, owner, meta, name)?;
    declared_or(alloc, language, declared, name, span, state)
}

/// The type of the instance variable at this place.
pub fn instance_variable<L: Language>(
    alloc: Global,
    language: &L,
    context: &Context,
    name: &Name,
    span: Span,
    state: &mut State,
) -> Result<Ty, NoMemory>
    ensures { IfOk result (λ r. AtEach context.now (λ c. judged r (seen_state state.new) ≡ spec.instance_variable (L.the language.now) name.now span c (seen_state state.old))) }
{
    variable_of(
        alloc,
        language,
        &context.owner,
        context.meta,
        name,
        span,
        state,
    )
}
