//! The ends of branches, and of the clauses of a guard.

ghost use Rattle.std.specs.Prelude.{◌≡◌, IfOk, OnOk};
ghost use Rattle.srb_judgement.specs.Ends as spec;
ghost use Rattle.srb_judgement.specs.Environments.{Silent};
ghost use Rattle.srb_judgement.specs.Sequences.{empty_type};
ghost use Rattle.srb_judgement.specs.States.{judged, moved};
ghost use Rattle.srb_judgement.specs.Views.{seen_ends, seen_environment, seen_state};

use crate::environments::{Environment, joined};
use crate::language::Language;
use crate::states::State;
use crate::types::{any_if, nil_type};
use srb_terms::{NoMemory, Ty};
use std::alloc::Global;

/// The ends so far: the `T.any` of the types of the live ones, and their environments joined.
#[derive(Drop)]
pub struct Ends {
    pub ty: Ty,
    pub environment: Environment,
}

/// No end yet.
pub fn no_ends<L: Language>(language: &L) -> Ends
    ensures { seen_ends result ≡ spec.no_ends (L.the language.now) }
{
    Ends {
        ty: language.never(),
        environment: Environment::Dead,
    }
}

/// With one more end, which has this type and whose environment is taken out of the state.
pub fn with_end<L: Language>(
    alloc: Global,
    language: &L,
    ends: Ends,
    ty: Ty,
    state: &mut State,
) -> Result<Ends, NoMemory>
    ensures ends { IfOk result (λ e. seen_ends e ≡ spec.with_end (L.the language.now) (seen_ends ends) (judged ty (seen_state state.old))) }
    ensures state { OnOk result (seen_state state.new ≡ moved Silent (seen_state state.old)) }
{
    let after = state.take_environment();
    let any = any_if(alloc, language, &ends.ty, after.is_live(), ty)?;
    Ok(Ends {
        ty: any,
        environment: joined(alloc, language, ends.environment, after)?,
    })
}

/// With the end of the first body of a guard, or of its `else`, in front.
pub fn with_first_end<L: Language>(
    alloc: Global,
    language: &L,
    ends: Ends,
    after: Environment,
    ty: Ty,
) -> Result<Ends, NoMemory>
    ensures { IfOk result (λ e. seen_ends e ≡ spec.with_first_end (L.the language.now) (seen_ends ends) (seen_environment after) ty) }
{
    let any = any_if(alloc, language, &ends.ty, after.is_live(), ty)?;
    Ok(Ends {
        ty: any,
        environment: joined(alloc, language, after, ends.environment)?,
    })
}

/// The type of the whole, whose environment is that of its ends.
pub fn all_ends<L: Language>(language: &L, ends: Ends, state: &mut State) -> Ty
    ensures { judged result (seen_state state.new) ≡ spec.all_ends (L.the language.now) (seen_ends ends) (seen_state state.old) }
{
    let Ends { ty, environment } = ends;
    state.environment = environment;
    ty
}

/// The type of a body without a statement, or of a missing `else`, in this environment.
pub fn empty_type<L: Language>(language: &L, environment: &Environment) -> Result<Ty, NoMemory>
    ensures { IfOk result (λ r. r ≡ empty_type (L.the language.now) (seen_environment environment.now)) }
{
    match environment {
        Environment::Live(_) => nil_type(language),
        Environment::Dead => Ok(language.never()),
        Environment::Silent => Ok(language.never()),
    }
}
