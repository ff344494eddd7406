//! Type expressions by themselves.

ghost use Rattle.std.specs.Prelude.{◌≡◌, List, IfOk, MatchResult};
ghost use Rattle.srb_rules.specs.Standing.{Stands};
ghost use Rattle.srb_terms.specs.declared.fact.Fact.{Fact};
ghost use Rattle.srb_sig.specs.Types as spec;
ghost use Rattle.srb_sig.specs.Views.{view_at, view_of};

use crate::expressions::read;
use crate::reading::{Read, none_yet};
use crate::wrong::{Cause, TyEnd, WrongPart};
use srb_terms::{Items, Names, NoMemory, Ty, TyText, World};
use std::alloc::Global;

/// An expression by itself.
#[tactic(auto, unfolding(crate::specs::Types::read_alone))]
fn read_alone(alloc: Global, w: &World, scope: &Names, t: &TyText) -> Result<Read, NoMemory>
    ensures { IfOk result (λ r. r ≡ spec.read_alone (view_at w.now) scope.now t.now.tree) }
{
    read(&t.tree, alloc, w, scope, none_yet(alloc))
}

/// Its wrong parts, by what the table holds.
fn wrong_in(
    alloc: Global,
    w: &World,
    scope: &Names,
    t: &TyText,
) -> Result<Items<WrongPart>, NoMemory>
    ensures { IfOk result (λ ps. ps ≡ spec.wrong_parts (view_at w.now) scope.now t.now.tree) }
{
    Ok(read_alone(alloc, w, scope, t)?.notes.wrong)
}

/// The wrong parts of a type expression in the body with this scope, by rising numbers. Its parts are the expression itself and those of
/// the type expressions that stand in it, numbered from 0, each before those in it. It fails at 2^32 parts.
pub fn wrong_parts(
    alloc: Global,
    w: &World,
    scope: &Names,
    t: &TyText,
) -> Result<Items<WrongPart>, NoMemory>
    ensures table { IfOk result (λ ps. ps ≡ spec.wrong_parts (view_at w.now) scope.now t.now.tree) }
    ensures facts { (fs : List Fact) → Stands w.now fs → IfOk result (λ ps. ps ≡ spec.wrong_parts (view_of fs) scope.now t.now.tree) }
{
    wrong_in(alloc, w, scope, t)
}

/// Its type, or why it has none, by what the table holds.
fn type_in(alloc: Global, w: &World, scope: &Names, t: &TyText) -> Result<Ty, TyEnd>
    ensures { MatchResult result (spec.HasType (view_at w.now) scope.now t.now.tree) (spec.IsTyEnd (view_at w.now) scope.now t.now.tree) }
{
    let Read { ty, notes } = read_alone(alloc, w, scope, t)?;
    match notes.wrong.as_slice() {
        [] => Ok(ty),
        [first, ..] => Err(match first.cause {
            Cause::Unresolved => TyEnd::Unresolved { part: first.part },
            Cause::Malformed => TyEnd::Malformed { part: first.part },
        }),
    }
}

/// The type of a type expression in the body with this scope: the list of the full names of the enclosing bodies, the innermost first.
/// An error names the first wrong part. Where the table stands for some facts, this is what the rules say of these facts.
pub fn read_type(alloc: Global, w: &World, scope: &Names, t: &TyText) -> Result<Ty, TyEnd>
    ensures table { MatchResult result (spec.HasType (view_at w.now) scope.now t.now.tree) (spec.IsTyEnd (view_at w.now) scope.now t.now.tree) }
    ensures facts { (fs : List Fact) → Stands w.now fs → MatchResult result (spec.HasType (view_of fs) scope.now t.now.tree) (spec.IsTyEnd (view_of fs) scope.now t.now.tree) }
{
    type_in(alloc, w, scope, t)
}

/// The type or `T.untyped`, by what the table holds.
fn known_in(alloc: Global, w: &World, scope: &Names, t: &TyText) -> Result<Ty, NoMemory>
    ensures { IfOk result (λ u. u ≡ spec.type_of (view_at w.now) scope.now t.now.tree) }
{
    let Read { ty, notes } = read_alone(alloc, w, scope, t)?;
    match notes.wrong.as_slice() {
        [] => Ok(ty),
        _ => Ok(Ty::Untyped),
    }
}

/// The type of a type expression in the body with this scope, where one with a wrong part counts as `T.untyped` as a whole.
pub fn type_or_untyped(alloc: Global, w: &World, scope: &Names, t: &TyText) -> Result<Ty, NoMemory>
    ensures table { IfOk result (λ u. u ≡ spec.type_of (view_at w.now) scope.now t.now.tree) }
    ensures facts { (fs : List Fact) → Stands w.now fs → IfOk result (λ u. u ≡ spec.type_of (view_of fs) scope.now t.now.tree) }
{
    known_in(alloc, w, scope, t)
}
