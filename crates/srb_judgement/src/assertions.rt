//! The forms of `T` that are no calls.

ghost use Rattle.std.specs.Prelude.{◌≡◌, IfOk, OnOk};
ghost use Rattle.srb_judgement.specs.Assertions as spec;
ghost use Rattle.srb_judgement.specs.Forms as forms;
ghost use Rattle.srb_judgement.specs.States.{State as Passed, judged};
ghost use Rattle.srb_terms.specs.declared.ty.Ty.{Ty};
ghost use Rattle.srb_judgement.specs.Views.{seen_spelling, seen_state};

use crate::built_in::BuiltIn;
use crate::errors::{revealed, wrong_type};
use crate::language::Language;
use crate::spelling::{Count, Spelling};
use crate::states::State;
use srb_terms::{Name, NoMemory, Span, Ty};
use std::alloc::Global;

/// A form of `T`, or a call.
#[derive(Clone, Copy, Debug, PartialEq, Eq)]
pub enum Form {
    /// `T.let(e, X)`.
    Let,
    /// `T.cast(e, X)`.
    Cast,
    /// `T.must(e)`.
    Must,
    /// `T.unsafe(e)`.
    Unsafe,
    /// `T.reveal_type(e)`.
    RevealType,
    /// Any other call.
    Call,
}

/// Whether an operand with this spelling is the constant `T`.
fn is_t(spelling: &Spelling) -> bool
    ensures { result ≡ spec.is_t (seen_spelling spelling.now) }
{
    match spelling {
        Spelling::NameAlone(_) => false,
        Spelling::NilWord => false,
        Spelling::ConstantPath(path) => match path.split() {
            None => false,
            Some((name, rest)) => rest.is_empty() && name.as_str() == "T",
        },
        Spelling::Other => false,
    }
}

/// The form with one argument that has this name.
fn one_named(name: &Name) -> Form
    ensures { result ≡ forms.one_named name.now }
{
    match name.as_str() {
        "must" => Form::Must,
        "unsafe" => Form::Unsafe,
        "reveal_type" => Form::RevealType,
        _ => Form::Call,
    }
}

/// The form with two arguments that has this name.
fn two_named(name: &Name) -> Form
    ensures { result ≡ forms.two_named name.now }
{
    match name.as_str() {
        "let" => Form::Let,
        "cast" => Form::Cast,
        _ => Form::Call,
    }
}

/// The form of `T` that a call by `.` without a block is, by the spelling of its receiver, its name and the number of its arguments.
pub fn form_by(receiver: &Spelling, name: &Name, count: Count) -> Form
    ensures { result ≡ forms.form_by (seen_spelling receiver.now) name.now count }
{
    if is_t(receiver) {
        match count {
            Count::One => one_named(name),
            Count::Two => two_named(name),
            Count::Other => Form::Call,
        }
    } else {
        Form::Call
    }
}

/// `T.let(e, X)`, with the type of X, and the place and the type of e: 7007 unless that is a subtype. It has the type X.
pub fn let_judged<L: Language>(
    alloc: Global,
    language: &L,
    declared: Ty,
    place: Span,
    ty: &Ty,
    state: &mut State,
) -> Result<Ty, NoMemory>
    ensures { IfOk result (λ r. judged r (seen_state state.new) ≡ spec.let_judged (L.the language.now) declared place (judged ty.now (seen_state state.old))) }
{
    if !language.is_sub(ty, &declared) {
        state.error(wrong_type(alloc, language, place, &declared, ty)?)?;
    }
    Ok(declared)
}

/// `T.must(e)`, with the type of e: without `NilClass`.
pub fn must_type<L: Language>(alloc: Global, language: &L, ty: &Ty) -> Result<Ty, NoMemory>
    ensures { IfOk result (λ r. (s : Passed Ty) → judged r s ≡ spec.must_judged (L.the language.now) (judged ty.now s)) }
{
    language.without(alloc, ty, language.built_in(BuiltIn::NilClass))
}

/// `T.reveal_type(e)`, with the place of the whole call and the type of e: 7014.
pub fn reveal<L: Language>(
    alloc: Global,
    language: &L,
    whole: Span,
    ty: &Ty,
    state: &mut State,
) -> Result<(), NoMemory>
    ensures { OnOk result (judged ty.now (seen_state state.new) ≡ spec.reveal_judged (L.the language.now) whole (judged ty.now (seen_state state.old))) }
{
    state.error(revealed(alloc, language, whole, ty)?)
}
