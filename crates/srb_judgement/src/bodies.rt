//! Bodies: the contexts in which they are judged, their parameters, and their ends.

ghost use Rattle.std.specs.Prelude.{◌≡◌, map, IfOk, OnOk};
ghost use Rattle.std.specs.Option.{option_copied};
ghost use Rattle.srb_judgement.specs.Bodies as spec;
ghost use Rattle.srb_judgement.specs.Kept.{SameContext};
ghost use Rattle.srb_judgement.specs.States.{judged};
ghost use Rattle.srb_judgement.specs.Views.{seen_environment, seen_state, seen_typed};

use crate::built_in::BuiltIn;
use crate::contexts::Context;
use crate::environments::{Environment, joined};
use crate::errors::{has_no_sig, wrong_default};
use crate::jumps::check_result;
use crate::language::Language;
use crate::signature::Typed;
use crate::states::State;
use crate::visible::Visible;
use rb_tree::syntax::PlacedName;
use srb_terms::{Diag, Items, Name, Names, NoMemory, Span, Ty};
use std::alloc::Global;

// ---- names

/// The class or module whose body is around; at top level `Object`.
pub fn owner_of(alloc: Global, scope: &Names) -> Result<Name, NoMemory>
    ensures { IfOk result (λ n. n ≡ spec.owner_of scope.now) }
{
    match scope.split() {
        None => Name::from_str(alloc, "Object"),
        Some((name, _)) => name.copied(),
    }
}

/// The names of a path joined by `::`.
fn path_name(alloc: Global, path: &[PlacedName]) -> Result<Name, NoMemory>
    ensures { IfOk result (λ n. n ≡ spec.path_name path.now) }
{
    match path {
        [] => Name::from_str(alloc, ""),
        [first, rest @ ..] => {
            let mut text = String::from_str(alloc, first.name.as_str())?;
            'rest: for name in rest {
                text.push_str("::")?;
                text.push_str(name.name.as_str())?;
            }
            Name::from_string(text)
        }
    }
}

/// The full name of the class or module that a path declares in a scope.
pub fn declared_name(alloc: Global, scope: &Names, path: &[PlacedName]) -> Result<Name, NoMemory>
    ensures { IfOk result (λ n. n ≡ spec.declared_name scope.now path.now) }
{
    let last = path_name(alloc, path)?;
    match scope.split() {
        None => Ok(last),
        Some((around, _)) => {
            let mut text = String::from_str(alloc, around.as_str())?;
            text.push_str("::")?;
            text.push_str(last.as_str())?;
            Name::from_string(text)
        }
    }
}

// ---- contexts

/// A context in which nothing is pinned and nothing visible. It takes no memory.
fn bare(
    alloc: Global,
    self_type: Ty,
    scope: Names,
    owner: Name,
    meta: bool,
    checked: Option<Ty>,
) -> Context
    ensures { SameContext result (spec.bare_context self_type scope owner meta checked) }
{
    Context {
        self_type,
        scope,
        owner,
        meta,
        result: checked,
        inside: false,
        looping: false,
        pins: Items::new(alloc),
        visible: Visible::new(),
    }
}

/// The context of the program.
pub fn program_context<L: Language>(alloc: Global, language: &L) -> Result<Context, NoMemory>
    ensures { IfOk result (λ x. SameContext x (spec.program_context (L.the language.now))) }
{
    let object = language.built_in(BuiltIn::Object).copied()?;
    let owner = Name::from_str(alloc, "Object")?;
    Ok(bare(alloc, object, Names::new(), owner, false, None))
}

/// The context of the body of a class or module with this full name, in the bodies `scope`, of which it is the innermost.
pub fn class_context<L: Language>(
    alloc: Global,
    language: &L,
    name: &Name,
    scope: Names,
) -> Result<Context, NoMemory>
    ensures { IfOk result (λ x. SameContext x (spec.class_context (L.the language.now) name.now scope)) }
{
    let object = language.class_object(alloc, name)?;
    Ok(bare(alloc, object, scope, name.copied()?, true, None))
}

/// The type of `self` in a method of the owner, or of its class object, if `own`.
fn own_self<L: Language>(
    alloc: Global,
    language: &L,
    own: bool,
    owner: &Name,
) -> Result<Ty, NoMemory>
    ensures { IfOk result (λ t. t ≡ spec.own_self (L.the language.now) own owner.now) }
{
    if own {
        language.class_object(alloc, owner)
    } else {
        language.instance(alloc, owner)
    }
}

/// The context of a method in the bodies `scope`, whose results are checked against a type, if there is one. It is one of the class object,
/// if `own`.
pub fn method_context<L: Language>(
    alloc: Global,
    language: &L,
    own: bool,
    scope: Names,
    checked: Option<Ty>,
) -> Result<Context, NoMemory>
    ensures { IfOk result (λ x. SameContext x (spec.method_context (L.the language.now) own scope checked)) }
{
    let owner = owner_of(alloc, &scope)?;
    let object = own_self(alloc, language, own, &owner)?;
    Ok(bare(alloc, object, scope, owner, own, checked))
}

// ---- parameters

/// The type that a signature gives to a parameter: `T.untyped` where it gives none.
pub fn param_type<L: Language>(language: &L, params: &[Typed], name: &Name) -> Result<Ty, NoMemory>
    ensures { IfOk result (λ t. t ≡ spec.param_type (L.the language.now) (map seen_typed params.now) name.now) }
{
    'params: for param in params {
        if param.name.as_str() == name.as_str() {
            return param.ty.copied();
        }
    }
    Ok(language.untyped())
}

/// Goes after the default value of a parameter, which has this type and stands at this place, with the type of the parameter and the
/// environment before it.
pub fn leave_default<L: Language>(
    alloc: Global,
    language: &L,
    method: &Name,
    parameter: &Name,
    expected: &Ty,
    place: Span,
    before: Environment,
    ty: &Ty,
    state: &mut State,
) -> Result<(), NoMemory>
    ensures { OnOk result (seen_state state.new ≡ spec.default_left (L.the language.now) method.now parameter.now expected.now place (seen_environment before) (judged ty.now (seen_state state.old))) }
{
    let after = state.take_environment();
    state.environment = joined(alloc, language, before, after)?;
    if language.is_sub(ty, expected) {
        Ok(())
    } else {
        state.error(wrong_default(alloc, language, place, parameter, method, expected, ty)?)
    }
}

// ---- ends

/// 7017, where there is no `sig` before the method whose name stands at this place.
pub fn sig_errors(
    alloc: Global,
    has_sig: bool,
    name: &Name,
    span: Span,
) -> Result<Items<Diag>, NoMemory>
    ensures { IfOk result (λ errors. errors ≡ spec.sig_missing has_sig name.now span) }
{
    let mut errors = Items::new(alloc);
    if !has_sig {
        errors.push(has_no_sig(alloc, span, name)?)?;
    }
    Ok(errors)
}

/// The errors of a method whose last expression has this type and stands at this place. The result is checked where the end is reached.
pub fn method_end<L: Language>(
    alloc: Global,
    language: &L,
    checked: Option<&Ty>,
    place: Span,
    ty: &Ty,
    state: State,
) -> Result<Items<Diag>, NoMemory>
    ensures { IfOk result (λ errors. errors ≡ spec.method_end (L.the language.now) (option_copied checked.entry) place (judged ty.now (seen_state state))) }
{
    let mut end = state;
    if end.environment.is_live() {
        check_result(alloc, language, checked, place, ty, &mut end)?;
    }
    Ok(end.errors)
}
