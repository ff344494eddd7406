//! The errors of the judgement, and the levels that show them.

ghost use Rattle.std.specs.Prelude.{◌≡◌, [], ◌++◌, codes, IfOk, OnOk};
ghost use Rattle.srb_judgement.specs.Errors as spec;
ghost use Rattle.srb_judgement.specs.Steps.{added_if, passed};

use crate::language::Language;
use srb_terms::{Diag, Items, Level, Name, NoMemory, Span, Ty, Words};
use std::alloc::Global;

/// 6002: the instance variable at this place isn't declared.
pub fn not_declared(alloc: Global, span: Span, name: &Name) -> Result<Diag, NoMemory>
    ensures { IfOk result (λ d. d ≡ spec.not_declared span name.now) }
{
    let mut text = String::from_str(alloc, "instance variable @")?;
    text.push_str(name.as_str())?;
    text.push_str(" is not declared")?;
    Ok(Diag {
        span,
        number: 6002,
        text: Words::from_string(text)?,
    })
}

/// 7006: the expression at this place is the first one that isn't reached.
pub fn unreachable(alloc: Global, span: Span) -> Result<Diag, NoMemory>
    ensures { IfOk result (λ d. d ≡ spec.unreachable span) }
{
    Ok(Diag {
        span,
        number: 7006,
        text: Words::from_str(alloc, "unreachable code")?,
    })
}

/// 7017: the method whose name stands at this place has no `sig`.
pub fn has_no_sig(alloc: Global, span: Span, name: &Name) -> Result<Diag, NoMemory>
    ensures { IfOk result (λ d. d ≡ spec.has_no_sig span name.now) }
{
    let mut text = String::from_str(alloc, "method ")?;
    text.push_str(name.as_str())?;
    text.push_str(" has no sig")?;
    Ok(Diag {
        span,
        number: 7017,
        text: Words::from_string(text)?,
    })
}

/// 7001: the variable stays at its pinned type, and the value at this place has another one.
pub fn stays<L: Language>(
    alloc: Global,
    language: &L,
    span: Span,
    name: &Name,
    pinned: &Ty,
    found: &Ty,
) -> Result<Diag, NoMemory>
    ensures { IfOk result (λ d. d ≡ spec.stays (L.the language.now) span name.now pinned.now found.now) }
{
    let mut text = String::from_str(alloc, "variable ")?;
    text.push_str(name.as_str())?;
    text.push_str(" stays ")?;
    text.push_str(language.show(alloc, pinned)?.as_str())?;
    text.push_str(" in a loop or block, found ")?;
    text.push_str(language.show(alloc, found)?.as_str())?;
    Ok(Diag {
        span,
        number: 7001,
        text: Words::from_string(text)?,
    })
}

/// 7002: the default value at this place doesn't fit its parameter.
pub fn wrong_default<L: Language>(
    alloc: Global,
    language: &L,
    span: Span,
    parameter: &Name,
    method: &Name,
    expected: &Ty,
    found: &Ty,
) -> Result<Diag, NoMemory>
    ensures { IfOk result (λ d. d ≡ spec.wrong_default (L.the language.now) span parameter.now method.now expected.now found.now) }
{
    let mut text = String::from_str(alloc, "argument ")?;
    text.push_str(parameter.as_str())?;
    text.push_str(" of ")?;
    text.push_str(method.as_str())?;
    text.push_str(" expects ")?;
    text.push_str(language.show(alloc, expected)?.as_str())?;
    text.push_str(", found ")?;
    text.push_str(language.show(alloc, found)?.as_str())?;
    Ok(Diag {
        span,
        number: 7002,
        text: Words::from_string(text)?,
    })
}

/// The text of an error at which a type is expected and another one found.
fn mismatch<L: Language>(
    alloc: Global,
    language: &L,
    start: &str,
    expected: &Ty,
    found: &Ty,
) -> Result<Words, NoMemory>
    ensures { IfOk result (λ w. w ≡ start.now ++ (L.the language.now).show expected.now ++ codes ", found " ++ (L.the language.now).show found.now) }
{
    let mut text = String::from_str(alloc, start)?;
    text.push_str(language.show(alloc, expected)?.as_str())?;
    text.push_str(", found ")?;
    text.push_str(language.show(alloc, found)?.as_str())?;
    Words::from_string(text)
}

/// 7005: the result at this place doesn't fit the signature.
pub fn wrong_result<L: Language>(
    alloc: Global,
    language: &L,
    span: Span,
    expected: &Ty,
    found: &Ty,
) -> Result<Diag, NoMemory>
    ensures { IfOk result (λ d. d ≡ spec.wrong_result (L.the language.now) span expected.now found.now) }
{
    Ok(Diag {
        span,
        number: 7005,
        text: mismatch(alloc, language, "result expects ", expected, found)?,
    })
}

/// 7007: the asserted or assigned expression at this place doesn't fit its type.
pub fn wrong_type<L: Language>(
    alloc: Global,
    language: &L,
    span: Span,
    expected: &Ty,
    found: &Ty,
) -> Result<Diag, NoMemory>
    ensures { IfOk result (λ d. d ≡ spec.wrong_type (L.the language.now) span expected.now found.now) }
{
    Ok(Diag {
        span,
        number: 7007,
        text: mismatch(alloc, language, "expected ", expected, found)?,
    })
}

/// 7014: the type of what the call at this place reveals.
pub fn revealed<L: Language>(
    alloc: Global,
    language: &L,
    span: Span,
    ty: &Ty,
) -> Result<Diag, NoMemory>
    ensures { IfOk result (λ d. d ≡ spec.revealed (L.the language.now) span ty.now) }
{
    let mut text = String::from_str(alloc, "type is ")?;
    text.push_str(language.show(alloc, ty)?.as_str())?;
    Ok(Diag {
        span,
        number: 7014,
        text: Words::from_string(text)?,
    })
}

/// Whether a level shows errors that are shown from `true` on.
fn is_from_true(level: Level) -> bool
    ensures { result ≡ spec.from_true level }
{
    match level {
        Level::Ignore => false,
        Level::False => false,
        Level::True => true,
        Level::Strict => true,
        Level::Strong => true,
    }
}

/// Whether a level shows errors that are shown from `strict` on.
fn is_from_strict(level: Level) -> bool
    ensures { result ≡ spec.from_strict level }
{
    match level {
        Level::Ignore => false,
        Level::False => false,
        Level::True => false,
        Level::Strict => true,
        Level::Strong => true,
    }
}

/// Whether a level shows errors that are shown at `strong` alone.
fn is_from_strong(level: Level) -> bool
    ensures { result ≡ spec.from_strong level }
{
    match level {
        Level::Ignore => false,
        Level::False => false,
        Level::True => false,
        Level::Strict => false,
        Level::Strong => true,
    }
}

/// Whether a level shows an error of the judgement with this number.
pub fn is_shown(level: Level, number: u16) -> bool
    ensures { result ≡ spec.is_shown level number }
{
    if number == 7018 {
        is_from_strong(level)
    } else if number == 6002 {
        is_from_strict(level)
    } else if number == 7017 {
        is_from_strict(level)
    } else {
        is_from_true(level)
    }
}

/// Adds an error where a level shows it.
fn show(level: Level, error: &Diag, shown: &mut Items<Diag>) -> Result<(), NoMemory>
    ensures { OnOk result (shown.new ≡ added_if (spec.is_shown level error.now.number) shown.old error.now) }
{
    if is_shown(level, error.number) {
        shown.push(error.copied()?)
    } else {
        Ok(())
    }
}

/// The errors that a level shows, one after the other.
fn all_shown(alloc: Global, level: Level, errors: &[Diag]) -> Result<Items<Diag>, NoMemory>
    ensures { IfOk result (λ shown. shown ≡ passed (λ e. spec.is_shown level e.number) [] errors.now) }
{
    let mut shown = Items::new(alloc);
    'errors: for error in errors {
        show(level, error, &mut shown)?;
    }
    Ok(shown)
}

/// The errors that a level shows, in order.
pub fn shown_errors(alloc: Global, level: Level, errors: &[Diag]) -> Result<Items<Diag>, NoMemory>
    ensures { IfOk result (λ shown. shown ≡ spec.shown_errors level errors.now) }
{
    all_shown(alloc, level, errors)
}
