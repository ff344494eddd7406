//! The texts of errors of calls.

ghost use Rattle.std.specs.Prelude.{◌≡◌, [], ◌∷◌, ◌++◌, string_bytes, IfOk};
ghost use Rattle.srb_calls.specs.Messages as spec;

use srb_terms::{Diag, Items, NoMemory, Span, Words};
use std::alloc::Global;

// Two texts.
fn begun(alloc: Global, start: &str, rest: &str) -> Result<String, NoMemory>
    ensures { IfOk result (λ s. string_bytes s ≡ start.now ++ rest.now) }
{
    let mut text = String::from_str(alloc, start)?;
    text.push_str(rest)?;
    Ok(text)
}

// A text with two more after it.
fn followed(so_far: String, middle: &str, rest: &str) -> Result<String, NoMemory>
    ensures { IfOk result (λ s. string_bytes s ≡ string_bytes so_far ++ middle.now ++ rest.now) }
{
    let mut text = so_far;
    text.push_str(middle)?;
    text.push_str(rest)?;
    Ok(text)
}

/// An argument that isn't of its parameter's type.
pub(crate) fn wrong_argument(
    alloc: Global,
    p: &str,
    m: &str,
    expected: &str,
    found: &str,
) -> Result<Words, NoMemory>
    ensures { IfOk result (λ words. words ≡ spec.wrong_argument p.now m.now expected.now found.now) }
{
    let text = begun(alloc, "argument ", p)?;
    let text = followed(text, " of ", m)?;
    let text = followed(text, " expects ", expected)?;
    let text = followed(text, ", found ", found)?;
    Words::from_string(text)
}

/// A method that isn't there.
pub(crate) fn missing_method(alloc: Global, m: &str, t: &str) -> Result<Words, NoMemory>
    ensures { IfOk result (λ words. words ≡ spec.missing_method m.now t.now) }
{
    let text = begun(alloc, "method ", m)?;
    let text = followed(text, " does not exist on ", t)?;
    Words::from_string(text)
}

/// Too few arguments.
pub(crate) fn too_few(alloc: Global, m: &str) -> Result<Words, NoMemory>
    ensures { IfOk result (λ words. words ≡ spec.too_few m.now) }
{
    Words::from_string(begun(alloc, "too few arguments for ", m)?)
}

/// Too many arguments.
pub(crate) fn too_many(alloc: Global, m: &str) -> Result<Words, NoMemory>
    ensures { IfOk result (λ words. words ≡ spec.too_many m.now) }
{
    Words::from_string(begun(alloc, "too many arguments for ", m)?)
}

/// A keyword that no parameter has.
pub(crate) fn unknown_keyword(alloc: Global, k: &str, m: &str) -> Result<Words, NoMemory>
    ensures { IfOk result (λ words. words ≡ spec.unknown_keyword k.now m.now) }
{
    let text = begun(alloc, "unknown keyword ", k)?;
    Words::from_string(followed(text, " for ", m)?)
}

/// A keyword that is left out.
pub(crate) fn missing_keyword(alloc: Global, k: &str, m: &str) -> Result<Words, NoMemory>
    ensures { IfOk result (λ words. words ≡ spec.missing_keyword k.now m.now) }
{
    let text = begun(alloc, "missing keyword ", k)?;
    Words::from_string(followed(text, " for ", m)?)
}

/// A call on `T.untyped`.
pub(crate) fn untyped_receiver(alloc: Global, m: &str) -> Result<Words, NoMemory>
    ensures { IfOk result (λ words. words ≡ spec.untyped_receiver m.now) }
{
    let mut text = begun(alloc, "call of ", m)?;
    text.push_str(" on an untyped receiver")?;
    Words::from_string(text)
}

/// The errors with one more.
pub(crate) fn with_error(
    errors: Items<Diag>,
    span: Span,
    number: u16,
    text: Words,
) -> Result<Items<Diag>, NoMemory>
    ensures { IfOk result (λ es. es ≡ errors ++ spec.diag span number text ∷ []) }
{
    let mut errors = errors;
    errors.push(Diag { span, number, text })?;
    Ok(errors)
}
