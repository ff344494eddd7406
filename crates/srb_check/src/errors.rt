//! The errors that a file can have.

ghost use Rattle.std.specs.Prelude.{◌≡◌, IfOk};
ghost use Rattle.srb_check.specs.Messages as spec;

use srb_terms::{Diag, Span, Words};
use std::alloc::{AllocError, Global};

/// An error at a place.
fn error_at(alloc: Global, span: Span, number: u16, text: &str) -> Result<Diag, AllocError>
    ensures { IfOk result (λ d. d ≡ record { span = span; number = number; text = text.now }) }
{
    Ok(Diag {
        span,
        number,
        text: Words::from_str(alloc, text)?,
    })
}

/// An error whose place is empty, at the start of its file.
fn error_at_start(alloc: Global, number: u16, text: &str) -> Result<Diag, AllocError>
    ensures { IfOk result (λ d. d ≡ spec.error_at_start number text.now) }
{
    error_at(alloc, Span { start: 0, end: 0 }, number, text)
}

/// The error of a file that is larger than the limit.
pub fn too_large(alloc: Global) -> Result<Diag, AllocError>
    ensures { IfOk result (λ d. d ≡ spec.too_large) }
{
    error_at_start(alloc, 9002, "file is larger than 1048576 bytes")
}

/// The error of a file whose bytes are no text.
pub fn not_utf8(alloc: Global) -> Result<Diag, AllocError>
    ensures { IfOk result (λ d. d ≡ spec.not_utf8) }
{
    error_at_start(alloc, 9009, "not UTF-8")
}

/// The error where the text is no Ruby.
pub fn syntax_error(alloc: Global, span: Span) -> Result<Diag, AllocError>
    ensures { IfOk result (λ d. d ≡ spec.syntax_error span) }
{
    error_at(alloc, span, 2001, "syntax error")
}

/// The error where a form of Ruby begins that is outside the profile.
pub fn outside(alloc: Global, span: Span) -> Result<Diag, AllocError>
    ensures { IfOk result (λ d. d ≡ spec.outside span) }
{
    error_at(alloc, span, 9001, "outside the profile")
}

/// The error where the weight passes its limit.
pub fn too_deep(alloc: Global, span: Span) -> Result<Diag, AllocError>
    ensures { IfOk result (λ d. d ≡ spec.too_deep span) }
{
    error_at(alloc, span, 9008, "nesting is deeper than 200")
}
