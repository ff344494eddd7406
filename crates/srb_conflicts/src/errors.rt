//! The errors that a declaration can have.

ghost use Rattle.std.specs.Prelude.{◌≡◌, ◌++◌, codes, IfOk};
ghost use Rattle.srb_conflicts.specs.Errors as spec;

use srb_terms::{Diag, Name, NoMemory, Span, Words};
use std::alloc::Global;

const SUPERCLASS_TWICE: u16 = 9003;

const OTHER_KIND: u16 = 9004;

const CIRCULAR_PARENT: u16 = 9005;

const MIXIN_IS_NO_MODULE: u16 = 9006;

const NOT_INHERITABLE: u16 = 9007;

/// A text of two parts.
fn two_parts(alloc: Global, first: &str, second: &str) -> Result<Words, NoMemory>
    ensures { IfOk result (λ t. t ≡ first.now ++ second.now) }
{
    let mut text = String::from_str(alloc, first)?;
    text.push_str(second)?;
    Words::from_string(text)
}

/// A text of three parts.
fn three_parts(alloc: Global, first: &str, second: &str, third: &str) -> Result<Words, NoMemory>
    ensures { IfOk result (λ t. t ≡ first.now ++ second.now ++ third.now) }
{
    let mut text = String::from_str(alloc, first)?;
    text.push_str(second)?;
    text.push_str(third)?;
    Words::from_string(text)
}

/// The error of a class that has another superclass.
pub fn has_superclass(
    alloc: Global,
    span: Span,
    class: &Name,
    superclass: &Name,
) -> Result<Diag, NoMemory>
    ensures { IfOk result (λ d. d ≡ spec.has_superclass span class.now superclass.now) }
{
    Ok(Diag {
        span,
        number: SUPERCLASS_TWICE,
        text: three_parts(
            alloc,
            class.as_str(),
            " already has superclass ",
            superclass.as_str(),
        )?,
    })
}

/// The error where the name of a class is declared as something else.
pub fn is_already_class(alloc: Global, span: Span, name: &Name) -> Result<Diag, NoMemory>
    ensures { IfOk result (λ d. d ≡ spec.is_already_class span name.now) }
{
    Ok(Diag {
        span,
        number: OTHER_KIND,
        text: two_parts(alloc, name.as_str(), " is already a class")?,
    })
}

/// The error where the name of a module is declared as something else.
pub fn is_already_module(alloc: Global, span: Span, name: &Name) -> Result<Diag, NoMemory>
    ensures { IfOk result (λ d. d ≡ spec.is_already_module span name.now) }
{
    Ok(Diag {
        span,
        number: OTHER_KIND,
        text: two_parts(alloc, name.as_str(), " is already a module")?,
    })
}

/// The text that tells a circular reference.
fn circular_text(alloc: Global, name: &str, parent: &str) -> Result<Words, NoMemory>
    ensures { IfOk result (λ t. t ≡ codes "circular parent " ++ parent.now ++ codes " of " ++ name.now) }
{
    let mut text = String::from_str(alloc, "circular parent ")?;
    text.push_str(parent)?;
    text.push_str(" of ")?;
    text.push_str(name)?;
    Words::from_string(text)
}

/// The error of a circular reference from a class or module to another.
pub fn is_circular_parent(
    alloc: Global,
    span: Span,
    name: &Name,
    parent: &Name,
) -> Result<Diag, NoMemory>
    ensures { IfOk result (λ d. d ≡ spec.is_circular_parent span name.now parent.now) }
{
    Ok(Diag {
        span,
        number: CIRCULAR_PARENT,
        text: circular_text(alloc, name.as_str(), parent.as_str())?,
    })
}

/// The error where what is mixed in is no module.
pub fn is_no_module(alloc: Global, span: Span) -> Result<Diag, NoMemory>
    ensures { IfOk result (λ d. d ≡ spec.is_no_module span) }
{
    Ok(Diag {
        span,
        number: MIXIN_IS_NO_MODULE,
        text: Words::from_str(alloc, "mixin is not a module")?,
    })
}

/// The error of a superclass that no class may have.
pub fn cannot_be_inherited(alloc: Global, span: Span, superclass: &Name) -> Result<Diag, NoMemory>
    ensures { IfOk result (λ d. d ≡ spec.cannot_be_inherited span superclass.now) }
{
    Ok(Diag {
        span,
        number: NOT_INHERITABLE,
        text: two_parts(alloc, superclass.as_str(), " cannot be inherited")?,
    })
}
