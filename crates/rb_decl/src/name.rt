//! Constants and paths of them.

ghost use Rattle.std.specs.Prelude.{◌≡◌};
ghost use Rattle.std.specs.Option.{option_copied};
ghost use Rattle.rb_expr.specs.Reading.{Gives};
ghost use Rattle.rb_decl.specs.Names as spec;

use rb_expr::reading::{Read, Stop, after, expect, sees};
use rb_tree::syntax::{PlacedName, Reference};
use rb_tree::token::{Shape, Token, TokenKind};
use srb_terms::{Boxed, Items, Name, Span};
use std::alloc::Global;

/// A constant.
#[tactic(auto, unfolding(crate::specs::Names::constant))]
pub fn constant<'a>(tokens: &'a [Token]) -> Read<'a, PlacedName>
    ensures { Gives (λ x. (x.0, x.1.now)) result (spec.constant tokens.now) }
{
    match tokens {
        [
            Token {
                kind: TokenKind::Constant { words },
                span,
            },
            rest @ ..,
        ] => {
            let name = Name::from_words(words)?;
            Ok((PlacedName { name, span: *span }, rest))
        }
        _ => Err(Stop::Refused(tokens)),
    }
}

/// Whether a path goes on after a name.
fn goes_on(long: bool, tokens: &[Token]) -> bool
    ensures { result ≡ spec.goes_on long tokens.now }
{
    long && sees(Shape::Scope, tokens)
}

/// A path of constants, one alone where it is not `long`.
pub fn path<'a>(
    alloc: Global,
    depth: usize,
    long: bool,
    tokens: &'a [Token],
) -> Read<'a, Items<PlacedName>>
    ensures { Gives (λ x. (x.0, x.1.now)) result (spec.path depth long tokens.now) }
{
    let mut found = Items::new(alloc);
    let mut rest = tokens;
    for _turn in 0..depth {
        let (name, left) = constant(rest)?;
        found.push(name)?;
        if !goes_on(long, left) {
            return Ok((found, left));
        }
        rest = after(left);
    }
    Err(Stop::Refused(rest))
}

fn end_at(name: Option<&PlacedName>) -> u32
    ensures { result ≡ spec.end_at (option_copied name.entry) }
{
    match name {
        Some(name) => name.span.end,
        None => 0,
    }
}

fn end_of(path: &Items<PlacedName>) -> u32
    ensures { result ≡ spec.end_of path.now }
{
    end_at(path.get(path.len().saturating_sub(1)))
}

fn start_at(name: Option<&PlacedName>) -> u32
    ensures { result ≡ spec.start_at (option_copied name.entry) }
{
    match name {
        Some(name) => name.span.start,
        None => 0,
    }
}

fn short_reference(path: Items<PlacedName>) -> Reference
    ensures { result ≡ spec.short_reference path }
{
    let span = Span {
        start: start_at(path.get(0)),
        end: end_of(&path),
    };
    Reference {
        top: false,
        path,
        span,
    }
}

fn top_reference(scope: Span, path: Items<PlacedName>) -> Reference
    ensures { result ≡ spec.top_reference scope path }
{
    let span = Span {
        start: scope.start,
        end: end_of(&path),
    };
    Reference {
        top: true,
        path,
        span,
    }
}

/// A path of constants, perhaps with `::` in front.
#[tactic(auto, unfolding(crate::specs::Names::reference))]
pub fn reference<'a>(alloc: Global, depth: usize, tokens: &'a [Token]) -> Read<'a, Reference>
    ensures { Gives (λ x. (x.0, x.1.now)) result (spec.reference depth tokens.now) }
{
    if sees(Shape::Scope, tokens) {
        let (scope, rest) = expect(Shape::Scope, tokens)?;
        let (path, rest) = path(alloc, depth, true, rest)?;
        return Ok((top_reference(scope, path), rest));
    }
    let (path, rest) = path(alloc, depth, true, tokens)?;
    Ok((short_reference(path), rest))
}

/// `<` and a reference, if `<` comes next.
#[tactic(auto, unfolding(crate::specs::Names::superclass))]
pub fn superclass<'a>(
    alloc: Global,
    depth: usize,
    tokens: &'a [Token],
) -> Read<'a, Option<Boxed<Reference>>>
    ensures { Gives (λ x. (x.0, x.1.now)) result (spec.superclass depth tokens.now) }
{
    if !sees(Shape::Less, tokens) {
        return Ok((None, tokens));
    }
    let (reference, rest) = reference(alloc, depth, after(tokens))?;
    let boxed = Boxed::new(alloc, reference)?;
    Ok((Some(boxed), rest))
}
