//! Operands of one token, or of a sign or `::` and a token.

ghost use Rattle.std.specs.Prelude.{◌≡◌, IfOk};
ghost use Rattle.rb_expr.specs.Operands as spec;
ghost use Rattle.rb_expr.specs.Reading.{Gives};

use crate::reading::{Read, Stop, named, peek, sees, take, worded};
use crate::shapes::is_signed;
use rb_tree::syntax::{Node, PlacedName, Sign, Tree};
use rb_tree::token::{Shape, Token};
use srb_terms::{NoMemory, Span};
use std::alloc::Global;

/// A number after its sign, if it has one. Both begin at `start`.
#[tactic(auto, unfolding(crate::specs::Operands::number))]
pub fn number<'a>(
    alloc: Global,
    sign: Option<Sign>,
    start: u32,
    tokens: &'a [Token],
) -> Read<'a, Tree>
    ensures { Gives (λ x. (x.0, x.1.now)) result (spec.number sign start tokens.now) }
{
    match peek(tokens) {
        Some(Shape::Whole) => {
            let ((words, place), rest) = worded(alloc, Shape::Whole, tokens)?;
            let span = Span {
                start,
                end: place.end,
            };
            Ok((Tree::new(alloc, Node::Whole { sign, words, span })?, rest))
        }
        Some(Shape::Float) => {
            let ((words, place), rest) = worded(alloc, Shape::Float, tokens)?;
            let span = Span {
                start,
                end: place.end,
            };
            Ok((Tree::new(alloc, Node::Float { sign, words, span })?, rest))
        }
        _ => Err(Stop::Refused(tokens)),
    }
}

/// A number that touches the sign before it, which has this place.
#[tactic(auto, unfolding(crate::specs::Operands::touching))]
fn touching<'a>(alloc: Global, sign: Sign, place: Span, tokens: &'a [Token]) -> Read<'a, Tree>
    ensures { Gives (λ x. (x.0, x.1.now)) result (spec.touching sign place tokens.now) }
{
    if is_signed(place, tokens) {
        number(alloc, Some(sign), place.start, tokens)
    } else {
        Err(Stop::Refused(tokens))
    }
}

/// A sign and its number.
#[tactic(auto, unfolding(crate::specs::Operands::signed))]
pub fn signed<'a>(alloc: Global, sign: Sign, tokens: &'a [Token]) -> Read<'a, Tree>
    ensures { Gives (λ x. (x.0, x.1.now)) result (spec.signed sign tokens.now) }
{
    let (place, rest) = take(tokens)?;
    touching(alloc, sign, place, rest)
}

#[tactic(auto, unfolding(crate::specs::Operands::unraised))]
fn unraised<'a>(value: Tree, tokens: &'a [Token]) -> Read<'a, Tree>
    ensures { Gives (λ x. (x.0, x.1.now)) result (spec.unraised value tokens.now) }
{
    if sees(Shape::Power, tokens) {
        Err(Stop::Refused(tokens))
    } else {
        Ok((value, tokens))
    }
}

/// `-` and its number. No `**` stands after it: there the `-` is an operator in front of the power.
#[tactic(auto, unfolding(crate::specs::Operands::negative))]
pub fn negative<'a>(alloc: Global, tokens: &'a [Token]) -> Read<'a, Tree>
    ensures { Gives (λ x. (x.0, x.1.now)) result (spec.negative tokens.now) }
{
    let (value, rest) = signed(alloc, Sign::Minus, tokens)?;
    unraised(value, rest)
}

#[tactic(auto, unfolding(crate::specs::Operands::symbol))]
pub fn symbol<'a>(alloc: Global, tokens: &'a [Token]) -> Read<'a, Tree>
    ensures { Gives (λ x. (x.0, x.1.now)) result (spec.symbol tokens.now) }
{
    let ((words, span), rest) = worded(alloc, Shape::Symbol, tokens)?;
    Ok((Tree::new(alloc, Node::Symbol { words, span })?, rest))
}

#[tactic(auto, unfolding(crate::specs::Operands::instance_variable))]
pub fn instance_variable<'a>(alloc: Global, tokens: &'a [Token]) -> Read<'a, Tree>
    ensures { Gives (λ x. (x.0, x.1.now)) result (spec.instance_variable tokens.now) }
{
    let (PlacedName { name, span }, rest) = named(alloc, Shape::InstanceVariable, tokens)?;
    Ok((
        Tree::new(alloc, Node::InstanceVariable { name, span })?,
        rest,
    ))
}

#[tactic(auto, unfolding(crate::specs::Operands::constant))]
pub fn constant<'a>(alloc: Global, tokens: &'a [Token]) -> Read<'a, Tree>
    ensures { Gives (λ x. (x.0, x.1.now)) result (spec.constant tokens.now) }
{
    let (PlacedName { name, span }, rest) = named(alloc, Shape::Constant, tokens)?;
    Ok((Tree::new(alloc, Node::Constant { name, span })?, rest))
}

/// `::` and a constant.
#[tactic(auto, unfolding(crate::specs::Operands::top_constant))]
pub fn top_constant<'a>(alloc: Global, tokens: &'a [Token]) -> Read<'a, Tree>
    ensures { Gives (λ x. (x.0, x.1.now)) result (spec.top_constant tokens.now) }
{
    let (mark, rest) = take(tokens)?;
    let (constant, rest) = named(alloc, Shape::Constant, rest)?;
    let PlacedName {
        name,
        span: name_span,
    } = constant;
    let span = Span {
        start: mark.start,
        end: name_span.end,
    };
    let node = Node::TopConstant {
        name,
        name_span,
        span,
    };
    Ok((Tree::new(alloc, node)?, rest))
}

fn word_of(alloc: Global, next: Option<Shape>, span: Span) -> Result<Tree, NoMemory>
    ensures { IfOk result (λ tree. tree ≡ spec.word_by next span) }
{
    match next {
        Some(Shape::SelfWord) => Tree::new(alloc, Node::SelfWord { span }),
        Some(Shape::True) => Tree::new(alloc, Node::True { span }),
        Some(Shape::False) => Tree::new(alloc, Node::False { span }),
        _ => Tree::new(alloc, Node::Nil { span }),
    }
}

/// `self`, `nil`, `true` or `false`.
#[tactic(auto, unfolding(crate::specs::Operands::word))]
pub fn word<'a>(alloc: Global, tokens: &'a [Token]) -> Read<'a, Tree>
    ensures { Gives (λ x. (x.0, x.1.now)) result (spec.word tokens.now) }
{
    let next = peek(tokens);
    let (span, rest) = take(tokens)?;
    Ok((word_of(alloc, next, span)?, rest))
}
