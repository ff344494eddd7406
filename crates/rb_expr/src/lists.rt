//! What stands between and after the elements of lists, and what their kinds say.

ghost use Rattle.std.specs.Prelude.{◌≡◌, OnOk};
ghost use Rattle.rb_tree.specs.Trees.{span_of};
ghost use Rattle.rb_expr.specs.Lists as spec;
ghost use Rattle.rb_expr.specs.Reading.{Gives};

use crate::reading::{Read, Stop, after, expect, named, sees, skip_separators};
use indexmap::IndexSet;
use rb_tree::syntax::{Argument, Block, PlacedName, Suffix, Tree};
use rb_tree::token::{Shape, Token};
use srb_terms::{Boxed, Name, NoMemory, Span};
use std::alloc::Global;

/// How an argument is given.
#[derive(Clone, Copy, PartialEq, Eq, Debug)]
pub enum Order {
    /// By its place.
    Positional,
    /// By its name.
    Keyword,
    /// As a block.
    Block,
}

/// How this argument is given.
pub fn order_of<T>(argument: &Argument<T>) -> Order
    ensures { result ≡ spec.order_of argument.now }
{
    match argument {
        Argument::Positional { .. } => Order::Positional,
        Argument::Keyword { .. } => Order::Keyword,
        Argument::Block { .. } => Order::Block,
    }
}

/// Whether it is given by its name.
pub fn is_keyword(order: Order) -> bool
    ensures { result ≡ spec.is_keyword order }
{
    match order {
        Order::Keyword => true,
        _ => false,
    }
}

/// Whether it is given as a block.
pub fn is_block(order: Order) -> bool
    ensures { result ≡ spec.is_block order }
{
    match order {
        Order::Block => true,
        _ => false,
    }
}

/// Where the argument ends, in bytes.
#[tactic(auto, unfolding(crate::specs::Lists::end_of_argument))]
pub fn end_of_argument(argument: &Argument<Tree>) -> u32
    ensures { result ≡ spec.end_of_argument argument.now }
{
    match argument {
        Argument::Positional { value }
        | Argument::Keyword { value, .. }
        | Argument::Block { value, .. } => value.span().end,
    }
}

/// Whether the last of these arguments is given as a block.
#[tactic(auto, unfolding(crate::specs::Lists::passes_block))]
pub fn passes_block(arguments: &[Argument<Tree>]) -> bool
    ensures { result ≡ spec.passes_block arguments.now }
{
    match arguments.get(arguments.len().saturating_sub(1)) {
        Some(last) => is_block(order_of(last)),
        None => false,
    }
}

/// The place of a suffix.
pub fn span_of_suffix<T>(suffix: &Suffix<T>) -> Span
    ensures { result ≡ spec.span_of_suffix suffix.now }
{
    match suffix {
        Suffix::Call { span, .. } | Suffix::Constant { span, .. } | Suffix::Index { span, .. } => {
            *span
        }
    }
}

/// Where a call ends that has this block, or `end` where it has none.
pub fn end_with<T>(block: &Option<Boxed<Block<T>>>, end: u32) -> u32
    ensures { result ≡ spec.end_with block.now end }
{
    match block {
        Some(block) => block.get().span.end,
        None => end,
    }
}

/// Whether a list with this closing bracket may have a last comma.
pub fn takes_comma(closer: Shape) -> bool
    ensures { result ≡ spec.takes_comma closer }
{
    !closer.is(Shape::CloseParen)
}

/// The closing bracket of a list, after separators.
#[tactic(auto, unfolding(crate::specs::Lists::closed))]
fn closed<'a>(closer: Shape, tokens: &'a [Token]) -> Read<'a, Option<Span>>
    ensures { Gives (λ x. (x.0, x.1.now)) result (spec.closed closer tokens.now) }
{
    let (closing, rest) = expect(closer, skip_separators(tokens))?;
    Ok((Some(closing), rest))
}

/// What stands after a comma and separators: a closing bracket, if a comma may stand before it, or an element.
#[tactic(auto, unfolding(crate::specs::Lists::after_comma))]
fn after_comma<'a>(closer: Shape, tokens: &'a [Token]) -> Read<'a, Option<Span>>
    ensures { Gives (λ x. (x.0, x.1.now)) result (spec.after_comma closer tokens.now) }
{
    if takes_comma(closer) && sees(closer, tokens) {
        closed(closer, tokens)
    } else {
        Ok((None, tokens))
    }
}

/// What stands after an element of a list in brackets: the closing bracket, or a comma and what is after it.
#[tactic(auto, unfolding(crate::specs::Lists::after_element))]
pub fn after_element<'a>(closer: Shape, tokens: &'a [Token]) -> Read<'a, Option<Span>>
    ensures { Gives (λ x. (x.0, x.1.now)) result (spec.after_element closer tokens.now) }
{
    if sees(Shape::Comma, tokens) {
        after_comma(closer, skip_separators(after(tokens)))
    } else {
        closed(closer, tokens)
    }
}

/// What stands after the last element of a list in brackets.
#[tactic(auto, unfolding(crate::specs::Lists::after_last))]
fn after_last<'a>(closer: Shape, tokens: &'a [Token]) -> Read<'a, Option<Span>>
    ensures { Gives (λ x. (x.0, x.1.now)) result (spec.after_last closer tokens.now) }
{
    if takes_comma(closer) && sees(Shape::Comma, tokens) {
        closed(closer, after(tokens))
    } else {
        closed(closer, tokens)
    }
}

/// What stands after an argument in brackets. One that is given as a block is the last.
#[tactic(auto, unfolding(crate::specs::Lists::after_argument))]
pub fn after_argument<'a>(
    closer: Shape,
    order: Order,
    tokens: &'a [Token],
) -> Read<'a, Option<Span>>
    ensures { Gives (λ x. (x.0, x.1.now)) result (spec.after_argument closer order tokens.now) }
{
    if is_block(order) {
        after_last(closer, tokens)
    } else {
        after_element(closer, tokens)
    }
}

/// Whether another argument follows in a call without brackets.
#[tactic(auto, unfolding(crate::specs::Lists::goes_on))]
pub fn goes_on(order: Order, tokens: &[Token]) -> bool
    ensures { result ≡ spec.goes_on order tokens.now }
{
    !is_block(order) && sees(Shape::Comma, tokens)
}

/// Whether the name is one of these.
fn is_among(names: &IndexSet<Name>, name: &Name) -> bool
    ensures { result ≡ spec.is_among names.now.keys name.now }
{
    names.contains(name)
}

/// Adds a name, if it is none of these.
pub fn note(names: &mut IndexSet<Name>, name: &Name) -> Result<(), NoMemory>
    ensures { OnOk result (names.new.keys ≡ spec.noted names.old.keys name.now) }
{
    names.insert(name.copied()?)?;
    Ok(())
}

/// Takes an identifier that is none of these names.
#[tactic(auto, unfolding(crate::specs::Lists::fresh_name))]
pub fn fresh_name<'a>(
    alloc: Global,
    names: &IndexSet<Name>,
    tokens: &'a [Token],
) -> Read<'a, PlacedName>
    ensures { Gives (λ x. (x.0, x.1.now)) result (spec.fresh_name names.now.keys tokens.now) }
{
    let (next, rest) = named(alloc, Shape::Identifier, tokens)?;
    if is_among(names, &next.name) {
        return Err(Stop::Refused(tokens));
    }
    Ok((next, rest))
}
