//! What may follow an operand, and which modifiers may follow a statement.

ghost use Rattle.std.specs.Prelude.{◌≡◌, ◌-◌, length, slice_get};
ghost use Rattle.rb_expr.specs.Shapes.{assigning_of};
ghost use Rattle.rb_expr.specs.Statements as spec;

use crate::shapes::{assigning_of, begins_bare, modifier_of};
use rb_tree::syntax::{Binary, Dot, Modifier, Node, Suffix, Tree};
use rb_tree::token::Shape;

/// How an operand ends.
#[derive(Clone, Copy, PartialEq, Eq, Debug)]
pub enum Ending {
    /// With a name that may be assigned to and that may take arguments without brackets.
    Name,
    /// With something that may be assigned to.
    Target,
    /// With something that may take arguments without brackets.
    Callee,
    /// It is a constant.
    Constant,
    /// With something else.
    Other,
}

/// What follows an operand.
#[derive(Clone, Copy, PartialEq, Eq, Debug)]
pub enum Follower {
    /// `=` and a value.
    Value,
    /// An operator with `=`, and a value.
    Operator { operator: Binary },
    /// Arguments without brackets.
    Arguments,
    /// Operators and other operands, or nothing.
    Operators,
}

fn ending_of_suffix<T>(suffix: &Suffix<T>) -> Ending
    ensures { result ≡ spec.ending_of_suffix suffix.now }
{
    match suffix {
        Suffix::Call {
            dot: Dot::Plain,
            arguments: None,
            block: None,
            ..
        } => Ending::Name,
        Suffix::Call {
            dot: Dot::Safe,
            arguments: None,
            block: None,
            ..
        } => Ending::Callee,
        Suffix::Index { .. } => Ending::Target,
        _ => Ending::Other,
    }
}

fn ending_of_last<T>(suffixes: &[Suffix<T>]) -> Ending
    ensures { result ≡ spec.ending_of_last (slice_get suffixes.now (length suffixes.now - 1)) }
{
    match suffixes.get(suffixes.len().saturating_sub(1)) {
        Some(last) => ending_of_suffix(last),
        None => Ending::Other,
    }
}

/// How this operand ends.
#[tactic(auto, unfolding(crate::specs::Statements::ending_of))]
pub fn ending_of(operand: &Tree) -> Ending
    ensures { result ≡ spec.ending_of operand.now }
{
    match operand.get() {
        Node::Name { .. } => Ending::Name,
        Node::InstanceVariable { .. } => Ending::Target,
        Node::Constant { .. } => Ending::Constant,
        Node::Yield {
            arguments: None,
            ..
        } => Ending::Callee,
        Node::Super {
            arguments: None,
            ..
        } => Ending::Callee,
        Node::Post { suffixes, .. } => ending_of_last(suffixes.as_slice()),
        _ => Ending::Other,
    }
}

/// Whether what ends so may be assigned to.
fn is_target(ending: Ending) -> bool
    ensures { result ≡ spec.is_target ending }
{
    match ending {
        Ending::Name | Ending::Target => true,
        _ => false,
    }
}

/// Whether what ends so may be assigned to by `=`: a constant only where `constants` allows it.
fn is_plain_target(constants: bool, ending: Ending) -> bool
    ensures { result ≡ spec.is_plain_target constants ending }
{
    match ending {
        Ending::Constant => constants,
        other => is_target(other),
    }
}

/// Whether what ends so may take arguments without brackets.
fn is_callee(ending: Ending) -> bool
    ensures { result ≡ spec.is_callee ending }
{
    match ending {
        Ending::Name | Ending::Callee => true,
        _ => false,
    }
}

/// Whether arguments without brackets may begin by such a token.
fn begins_arguments(next: Option<Shape>) -> bool
    ensures { result ≡ spec.begin_arguments next }
{
    match next {
        Some(Shape::Label) => true,
        Some(shape) => begins_bare(shape),
        None => false,
    }
}

fn other_follower(ending: Ending, next: Option<Shape>) -> Follower
    ensures { result ≡ spec.other_follower ending next }
{
    if is_callee(ending) && begins_arguments(next) {
        Follower::Arguments
    } else {
        Follower::Operators
    }
}

fn operator_follower(ending: Ending, next: Option<Shape>) -> Follower
    ensures { result ≡ spec.operator_follower ending next (assigning_of next) }
{
    match assigning_of(next) {
        Some(operator) if is_target(ending) => Follower::Operator { operator },
        Some(_) => Follower::Operators,
        None => other_follower(ending, next),
    }
}

/// What follows an operand that ends so, by the next token.
#[tactic(auto, unfolding(crate::specs::Statements::follower_of))]
pub fn follower_of(constants: bool, ending: Ending, next: Option<Shape>) -> Follower
    ensures { result ≡ spec.follower_of constants ending next }
{
    match next {
        Some(Shape::Assign) => {
            if is_plain_target(constants, ending) {
                Follower::Value
            } else {
                Follower::Operators
            }
        }
        _ => operator_follower(ending, next),
    }
}

/// Whether this is a `begin` with its `end` alone.
#[tactic(auto, unfolding(crate::specs::Statements::is_begin))]
fn is_begin(statement: &Tree) -> bool
    ensures { result ≡ spec.is_begin statement.now }
{
    match statement.get() {
        Node::Begin { .. } => true,
        _ => false,
    }
}

/// Whether the modifier makes a loop.
fn repeats(modifier: Modifier) -> bool
    ensures { result ≡ spec.repeats modifier }
{
    match modifier {
        Modifier::If | Modifier::Unless => false,
        Modifier::While | Modifier::Until => true,
    }
}

/// Whether the modifier may stand after the statement.
#[tactic(auto, unfolding(crate::specs::Statements::may_modify))]
fn may_modify(modifier: Modifier, statement: &Tree) -> bool
    ensures { result ≡ spec.may_modify modifier statement.now }
{
    !repeats(modifier) || !is_begin(statement)
}

/// The modifier that the next token is, if it may stand after the statement.
#[tactic(auto, unfolding(crate::specs::Statements::modifier_after))]
pub fn modifier_after(statement: &Tree, next: Option<Shape>) -> Option<Modifier>
    ensures { result ≡ spec.modifier_after statement.now next }
{
    let modifier = modifier_of(next)?;
    if may_modify(modifier, statement) {
        Some(modifier)
    } else {
        None
    }
}
