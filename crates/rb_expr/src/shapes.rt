//! What the shape of a token says: which forms it begins, and which operator it is.

ghost use Rattle.std.specs.Prelude.{◌≡◌, ◌≤◌};
ghost use Rattle.rb_expr.specs.Shapes as spec;

use crate::reading::{after, peek, sees, touches};
use rb_tree::syntax::{Binary, Jump, Modifier, Sign, Unary};
use rb_tree::token::{Shape, Token};
use srb_terms::Span;

/// Whether a token of this shape may begin the arguments of a call without brackets, if it is no label.
pub fn begins_bare(shape: Shape) -> bool
    ensures { result ≡ spec.begins_bare shape }
{
    match shape {
        Shape::Identifier
        | Shape::Constant
        | Shape::InstanceVariable
        | Shape::Symbol
        | Shape::Whole
        | Shape::Float
        | Shape::Text
        | Shape::Not
        | Shape::Tilde
        | Shape::SelfWord
        | Shape::Nil
        | Shape::True
        | Shape::False
        | Shape::Yield
        | Shape::Super
        | Shape::Case
        | Shape::Begin => true,
        _ => false,
    }
}

/// Whether a token of this shape may begin the value of a jump.
pub fn begins_value(shape: Shape) -> bool
    ensures { result ≡ spec.begins_value shape }
{
    match shape {
        Shape::Minus
        | Shape::Plus
        | Shape::Scope
        | Shape::OpenParen
        | Shape::OpenBracket
        | Shape::OpenBrace => true,
        _ => begins_bare(shape),
    }
}

/// Whether a token of this shape may begin a statement that is no declaration.
pub fn begins_simple(shape: Shape) -> bool
    ensures { result ≡ spec.begins_simple shape }
{
    match shape {
        Shape::If
        | Shape::Unless
        | Shape::While
        | Shape::Until
        | Shape::Return
        | Shape::Break
        | Shape::Next => true,
        _ => begins_value(shape),
    }
}

/// Whether the next token may begin a statement that is no declaration.
#[tactic(auto, unfolding(crate::specs::Shapes::begins_statement))]
pub fn begins_statement(tokens: &[Token]) -> bool
    ensures { result ≡ spec.begins_statement tokens.now }
{
    match peek(tokens) {
        Some(shape) => begins_simple(shape),
        None => false,
    }
}

/// Whether the next token may begin the value of a jump.
#[tactic(auto, unfolding(crate::specs::Shapes::has_value))]
pub fn has_value(tokens: &[Token]) -> bool
    ensures { result ≡ spec.has_value tokens.now }
{
    match peek(tokens) {
        Some(shape) => begins_value(shape),
        None => false,
    }
}

/// The jump that the next token begins.
pub fn jump_of(next: Option<Shape>) -> Option<Jump>
    ensures { result ≡ spec.jump_of next }
{
    match next {
        Some(Shape::Return) => Some(Jump::Return),
        Some(Shape::Break) => Some(Jump::Break),
        Some(Shape::Next) => Some(Jump::Next),
        _ => None,
    }
}

/// The modifier that the next token is, after a statement.
pub fn modifier_of(next: Option<Shape>) -> Option<Modifier>
    ensures { result ≡ spec.modifier_of next }
{
    match next {
        Some(Shape::If) => Some(Modifier::If),
        Some(Shape::Unless) => Some(Modifier::Unless),
        Some(Shape::While) => Some(Modifier::While),
        Some(Shape::Until) => Some(Modifier::Until),
        _ => None,
    }
}

/// The operator of this shape between two operands, but `**`.
pub fn binary_of(shape: Shape) -> Option<Binary>
    ensures { result ≡ spec.binary_of shape }
{
    match shape {
        Shape::OrOr => Some(Binary::Or),
        Shape::AndAnd => Some(Binary::And),
        Shape::Equal => Some(Binary::Equal),
        Shape::NotEqual => Some(Binary::NotEqual),
        Shape::CaseEqual => Some(Binary::CaseEqual),
        Shape::Compare => Some(Binary::Compare),
        Shape::Less => Some(Binary::Less),
        Shape::Greater => Some(Binary::Greater),
        Shape::LessEqual => Some(Binary::LessEqual),
        Shape::GreaterEqual => Some(Binary::GreaterEqual),
        Shape::Pipe => Some(Binary::Pipe),
        Shape::Caret => Some(Binary::Caret),
        Shape::Ampersand => Some(Binary::Ampersand),
        Shape::ShiftLeft => Some(Binary::ShiftLeft),
        Shape::ShiftRight => Some(Binary::ShiftRight),
        Shape::Plus => Some(Binary::Plus),
        Shape::Minus => Some(Binary::Minus),
        Shape::Star => Some(Binary::Star),
        Shape::Slash => Some(Binary::Slash),
        Shape::Percent => Some(Binary::Percent),
        _ => None,
    }
}

/// How tightly an operator binds, from `||` with 1 to `*` with 9 and `**` with 10.
pub fn level_of(operator: Binary) -> u8
    ensures value { result ≡ spec.level_of operator }
    ensures small { result ≤ 10 }
{
    match operator {
        Binary::Or => 1,
        Binary::And => 2,
        Binary::Equal | Binary::NotEqual | Binary::CaseEqual | Binary::Compare => 3,
        Binary::Less | Binary::Greater | Binary::LessEqual | Binary::GreaterEqual => 4,
        Binary::Pipe | Binary::Caret => 5,
        Binary::Ampersand => 6,
        Binary::ShiftLeft | Binary::ShiftRight => 7,
        Binary::Plus | Binary::Minus => 8,
        Binary::Star | Binary::Slash | Binary::Percent => 9,
        Binary::Power => 10,
    }
}

/// The tightest level at which an operator may stand after an operation by this one: of `==` and its like there is one in
/// a row alone.
pub fn ceiling(operator: Binary) -> u8
    ensures { result ≡ spec.ceiling operator }
{
    match level_of(operator) {
        3 => 2,
        level => level,
    }
}

/// The operator that the next token is, if its level lies between these two.
#[tactic(auto, unfolding(crate::specs::Shapes::operator_between))]
pub fn operator_between(next: Option<Shape>, least: u8, most: u8) -> Option<Binary>
    ensures { result ≡ spec.operator_between next least most }
{
    let operator = binary_of(next?)?;
    let level = level_of(operator);
    if least <= level && level <= most {
        Some(operator)
    } else {
        None
    }
}

/// The operator of an assignment of this shape, but `=`.
pub fn assigning_of(next: Option<Shape>) -> Option<Binary>
    ensures { result ≡ spec.assigning_of next }
{
    match next {
        Some(Shape::PlusAssign) => Some(Binary::Plus),
        Some(Shape::MinusAssign) => Some(Binary::Minus),
        Some(Shape::StarAssign) => Some(Binary::Star),
        Some(Shape::SlashAssign) => Some(Binary::Slash),
        Some(Shape::PercentAssign) => Some(Binary::Percent),
        Some(Shape::PowerAssign) => Some(Binary::Power),
        Some(Shape::OrAssign) => Some(Binary::Or),
        Some(Shape::AndAssign) => Some(Binary::And),
        Some(Shape::PipeAssign) => Some(Binary::Pipe),
        Some(Shape::AmpersandAssign) => Some(Binary::Ampersand),
        Some(Shape::CaretAssign) => Some(Binary::Caret),
        Some(Shape::ShiftLeftAssign) => Some(Binary::ShiftLeft),
        Some(Shape::ShiftRightAssign) => Some(Binary::ShiftRight),
        _ => None,
    }
}

/// Whether a number comes next.
#[tactic(auto, unfolding(crate::specs::Shapes::sees_number))]
fn sees_number(tokens: &[Token]) -> bool
    ensures { result ≡ spec.sees_number tokens.now }
{
    sees(Shape::Whole, tokens) || sees(Shape::Float, tokens)
}

/// Whether a number comes next and begins where the sign before it ends.
#[tactic(auto, unfolding(crate::specs::Shapes::is_signed))]
pub fn is_signed(sign: Span, tokens: &[Token]) -> bool
    ensures { result ≡ spec.is_signed sign tokens.now }
{
    touches(sign, tokens) && sees_number(tokens)
}

/// Whether the next token is the sign of a number, if it is `-` or `+`.
#[tactic(auto, unfolding(crate::specs::Shapes::is_sign))]
pub fn is_sign(tokens: &[Token]) -> bool
    ensures { result ≡ spec.is_sign tokens.now }
{
    match tokens {
        [first, rest @ ..] => is_signed(first.span, rest),
        [] => false,
    }
}

/// Whether the next token is a `-` in front of an operand: one that is no sign, or the sign of a number that is raised to a
/// power.
#[tactic(auto, unfolding(crate::specs::Shapes::is_negation))]
pub fn is_negation(tokens: &[Token]) -> bool
    ensures { result ≡ spec.is_negation tokens.now }
{
    sees(Shape::Minus, tokens) && (!is_sign(tokens) || sees(Shape::Power, after(after(tokens))))
}

/// The operator in front of an operand that the next token is, but `-`.
#[tactic(auto, unfolding(crate::specs::Shapes::prefix_of))]
pub fn prefix_of(tokens: &[Token]) -> Option<Unary>
    ensures { result ≡ spec.prefix_of tokens.now }
{
    match peek(tokens) {
        Some(Shape::Not) => Some(Unary::Not),
        Some(Shape::Tilde) => Some(Unary::Tilde),
        Some(Shape::Plus) => {
            if is_sign(tokens) {
                None
            } else {
                Some(Unary::Plus)
            }
        }
        _ => None,
    }
}

/// Whether an operator in front of an operand comes next.
#[tactic(auto, unfolding(crate::specs::Shapes::has_prefix))]
pub fn has_prefix(tokens: &[Token]) -> bool
    ensures { result ≡ spec.has_prefix tokens.now }
{
    is_negation(tokens) || prefix_of(tokens).is_some()
}

/// The shape of a sign.
pub fn sign_shape(sign: Sign) -> Shape
    ensures { result ≡ spec.sign_shape sign }
{
    match sign {
        Sign::Minus => Shape::Minus,
        Sign::Plus => Shape::Plus,
    }
}

/// Whether after a token of this shape the `[` of an index need not touch it.
pub fn closes(shape: Shape) -> bool
    ensures { result ≡ spec.closes shape }
{
    match shape {
        Shape::CloseParen | Shape::CloseBracket | Shape::CloseBrace => true,
        _ => false,
    }
}

/// Whether a `[` that comes next in `rest` is that of an index: it touches the token before it, or that is a closing bracket.
/// `rest` is what is left of `tokens`.
#[tactic(auto, unfolding(crate::specs::Shapes::is_index))]
pub fn is_index(tokens: &[Token], rest: &[Token]) -> bool
    ensures { result ≡ spec.is_index tokens.now rest.now }
{
    let read = tokens.len().saturating_sub(rest.len());
    match tokens.get(read.saturating_sub(1)) {
        Some(before) => closes(before.kind.shape()) || touches(before.span, rest),
        None => false,
    }
}
