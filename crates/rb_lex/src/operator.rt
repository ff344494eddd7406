//! Operators, each the longest at its place.

ghost use Rattle.std.specs.Prelude.{◌≡◌, ◌≢◌, ◌<◌, ◌≤◌, length};
ghost use Rattle.rb_lex.specs.Operators as spec;

use crate::chars::byte;
use rb_tree::token::Shape;

/// The two bytes after a place; after the text's end they are 0.
#[derive(Clone, Copy)]
pub struct Ahead {
    pub next: u8,
    pub last: u8,
}

/// What begins at a place, by the longest spelling there.
#[derive(Clone, Copy)]
pub enum Sign {
    Operator { shape: Shape, len: usize },
    /// An operator of Ruby that is outside the profile.
    Foreign,
    /// No operator.
    Nothing,
}

fn found(shape: Shape, len: usize) -> Sign
    ensures { result ≡ spec.found shape len }
{
    Sign::Operator { shape, len }
}

fn or_assign(ahead: Ahead, plain: Shape, assign: Shape) -> Sign
    ensures value { result ≡ spec.or_assign ahead.next plain assign }
    ensures within { spec.IsShort ahead result }
{
    if ahead.next == b'=' {
        found(assign, 2)
    } else {
        found(plain, 1)
    }
}

fn minus(ahead: Ahead) -> Sign
    ensures value { result ≡ spec.minus ahead.next }
    ensures within { spec.IsShort ahead result }
{
    if ahead.next == b'>' {
        Sign::Foreign
    } else {
        or_assign(ahead, Shape::Minus, Shape::MinusAssign)
    }
}

fn star(ahead: Ahead) -> Sign
    ensures value { result ≡ spec.star ahead.next ahead.last }
    ensures within { spec.IsShort ahead result }
{
    if ahead.next == b'*' {
        if ahead.last == b'=' {
            found(Shape::PowerAssign, 3)
        } else {
            found(Shape::Power, 2)
        }
    } else {
        or_assign(ahead, Shape::Star, Shape::StarAssign)
    }
}

fn equals(ahead: Ahead) -> Sign
    ensures value { result ≡ spec.equals ahead.next ahead.last }
    ensures within { spec.IsShort ahead result }
{
    if ahead.next == b'=' {
        if ahead.last == b'=' {
            found(Shape::CaseEqual, 3)
        } else {
            found(Shape::Equal, 2)
        }
    } else if ahead.next == b'>' {
        found(Shape::Arrow, 2)
    } else if ahead.next == b'~' {
        Sign::Foreign
    } else {
        found(Shape::Assign, 1)
    }
}

fn not(ahead: Ahead) -> Sign
    ensures value { result ≡ spec.not_sign ahead.next }
    ensures within { spec.IsShort ahead result }
{
    if ahead.next == b'~' {
        Sign::Foreign
    } else {
        or_assign(ahead, Shape::Not, Shape::NotEqual)
    }
}

fn less(ahead: Ahead) -> Sign
    ensures value { result ≡ spec.less ahead.next ahead.last }
    ensures within { spec.IsShort ahead result }
{
    if ahead.next == b'=' {
        if ahead.last == b'>' {
            found(Shape::Compare, 3)
        } else {
            found(Shape::LessEqual, 2)
        }
    } else if ahead.next == b'<' {
        if ahead.last == b'=' {
            found(Shape::ShiftLeftAssign, 3)
        } else {
            found(Shape::ShiftLeft, 2)
        }
    } else {
        found(Shape::Less, 1)
    }
}

fn greater(ahead: Ahead) -> Sign
    ensures value { result ≡ spec.greater ahead.next ahead.last }
    ensures within { spec.IsShort ahead result }
{
    if ahead.next == b'>' {
        if ahead.last == b'=' {
            found(Shape::ShiftRightAssign, 3)
        } else {
            found(Shape::ShiftRight, 2)
        }
    } else {
        or_assign(ahead, Shape::Greater, Shape::GreaterEqual)
    }
}

fn ampersand(ahead: Ahead) -> Sign
    ensures value { result ≡ spec.ampersand ahead.next ahead.last }
    ensures within { spec.IsShort ahead result }
{
    if ahead.next == b'&' {
        if ahead.last == b'=' {
            found(Shape::AndAssign, 3)
        } else {
            found(Shape::AndAnd, 2)
        }
    } else if ahead.next == b'.' {
        found(Shape::SafeDot, 2)
    } else {
        or_assign(ahead, Shape::Ampersand, Shape::AmpersandAssign)
    }
}

fn pipe(ahead: Ahead) -> Sign
    ensures value { result ≡ spec.pipe ahead.next ahead.last }
    ensures within { spec.IsShort ahead result }
{
    if ahead.next == b'|' {
        if ahead.last == b'=' {
            found(Shape::OrAssign, 3)
        } else {
            found(Shape::OrOr, 2)
        }
    } else {
        or_assign(ahead, Shape::Pipe, Shape::PipeAssign)
    }
}

fn dot(ahead: Ahead) -> Sign
    ensures value { result ≡ spec.dot ahead.next }
    ensures within { spec.IsShort ahead result }
{
    if ahead.next == b'.' {
        Sign::Foreign
    } else {
        found(Shape::Dot, 1)
    }
}

fn colon(ahead: Ahead) -> Sign
    ensures value { result ≡ spec.colon ahead.next }
    ensures within { spec.IsShort ahead result }
{
    if ahead.next == b':' {
        found(Shape::Scope, 2)
    } else {
        found(Shape::Colon, 1)
    }
}

fn single(b: u8, ahead: Ahead) -> Sign
    ensures value { result ≡ spec.single b }
    ensures within { spec.IsShort ahead result }
{
    match b {
        b'~' => found(Shape::Tilde, 1),
        b'?' => found(Shape::Question, 1),
        b',' => found(Shape::Comma, 1),
        b'(' => found(Shape::OpenParen, 1),
        b')' => found(Shape::CloseParen, 1),
        b'[' => found(Shape::OpenBracket, 1),
        b']' => found(Shape::CloseBracket, 1),
        b'{' => found(Shape::OpenBrace, 1),
        b'}' => found(Shape::CloseBrace, 1),
        _ => Sign::Nothing,
    }
}

fn compound(b: u8, ahead: Ahead) -> Sign
    ensures value { result ≡ spec.compound b ahead.next ahead.last }
    ensures within { spec.IsShort ahead result }
{
    match b {
        b'=' => equals(ahead),
        b'!' => not(ahead),
        b'<' => less(ahead),
        b'>' => greater(ahead),
        b'&' => ampersand(ahead),
        b'|' => pipe(ahead),
        _ => single(b, ahead),
    }
}

/// The operator that these bytes begin with.
#[tactic(auto, unfolding(crate::specs::Operators::operator))]
pub fn operator(b: u8, ahead: Ahead) -> Sign
    ensures value { result ≡ spec.operator b ahead.next ahead.last }
    ensures within { spec.IsShort ahead result }
{
    match b {
        b'.' => dot(ahead),
        b':' => colon(ahead),
        b'+' => or_assign(ahead, Shape::Plus, Shape::PlusAssign),
        b'-' => minus(ahead),
        b'*' => star(ahead),
        b'/' => or_assign(ahead, Shape::Slash, Shape::SlashAssign),
        b'%' => or_assign(ahead, Shape::Percent, Shape::PercentAssign),
        b'^' => or_assign(ahead, Shape::Caret, Shape::CaretAssign),
        _ => compound(b, ahead),
    }
}

/// The operator that these bytes begin with where a method's name stands.
#[tactic(auto, unfolding(crate::specs::Operators::method_name))]
pub fn method_name(b: u8, ahead: Ahead) -> Sign
    ensures value { result ≡ spec.method_name b ahead.next ahead.last }
    ensures within { spec.IsShort ahead result }
{
    if b == b'-' && ahead.next == b'@' {
        found(Shape::UnaryMinus, 2)
    } else if b == b'+' && ahead.next == b'@' {
        found(Shape::UnaryPlus, 2)
    } else if b == b'[' && ahead.next == b']' {
        if ahead.last == b'=' {
            found(Shape::IndexAssign, 3)
        } else {
            found(Shape::Index, 2)
        }
    } else {
        operator(b, ahead)
    }
}
