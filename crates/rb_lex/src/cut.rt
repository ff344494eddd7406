//! One step in a text outside strings: what begins at a place, by what stands before it.

ghost use Rattle.std.specs.Prelude.{ℕ, ◌≡◌, ◌≢◌, ◌<◌, ◌≤◌, ◌+◌, ◌-◌, ◌^◌, length, slice_index, true, false};
ghost use Rattle.rb_lex.specs.Chars as chars;
ghost use Rattle.rb_lex.specs.Cuts as spec;

use crate::chars::{
    Set, after, begins_name, blank_len, byte, is_in, is_spaced, is_upper, line_len, run_len,
};
use crate::number::{is_foreign, spelling_of};
use crate::operator::{Ahead, Sign, method_name, operator};
use crate::word::{Word, identifier_len, is_labelled, symbol_len, word_of};
use rb_tree::token::Shape;

/// What the token before says about the next one.
#[derive(Clone, Copy)]
pub enum Before {
    /// Nothing: an operand may begin.
    Plain,
    /// An operand's end that is an identifier, `yield` or `super`.
    Name,
    /// An operand's end that is a constant.
    Constant,
    /// Another operand's end.
    Operand,
    /// `def`.
    Def,
    /// The `self` of `def self`, an operand's end.
    DefSelf,
    /// `.` or `&.`.
    Dot,
    /// The `.` of `def self.`.
    DefDot,
    /// `{` or `do`.
    Opener,
}

/// What stands before a place: the token, whether a blank stands after it, and whether a line starts at the place.
#[derive(Clone, Copy)]
pub struct Look {
    pub before: Before,
    pub is_blank: bool,
    pub is_fresh: bool,
}

/// A token at a place: its shape, its length in bytes, what it says about the next one, and whether a line's end after it is a
/// separator.
#[derive(Clone, Copy)]
pub struct Lexeme {
    pub shape: Shape,
    pub len: usize,
    pub before: Before,
    pub keeps: bool,
}

/// What begins at a place.
#[derive(Clone, Copy)]
pub enum Cut {
    /// Blanks or a comment, and whether a line starts after them.
    Blank { len: usize, is_fresh: bool },
    /// A line's end.
    Line,
    /// A string.
    Quote,
    Token { lexeme: Lexeme },
    /// A form that is outside the profile.
    Outside,
    /// No token, or one that is refused there.
    Bad,
}

pub fn is_operand_end(before: Before) -> bool
    ensures { result ≡ spec.is_operand_end before }
{
    match before {
        Before::Name | Before::Constant | Before::Operand | Before::DefSelf => true,
        _ => false,
    }
}

pub fn names_method(before: Before) -> bool
    ensures { result ≡ spec.names_method before }
{
    match before {
        Before::Def | Before::DefDot => true,
        _ => false,
    }
}

fn is_after_dot(before: Before) -> bool
    ensures { result ≡ spec.is_after_dot before }
{
    match before {
        Before::Dot | Before::DefDot => true,
        _ => false,
    }
}

pub fn is_opener(before: Before) -> bool
    ensures { result ≡ spec.is_opener before }
{
    match before {
        Before::Opener => true,
        _ => false,
    }
}

fn is_name(before: Before) -> bool
    ensures { result ≡ spec.is_name before }
{
    match before {
        Before::Name => true,
        _ => false,
    }
}

fn is_constant(before: Before) -> bool
    ensures { result ≡ spec.is_constant before }
{
    match before {
        Before::Constant => true,
        _ => false,
    }
}

fn token(shape: Shape, len: usize, before: Before, keeps: bool) -> Cut
    ensures { result ≡ spec.token shape len before keeps }
{
    Cut::Token {
        lexeme: Lexeme {
            shape,
            len,
            before,
            keeps,
        },
    }
}

/// What a keyword's spelling is after a token.
fn keyword(before: Before, shape: Shape, len: usize) -> Cut
    ensures { result ≡ spec.keyword before shape len }
{
    token(shape, len, after_keyword(before, shape), true)
}

fn after_keyword(before: Before, shape: Shape) -> Before
    ensures { result ≡ spec.after_keyword before shape }
{
    if shape.is(Shape::Yield) || shape.is(Shape::Super) {
        Before::Name
    } else if shape.is(Shape::Def) {
        Before::Def
    } else if shape.is(Shape::Do) {
        Before::Opener
    } else if shape.is(Shape::SelfWord) {
        after_self(before)
    } else if is_value(shape) {
        Before::Operand
    } else {
        Before::Plain
    }
}

fn after_self(before: Before) -> Before
    ensures { result ≡ spec.after_self before }
{
    match before {
        Before::Def => Before::DefSelf,
        _ => Before::Operand,
    }
}

fn is_value(shape: Shape) -> bool
    ensures { result ≡ spec.is_value shape }
{
    shape.is(Shape::End) || shape.is(Shape::Nil) || shape.is(Shape::True) || shape.is(Shape::False)
}

fn label(end: usize) -> Cut
    requires { end < 2 ^ 63 }
    ensures { result ≡ spec.label end }
{
    token(Shape::Label, end + 1, Before::Plain, false)
}

#[tactic(auto, unfolding(crate::specs::Cuts::name))]
fn name(before: Before, z: &[u8]) -> Cut
    requires begins { chars.begins_name (slice_index z.now 0) ≡ true }
    requires fits { length z.now < 2 ^ 63 }
    ensures value { result ≡ spec.name before z.now }
    ensures within { spec.IsWithin result (length z.now) }
{
    let end = identifier_len(z);
    if is_labelled(z, end) {
        label(end)
    } else if is_after_dot(before) {
        token(Shape::Identifier, end, Before::Name, true)
    } else {
        match word_of(&z[..end]) {
            Word::Free => token(Shape::Identifier, end, Before::Name, true),
            Word::Keyword(shape) => keyword(before, shape, end),
            Word::Foreign => Cut::Outside,
        }
    }
}

#[tactic(auto, unfolding(crate::specs::Cuts::constant))]
fn constant(before: Before, z: &[u8]) -> Cut
    requires begins { chars.is_upper (slice_index z.now 0) ≡ true }
    requires fits { length z.now < 2 ^ 63 }
    ensures value { result ≡ spec.constant before z.now }
    ensures within { spec.IsWithin result (length z.now) }
{
    let end = run_len(Set::Word, z);
    if is_labelled(z, end) {
        label(end)
    } else if is_after_dot(before) {
        token(Shape::Constant, end, Before::Constant, true)
    } else {
        match word_of(&z[..end]) {
            Word::Foreign => Cut::Outside,
            _ => token(Shape::Constant, end, Before::Constant, true),
        }
    }
}

#[tactic(auto, unfolding(crate::specs::Cuts::number))]
fn number(z: &[u8]) -> Cut
    requires begins { chars.is_in Set.Decimal (slice_index z.now 0) ≡ true }
    requires some { 0 < length z.now }
    requires fits { length z.now < 2 ^ 63 }
    ensures value { result ≡ spec.number z.now }
    ensures within { spec.IsWithin result (length z.now) }
{
    let number = spelling_of(z);
    if is_foreign(number, z) {
        Cut::Outside
    } else if number.is_float {
        token(Shape::Float, number.len, Before::Operand, true)
    } else {
        token(Shape::Whole, number.len, Before::Operand, true)
    }
}

#[tactic(auto, unfolding(crate::specs::Cuts::variable))]
fn variable(z: &[u8]) -> Cut
    requires begins { 0 < length z.now }
    requires fits { length z.now < 2 ^ 63 }
    ensures value { result ≡ spec.variable z.now }
    ensures within { spec.IsWithin result (length z.now) }
{
    let next = byte(z, 1);
    if next == b'@' {
        Cut::Outside
    } else if begins_name(next) {
        token(
            Shape::InstanceVariable,
            1 + run_len(Set::Word, after(z, 1)),
            Before::Operand,
            true,
        )
    } else {
        Cut::Bad
    }
}

#[tactic(auto, unfolding(crate::specs::Cuts::colon))]
fn colon(look: Look, z: &[u8]) -> Cut
    requires begins { 0 < length z.now }
    requires fits { length z.now < 2 ^ 63 }
    ensures value { result ≡ spec.colon look z.now }
    ensures within { spec.IsWithin result (length z.now) }
{
    let rest = after(z, 1);
    let len = symbol_len(rest);
    if len != 0 {
        token(Shape::Symbol, 1 + len, Before::Operand, true)
    } else if byte(z, 1) == b':' || is_spaced(rest) {
        sign(look, z)
    } else {
        Cut::Outside
    }
}

fn is_strange_opening(shape: Shape) -> bool
    ensures { result ≡ spec.is_strange_opening shape }
{
    shape.is(Shape::Slash)
        || shape.is(Shape::Percent)
        || shape.is(Shape::Star)
        || shape.is(Shape::Power)
        || shape.is(Shape::ShiftLeft)
}

fn is_ambiguous(shape: Shape) -> bool
    ensures { result ≡ spec.is_ambiguous shape }
{
    shape.is(Shape::Minus)
        || shape.is(Shape::Plus)
        || shape.is(Shape::Ampersand)
        || shape.is(Shape::OpenBracket)
        || shape.is(Shape::Scope)
        || is_strange_opening(shape)
}

fn begins_here_document(z: &[u8]) -> bool
    ensures { result ≡ spec.begins_here_document z.now }
{
    let b = byte(z, 0);
    b == b'~' || b == b'-' || b == b'\'' || b == b'"'
}

fn is_outside(look: Look, shape: Shape, rest: &[u8]) -> bool
    ensures { result ≡ spec.is_outside look shape rest.now }
{
    let is_end = is_operand_end(look.before);
    (is_strange_opening(shape) && !is_end && !names_method(look.before))
        || (shape.is(Shape::ShiftLeft) && is_end && look.is_blank && begins_here_document(rest))
        || (shape.is(Shape::Question) && (!is_end || !is_spaced(rest)))
        || (shape.is(Shape::OpenParen) && is_constant(look.before) && !look.is_blank)
}

fn is_bad(look: Look, shape: Shape, rest: &[u8]) -> bool
    ensures { result ≡ spec.is_bad look shape rest.now }
{
    is_name(look.before)
        && look.is_blank
        && (shape.is(Shape::OpenParen) || (is_ambiguous(shape) && !is_spaced(rest)))
}

pub fn after_operator(before: Before, shape: Shape) -> Before
    ensures { result ≡ spec.after_operator before shape }
{
    if is_closing(shape) {
        Before::Operand
    } else if shape.is(Shape::OpenBrace) {
        Before::Opener
    } else if shape.is(Shape::SafeDot) {
        Before::Dot
    } else if shape.is(Shape::Dot) {
        after_dot(before)
    } else {
        Before::Plain
    }
}

fn after_dot(before: Before) -> Before
    ensures { result ≡ spec.after_dot before }
{
    match before {
        Before::DefSelf => Before::DefDot,
        _ => Before::Dot,
    }
}

fn is_closing(shape: Shape) -> bool
    ensures { result ≡ spec.is_closing shape }
{
    shape.is(Shape::CloseParen) || shape.is(Shape::CloseBracket) || shape.is(Shape::CloseBrace)
}

#[tactic(auto, unfolding(crate::specs::Cuts::judged))]
fn judged(look: Look, shape: Shape, len: usize, rest: &[u8]) -> Cut
    ensures value { result ≡ spec.judged look shape len rest.now }
    ensures within { (n : ℕ) → 0 < len → len ≤ n → spec.IsWithin result n }
{
    if is_outside(look, shape, rest) {
        Cut::Outside
    } else if is_bad(look, shape, rest) {
        Cut::Bad
    } else {
        token(
            shape,
            len,
            after_operator(look.before, shape),
            is_closing(shape) || names_method(look.before),
        )
    }
}

#[tactic(auto, unfolding(crate::specs::Cuts::sign_at))]
fn sign_at(before: Before, z: &[u8]) -> Sign
    ensures value { result ≡ spec.sign_at before z.now }
    ensures within { spec.IsSigned result (length z.now) }
{
    let b = byte(z, 0);
    let ahead = Ahead {
        next: byte(z, 1),
        last: byte(z, 2),
    };
    if names_method(before) {
        method_name(b, ahead)
    } else {
        operator(b, ahead)
    }
}

#[tactic(auto, unfolding(crate::specs::Cuts::sign))]
fn sign(look: Look, z: &[u8]) -> Cut
    requires begins { 0 < length z.now }
    ensures value { result ≡ spec.sign look z.now }
    ensures within { spec.IsWithin result (length z.now) }
{
    match sign_at(look.before, z) {
        Sign::Nothing => Cut::Bad,
        Sign::Foreign => Cut::Outside,
        Sign::Operator { shape, len } => judged(look, shape, len, after(z, len)),
    }
}

fn ends_line(z: &[u8]) -> bool
    ensures { result ≡ spec.ends_line z.now }
{
    z.is_empty() || byte(z, 0) == b'\n' || (byte(z, 0) == b'\r' && byte(z, 1) == b'\n')
}

#[tactic(auto, unfolding(crate::specs::Cuts::ends_program))]
fn ends_program(z: &[u8]) -> bool
    ensures { result ≡ spec.ends_program z.now }
{
    z.starts_with(b"=begin") || (z.starts_with(b"__END__") && ends_line(after(z, 7)))
}

fn blanks_len(z: &[u8]) -> usize
    ensures value { result ≡ spec.blanks_len z.now }
    ensures within { result ≤ length z.now }
{
    if is_in(Set::Blank, byte(z, 0)) {
        run_len(Set::Blank, z)
    } else {
        blank_len(z)
    }
}

#[tactic(auto, unfolding(crate::specs::Cuts::mark))]
fn mark(look: Look, z: &[u8]) -> Cut
    requires begins { 0 < length z.now }
    requires fits { length z.now < 2 ^ 63 }
    ensures value { result ≡ spec.mark look z.now }
    ensures within { spec.IsWithin result (length z.now) }
{
    let b = byte(z, 0);
    if b == b'"' || b == b'\'' {
        Cut::Quote
    } else if b == b':' {
        colon(look, z)
    } else if b == b'@' {
        variable(z)
    } else if b == b';' {
        token(Shape::Separator, 1, Before::Plain, true)
    } else if b == b'#' {
        Cut::Blank {
            len: line_len(z),
            is_fresh: false,
        }
    } else if b == b'$' || b == b'`' || b >= 128 {
        Cut::Outside
    } else {
        sign(look, z)
    }
}

/// What begins at the front of the text.
#[tactic(auto, unfolding(crate::specs::Cuts::cut_of))]
pub fn cut_of(look: Look, z: &[u8]) -> Cut
    requires begins { 0 < length z.now }
    requires fits { length z.now < 2 ^ 63 }
    ensures value { result ≡ spec.cut_of look z.now }
    ensures within { spec.IsWithin result (length z.now) }
{
    let b = byte(z, 0);
    let len = blanks_len(z);
    if look.is_fresh && ends_program(z) {
        Cut::Outside
    } else if len != 0 {
        Cut::Blank {
            len,
            is_fresh: b == b'\\',
        }
    } else if b == b'\n' {
        Cut::Line
    } else if begins_name(b) {
        name(look.before, z)
    } else if is_upper(b) {
        constant(look.before, z)
    } else if is_in(Set::Decimal, b) {
        number(z)
    } else {
        mark(look, z)
    }
}
