//! The steps over tokens that every rule of the grammar is made of.

ghost use Rattle.std.specs.Prelude.{◌≡◌, IfOk};
ghost use Rattle.rb_expr.specs.Reading as spec;
ghost use Rattle.rb_expr.specs.Reading.{Gives, IsMemory};

use rb_tree::syntax::PlacedName;
use rb_tree::token::{Shape, Token, TokenKind};
use srb_terms::{Name, NoMemory, Span, Words};
use std::alloc::Global;

/// Why a rule has no answer.
#[derive(Clone, Copy)]
pub enum Stop<'a> {
    /// There was no memory.
    Memory,
    /// The form goes on neither with the first of these tokens nor, where there is none, with the end.
    Refused(&'a [Token]),
}

/// What a rule has read, and the tokens after it.
pub type Read<'a, A> = Result<(A, &'a [Token]), Stop<'a>>;

impl From<NoMemory> for Stop<'_> {
    ghost from_gives = { λ _ stop. IsMemory stop };

    fn from(_: NoMemory) -> Self {
        Stop::Memory
    }
}

/// The shape of the next token. `None` where there is none.
pub fn peek(tokens: &[Token]) -> Option<Shape>
    ensures { result ≡ spec.peek tokens.now }
{
    match tokens {
        [first, ..] => Some(first.kind.shape()),
        [] => None,
    }
}

/// Whether the next token has this shape.
pub fn sees(shape: Shape, tokens: &[Token]) -> bool
    ensures { result ≡ spec.sees shape tokens.now }
{
    match tokens {
        [first, ..] => first.kind.shape().is(shape),
        [] => false,
    }
}

/// Where the next token begins, in bytes. 0 where there is none.
pub fn start_of(tokens: &[Token]) -> u32
    ensures { result ≡ spec.start_of tokens.now }
{
    match tokens {
        [first, ..] => first.span.start,
        [] => 0,
    }
}

/// Whether the next token begins where this place ends.
pub fn touches(before: Span, tokens: &[Token]) -> bool
    ensures { result ≡ spec.touches before tokens.now }
{
    match tokens {
        [first, ..] => first.span.start == before.end,
        [] => false,
    }
}

/// The tokens after the next one.
pub fn after(tokens: &[Token]) -> &[Token]
    ensures { result.now ≡ spec.after tokens.now }
{
    match tokens {
        [_, rest @ ..] => rest,
        [] => tokens,
    }
}

/// The tokens after the separators that come next.
pub fn skip_separators(tokens: &[Token]) -> &[Token]
    ensures { result.now ≡ spec.skip_separators tokens.now }
{
    let mut rest = tokens;
    while sees(Shape::Separator, rest) {
        rest = after(rest);
    }
    rest
}

/// Takes the next token, whatever its shape, and gives its place.
pub fn take<'a>(tokens: &'a [Token]) -> Read<'a, Span>
    ensures { Gives (λ x. (x.0, x.1.now)) result (spec.take_token tokens.now) }
{
    match tokens {
        [first, rest @ ..] => Ok((first.span, rest)),
        [] => Err(Stop::Refused(tokens)),
    }
}

/// Takes a token of this shape, and gives its place.
pub fn expect<'a>(shape: Shape, tokens: &'a [Token]) -> Read<'a, Span>
    ensures { Gives (λ x. (x.0, x.1.now)) result (spec.expect shape tokens.now) }
{
    match tokens {
        [first, rest @ ..] if first.kind.shape().is(shape) => Ok((first.span, rest)),
        _ => Err(Stop::Refused(tokens)),
    }
}

/// The words of a token, which share their text with it. Nothing where it carries none.
fn words_of(alloc: Global, kind: &TokenKind) -> Result<Words, NoMemory>
    ensures { IfOk result (λ words. words ≡ spec.words_of kind.now) }
{
    match kind {
        TokenKind::Identifier { words }
        | TokenKind::Constant { words }
        | TokenKind::InstanceVariable { words }
        | TokenKind::Label { words }
        | TokenKind::Symbol { words }
        | TokenKind::Whole { words }
        | TokenKind::Float { words }
        | TokenKind::Text { words } => words.copied(),
        _ => Words::from_str(alloc, ""),
    }
}

/// The words of a token as a name, which shares its text with it.
fn name_of(alloc: Global, kind: &TokenKind) -> Result<Name, NoMemory>
    ensures { IfOk result (λ name. name ≡ spec.words_of kind.now) }
{
    let words = words_of(alloc, kind)?;
    Name::from_words(&words)
}

/// Takes a token of this shape as a name.
pub fn named<'a>(alloc: Global, shape: Shape, tokens: &'a [Token]) -> Read<'a, PlacedName>
    ensures { Gives (λ x. (x.0, x.1.now)) result (spec.named shape tokens.now) }
{
    match tokens {
        [first, rest @ ..] if first.kind.shape().is(shape) => {
            let name = name_of(alloc, &first.kind)?;
            let span = first.span;
            Ok((PlacedName { name, span }, rest))
        }
        _ => Err(Stop::Refused(tokens)),
    }
}

/// Takes a token of this shape, and gives its words and its place.
pub fn worded<'a>(alloc: Global, shape: Shape, tokens: &'a [Token]) -> Read<'a, (Words, Span)>
    ensures { Gives (λ x. (x.0, x.1.now)) result (spec.worded shape tokens.now) }
{
    match tokens {
        [first, rest @ ..] if first.kind.shape().is(shape) => {
            let words = words_of(alloc, &first.kind)?;
            Ok(((words, first.span), rest))
        }
        _ => Err(Stop::Refused(tokens)),
    }
}
