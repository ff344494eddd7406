//! Places that errors and questions need.

ghost use Rattle.std.specs.Prelude.{◌≡◌};
ghost use Rattle.rb_views.specs.Places as spec;

use rb_tree::syntax::{Jump, PlacedName};
use srb_terms::Span;

/// The first `count` bytes of a place, or the whole place where it is shorter.
pub fn first_bytes(span: Span, count: u32) -> Span
    ensures { result ≡ spec.first_bytes span count }
{
    let length = span.end.saturating_sub(span.start);
    Span {
        start: span.start,
        end: span.start + count.min(length),
    }
}

/// The number of bytes in the word of a jump.
fn jump_length(jump: Jump) -> u32
    ensures { result ≡ spec.jump_length jump }
{
    match jump {
        Jump::Return => 6,
        Jump::Break => 5,
        Jump::Next => 4,
    }
}

/// The word of a jump at this place.
pub fn jump_word(jump: Jump, span: Span) -> Span
    ensures { result ≡ spec.jump_word jump span }
{
    first_bytes(span, jump_length(jump))
}

/// The `[` of an index at this place.
pub fn open_bracket(span: Span) -> Span
    ensures { result ≡ spec.open_bracket span }
{
    first_bytes(span, 1)
}

/// The operator of an operation at this place whose operator stands in front, as of `!a`.
pub fn prefix_operator(span: Span) -> Span
    ensures { result ≡ spec.prefix_operator span }
{
    first_bytes(span, 1)
}

/// The place of a path of names, as of a class or module: from the first to the last. It is 0 to 0 where there is none.
pub fn names_span(names: &[PlacedName]) -> Span
    ensures { result ≡ spec.names_span names.now }
{
    let [first, rest @ ..] = names else {
        return Span { start: 0, end: 0 };
    };
    let mut span = first.span;
    'names: for name in rest {
        span = Span {
            start: span.start,
            end: name.span.end,
        };
    }
    span
}
