//! Pieces of strings.

ghost use Rattle.std.specs.Prelude.{◌≡◌, ◌<◌, ◌≤◌, ◌+◌, ◌^◌, length, slice_index, true, false};
ghost use Rattle.rb_lex.specs.Pieces as spec;

use crate::chars::byte;

/// What ends a piece of a string.
#[derive(Clone, Copy)]
pub enum Stop {
    /// The quote that ends the string.
    Quote,
    /// `#{`.
    Interpolation,
    /// `#@` or `#$`, which is outside the profile.
    Foreign,
    /// The text's end.
    End,
}

/// A piece of a string: what ends it, and the number of bytes before that.
#[derive(Clone, Copy)]
pub struct Piece {
    pub stop: Stop,
    pub len: usize,
}

/// What the byte ends that stands before `next` in a string with this quote, and after no backslash.
fn stop_at(quote: u8, b: u8, next: u8) -> Option<Stop>
    ensures value { result ≡ spec.stop_at quote b next }
    ensures within { spec.NeedsNext result next }
{
    if b == quote {
        Some(Stop::Quote)
    } else if quote != b'"' || b != b'#' {
        None
    } else if next == b'{' {
        Some(Stop::Interpolation)
    } else if next == b'@' || next == b'$' {
        Some(Stop::Foreign)
    } else {
        None
    }
}

/// The piece with which the text begins, in a string with this quote.
pub fn piece_of(quote: u8, mut z: &[u8]) -> Piece
    requires { length z.now < 2 ^ 63 }
    ensures value { result ≡ spec.piece_of quote z.entry.now }
    ensures within { spec.IsWithin result.stop result.len (length z.entry.now) }
{
    let mut is_taken = false;
    let mut len = 0;
    while let [b, rest @ ..] = z {
        if is_taken {
            is_taken = false;
        } else {
            match stop_at(quote, *b, byte(rest, 0)) {
                Some(stop) => return Piece { stop, len },
                None => is_taken = *b == b'\\',
            }
        }
        len += 1;
        z = rest;
    }
    Piece {
        stop: Stop::End,
        len,
    }
}

/// Whether one `:` stands at the front of the text.
pub fn is_touched(z: &[u8]) -> bool
    ensures { result ≡ spec.is_touched z.now }
{
    byte(z, 0) == b':' && byte(z, 1) != b':'
}
