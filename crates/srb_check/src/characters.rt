//! Characters in the bytes of UTF-8.

ghost use Rattle.std.specs.Prelude.{◌≡◌, ◌≤◌, ◌<◌, ◌+◌, ◌^◌, length, drop};
ghost use Rattle.srb_check.specs.Characters as spec;
ghost use Rattle.srb_text.specs.Limits.{MOST_BYTES};

use srb_terms::Span;

/// Whether a byte continues a character.
pub fn continues(byte: u8) -> bool
    ensures { result ≡ spec.continues byte }
{
    128 <= byte && byte <= 191
}

/// How many bytes continue a character at the front of these.
fn continuing(bytes: &[u8]) -> usize
    ensures count { result ≡ spec.continuing bytes.now }
    ensures bound { result ≤ length bytes.now }
{
    for (at, byte) in bytes.iter().enumerate() {
        if !continues(*byte) {
            return at;
        }
    }
    bytes.len()
}

/// How many bytes the first character has, and 0 where there is none.
fn first_size(bytes: &[u8]) -> usize
    ensures count { result ≡ spec.first_size bytes.now }
    ensures bound { result ≤ length bytes.now }
{
    match bytes {
        [] => 0,
        [_, rest @ ..] => 1 + continuing(rest),
    }
}

/// The bytes from an offset on, none where it lies after the end.
fn from(bytes: &[u8], at: usize) -> &[u8]
    ensures { result.now ≡ drop at bytes.now }
{
    if at <= bytes.len() { &bytes[at..] } else { &[] }
}

/// The place of the character that begins at an offset, which is empty at the text's end.
pub fn character_at(bytes: &[u8], at: u32) -> Span
    requires { length bytes.now ≤ MOST_BYTES }
    ensures { result ≡ spec.character_at bytes.now at }
{
    Span {
        start: at,
        end: at + first_size(from(bytes, at as usize)) as u32,
    }
}
