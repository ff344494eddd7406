ghost use Rattle.std.specs.Prelude.{◌≡◌, ◌+◌, ◌<◌, ◌≤◌, length, drop};
ghost use Rattle.srb_check.specs.Reports.{moved, place_after, place_of, start};
ghost use Rattle.srb_text.specs.Lines.{ends_line};

use crate::characters::continues;

/// A place in a file: a line, and a column in characters. Both count from 0.
#[derive(Clone, Copy, Debug, PartialEq, Eq)]
pub struct Place {
    pub line: usize,
    pub column: usize,
}

/// Whether a line ends right after the byte, before `rest`: never between the two bytes of one line's end.
fn ends_line(byte: u8, rest: &[u8]) -> bool
    ensures { result ≡ ends_line byte rest.now }
{
    byte == b'\n' || (byte == b'\r' && !rest.starts_with(b"\n"))
}

/// The place after one byte more, before `rest`.
fn moved(place: Place, byte: u8, rest: &[u8]) -> Place
    requires line { place.line < usize.MAX }
    requires column { place.column < usize.MAX }
    ensures place { result ≡ moved place byte rest.now }
    ensures line { result.line ≤ place.line + 1 }
    ensures column { result.column ≤ place.column + 1 }
{
    if ends_line(byte, rest) {
        Place {
            line: place.line + 1,
            column: 0,
        }
    } else if byte == b'\r' || continues(byte) {
        place
    } else {
        Place {
            line: place.line,
            column: place.column + 1,
        }
    }
}

/// An offset of a file in bytes, and its place.
#[derive(Clone, Copy, Debug)]
pub struct Reached {
    pub at: usize,
    pub place: Place,
}

/// The start of a file.
pub fn start() -> Reached
    ensures at { result.at ≡ 0 }
    ensures place { result.place ≡ start }
{
    Reached {
        at: 0,
        place: Place { line: 0, column: 0 },
    }
}

/// The bytes from an offset on.
fn after(bytes: &[u8], at: usize) -> &[u8]
    requires { at ≤ length bytes.now }
    ensures { result.now ≡ drop at bytes.now }
{
    &bytes[at..]
}

/// The place of the offset `to`, found from that of an earlier offset `from` by the bytes between them.
fn place_from(bytes: &[u8], from: Reached, to: usize) -> Place
    requires known { from.place ≡ place_of bytes.now from.at }
    requires rising { from.at ≤ to }
    requires inside { to ≤ length bytes.now }
    ensures { result ≡ place_of bytes.now to }
{
    let mut place = from.place;
    for at in from.at..to {
        place = moved(place, bytes[at], after(bytes, at + 1));
    }
    place
}

/// The offset reached so far, or the start where that one is after `to`.
fn reached_before(bytes: &[u8], reached: Reached, to: usize) -> Reached
    requires { reached.place ≡ place_of bytes.now reached.at }
    ensures known { result.place ≡ place_of bytes.now result.at }
    ensures rising { result.at ≤ to }
{
    if to < reached.at { start() } else { reached }
}

/// The place of the offset `at`, which an offset after the end shares with the end. Where `at` isn't before the offset
/// reached so far, only the bytes between them are read.
pub fn reach(bytes: &[u8], reached: Reached, at: usize) -> Reached
    requires { reached.place ≡ place_of bytes.now reached.at }
    ensures known { result.place ≡ place_of bytes.now result.at }
    ensures place { result.place ≡ place_of bytes.now at }
    ensures line { result.place.line ≤ length bytes.now }
    ensures column { result.place.column ≤ length bytes.now }
{
    let to = at.min(bytes.len());
    let from = reached_before(bytes, reached, to);
    Reached {
        at: to,
        place: place_from(bytes, from, to),
    }
}
