//! Characters, blanks and comments.

ghost use Rattle.std.specs.Prelude.{◌≡◌, ◌≢◌, ◌<◌, ◌≤◌, ◌+◌, length, slice_index, true};
ghost use Rattle.rb_lex.specs.Chars as spec;

/// A set of bytes.
#[derive(Clone, Copy)]
pub enum Set {
    /// Letters, digits and `_`.
    Word,
    /// Space and tab.
    Blank,
    Binary,
    Octal,
    Decimal,
    Hexadecimal,
}

pub fn is_in(set: Set, b: u8) -> bool
    ensures { result ≡ spec.is_in set b }
{
    match set {
        Set::Word => b.is_ascii_alphanumeric() || b == b'_',
        Set::Blank => b == b' ' || b == b'\t',
        Set::Binary => b == b'0' || b == b'1',
        Set::Octal => b'0' <= b && b <= b'7',
        Set::Decimal => b.is_ascii_digit(),
        Set::Hexadecimal => b.is_ascii_hexdigit(),
    }
}

pub fn begins_name(b: u8) -> bool
    ensures { result ≡ spec.begins_name b }
{
    b.is_ascii_lowercase() || b == b'_'
}

pub fn is_upper(b: u8) -> bool
    ensures { result ≡ spec.is_upper b }
{
    b.is_ascii_uppercase()
}

pub fn is_letter(b: u8) -> bool
    ensures { result ≡ spec.is_letter b }
{
    b.is_ascii_alphabetic()
}

/// The byte at a place, and 0 after the end.
pub fn byte(z: &[u8], at: usize) -> u8
    ensures value { result ≡ slice_index z.now at }
    ensures within { result ≢ 0 → at < length z.now }
{
    if at < z.len() { z[at] } else { 0 }
}

/// How many bytes of the set the text begins with.
pub fn run_len(set: Set, z: &[u8]) -> usize
    ensures value { result ≡ spec.run_len set z.now }
    ensures within { result ≤ length z.now }
    ensures moves { spec.is_in set (slice_index z.now 0) ≡ true → 0 < length z.now → 0 < result }
{
    for (at, b) in z.iter().enumerate() {
        if !is_in(set, *b) {
            return at;
        }
    }
    z.len()
}

/// How long the one blank is with which the text begins, or 0 where it begins with none.
pub fn blank_len(z: &[u8]) -> usize
    ensures value { result ≡ spec.blank_len z.now }
    ensures within { result ≤ length z.now }
{
    let (b, next) = (byte(z, 0), byte(z, 1));
    if is_in(Set::Blank, b) {
        1
    } else if b == b'\r' && next == b'\n' {
        1
    } else if b == b'\\' && next == b'\n' {
        2
    } else if b == b'\\' && next == b'\r' && byte(z, 2) == b'\n' {
        3
    } else {
        0
    }
}

/// Whether a blank or a line's end comes next, or nothing.
pub fn is_spaced(z: &[u8]) -> bool
    ensures { result ≡ spec.is_spaced z.now }
{
    z.is_empty() || byte(z, 0) == b'\n' || blank_len(z) != 0
}

/// How many bytes stand before the line's end.
pub fn line_len(z: &[u8]) -> usize
    ensures value { result ≡ spec.line_len z.now }
    ensures within { result ≤ length z.now }
{
    for (at, b) in z.iter().enumerate() {
        if *b == b'\n' || (*b == b'\r' && byte(z, at + 1) == b'\n') {
            return at;
        }
    }
    z.len()
}

/// The text from a place on, or its end where it is not that long.
pub fn after(z: &[u8], at: usize) -> &[u8]
    ensures { result.now ≡ spec.after at z.now }
{
    if at <= z.len() { &z[at..] } else { &[] }
}
