//! Numbers.

ghost use Rattle.std.specs.Prelude.{◌≡◌, ◌≢◌, ◌<◌, ◌≤◌, ◌+◌, ◌^◌, length, slice_index, true};
ghost use Rattle.rb_lex.specs.Chars as chars;
ghost use Rattle.rb_lex.specs.Numbers as spec;

use crate::chars::{Set, after, byte, is_in, is_letter};

/// The spelling of a number: its length, whether it has a fraction, how many bytes stand before its digits, and what its digits
/// are.
#[derive(Clone, Copy)]
pub struct Spelling {
    pub len: usize,
    pub is_float: bool,
    pub head: usize,
    pub digits: Set,
}

/// How long the run of digits is that goes on at the text's front, where a digit stands before it: `_` stands between digits.
pub fn more_digits(digits: Set, mut z: &[u8]) -> usize
    requires { length z.now < 2 ^ 63 }
    ensures value { result ≡ spec.more_digits digits z.entry.now }
    ensures within { result ≤ length z.entry.now }
{
    let mut count = 0;
    while let [b, rest @ ..] = z {
        if !(is_in(digits, *b) || (*b == b'_' && is_in(digits, byte(rest, 0)))) {
            return count;
        }
        count += 1;
        z = rest;
    }
    count
}

/// How long the run of digits is with which the text begins.
fn digits_len(digits: Set, z: &[u8]) -> usize
    requires { length z.now < 2 ^ 63 }
    ensures value { result ≡ spec.digits_len digits z.now }
    ensures within { result ≤ length z.now }
    ensures moves { spec.begins_digits digits z.now ≡ true → 0 < result }
{
    if begins_digits(digits, z) {
        more_digits(digits, z)
    } else {
        0
    }
}

fn begins_digits(digits: Set, z: &[u8]) -> bool
    ensures value { result ≡ spec.begins_digits digits z.now }
    ensures within { result ≡ true → 0 < length z.now }
{
    !z.is_empty() && is_in(digits, byte(z, 0))
}

/// The end of the fraction that goes on at a place, or 0 where none does.
fn fraction_end(z: &[u8], at: usize) -> usize
    requires within { at ≤ length z.now }
    requires fits { length z.now < 2 ^ 63 }
    ensures value { result ≡ spec.fraction_end z.now at }
    ensures within { result ≤ length z.now }
{
    if byte(z, at) == b'.' && is_in(Set::Decimal, byte(z, at + 1)) {
        let end = at + 1 + digits_len(Set::Decimal, after(z, at + 1));
        exponent_end(z, end)
    } else {
        0
    }
}

/// The end of the exponent that goes on at a place, or the place where none does.
fn exponent_end(z: &[u8], at: usize) -> usize
    requires within { at ≤ length z.now }
    requires fits { length z.now < 2 ^ 63 }
    ensures value { result ≡ spec.exponent_end z.now at }
    ensures within { result ≤ length z.now }
{
    let next = byte(z, at + 1);
    if byte(z, at) != b'e' {
        at
    } else if is_in(Set::Decimal, next) {
        at + 1 + digits_len(Set::Decimal, after(z, at + 1))
    } else if (next == b'+' || next == b'-') && is_in(Set::Decimal, byte(z, at + 2)) {
        at + 2 + digits_len(Set::Decimal, after(z, at + 2))
    } else {
        at
    }
}

fn based(digits: Set, z: &[u8]) -> Spelling
    requires within { 2 ≤ length z.now }
    requires fits { length z.now < 2 ^ 63 }
    ensures value { result ≡ spec.based digits z.now }
    ensures within { (0 < result.len) × (result.len ≤ length z.now) }
{
    Spelling {
        len: 2 + digits_len(digits, after(z, 2)),
        is_float: false,
        head: 2,
        digits,
    }
}

fn decimal(z: &[u8]) -> Spelling
    requires begins { chars.is_in Set.Decimal (slice_index z.now 0) ≡ true }
    requires some { 0 < length z.now }
    requires fits { length z.now < 2 ^ 63 }
    ensures value { result ≡ spec.decimal z.now }
    ensures within { (0 < result.len) × (result.len ≤ length z.now) }
{
    let whole = digits_len(Set::Decimal, z);
    let end = fraction_end(z, whole);
    if end != 0 {
        Spelling {
            len: end,
            is_float: true,
            head: 0,
            digits: Set::Decimal,
        }
    } else if byte(z, 0) == b'0' {
        Spelling {
            len: 1,
            is_float: false,
            head: 0,
            digits: Set::Decimal,
        }
    } else {
        Spelling {
            len: whole,
            is_float: false,
            head: 0,
            digits: Set::Decimal,
        }
    }
}

/// The spelling of the number with which the text begins.
#[tactic(auto, unfolding(crate::specs::Numbers::spelling_of))]
pub fn spelling_of(z: &[u8]) -> Spelling
    requires begins { chars.is_in Set.Decimal (slice_index z.now 0) ≡ true }
    requires some { 0 < length z.now }
    requires fits { length z.now < 2 ^ 63 }
    ensures value { result ≡ spec.spelling_of z.now }
    ensures within { (0 < result.len) × (result.len ≤ length z.now) }
{
    let (base, first) = (byte(z, 1), byte(z, 2));
    if byte(z, 0) != b'0' {
        decimal(z)
    } else if base == b'x' && is_in(Set::Hexadecimal, first) {
        based(Set::Hexadecimal, z)
    } else if base == b'b' && is_in(Set::Binary, first) {
        based(Set::Binary, z)
    } else if base == b'o' && is_in(Set::Octal, first) {
        based(Set::Octal, z)
    } else {
        decimal(z)
    }
}

fn base_of(digits: Set) -> u128
    ensures value { result ≡ spec.base_of digits }
    ensures small { result ≤ 16 }
{
    match digits {
        Set::Binary => 2,
        Set::Octal => 8,
        Set::Hexadecimal => 16,
        _ => 10,
    }
}

fn digit_of(b: u8) -> u128
    ensures value { result ≡ spec.digit_of b }
    ensures small { result < 256 }
{
    if b.is_ascii_digit() {
        (b - b'0') as u128
    } else if b.is_ascii_uppercase() {
        (b - b'A') as u128 + 10
    } else if b.is_ascii_lowercase() {
        (b - b'a') as u128 + 10
    } else {
        0
    }
}

fn with_digit(value: u128, digits: Set, b: u8) -> Option<u128>
    ensures { result ≡ spec.with_digit value digits b }
{
    match value.checked_mul(base_of(digits)) {
        None => None,
        Some(product) => product.checked_add(digit_of(b)),
    }
}

/// Whether the number that the digits write stays below 2 to the 128th, where the digits before them wrote `value`.
fn fits(mut value: u128, digits: Set, mut z: &[u8]) -> bool
    ensures { result ≡ spec.fits value digits z.entry.now }
{
    while let [b, rest @ ..] = z {
        if *b != b'_' {
            match with_digit(value, digits, *b) {
                None => return false,
                Some(more) => value = more,
            }
        }
        z = rest;
    }
    true
}

/// Whether a number is none of the profile: it begins with 0 and a digit, a letter stands after it, or it has over 128 bits.
#[tactic(auto, unfolding(crate::specs::Numbers::is_foreign))]
pub fn is_foreign(number: Spelling, z: &[u8]) -> bool
    requires { number.len ≤ length z.now }
    ensures { result ≡ spec.is_foreign number z.now }
{
    (byte(z, 0) == b'0' && is_in(Set::Decimal, byte(z, 1)))
        || is_letter(byte(z, number.len))
        || !(number.is_float || fits(0, number.digits, digits_in(number, z)))
}

/// The digits of a number.
fn digits_in(number: Spelling, z: &[u8]) -> &[u8]
    requires { number.len ≤ length z.now }
    ensures { result.now ≡ spec.digits_in number z.now }
{
    after(&z[..number.len], number.head)
}
