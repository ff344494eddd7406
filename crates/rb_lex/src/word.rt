//! Names, keywords, labels and symbols.

ghost use Rattle.std.specs.Prelude.{◌≡◌, ◌≢◌, ◌<◌, ◌≤◌, ◌+◌, length, map, slice_index, true};
ghost use Rattle.rb_lex.specs.Chars as chars;
ghost use Rattle.rb_lex.specs.Words as spec;

use crate::chars::{Set, begins_name, byte, is_in, is_upper, run_len};
use rb_tree::token::Shape;

/// What a word is by its spelling.
#[derive(Clone, Copy)]
pub enum Word {
    /// No word of the language.
    Free,
    Keyword(Shape),
    /// A word of Ruby that is outside the profile.
    Foreign,
}

pub const TWO: [(&[u8], Word); 4] = [
    (b"if", Word::Keyword(Shape::If)),
    (b"do", Word::Keyword(Shape::Do)),
    (b"or", Word::Foreign),
    (b"in", Word::Foreign),
];

pub const THREE: [(&[u8], Word); 7] = [
    (b"def", Word::Keyword(Shape::Def)),
    (b"end", Word::Keyword(Shape::End)),
    (b"nil", Word::Keyword(Shape::Nil)),
    (b"and", Word::Foreign),
    (b"not", Word::Foreign),
    (b"for", Word::Foreign),
    (b"END", Word::Foreign),
];

pub const FOUR: [(&[u8], Word); 8] = [
    (b"self", Word::Keyword(Shape::SelfWord)),
    (b"true", Word::Keyword(Shape::True)),
    (b"else", Word::Keyword(Shape::Else)),
    (b"case", Word::Keyword(Shape::Case)),
    (b"when", Word::Keyword(Shape::When)),
    (b"then", Word::Keyword(Shape::Then)),
    (b"next", Word::Keyword(Shape::Next)),
    (b"redo", Word::Foreign),
];

pub const FIVE: [(&[u8], Word); 13] = [
    (b"class", Word::Keyword(Shape::Class)),
    (b"elsif", Word::Keyword(Shape::Elsif)),
    (b"while", Word::Keyword(Shape::While)),
    (b"until", Word::Keyword(Shape::Until)),
    (b"break", Word::Keyword(Shape::Break)),
    (b"false", Word::Keyword(Shape::False)),
    (b"yield", Word::Keyword(Shape::Yield)),
    (b"super", Word::Keyword(Shape::Super)),
    (b"begin", Word::Keyword(Shape::Begin)),
    (b"retry", Word::Foreign),
    (b"alias", Word::Foreign),
    (b"undef", Word::Foreign),
    (b"BEGIN", Word::Foreign),
];

pub const SIX: [(&[u8], Word); 5] = [
    (b"module", Word::Keyword(Shape::Module)),
    (b"return", Word::Keyword(Shape::Return)),
    (b"unless", Word::Keyword(Shape::Unless)),
    (b"rescue", Word::Keyword(Shape::Rescue)),
    (b"ensure", Word::Keyword(Shape::Ensure)),
];

pub const EIGHT: [(&[u8], Word); 3] = [
    (b"defined?", Word::Foreign),
    (b"__FILE__", Word::Foreign),
    (b"__LINE__", Word::Foreign),
];

pub const TWELVE: [(&[u8], Word); 1] = [(b"__ENCODING__", Word::Foreign)];

fn lookup(mut table: &[(&[u8], Word)], word: &[u8]) -> Word
    ensures { result ≡ spec.lookup (map (λ entry. (entry.0.now, entry.1)) table.entry.now) word.now }
{
    while let [entry, rest @ ..] = table {
        if entry.0 == word {
            return entry.1;
        }
        table = rest;
    }
    Word::Free
}

/// What the word is by its spelling.
#[tactic(auto, unfolding(crate::specs::Words::word_of))]
pub fn word_of(word: &[u8]) -> Word
    ensures { result ≡ spec.word_of word.now }
{
    match word.len() {
        2 => lookup(&TWO, word),
        3 => lookup(&THREE, word),
        4 => lookup(&FOUR, word),
        5 => lookup(&FIVE, word),
        6 => lookup(&SIX, word),
        8 => lookup(&EIGHT, word),
        12 => lookup(&TWELVE, word),
        _ => Word::Free,
    }
}

/// How long the identifier is with which the text begins, with its `?` or `!`.
pub fn identifier_len(z: &[u8]) -> usize
    ensures value { result ≡ spec.identifier_len z.now }
    ensures within { result ≤ length z.now }
    ensures moves { chars.begins_name (slice_index z.now 0) ≡ true → 0 < result }
{
    let end = run_len(Set::Word, z);
    let mark = byte(z, end);
    if (mark == b'?' || mark == b'!') && byte(z, end + 1) != b'=' {
        end + 1
    } else {
        end
    }
}

/// Whether a label ends at a place: one `:` stands there.
pub fn is_labelled(z: &[u8], end: usize) -> bool
    requires { end ≤ length z.now }
    ensures value { result ≡ spec.is_labelled z.now end }
    ensures within { result ≡ true → end < length z.now }
{
    byte(z, end) == b':' && byte(z, end + 1) != b':'
}

/// How long the symbol is with which the text begins, without its `:`, or 0 where it is none.
#[tactic(auto, unfolding(crate::specs::Words::symbol_len))]
pub fn symbol_len(z: &[u8]) -> usize
    ensures value { result ≡ spec.symbol_len z.now }
    ensures within { result ≤ length z.now }
{
    let b = byte(z, 0);
    if is_upper(b) {
        run_len(Set::Word, z)
    } else if begins_name(b) {
        let end = identifier_len(z);
        if ends_with_equals(z, end) {
            end + 1
        } else {
            end
        }
    } else {
        0
    }
}

fn ends_with_equals(z: &[u8], end: usize) -> bool
    requires { end ≤ length z.now }
    ensures value { result ≡ spec.ends_with_equals z.now end }
    ensures within { result ≡ true → end < length z.now }
{
    let next = byte(z, end + 1);
    byte(z, end) == b'=' && !(next == b'=' || next == b'~' || next == b'>')
}
