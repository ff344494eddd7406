//! The level that a text asks for in its first comments.

ghost use Rattle.std.specs.Prelude.{◌≡◌, ◌<◌, ◌≤◌, ◌^◌, length, drop, take};
ghost use Rattle.std.specs.List.{list_all};
ghost use Rattle.rb_lex.specs.Chars as chars;
ghost use Rattle.rb_lex.specs.Levels as spec;

use crate::chars::{Set, after, blank_len, byte, is_in, line_len, run_len};
use srb_terms::Level;

/// The level that a word names.
fn level_named(word: &[u8]) -> Option<Level>
    ensures { result ≡ spec.level_named word.now }
{
    if word == b"ignore".as_slice() {
        Some(Level::Ignore)
    } else if word == b"false".as_slice() {
        Some(Level::False)
    } else if word == b"true".as_slice() {
        Some(Level::True)
    } else if word == b"strict".as_slice() {
        Some(Level::Strict)
    } else if word == b"strong".as_slice() {
        Some(Level::Strong)
    } else {
        None
    }
}

fn after_blanks(text: &[u8]) -> &[u8]
    ensures { result.now ≡ spec.after_blanks text.now }
{
    after(text, run_len(Set::Blank, text))
}

/// How many bytes stand before the first blank, or in all where there is none.
fn word_len(text: &[u8]) -> usize
    ensures value { result ≡ spec.word_len text.now }
    ensures within { result ≤ length text.now }
{
    for (at, b) in text.iter().enumerate() {
        if is_in(Set::Blank, *b) {
            return at;
        }
    }
    text.len()
}

/// The level that a text of one word and blanks around it names.
fn level_alone(text: &[u8]) -> Option<Level>
    ensures { result ≡ spec.level_alone text.now }
{
    let word = after_blanks(text);
    let end = word_len(word);
    if after_blanks(&word[end..]).is_empty() {
        level_named(&word[..end])
    } else {
        None
    }
}

/// The level that the text of a comment gives.
#[tactic(auto, unfolding(crate::specs::Levels::level_in))]
fn level_in(comment: &[u8]) -> Option<Level>
    ensures { result ≡ spec.level_in comment.now }
{
    let text = after_blanks(comment);
    if text.starts_with(b"typed:") {
        level_alone(after(text, 6))
    } else {
        None
    }
}

/// What the text begins with, where its first comments stand.
#[derive(Clone, Copy)]
pub enum Heading {
    /// A blank, a line's end, or a comment without a level: it is so many bytes long.
    Passed { len: usize },
    /// A comment that gives the level.
    Given { level: Level },
    /// Something else, or nothing.
    Other,
}

fn heading_of_comment(z: &[u8]) -> Heading
    requires { 0 < length z.now }
    ensures value { result ≡ spec.heading_of_comment z.now }
    ensures within { spec.IsWithin result (length z.now) }
{
    let len = line_len(&z[1..]);
    match level_in(&z[1..len + 1]) {
        Some(level) => Heading::Given { level },
        None => Heading::Passed { len: len + 1 },
    }
}

#[tactic(auto, unfolding(crate::specs::Levels::heading_of))]
fn heading_of(z: &[u8]) -> Heading
    ensures value { result ≡ spec.heading_of z.now }
    ensures within { spec.IsWithin result (length z.now) }
{
    let b = byte(z, 0);
    let len = blank_len(z);
    if b == b'#' {
        heading_of_comment(z)
    } else if b == b'\n' {
        Heading::Passed { len: 1 }
    } else if len != 0 {
        Heading::Passed { len }
    } else {
        Heading::Other
    }
}

/// The level of the bytes of a text.
pub fn level_of(text: &[u8]) -> Level
    ensures { result ≡ spec.level_of text.now }
{
    let mut rest = text;
    while !rest.is_empty() {
        match heading_of(rest) {
            Heading::Passed { len } => rest = after(rest, len),
            Heading::Given { level } => return level,
            Heading::Other => return Level::False,
        }
    }
    Level::False
}
