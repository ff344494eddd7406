//! Texts by their lines, wherever their bytes stand.
ghost use Rattle.std.specs.Prelude.{◌≡◌, ◌≤◌, length, true, IfOk};
ghost use Rattle.std.specs.Str.{all_scalars, chars, encode_utf8_all};
ghost use Rattle.srb_text.specs.LineStarts.{line_starts};
ghost use Rattle.srb_text.specs.Limits.{MOST_BYTES};
ghost use Rattle.srb_text.specs.Positions.{position_of, weight_of, IsStart};

use crate::{Encoding, Pos, places, table};
use std::alloc::{AllocError, Global};
use std::marker::Model;

/// A text of at most 16,777,216 bytes with where its lines start. It is seen as the list of its characters.
#[derive(Drop)]
pub struct Lines<'a> {
    text: &'a str,
    starts: &'a [u32],
}

impl<'a> Model for Lines<'a> {
    ghost use Rattle.std.specs.Prelude.{◌≡◌, ℕ, ◌≤◌, List, length};
    ghost use Rattle.std.specs.Str.{IsUtf8, chars};
    ghost use Rattle.srb_text.specs.Limits.{MOST_BYTES};
    ghost use Rattle.srb_text.specs.LineStarts.{line_starts};

    ghost Value = { List ℕ };

    ghost view = { λ l. chars l.text.now };

    ghost invariant = { λ l. ∥ IsUtf8 l.text.now ∥₁ × (l.starts.now ≡ line_starts l.text.now) × (length l.text.now ≤ MOST_BYTES) };
}

impl<'a> Lines<'a> {
    // A text with the table of its line starts.
    pub(crate) fn new(text: &'a str, starts: &'a [u32]) -> Lines<'a>
        requires table { starts.now ≡ line_starts text.now }
        requires small { length text.now ≤ MOST_BYTES }
        ensures { result ≡ chars text.now }
    {
        Lines { text, starts }
    }

    /// The text in UTF-8.
    pub fn as_str(&self) -> &str
        ensures bytes { result.now ≡ encode_utf8_all self.now }
        ensures scalars { all_scalars self.now ≡ true }
    {
        self.text
    }

    /// The position of an offset in bytes. Between the two characters of a line's end it is where that begins.
    pub fn pos(&self, at: u32, encoding: Encoding) -> Pos
        requires { IsStart self.now at }
        ensures { result ≡ position_of (weight_of encoding) self.now at }
    {
        places::position_in(self.starts, self.text.as_bytes(), at, encoding)
    }
}

/// A text whose bytes stand elsewhere. It takes memory for the places at which its lines start.
#[derive(Drop)]
pub struct BorrowedText<'a> {
    text: &'a str,
    starts: Vec<u32>,
}

impl<'a> Model for BorrowedText<'a> {
    ghost use Rattle.std.specs.Prelude.{◌≡◌, ℕ, ◌≤◌, List, length};
    ghost use Rattle.std.specs.Str.{chars};
    ghost use Rattle.srb_text.specs.Limits.{MOST_BYTES};
    ghost use Rattle.srb_text.specs.LineStarts.{line_starts};

    ghost Value = { List ℕ };

    ghost view = { λ t. chars t.text.now };

    ghost invariant = { λ t. (t.starts.items ≡ line_starts t.text.now) × (length t.text.now ≤ MOST_BYTES) };
}

impl<'a> BorrowedText<'a> {
    /// The text of these characters.
    pub fn of(alloc: Global, text: &'a str) -> Result<BorrowedText<'a>, AllocError>
        requires { length text.now ≤ MOST_BYTES }
        ensures { IfOk result (λ t. t ≡ chars text.now) }
    {
        let starts = table::built(alloc, text.as_bytes())?;
        Ok(BorrowedText { text, starts })
    }

    /// The text by its lines.
    pub fn lines(&self) -> Lines<'_>
        ensures { result ≡ self.now }
    {
        Lines::new(self.text, self.starts.as_slice())
    }
}
