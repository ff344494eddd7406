//! Texts, and positions and edits in them.
//!
//! A `Text` is UTF-8 and is seen as the list of its characters. Offsets count bytes. A `Pos` counts lines, and
//! in a line the units of an `Encoding`, as the Language Server Protocol does (LSP 3.17, "Position" and
//! "PositionEncodingKind"): `offset`, `pos` and `splice` are the definitions `offset_of`, `position_of` and
//! `edited`, which are over a plain list of characters and generic in what a character weighs; `weight_of` is
//! what it weighs in each encoding.
#![tactic(auto)]

ghost use Rattle.std.specs.Prelude.{◌≡◌, ◌+◌, ◌<◌, ◌≤◌, length, true, IfOk, IfErr, OnOk, OnErr, MatchResult};
ghost use Rattle.std.specs.Str.{IsUtf8, all_scalars, chars, encode_utf8_all};
ghost use Rattle.srb_text.specs.Edits.{edited, IsEditFault};
ghost use Rattle.srb_text.specs.Faults.{IsTextFault};
ghost use Rattle.srb_text.specs.Limits.{MOST_BYTES};
ghost use Rattle.srb_text.specs.Positions.{byte_len, offset_of, position_of, weight_of, IsStart};

pub mod laws;
mod lines;
mod places;
mod table;
mod units;

pub use lines::{BorrowedText, Lines};
use std::alloc::{AllocError, Global};
use std::marker::Model;

/// The most bytes that all texts of a project have together, so also the most bytes of one text.
pub const BYTES_LIMIT: usize = 16_777_216;

/// The units in which places in a line are counted (LSP 3.17, "PositionEncodingKind").
#[derive(Clone, Copy, Debug, PartialEq, Eq)]
pub enum Encoding {
    /// Bytes of UTF-8: 1 to 4 for a character.
    Utf8,
    /// UTF-16 code units: 1 or 2 for a character.
    Utf16,
    /// Characters: 1 for each.
    Utf32,
}

/// A place in a text: the number of a line, and in it a number of units of an encoding. Both begin at 0.
#[derive(Clone, Copy, Debug, PartialEq, Eq)]
pub struct Pos {
    pub line: u32,
    pub unit: u32,
}

/// Why bytes are no text.
#[derive(Clone, Copy, Debug, PartialEq, Eq)]
pub enum TextFault {
    /// The bytes are not UTF-8, and `at` is the length of their longest front that is.
    NotUtf8 { at: u64 },
    NoMemory,
}

/// Why a part of a text was not replaced.
#[derive(Clone, Copy, Debug, PartialEq, Eq)]
pub enum EditFault {
    /// The part would start after its end: these are the offsets of both, in bytes.
    Backwards { start: u32, end: u32 },
    NoMemory,
}

/// A text of at most 16,777,216 bytes.
#[derive(Drop)]
pub struct Text {
    text: String,
    starts: Vec<u32>,
}

impl Model for Text {
    ghost use Rattle.std.specs.Prelude.{◌≡◌, ℕ, ◌≤◌, List, length};
    ghost use Rattle.std.specs.Str.{chars};
    ghost use Rattle.std.specs.String.{string_bytes};
    ghost use Rattle.srb_text.specs.Limits.{MOST_BYTES};
    ghost use Rattle.srb_text.specs.LineStarts.{line_starts};

    ghost Value = { List ℕ };

    ghost view = { λ t. chars (string_bytes t.text) };

    ghost invariant = { λ t. (t.starts.items ≡ line_starts (string_bytes t.text)) × (length (string_bytes t.text) ≤ MOST_BYTES) };
}

impl Text {
    /// The text that the bytes spell.
    pub fn from_bytes(alloc: Global, bytes: &[u8]) -> Result<Text, TextFault>
        requires { length bytes.now ≤ MOST_BYTES }
        ensures { MatchResult result (λ t. IsUtf8 bytes.now × (t ≡ chars bytes.now)) (IsTextFault bytes.now) }
    {
        match std::str::from_utf8(bytes) {
            Ok(text) => match made(alloc, text) {
                Ok(text) => Ok(text),
                Err(_) => Err(TextFault::NoMemory),
            },
            Err(fault) => Err(TextFault::NotUtf8 {
                at: fault.valid_up_to() as u64,
            }),
        }
    }

    /// The text in UTF-8.
    pub fn as_str(&self) -> &str
        ensures bytes { result.now ≡ encode_utf8_all self.now }
        ensures scalars { all_scalars self.now ≡ true }
        ensures len { length result.now ≡ byte_len self.now }
        ensures small { length result.now ≤ MOST_BYTES }
    {
        self.text.as_str()
    }

    /// The offset in bytes that a position names. After a line's last character it is where the line's end
    /// begins, inside a character where that starts, and for a line after the last the text's end.
    pub fn offset(&self, p: Pos, encoding: Encoding) -> u32
        ensures offset { result ≡ offset_of (weight_of encoding) self.now p }
        ensures start { IsStart self.now result }
    {
        places::offset_in(self.starts.as_slice(), self.text.as_bytes(), p, encoding)
    }

    /// The text by its lines.
    pub fn lines(&self) -> Lines<'_>
        ensures { result ≡ self.now }
    {
        Lines::new(self.text.as_str(), self.starts.as_slice())
    }

    /// The position of an offset in bytes. Between the two characters of a line's end it is where that begins.
    pub fn pos(&self, at: u32, encoding: Encoding) -> Pos
        requires { IsStart self.now at }
        ensures { result ≡ position_of (weight_of encoding) self.now at }
    {
        self.lines().pos(at, encoding)
    }

    /// Puts `new` in the place of what stands between two positions. After an error the text is as it was.
    pub fn splice(
        &mut self,
        alloc: Global,
        from: Pos,
        to: Pos,
        new: &str,
        encoding: Encoding,
    ) -> Result<(), EditFault>
        requires { offset_of (weight_of encoding) self.old from ≤ offset_of (weight_of encoding) self.old to → byte_len (edited (weight_of encoding) self.old from to (chars new.now)) ≤ MOST_BYTES }
        ensures edited { OnOk result (self.new ≡ edited (weight_of encoding) self.old from to (chars new.now)) }
        ensures ordered { OnOk result (offset_of (weight_of encoding) self.old from ≤ offset_of (weight_of encoding) self.old to) }
        ensures fault { IfErr result (IsEditFault (offset_of (weight_of encoding) self.old from) (offset_of (weight_of encoding) self.old to)) }
        ensures unchanged { OnErr result (self.new ≡ self.old) }
    {
        let start = self.offset(from, encoding);
        let end = self.offset(to, encoding);
        if end < start {
            return Err(EditFault::Backwards { start, end });
        }
        match table::renewed(
            alloc,
            self.starts.as_slice(),
            self.text.as_bytes(),
            start,
            end,
            new.as_bytes(),
        ) {
            Err(_) => Err(EditFault::NoMemory),
            Ok(starts) => {
                match self.text.replace_range(start as usize..end as usize, new) {
                    Err(_) => Err(EditFault::NoMemory),
                    Ok(()) => {
                        self.starts = starts;
                        Ok(())
                    }
                }
            }
        }
    }
}

fn made(alloc: Global, text: &str) -> Result<Text, AllocError>
    requires { length text.now ≤ MOST_BYTES }
    ensures { IfOk result (λ t. t ≡ chars text.now) }
{
    let starts = table::built(alloc, text.as_bytes())?;
    let text = String::from_str(alloc, text)?;
    Ok(Text { text, starts })
}

#[cfg(test)]
mod tests;
