ghost use Rattle.std.specs.Prelude.{◌≡◌, IfOk};

use srb_terms::{NoMemory, Words};
use srb_text::Pos;

/// An error as a client is shown it: its place by positions, its number and its text (LSP 3.17, "Diagnostic").
#[derive(Debug, Drop, PartialEq, Eq)]
pub struct Placed {
    /// Where the place begins.
    pub start: Pos,
    /// Where it ends; the character there is not in it.
    pub end: Pos,
    /// The error's number.
    pub number: u16,
    /// The error's text, in one line.
    pub text: Words,
}

impl Placed {
    /// A copy of this error.
    pub fn copied(&self) -> Result<Placed, NoMemory>
        ensures { IfOk result (λ placed. placed ≡ self.now) }
    {
        Ok(Placed {
            start: self.start,
            end: self.end,
            number: self.number,
            text: self.text.copied()?,
        })
    }
}
