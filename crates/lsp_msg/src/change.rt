ghost use Rattle.std.specs.Prelude.{◌≡◌, IfOk};

use srb_terms::{NoMemory, Words};
use srb_text::Pos;

/// One change of an open document (LSP 3.17, "TextDocumentContentChangeEvent").
#[derive(Debug, Drop, PartialEq, Eq)]
pub struct Change {
    /// The part that the text takes the place of, from the first position up to the second. Without one the text takes
    /// the place of the whole document.
    pub range: Option<(Pos, Pos)>,
    /// The new text.
    pub text: Words,
}

impl Change {
    /// A copy of this change.
    pub fn copied(&self) -> Result<Change, NoMemory>
        ensures { IfOk result (λ change. change ≡ self.now) }
    {
        Ok(Change {
            range: self.range,
            text: self.text.copied()?,
        })
    }
}
