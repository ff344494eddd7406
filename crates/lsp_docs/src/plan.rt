ghost use Rattle.std.specs.Prelude.{◌≡◌};
ghost use Rattle.std.specs.Option.{option_copied};
ghost use Rattle.lsp_docs.specs.Rows.{present_of, reads};

use crate::doc::Doc;
use srb_terms::Name;

/// What an accepted message about a document is to do: what is kept at its path from then on.
#[derive(Drop)]
pub struct Plan {
    /// The path that its URI names.
    pub path: Name,
    /// What is kept there; nothing where the project has no file there any more.
    pub kept: Option<Doc>,
    /// Whether it is an edit; else the present text counts as saved.
    pub edit: bool,
}

impl Plan {
    /// The bytes that the file at the path has then.
    pub fn bytes(&self) -> Option<&[u8]>
        ensures { option_copied result ≡ reads present_of self.now.kept }
    {
        match &self.kept {
            Some(doc) => doc.present(),
            None => None,
        }
    }
}
