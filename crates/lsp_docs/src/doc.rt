ghost use Rattle.std.specs.Prelude.{◌≡◌, IfOk};
ghost use Rattle.std.specs.Option.{option_copied};
ghost use Rattle.lsp_docs.specs.Rows.{closed_doc, opened_doc, present_of, saved_doc, size_of};

use srb_terms::{Boxed, Items, NoMemory};
use srb_text::Text;

/// What is kept at a path. Copies share the bytes and the text.
#[derive(Drop)]
pub struct Doc {
    /// The bytes that the file had at the start or was saved with last, if any.
    pub saved: Option<Boxed<Items<u8>>>,
    /// The present text where the path is open; else the saved bytes are the present ones.
    pub text: Option<Boxed<Text>>,
}

impl Doc {
    /// The present bytes.
    pub fn present(&self) -> Option<&[u8]>
        ensures { option_copied result ≡ present_of self.now }
    {
        match &self.text {
            Some(text) => Some(text.get().as_str().as_bytes()),
            None => match &self.saved {
                Some(bytes) => Some(bytes.get().as_slice()),
                None => None,
            },
        }
    }

    /// The number of present bytes.
    pub fn size(&self) -> usize
        ensures { result ≡ size_of (present_of self.now) }
    {
        match self.present() {
            Some(bytes) => bytes.len(),
            None => 0,
        }
    }

    /// A copy, which takes no memory.
    pub fn copied(&self) -> Result<Doc, NoMemory>
        ensures { IfOk result (λ doc. doc ≡ self.now) }
    {
        Ok(Doc {
            saved: copied_if(&self.saved)?,
            text: copied_if(&self.text)?,
        })
    }

    /// The same with this text, so open.
    pub fn opened(&self, text: Boxed<Text>) -> Result<Doc, NoMemory>
        ensures { IfOk result (λ doc. doc ≡ opened_doc self.now text) }
    {
        Ok(Doc {
            saved: copied_if(&self.saved)?,
            text: Some(text),
        })
    }

    /// The same with these bytes as the saved ones.
    pub fn saved_as(&self, bytes: Boxed<Items<u8>>) -> Result<Doc, NoMemory>
        ensures { IfOk result (λ doc. doc ≡ saved_doc self.now bytes) }
    {
        Ok(Doc {
            saved: Some(bytes),
            text: copied_if(&self.text)?,
        })
    }

    /// The same where it isn't open.
    pub fn closed(&self) -> Result<Doc, NoMemory>
        ensures { IfOk result (λ doc. doc ≡ closed_doc self.now.saved) }
    {
        Ok(Doc {
            saved: copied_if(&self.saved)?,
            text: None,
        })
    }
}

/// A copy of what is there, if anything is.
fn copied_if<T: Drop>(held: &Option<Boxed<T>>) -> Result<Option<Boxed<T>>, NoMemory>
    ensures { IfOk result (λ copy. copy ≡ held.now) }
{
    match held {
        Some(held) => Ok(Some(held.copied()?)),
        None => Ok(None),
    }
}
