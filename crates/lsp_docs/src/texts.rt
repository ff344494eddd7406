//! Texts made of bytes.
ghost use Rattle.std.specs.Prelude.{◌≡◌, ◌≤◌, length, IfOk};
ghost use Rattle.std.specs.Str.{chars};
ghost use Rattle.lsp_docs.specs.Documents.{text_of};
ghost use Rattle.srb_text.specs.Limits.{MOST_BYTES};

use srb_terms::NoMemory;
use srb_text::{BorrowedText, Text};
use std::alloc::{AllocError, Global};

/// The text of these characters.
pub fn made(alloc: Global, text: &str) -> Result<Text, NoMemory>
    requires { length text.now ≤ MOST_BYTES }
    ensures { IfOk result (λ made. made ≡ chars text.now) }
{
    match Text::from_bytes(alloc, text.as_bytes()) {
        Ok(text) => Ok(text),
        Err(_) => Err(AllocError),
    }
}

/// The text of a file with these bytes, which stay where they are; where they are no text it is empty.
pub fn text_of<'a>(alloc: Global, bytes: &'a [u8]) -> Result<BorrowedText<'a>, NoMemory>
    requires { length bytes.now ≤ MOST_BYTES }
    ensures { IfOk result (λ text. text ≡ text_of bytes.now) }
{
    match std::str::from_utf8(bytes) {
        Ok(text) => BorrowedText::of(alloc, text),
        Err(_) => BorrowedText::of(alloc, ""),
    }
}
