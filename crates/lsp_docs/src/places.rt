//! Errors of a file as a client is shown them.
ghost use Rattle.std.specs.Prelude.{◌≡◌, map, encode_utf8_all, IfOk};
ghost use Rattle.srb_text.specs.Positions.{position_of, weight_of};
ghost use Rattle.lsp_docs.specs.Documents.{placed, text_of};

use lsp_msg::Placed;
use srb_terms::{Diag, Items, NoMemory};
use srb_text::{Encoding, Lines, Pos, laws};
use std::alloc::Global;

/// The errors of a text, their places turned into positions of the encoding.
pub fn placed(
    alloc: Global,
    text: &Lines<'_>,
    errors: &[Diag],
    encoding: Encoding,
) -> Result<Items<Placed>, NoMemory>
    ensures { IfOk result (λ list. list ≡ map (placed encoding (encode_utf8_all text.now)) errors.now) }
{
    let mut list = Items::new(alloc);
    'errors: for error in errors {
        list.push(placed_one(text, error, encoding)?)?;
    }
    Ok(list)
}

fn placed_one(text: &Lines<'_>, error: &Diag, encoding: Encoding) -> Result<Placed, NoMemory>
    ensures { IfOk result (λ one. one ≡ placed encoding (encode_utf8_all text.now) error.now) }
{
    Ok(Placed {
        start: position(text, error.span.start, encoding),
        end: position(text, error.span.end, encoding),
        number: error.number,
        text: error.text.copied()?,
    })
}

// The position of any offset in bytes: inside a character that of its start, after the text that of its end.
fn position(text: &Lines<'_>, at: u32, encoding: Encoding) -> Pos
    ensures { result ≡ position_of (weight_of encoding) (text_of (encode_utf8_all text.now)) at }
{
    laws::starts_are_boundaries();
    let start = text.as_str().floor_char_boundary(at as usize);
    text.pos(start as u32, encoding)
}
