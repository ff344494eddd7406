//! The changes of an open document.
ghost use Rattle.std.specs.Prelude.{◌≡◌, ◌≢◌, ◌<◌, ◌≤◌, ◌+◌, length, encode_utf8_all, Ok, Err, IfOk, IfErr, OnOk};
ghost use Rattle.std.specs.Str.{chars};
ghost use Rattle.lsp_docs.specs.declared.doc_end.DocEnd.TheVariants.{NoMemory, TooBig};
ghost use Rattle.lsp_docs.specs.Documents.{between};
ghost use Rattle.srb_text.specs.Limits.{MOST_BYTES};
ghost use Rattle.lsp_docs.specs.Changes.{after_changes, after_sized, sized_text, sum_with};

use crate::DocEnd;
use crate::texts::made;
use lsp_msg::Change;
use srb_terms::{Boxed, Words};
use srb_text::{BYTES_LIMIT, EditFault, Encoding, Pos, Text, laws};
use std::alloc::Global;

/// The text after the changes, which are applied in order, their places being of the encoding. The texts of the other files have
/// `others` bytes together.
pub fn changed(
    alloc: Global,
    text: &Text,
    others: usize,
    changes: &[Change],
    encoding: Encoding,
) -> Result<Boxed<Text>, DocEnd>
    requires { sum_with others text.now ≤ MOST_BYTES }
    ensures spelled { chars (encode_utf8_all text.now) ≡ text.now }
    ensures changed { IfOk result (λ new. after_changes encoding others text.now changes.now ≡ Ok new) }
    ensures fits { IfOk result (λ new. sum_with others new ≤ MOST_BYTES) }
    ensures refused { IfErr result (λ e. e ≢ NoMemory → after_changes encoding others text.now changes.now ≡ Err e) }
{
    let mut now = made(alloc, text.as_str())?;
    'changes: for change in changes {
        apply_change(alloc, &mut now, others, change, encoding)?;
    }
    Ok(Boxed::new(alloc, now)?)
}

fn apply_change(
    alloc: Global,
    text: &mut Text,
    others: usize,
    change: &Change,
    encoding: Encoding,
) -> Result<(), DocEnd>
    requires { sum_with others text.old ≤ MOST_BYTES }
    ensures changed { OnOk result (after_sized encoding others text.old change.now ≡ Ok text.new) }
    ensures fits { OnOk result (sum_with others text.new ≤ MOST_BYTES) }
    ensures refused { IfErr result (λ e. e ≢ NoMemory → after_sized encoding others text.old change.now ≡ Err e) }
{
    match change.range {
        None => {
            *text = new_text(alloc, others, &change.text)?;
            Ok(())
        }
        Some((from, to)) => replace(alloc, text, others, from, to, &change.text, encoding),
    }
}

/// The text of these words, unless it leaves too many bytes beside the `others`.
fn new_text(alloc: Global, others: usize, words: &Words) -> Result<Text, DocEnd>
    requires { others ≤ MOST_BYTES }
    ensures made { IfOk result (λ text. text ≡ chars words.now) }
    ensures fits { IfOk result (λ text. others + length words.now ≤ MOST_BYTES) }
    ensures refused { IfErr result (λ e. e ≢ NoMemory → (e ≡ TooBig (others + length words.now)) × (MOST_BYTES < others + length words.now)) }
    ensures spelled { encode_utf8_all (chars words.now) ≡ words.now }
{
    let size = others + words.as_bytes().len();
    if size > BYTES_LIMIT {
        return Err(DocEnd::TooBig { bytes: size as u64 });
    }
    Ok(made(alloc, words.as_str())?)
}

/// The same text, which copies share.
pub fn held_text(alloc: Global, others: usize, words: &Words) -> Result<Boxed<Text>, DocEnd>
    requires { others ≤ MOST_BYTES }
    ensures made { IfOk result (λ text. text ≡ chars words.now) }
    ensures fits { IfOk result (λ text. others + length words.now ≤ MOST_BYTES) }
    ensures refused { IfErr result (λ e. e ≢ NoMemory → (e ≡ TooBig (others + length words.now)) × (MOST_BYTES < others + length words.now)) }
    ensures spelled { encode_utf8_all (chars words.now) ≡ words.now }
{
    let text = new_text(alloc, others, words)?;
    Ok(Boxed::new(alloc, text)?)
}

// Puts the words in the place of what stands between two positions.
fn replace(
    alloc: Global,
    text: &mut Text,
    others: usize,
    from: Pos,
    to: Pos,
    words: &Words,
    encoding: Encoding,
) -> Result<(), DocEnd>
    requires { sum_with others text.old ≤ MOST_BYTES }
    ensures changed { OnOk result (sized_text others (between encoding text.old from to (chars words.now)) ≡ Ok text.new) }
    ensures fits { OnOk result (sum_with others text.new ≤ MOST_BYTES) }
    ensures refused { IfErr result (λ e. e ≢ NoMemory → sized_text others (between encoding text.old from to (chars words.now)) ≡ Err e) }
{
    let start = text.offset(from, encoding);
    let end = text.offset(to, encoding);
    if end < start {
        return Err(DocEnd::Backwards { start, end });
    }
    let size = others + (text.as_str().len() - (end - start) as usize) + words.as_bytes().len();
    if size > BYTES_LIMIT {
        return Err(DocEnd::TooBig { bytes: size as u64 });
    }
    laws::edits_have_sizes();
    match text.splice(alloc, from, to, words.as_str(), encoding) {
        Ok(()) => Ok(()),
        Err(EditFault::Backwards { start, end }) => Err(DocEnd::Backwards { start, end }),
        Err(EditFault::NoMemory) => Err(DocEnd::NoMemory),
    }
}
