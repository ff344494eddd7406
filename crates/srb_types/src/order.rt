//! The place of a text in a list in order.

ghost use Rattle.std.specs.Prelude.{◌≡◌, ◌≤◌, length, insert, OnOk};
ghost use Rattle.srb_types.specs.Order as spec;

use srb_terms::{NoMemory, Words};

/// Whether the first text stands before the second one, by their bytes.
pub(crate) fn is_before(t: &str, u: &str) -> bool
    ensures { result ≡ spec.is_before t.now u.now }
{
    t < u
}

// The index at which a text belongs: that after the last text that doesn't come after it.
fn place(texts: &[Words], t: &str) -> usize
    ensures within { result ≤ length texts.now }
    ensures place { spec.placed (λ u. u) t.now texts.now ≡ insert texts.now result t.now }
{
    let mut at = texts.len();
    'texts: while at > 0 {
        if !is_before(t, texts[at - 1].as_str()) {
            return at;
        }
        at -= 1;
    }
    0
}

/// Puts a text at its place among texts in order. Where it comes after all of them, this takes the time of a push.
pub(crate) fn put(texts: &mut Vec<Words>, t: Words) -> Result<(), NoMemory>
    ensures { OnOk result (texts.new.items ≡ spec.placed (λ u. u) t texts.old.items) }
{
    let at = place(texts.as_slice(), t.as_str());
    texts.insert(at, t)?;
    Ok(())
}
