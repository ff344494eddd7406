ghost use Rattle.std.specs.Prelude.{◌≡◌, ◌↔◌, IsTrue};

use srb_terms::{Label, Outline};

// Whether two labels are equal.
fn same_label(a: &Label, b: &Label) -> bool
    ensures { IsTrue result ↔ (a.now ≡ b.now) }
{
    a.kind == b.kind && a.words.is_same(&b.words)
}

/// Whether two outlines are equal. It takes no memory, and their depth bounds the recursion.
#[cycle(same)]
#[tactic(auto, using(crate::proofs::Telling::parts_tell))]
pub fn same_outline(a: &Outline, b: &Outline) -> bool
    ensures { IsTrue result ↔ (a.now ≡ b.now) }
{
    same_label(&a.label, &b.label) && same_rows(a.parts.as_slice(), b.parts.as_slice())
}

// Whether two rows of outlines are equal.
#[cycle(same)]
fn same_rows(a: &[Outline], b: &[Outline]) -> bool
    ensures { IsTrue result ↔ (a.now ≡ b.now) }
{
    if a.len() != b.len() {
        return false;
    }
    for i in 0..a.len() {
        if !same_outline(&a[i], &b[i]) {
            return false;
        }
    }
    true
}
