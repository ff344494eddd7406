ghost use Rattle.std.specs.Prelude.{◌≡◌, ◌↔◌, IsTrue, IfOk};
ghost use Rattle.std.proofs.Common.{rules};

use crate::{NoMemory, Span, Words};
use std::cmp::Ordering;

/// One error of a file: its place, its number and its text.
#[derive(Debug, Drop)]
pub struct Diag {
    /// The place, in bytes of the file.
    pub span: Span,
    /// The error's number.
    pub number: u16,
    /// The error's text, in one line.
    pub text: Words,
}

impl Diag {
    /// A copy of this error. It takes no memory.
    pub fn copied(&self) -> Result<Diag, NoMemory>
        ensures { IfOk result (λ d. d ≡ self.now) }
    {
        Ok(Diag {
            span: self.span,
            number: self.number,
            text: self.text.copied()?,
        })
    }

    /// Whether both errors have the same place, number and text.
    pub fn is_same(&self, other: &Diag) -> bool
        ensures { IsTrue result ↔ (self.now ≡ other.now) }
    {
        self.span.start == other.span.start
            && self.span.end == other.span.end
            && self.number == other.number
            && self.text.is_same(&other.text)
    }
}

impl PartialEq for Diag {
    ghost use Rattle.std.proofs.Common.{rules};
    ghost use Rattle.std.specs.Cmp.Rules.{comparing};
    ghost use Rattle.srb_terms.specs.DiagOrder.{diag_eq};

    ghost eq = { diag_eq };

    ghost laws = { Prim.search (comparing, rules) };

    fn eq(&self, other: &Diag) -> bool {
        self.span.start == other.span.start
            && self.span.end == other.span.end
            && self.number == other.number
            && self.text == other.text
    }
}

impl Eq for Diag {
    ghost use Rattle.std.proofs.Common.{rules};
    ghost use Rattle.std.specs.Cmp.Rules.{comparing};

    ghost laws = { Prim.search (comparing, rules) };
}

impl PartialOrd for Diag {
    ghost use Rattle.std.proofs.Common.{rules};
    ghost use Rattle.std.specs.Cmp.{partial_order_from_own_ties};
    ghost use Rattle.std.specs.Cmp.Rules.{comparing};
    ghost use Rattle.std.specs.Ordering.{as_partial_cmp};
    ghost use Rattle.srb_terms.specs.DiagOrder.{diag_cmp};

    ghost partial_cmp = { as_partial_cmp diag_cmp };

    ghost laws = { partial_order_from_own_ties (Prim.search (comparing, rules) depth 9) (Prim.search (comparing, rules)) };

    fn partial_cmp(&self, other: &Diag) -> Option<Ordering> {
        Some(self.cmp(other))
    }
}

impl Ord for Diag {
    ghost use Rattle.std.proofs.Common.{rules};
    ghost use Rattle.std.specs.Cmp.Rules.{comparing};
    ghost use Rattle.srb_terms.specs.DiagOrder.{diag_cmp};

    ghost cmp = { diag_cmp };

    ghost total = { Prim.search (comparing, rules) };

    ghost matches_partial_cmp = { Prim.search (comparing, rules) };

    ghost matches_eq = { Prim.search (comparing, rules) };

    fn cmp(&self, other: &Diag) -> Ordering {
        self.span
            .start
            .cmp(&other.span.start)
            .then(self.span.end.cmp(&other.span.end))
            .then(self.number.cmp(&other.number))
            .then(self.text.cmp(&other.text))
    }
}
