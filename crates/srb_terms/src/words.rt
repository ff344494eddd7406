ghost use Rattle.std.specs.Prelude.{◌≡◌, ◌≤◌, ◌↔◌, [], length, nat_eq, refl, IsTrue, IfOk, Some, string_bytes};
ghost use Rattle.std.proofs.Common.{rules};
ghost use Rattle.std.specs.Cmp.{partial_equiv_from_equiv};
ghost use Rattle.std.specs.Cmp.Lexicographic.{pointwise, slice_cmp, nat_list_eq_equiv, nat_list_cmp_total, texts_ties, texts_po};
ghost use Rattle.std.specs.Cmp.Rules.{hashing};
ghost use Rattle.std.specs.Hash as fed;
ghost use Rattle.std.specs.Ordering.{nat_cmp};
ghost use Rattle.std.specs.Str.{IsUtf8};

use crate::NoMemory;
use crate::spelling::{Spelling, is_short};
use std::alloc::Global;
use std::cmp::Ordering;
use std::fmt;
use std::hash::{Hash, Hasher};
use std::marker::Model;

/// A text, as a message or the content of a literal. A contract sees it as its bytes, which are UTF-8. Up to 14 bytes lie in place.
///
/// Two texts are equal exactly where their bytes are, and they are ordered by their bytes.
#[derive(Drop)]
pub struct Words {
    pub(crate) text: Spelling,
}

impl Model for Words {
    ghost use Rattle.std.specs.Prelude.{ℕ, List};

    ghost Value = { List ℕ };

    ghost view = { λ w. w.text };
}

impl Words {
    /// A copy of `text`.
    pub fn from_str(alloc: Global, text: &str) -> Result<Words, NoMemory>
        ensures { IfOk result (λ w. w ≡ text.now) }
    {
        Ok(Words {
            text: Spelling::from_str(alloc, text)?,
        })
    }

    /// Whether the bytes of words of this text lie in place, so that their copies share nothing.
    pub fn lie_in_place(text: &str) -> bool
        ensures { IsTrue result ↔ (length text.now ≤ 14) }
    {
        is_short(text)
    }

    /// The text of `text`. Its bytes stay where they are, unless there are at most 14.
    pub fn from_string(text: String) -> Result<Words, NoMemory>
        ensures { IfOk result (λ w. w ≡ string_bytes text) }
    {
        Ok(Words {
            text: Spelling::from_string(text)?,
        })
    }

    /// The text.
    pub fn as_str(&self) -> &str
        ensures text { result.now ≡ self.now }
    {
        self.text.as_str()
    }

    /// The bytes of the text.
    pub fn as_bytes(&self) -> &[u8]
        ensures bytes { result.now ≡ self.now }
        ensures utf8 { IsUtf8 self.now }
    {
        self.text.as_str().as_bytes()
    }

    /// The number of bytes.
    pub fn len(&self) -> usize
        ensures { result ≡ length self.now }
    {
        self.text.as_str().len()
    }

    /// Whether there is no byte.
    pub fn is_empty(&self) -> bool
        ensures { IsTrue result ↔ (self.now ≡ []) }
    {
        self.text.as_str().is_empty()
    }

    /// A copy, which shares the bytes where there are more than 14. It takes no memory, and fails only at 2^63 copies.
    pub fn copied(&self) -> Result<Words, NoMemory>
        ensures { IfOk result (λ w. w ≡ self.now) }
    {
        Ok(Words {
            text: self.text.copied()?,
        })
    }

    /// Whether both texts have the same bytes.
    pub fn is_same(&self, other: &Words) -> bool
        ensures { IsTrue result ↔ (self.now ≡ other.now) }
    {
        self.text.is_same(&other.text)
    }
}

impl PartialEq for Words {
    ghost eq = { pointwise nat_eq };

    ghost laws = { partial_equiv_from_equiv nat_list_eq_equiv };

    fn eq(&self, other: &Words) -> bool {
        self.is_same(other)
    }
}

impl Eq for Words {
    ghost laws = { nat_list_eq_equiv };
}

impl PartialOrd for Words {
    ghost partial_cmp = { λ x y. Some (slice_cmp nat_cmp x y) };

    ghost laws = { texts_po };

    fn partial_cmp(&self, other: &Words) -> Option<Ordering> {
        Some(self.cmp(other))
    }
}

impl Ord for Words {
    ghost cmp = { slice_cmp nat_cmp };

    ghost total = { nat_list_cmp_total };

    ghost matches_partial_cmp = { λ x y. refl };

    ghost matches_eq = { texts_ties };

    fn cmp(&self, other: &Words) -> Ordering {
        self.as_str().cmp(other.as_str())
    }
}

impl Hash for Words {
    ghost hash_input = { fed.str };

    ghost respects_eq = { Prim.search (hashing, rules) };

    fn hash<H: Hasher>(&self, state: &mut H) {
        self.as_str().hash(state);
    }
}

impl fmt::Debug for Words {
    fn fmt<W: fmt::Write>(&self, f: &mut fmt::Formatter<W>) -> fmt::Result {
        f.write_str(self.as_str())
    }
}

impl fmt::Display for Words {
    ghost output = { λ words. Some words };

    fn fmt<W: fmt::Write>(&self, f: &mut fmt::Formatter<W>) -> fmt::Result {
        f.write_str(self.as_str())
    }
}
