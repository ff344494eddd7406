ghost use Rattle.std.specs.Prelude.{◌≡◌, ◌≤◌, ◌↔◌, ℕ, List, length, take, drop, nat_eq, bytes_eq, IsTrue, IfOk, string_bytes};
ghost use Rattle.std.specs.Cmp.Lexicographic.{pointwise};
ghost use Rattle.std.specs.Int.{w64, from_le_bytes, to_le_bytes};
ghost use Rattle.srb_terms.specs.Spellings.{IsHeld, held};

use crate::NoMemory;
use std::alloc::Global;
use std::marker::Model;
use std::str;
use std::sync::ArcStr;

/// The most bytes that lie in place.
const SHORT: usize = 14;

/// Whether the bytes of a text lie in place.
pub(crate) fn is_short(text: &str) -> bool
    ensures { IsTrue result ↔ (length text.now ≤ 14) }
{
    text.len() <= SHORT
}

/// The bytes of a name or a text, which are UTF-8: up to 14 lie in place, more on the heap, where copies share them.
pub(crate) struct Spelling {
    bytes: Bytes,
}

/// Where the bytes lie.
#[derive(Drop)]
enum Bytes {
    /// In place, the first so many of these. The others are 0.
    Short { len: u8, bytes: [u8; 14] },
    /// On the heap.
    Long(ArcStr),
}

/// Eight bytes of a room as a number, from a place on.
fn word(room: &[u8; 14], at: usize) -> u64
    requires { at ≤ 6 }
    ensures value { result ≡ from_le_bytes w64 (take 8 (drop at room.now)) }
    ensures bytes { to_le_bytes w64 result ≡ take 8 (drop at room.now) }
{
    let mut word = [0; 8];
    word.copy_from_slice(&room[at..at + 8]);
    u64::from_le_bytes(word)
}

/// Whether the bytes in two rooms are the same. Two words, which overlap, cover a room.
fn are_same(a: &[u8; 14], b: &[u8; 14]) -> bool
    ensures { result ≡ bytes_eq a.now b.now }
{
    word(a, 0) == word(b, 0) && word(a, 6) == word(b, 6)
}

impl Model for Spelling {
    ghost Value = { List ℕ };

    ghost view = { λ s. held s.bytes };

    ghost invariant = { λ s. IsHeld s.bytes };
}

impl Spelling {
    /// A copy of a text, in place where it is short.
    pub(crate) fn from_str(alloc: Global, text: &str) -> Result<Spelling, NoMemory>
        ensures { IfOk result (λ s. s ≡ text.now) }
    {
        if is_short(text) {
            Ok(Spelling::short(text))
        } else {
            Ok(Spelling {
                bytes: Bytes::Long(ArcStr::from_str(alloc, text)?),
            })
        }
    }

    /// The bytes of a text, which stay where they are unless it is short.
    pub(crate) fn from_string(text: String) -> Result<Spelling, NoMemory>
        ensures { IfOk result (λ s. s ≡ string_bytes text) }
    {
        if is_short(text.as_str()) {
            Ok(Spelling::short(text.as_str()))
        } else {
            Ok(Spelling {
                bytes: Bytes::Long(ArcStr::from_string(text)?),
            })
        }
    }

    /// A short text.
    fn short(text: &str) -> Spelling
        requires { length text.now ≤ 14 }
        ensures { result ≡ text.now }
    {
        let mut bytes = [0; 14];
        bytes[..text.len()].copy_from_slice(text.as_bytes());
        Spelling {
            bytes: Bytes::Short {
                len: text.len() as u8,
                bytes,
            },
        }
    }

    /// The text.
    pub(crate) fn as_str(&self) -> &str
        ensures text { result.now ≡ self.now }
    {
        match &self.bytes {
            Bytes::Short { len, bytes } => unsafe {
                str::from_utf8_unchecked(&bytes[..*len as usize])
            },
            Bytes::Long(text) => text.as_str(),
        }
    }

    /// Whether both have the same bytes. Those in place are compared with what fills their room, so that no branch depends on their number.
    pub(crate) fn is_same(&self, other: &Spelling) -> bool
        ensures { result ≡ pointwise nat_eq self.now other.now }
    {
        match (&self.bytes, &other.bytes) {
            (
                Bytes::Short { len, bytes },
                Bytes::Short {
                    len: others,
                    bytes: other,
                },
            ) => *len == *others && are_same(bytes, other),
            _ => self.as_str() == other.as_str(),
        }
    }

    /// A copy. It takes no memory, and fails only at 2^63 copies of a text on the heap.
    pub(crate) fn copied(&self) -> Result<Spelling, NoMemory>
        ensures { IfOk result (λ s. s ≡ self.now) }
    {
        let bytes = match &self.bytes {
            Bytes::Short { len, bytes } => Bytes::Short {
                len: *len,
                bytes: *bytes,
            },
            Bytes::Long(text) => Bytes::Long(text.clone()?),
        };
        Ok(Spelling { bytes })
    }
}

// Written out, since each function that drops a name would be slow to check with a derived one.
impl Drop for Spelling {
    fn drop(self) {
        let Spelling { bytes } = self;
        drop(bytes);
    }
}
