ghost use Rattle.std.specs.Prelude.{◌≡◌};
ghost use Rattle.lsp_frame.specs.First.{body_of, first_of};

use crate::head::{Head, read_head};

/// The greatest length of a body, in bytes.
pub const LENGTH_LIMIT: u64 = 16_777_216;

/// What stands at the front of the bytes.
#[derive(Clone, Copy, Debug, PartialEq, Eq)]
pub enum First {
    /// The start of a frame, or nothing.
    More,
    /// No frame begins with the bytes up to and with the one at this place.
    Refused { at: usize },
    /// A head that gives a length past the limit.
    Oversized { length: u64 },
    /// A frame that ends before `to`, whose body begins at `from`.
    Frame { from: usize, to: usize },
}

pub fn first_frame(bytes: &[u8]) -> First
    ensures { result ≡ first_of bytes.now }
{
    match read_head(bytes) {
        Head::Unended => First::More,
        Head::Broken { at } => First::Refused { at },
        Head::Gives { length, size } => body_after(length, size, bytes.len()),
    }
}

// The frame whose head has this size and gives this length, among so many bytes.
fn body_after(length: u64, size: usize, available: usize) -> First
    ensures { result ≡ body_of length size available }
{
    if length > LENGTH_LIMIT {
        return First::Oversized { length };
    }
    if size > available || available - size < length as usize {
        return First::More;
    }
    First::Frame {
        from: size,
        to: size + length as usize,
    }
}
