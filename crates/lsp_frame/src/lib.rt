#![tactic(auto)]
//! The frames in which messages of the Language Server Protocol travel (LSP 3.17, "Base Protocol").
//!
//! A frame is header lines, an empty line `\r\n`, and the body. A header line is a name of ASCII letters, digits and
//! `-`, a `:`, bytes 32 to 126 or tab, and `\r\n`. Exactly one line has the name `Content-Length`, in any case; its
//! value is 1 to 19 digits with spaces or tabs around them, the length of the body in bytes.
//!
//! [`Frames`] reads the bodies of a source's frames one by one, however the source cuts its bytes, and reads no more
//! than it must: a whole frame, or a refusal, that stands in its buffer is answered before another read. [`write`]
//! writes one frame.

mod first;
mod head;
pub mod laws;
mod reading;
mod writing;

pub use reading::{FrameEnd, Frames, Input};
pub use writing::{WriteEnd, write};

#[cfg(test)]
mod tests;
