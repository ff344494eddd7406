/// Why no message follows.
#[derive(Clone, Copy, Debug, PartialEq, Eq)]
pub enum EndCause {
    /// The client said `exit`.
    Exit,
    /// The input ended where a frame would begin.
    Closed,
    /// The input is no list of frames: no frame goes on at this offset.
    Broken { at: u64 },
    /// A frame's length is this many bytes, which are too many.
    TooLong { length: u64 },
    /// The source failed.
    Fault,
    /// There was no memory to read on.
    NoMemory,
}
