/// Why a message about a document was refused.
#[derive(Clone, Copy, Debug, PartialEq, Eq)]
pub enum Reason {
    /// The document isn't open.
    NotOpen,
    /// A range ends before it starts.
    Backwards,
    /// The project would have too many files.
    TooMany,
    /// The texts of the project would have too many bytes.
    TooBig,
    /// The URI names no path below the root.
    NotInProject,
    /// The parameters can't be read.
    InvalidParams,
}
