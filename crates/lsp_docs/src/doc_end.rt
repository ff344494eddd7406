ghost use Rattle.std.specs.Prelude.{◌≡◌};

use srb_terms::NoMemory;

/// Why a message about a document does nothing.
#[derive(Clone, Copy, Debug, PartialEq, Eq)]
pub enum DocEnd {
    /// The URI names no path below the root.
    Foreign,
    /// The path isn't open.
    Unknown,
    /// The path is new, and the project has this many files, which are all that it may have.
    TooMany { count: u64 },
    /// A range would start after its end: these are the offsets of both, in bytes.
    Backwards { start: u32, end: u32 },
    /// The texts of the project would have this many bytes together, which are too many.
    TooBig { bytes: u64 },
    /// There was no memory.
    NoMemory,
}

impl From<NoMemory> for DocEnd {
    ghost use Rattle.lsp_docs.specs.declared.doc_end.DocEnd.TheVariants as end;

    ghost from_gives = { λ _ e. e ≡ end.NoMemory };

    fn from(_: NoMemory) -> DocEnd {
        DocEnd::NoMemory
    }
}
