ghost use Rattle.std.specs.Prelude.{◌≡◌};
ghost use Rattle.srb_terms.specs.Statuses.{status_of};

use crate::Name;

/// Why a command ended.
#[derive(Debug, Drop, PartialEq, Eq)]
pub enum Cause {
    /// All was done: no file has an error, or a session ended as the protocol wants.
    Done,
    /// Some file has an error.
    Errors,
    /// A session ended without an accepted `shutdown`.
    NoShutdown,
    /// The command line is none that the program knows.
    Usage,
    /// The input or a file could not be read.
    ReadFault,
    /// The output could not be written.
    WriteFault,
    /// The bytes up to the offset `at` and with it begin no list of frames, or the input ended inside a frame there.
    Broken {
        /// The offset in bytes of the input.
        at: u64,
    },
    /// A frame announced a body that is longer than the limit.
    TooLong {
        /// The announced length in bytes.
        length: u64,
    },
    /// There are more files than the limit.
    TooMany {
        /// The number of files.
        files: u64,
    },
    /// With this file all texts together are larger than the limit.
    TooBig {
        /// The file's path.
        path: Name,
    },
    /// There was no memory.
    NoMemory,
}

impl Cause {
    /// The status with which the program ends for this cause.
    pub fn status(&self) -> u8
        ensures { result ≡ status_of self.now }
    {
        match self {
            Cause::Done => 0,
            Cause::Errors | Cause::NoShutdown => 1,
            Cause::Usage => 2,
            Cause::ReadFault => 3,
            Cause::WriteFault => 4,
            Cause::Broken { at: _ } => 5,
            Cause::TooLong { length: _ }
            | Cause::TooMany { files: _ }
            | Cause::TooBig { path: _ } => 6,
            Cause::NoMemory => 7,
        }
    }
}
