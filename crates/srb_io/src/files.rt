ghost use Rattle.std.specs.Prelude.{◌≡◌, ◌-◌, ◌^◌, ◌<◌, ◌≤◌, List, ℕ, IfOk, map, string_bytes, vec_len};
ghost use Rattle.std.specs.declared.option.Option.{Option};
ghost use Rattle.srb_io.specs.Files.{AreInOrder, AreListed, AreFirst, CountsFault};

use std::alloc::{AllocError, Global};

/// Why files weren't listed, or a file wasn't read.
#[derive(Clone, Copy, Debug, PartialEq, Eq)]
pub enum FilesEnd {
    /// The folder or the file couldn't be read.
    Failed,
    /// Out of memory.
    NoMemory,
}

impl From<AllocError> for FilesEnd {
    ghost use Rattle.srb_io.specs.declared.files.FilesEnd.TheVariants.{NoMemory};

    ghost from_gives = { λ _ end. end ≡ NoMemory };

    fn from(_: AllocError) -> FilesEnd {
        FilesEnd::NoMemory
    }
}

/// Where the files of a folder come from.
pub trait Files {
    // The files below a folder, by its name, where they are told: their paths and bytes.
    ghost told: { Self → List ℕ → Option (List (List ℕ × List ℕ)) };

    // How many calls have failed.
    ghost faults: { Self → ℕ };

    /// The paths below `dir` that end in `.rb`, with `/` between their parts, in byte order, each once.
    fn list(&mut self, alloc: Global, dir: &str) -> Result<Vec<String>, FilesEnd>
        requires { faults self.old < 2 ^ 64 - 1 }
        ensures ordered { IfOk result (λ paths. AreInOrder (map string_bytes paths.items)) }
        ensures listed { IfOk result (λ paths. AreListed (told self.old dir.now) (map string_bytes paths.items)) }
        ensures unchanged { told self.new ≡ told self.old }
        ensures cause { CountsFault (faults self.old) (faults self.new) result };

    /// The first `most` bytes of the file at `path` below `dir`. A path that isn't there can't be read.
    fn read(&mut self, alloc: Global, dir: &str, path: &str, most: u64) -> Result<Vec<u8>, FilesEnd>
        requires { faults self.old < 2 ^ 64 - 1 }
        ensures within { IfOk result (λ bytes. vec_len bytes ≤ most) }
        ensures first { IfOk result (λ bytes. AreFirst (told self.old dir.now) path.now most bytes.items) }
        ensures unchanged { told self.new ≡ told self.old }
        ensures cause { CountsFault (faults self.old) (faults self.new) result };
}
