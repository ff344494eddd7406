ghost use Rattle.std.specs.Prelude.{◌-◌, ◌^◌, ◌<◌, ◌≤◌, List, ℕ, length, IfOk};
ghost use Rattle.std.specs.declared.option.Option.{Option};
ghost use Rattle.std.specs.Io.KnownBytes.{ReadConsumes};
ghost use Rattle.srb_io.specs.Counts.{Counts};

use crate::writing::Failed;

/// Where bytes come from.
pub trait Source {
    // The bytes that are left to read, where the source tells them.
    ghost left: { Self → Option (List ℕ) };

    // How many reads have failed.
    ghost faults: { Self → ℕ };

    /// Moves the first bytes of what is left into the slice, and returns how many. 0 for a slice that isn't empty is the
    /// end of input. A read that fails leaves what is left as it was.
    fn read(&mut self, into: &mut [u8]) -> Result<usize, Failed>
        requires { faults self.old < 2 ^ 64 - 1 }
        ensures within { IfOk result (λ n. n ≤ length into.new) }
        ensures bytes { ReadConsumes (left self.old) (left self.new) result into.new }
        ensures cause { Counts (faults self.old) (faults self.new) result };
}
