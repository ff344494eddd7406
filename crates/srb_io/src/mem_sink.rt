ghost use Rattle.std.specs.Prelude.{◌≡◌, ◌-◌, ◌^◌, ◌<◌, ◌≤◌, length, IfOk, IsErr, IsTrue, Some};
ghost use Rattle.std.specs.Io.KnownBytes.{WriteAppends};
ghost use Rattle.srb_io.specs.Counts.{Counts};
ghost use Rattle.srb_io.specs.Memory.{fails_at};

use crate::writing::{Failed, Sink};

/// A sink in memory. It tells the bytes that it holds. A write for which it is refused memory fails.
#[derive(Drop)]
pub struct MemSink {
    /// All bytes that were written.
    pub held: Vec<u8>,
    /// The numbers of the writes that fail, counted from 1.
    pub fail_at: Vec<u64>,
    calls: u64,
    faults: u64,
}

impl MemSink {
    ghost use Rattle.srb_io.specs.MemSink.{next_write};

    /// A sink that holds these bytes, and that no call has written to yet.
    pub fn new(held: Vec<u8>, fail_at: Vec<u64>) -> MemSink
        ensures script { (result.held ≡ held) × (result.fail_at ≡ fail_at) }
        ensures uncalled { next_write result ≡ 1 }
        ensures held { ⟦<MemSink as Sink>⟧.held result ≡ Some held.items }
        ensures faults { ⟦<MemSink as Sink>⟧.faults result ≡ 0 }
    {
        MemSink {
            held,
            fail_at,
            calls: 0,
            faults: 0,
        }
    }
}

impl Sink for MemSink {
    ghost use Rattle.srb_io.specs.MemSink.{next_write, IsNextTo};

    ghost held = { λ s. Some s.held.items };

    ghost faults = { λ s. s.faults };

    // Takes the whole piece, unless the write is listed as one that fails or memory is refused.
    fn write(&mut self, piece: &[u8]) -> Result<usize, Failed>
        requires { self.old.faults < 2 ^ 64 - 1 }
        ensures within { IfOk result (λ n. n ≤ length piece.now) }
        ensures moves { IfOk result (λ n. 0 < length piece.now → 0 < n) }
        ensures bytes { WriteAppends (Some self.old.held.items) (Some self.new.held.items) result piece.now }
        ensures cause { Counts self.old.faults self.new.faults result }
        ensures whole { IfOk result (λ n. n ≡ length piece.now) }
        ensures listed { IsTrue (fails_at self.old.fail_at.items (next_write self.old)) → IsErr result }
        ensures next { IsNextTo self.old self.new }
    {
        self.calls = self.calls.saturating_add(1);
        if self.fail_at.contains(&self.calls) || self.held.extend_from_slice(piece).is_err() {
            self.faults += 1;
            return Err(Failed);
        }
        Ok(piece.len())
    }
}
