ghost use Rattle.std.specs.Prelude.{◌≡◌, ◌-◌, ◌^◌, ◌<◌, ◌≤◌, length, take, drop, min, IfOk, Some, vec_len};
ghost use Rattle.std.specs.Io.KnownBytes.{ReadConsumes};
ghost use Rattle.srb_io.specs.Counts.{Counts};
ghost use Rattle.srb_io.specs.Memory.{piece_at};

use crate::reading::Source;
use crate::writing::Failed;

/// A source in memory. It tells the bytes that are left.
#[derive(Drop)]
pub struct MemSource {
    /// All bytes, those that were read among them.
    pub bytes: Vec<u8>,
    /// The most bytes for each read in turn. The last number holds for all later reads, none sets no bound, and 0 counts
    /// as 1.
    pub pieces: Vec<u32>,
    /// The numbers of the reads that fail, counted from 1.
    pub fail_at: Vec<u64>,
    at: usize,
    calls: u64,
    faults: u64,
    ghost reached: { at ≤ vec_len bytes },
}

impl MemSource {
    ghost use Rattle.srb_io.specs.MemSource.{next_read};

    /// A source of these bytes, which no call has read yet.
    pub fn new(bytes: Vec<u8>, pieces: Vec<u32>, fail_at: Vec<u64>) -> MemSource
        ensures script { (result.bytes ≡ bytes) × (result.pieces ≡ pieces) × (result.fail_at ≡ fail_at) }
        ensures uncalled { next_read result ≡ 1 }
        ensures left { ⟦<MemSource as Source>⟧.left result ≡ Some bytes.items }
        ensures faults { ⟦<MemSource as Source>⟧.faults result ≡ 0 }
    {
        MemSource {
            bytes,
            pieces,
            fail_at,
            at: 0,
            calls: 0,
            faults: 0,
        }
    }
}

impl Source for MemSource {
    ghost use Rattle.srb_io.specs.MemSource.{read_answer, IsNextTo};

    ghost left = { λ s. Some (drop s.at s.bytes.items) };

    ghost faults = { λ s. s.faults };

    fn read(&mut self, into: &mut [u8]) -> Result<usize, Failed>
        requires { self.old.faults < 2 ^ 64 - 1 }
        ensures within { IfOk result (λ n. n ≤ length into.new) }
        ensures bytes { ReadConsumes (Some (drop self.old.at self.old.bytes.items))
            (Some (drop self.new.at self.new.bytes.items)) result into.new }
        ensures cause { Counts self.old.faults self.new.faults result }
        ensures answer { result ≡ read_answer self.old (length into.old) }
        ensures next { IsNextTo self.old self.new }
    {
        self.calls = self.calls.saturating_add(1);
        if self.fail_at.contains(&self.calls) {
            self.faults += 1;
            return Err(Failed);
        }
        let most = piece_of(&self.pieces, self.calls);
        let n = copy_part(&self.bytes[self.at..], into, most);
        self.at += n;
        Ok(n)
    }
}

// The most bytes for the read with this number, counted from 1.
fn piece_of(pieces: &[u32], call: u64) -> usize
    ensures { result ≡ piece_at pieces.now call }
{
    if pieces.is_empty() {
        return usize::MAX;
    }
    let last = pieces.len() - 1;
    let at = call.saturating_sub(1).min(last as u64) as usize;
    pieces[at].max(1) as usize
}

// Copies the first bytes, as many as both have and at most `most`, and returns how many.
fn copy_part(from: &[u8], into: &mut [u8], most: usize) -> usize
    ensures count { result ≡ min (min (length from.now) (length into.old)) most }
    ensures copied { take result into.new ≡ take result from.now }
{
    let n = from.len().min(into.len()).min(most);
    into[..n].copy_from_slice(&from[..n]);
    n
}
