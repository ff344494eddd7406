ghost use Rattle.std.specs.Prelude.{◌≡◌, ◌-◌, ◌^◌, ◌<◌, ◌≤◌, IfOk, IfErr, OnOk, OnErr, length, vec_len};
ghost use Rattle.std.specs.Io.KnownBytes.{Appends, IsAtEnd};
ghost use Rattle.srb_io.specs.Counts.{Counts};
ghost use Rattle.srb_io.specs.Told.{IsTold, AppendsPart};
ghost use Rattle.srb_io.specs.Whole.{StopsShort};

use crate::reading::Source;
use crate::writing::{Failed, Sink};
use std::alloc::Global;

// How many bytes one read asks for, at most.
const CHUNK: usize = 65536;

/// How [`read_all`] ends where it doesn't read all.
#[derive(Clone, Copy, Debug, PartialEq, Eq)]
pub enum ReadAllEnd {
    /// The source has more bytes than the limit.
    TooBig,
    /// A read failed.
    Fault,
    /// Out of memory.
    NoMemory,
}

/// All bytes that the source has left, if they are at most `most`.
pub fn read_all<S: Source>(
    alloc: Global,
    source: &mut S,
    most: usize,
) -> Result<Vec<u8>, ReadAllEnd>
    requires { S.faults source.old < 2 ^ 64 - 1 }

    // all bytes, up to the end
    ensures all { IfOk result (λ bytes. IsTold (S.left source.old) bytes.items) }
    ensures end { OnOk result (IsAtEnd (S.left source.new)) }
    ensures within { IfOk result (λ bytes. vec_len bytes ≤ most) }
    ensures unfailed { OnOk result (S.faults source.new ≡ S.faults source.old) }

    ensures short { IfErr result (λ end. StopsShort end most (S.left source.old) (S.left source.new)
        (S.faults source.old) (S.faults source.new)) }
{
    let Ok(mut chunk) = vec![in alloc; 0u8; CHUNK] else {
        return Err(ReadAllEnd::NoMemory);
    };
    read_by_chunks(alloc, source, &mut chunk, most)
}

// Reads all through this chunk.
fn read_by_chunks<S: Source>(
    alloc: Global,
    source: &mut S,
    chunk: &mut [u8],
    most: usize,
) -> Result<Vec<u8>, ReadAllEnd>
    requires countable { S.faults source.old < 2 ^ 64 - 1 }
    requires room { 0 < length chunk.old }

    ensures all { IfOk result (λ bytes. IsTold (S.left source.old) bytes.items) }
    ensures end { OnOk result (IsAtEnd (S.left source.new)) }
    ensures within { IfOk result (λ bytes. vec_len bytes ≤ most) }
    ensures unfailed { OnOk result (S.faults source.new ≡ S.faults source.old) }
    ensures short { IfErr result (λ end. StopsShort end most (S.left source.old) (S.left source.new)
        (S.faults source.old) (S.faults source.new)) }
{
    let mut bytes = Vec::new(alloc);
    loop {
        let room = (most - bytes.len()).min(chunk.len() - 1) + 1;
        let Ok(n) = source.read(&mut chunk[..room]) else {
            return Err(ReadAllEnd::Fault);
        };
        if n == 0 {
            return Ok(bytes);
        }
        if n > most - bytes.len() {
            return Err(ReadAllEnd::TooBig);
        }
        if bytes.extend_from_slice(&chunk[..n]).is_err() {
            return Err(ReadAllEnd::NoMemory);
        }
    }
}

/// Writes the whole piece. After a fault the sink has taken a first part of it.
pub fn write_all<K: Sink>(sink: &mut K, piece: &[u8]) -> Result<(), Failed>
    requires { K.faults sink.old < 2 ^ 64 - 1 }
    ensures whole { OnOk result (Appends (K.held sink.old) (K.held sink.new) piece.now) }
    ensures part { OnErr result (AppendsPart (K.held sink.old) (K.held sink.new) piece.now) }
    ensures cause { Counts (K.faults sink.old) (K.faults sink.new) result }
{
    let mut at = 0;
    while at < piece.len() {
        at += sink.write(&piece[at..])?;
    }
    Ok(())
}
