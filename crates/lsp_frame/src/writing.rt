ghost use Rattle.std.specs.Prelude.{◌≡◌, ◌-◌, ◌^◌, ◌<◌, IfOk, IfErr, OnOk};
ghost use Rattle.std.specs.Io.KnownBytes.{Appends};
ghost use Rattle.lsp_frame.specs.Written.{frame, WritesShort};

use srb_io::{Sink, write_all};
use std::alloc::{AllocError, Global};

/// Why a frame wasn't written, or only a first part of it.
#[derive(Clone, Copy, Debug, PartialEq, Eq)]
pub enum WriteEnd {
    /// A write failed. The sink took a first part of the frame.
    Fault,
    /// Out of memory. Nothing was written.
    NoMemory,
}

/// Writes the frame of this body: `Content-Length: `, the body's length in bytes in decimal digits, `\r\n\r\n` and the body.
pub fn write<K: Sink>(alloc: Global, sink: &mut K, body: &[u8]) -> Result<(), WriteEnd>
    requires { K.faults sink.old < 2 ^ 64 - 1 }
    ensures whole { OnOk result (Appends (K.held sink.old) (K.held sink.new) (frame body.now)) }
    ensures unfailed { OnOk result (K.faults sink.new ≡ K.faults sink.old) }
    ensures short { IfErr result (λ end. WritesShort end (frame body.now) (K.held sink.old) (K.held sink.new)
        (K.faults sink.old) (K.faults sink.new)) }
{
    let Ok(bytes) = frame_of(alloc, body) else {
        return Err(WriteEnd::NoMemory);
    };
    match write_all(sink, &bytes) {
        Ok(()) => Ok(()),
        Err(_) => Err(WriteEnd::Fault),
    }
}

fn frame_of(alloc: Global, body: &[u8]) -> Result<Vec<u8>, AllocError>
    ensures { IfOk result (λ bytes. bytes.items ≡ frame body.now) }
{
    let length = body.len();
    let head = format!(in alloc; "Content-Length: {length}\r\n\r\n")?;
    let mut bytes = head.into_bytes();
    bytes.extend_from_slice(body)?;
    Ok(bytes)
}
