ghost use Rattle.std.specs.Prelude.{◌≡◌, ◌+◌, ◌-◌, ◌^◌, ◌<◌, ◌≤◌, length, take, drop, slice_range, Some, None, Ok, Err};
ghost use Rattle.lsp_frame.specs.Bodies.{place_after};

use crate::first::{First, first_frame};
use srb_io::Source;
use std::alloc::{AllocError, Global};
use std::marker::Model;

// How many bytes one read asks for, at most.
const CHUNK: usize = 65536;

/// What stands next in the input.
#[derive(Drop)]
pub enum Input {
    /// The body of a frame.
    Body(Vec<u8>),
    /// No byte is left, at a frame's start.
    End,
}

/// Why no more frames are read.
#[derive(Clone, Copy, Debug, PartialEq, Eq)]
pub enum FrameEnd {
    /// The bytes up to and with the one at this place begin no list of frames, and those before it do, or the input ends
    /// here inside a frame, or a head of 4,096 bytes has no end before this place. Places count the bytes of the input from 0.
    Broken { at: u64 },
    /// A head gives a length past 16,777,216 bytes.
    TooLong { length: u64 },
    /// A read failed.
    Fault,
    /// Out of memory.
    NoMemory,
}

/// The frames of an input, read one by one.
#[derive(Drop)]
pub struct Frames {
    alloc: Global,
    // Bytes that were read. Those before `start` belong to frames that were given.
    buffer: Vec<u8>,
    start: usize,
    // Where the source puts its bytes.
    chunk: Vec<u8>,
    // The place of the first byte that no given frame has.
    at: u64,
    ended: Option<FrameEnd>,
}

impl Model for Frames {
    ghost use Rattle.std.specs.Prelude.{◌≤◌, drop, vec_len};
    ghost use Rattle.lsp_frame.specs.Stream.{Stream};

    ghost Value = { Stream };

    ghost view = { λ s. record { pending = drop s.start s.buffer.items; at = s.at; ended = s.ended } };

    ghost invariant = { λ s. s.start ≤ vec_len s.buffer };
}

impl Frames {
    ghost use Rattle.std.specs.Prelude.{[], ◌≡◌};
    ghost use Rattle.lsp_frame.specs.declared.reading.FrameEnd.{FrameEnd};
    ghost use Rattle.std.specs.Io.KnownBytes.{prepend_known};
    ghost use Rattle.lsp_frame.specs.Stream.{stream, IsTaken, Fills, IsNext, GivesBodies};

    /// An input of which nothing was read. It takes no memory.
    pub fn new(alloc: Global) -> Frames
        ensures { result ≡ stream [] 0 None }
    {
        Frames {
            alloc,
            buffer: Vec::new(alloc),
            start: 0,
            chunk: Vec::new(alloc),
            at: 0,
            ended: None,
        }
    }

    /// The next body, or the input's end at a frame's start. After a refusal each call answers the same, without reading.
    pub fn next<S: Source>(&mut self, source: &mut S) -> Result<Input, FrameEnd>
        requires { S.faults source.old < 2 ^ 64 - 1 }
        ensures again { (end : FrameEnd) → self.old.ended ≡ Some end
            → (result ≡ Err end) × (self.new ≡ self.old) × (source.new ≡ source.old) }
        ensures next { self.old.ended ≡ None → IsNext self.old self.new (S.left source.old) (S.left source.new)
            (S.faults source.old) (S.faults source.new) result }

        // Where the source tells its bytes: call after call, the bodies of all of them, and their end.
        ensures bodies { self.old.ended ≡ None → GivesBodies (prepend_known self.old.pending (S.left source.old)) self.old.at
            (prepend_known self.new.pending (S.left source.new)) self.new.at result }
    {
        if let Some(end) = self.ended {
            return Err(end);
        }
        self.read_on(source)
    }

    // The bytes that no given frame has.
    fn pending(&self) -> &[u8]
        ensures pending { result.now ≡ self.now.pending }
        ensures fits { length result.now < 2 ^ 64 }
    {
        &self.buffer[self.start..]
    }

    fn read_on<S: Source>(&mut self, source: &mut S) -> Result<Input, FrameEnd>
        requires countable { S.faults source.old < 2 ^ 64 - 1 }
        requires going { self.old.ended ≡ None }
        ensures { IsNext self.old self.new (S.left source.old) (S.left source.new)
            (S.faults source.old) (S.faults source.new) result }
    {
        loop {
            match first_frame(self.pending()) {
                First::More => {}
                First::Refused { at } => {
                    let end = self.broken(at);
                    return self.refuse(end);
                }
                First::Oversized { length } => return self.refuse(FrameEnd::TooLong { length }),
                First::Frame { from, to } => return self.take(from, to),
            }
            match self.fill(source) {
                Ok(0) => {
                    let size = self.pending().len();
                    if size == 0 {
                        return Ok(Input::End);
                    }
                    let end = self.broken(size);
                    return self.refuse(end);
                }
                Ok(_) => {}
                Err(end) => return self.refuse(end),
            }
        }
    }

    // Answers this from now on.
    fn refuse(&mut self, end: FrameEnd) -> Result<Input, FrameEnd>
        ensures answer { result ≡ Err end }
        ensures after { self.new ≡ stream self.old.pending self.old.at (Some end) }
    {
        self.ended = Some(end);
        Err(end)
    }

    // Gives the body of the frame that ends before `to`.
    fn take(&mut self, from: usize, to: usize) -> Result<Input, FrameEnd>
        requires ordered { from ≤ to }
        requires there { to ≤ length self.old.pending }
        ensures { IsTaken self.old self.new from to result }
    {
        let first = self.start + from;
        let end = self.start + to;
        let Ok(body) = self.buffer[first..end].to_vec(self.alloc) else {
            return self.refuse(FrameEnd::NoMemory);
        };
        self.start = end;
        self.at = self.at.saturating_add(to as u64);
        Ok(Input::Body(body))
    }

    // The answer where the pending bytes break after so many of them.
    fn broken(&self, size: usize) -> FrameEnd
        ensures { result ≡ FrameEnd.Broken (place_after self.now.at size) }
    {
        FrameEnd::Broken {
            at: self.at.saturating_add(size as u64),
        }
    }

    // Lets go of the bytes of the frames that were given.
    fn compact(&mut self) -> Result<(), AllocError>
        ensures { self.new ≡ self.old }
    {
        if self.start == 0 {
            return Ok(());
        }
        let rest = self.buffer[self.start..].to_vec(self.alloc)?;
        self.buffer = rest;
        self.start = 0;
        Ok(())
    }

    // Reads once, and returns how many bytes came.
    fn fill<S: Source>(&mut self, source: &mut S) -> Result<usize, FrameEnd>
        requires { S.faults source.old < 2 ^ 64 - 1 }
        ensures { Fills self.old self.new (S.left source.old) (S.left source.new)
            (S.faults source.old) (S.faults source.new) result }
    {
        if self.compact().is_err() {
            return Err(FrameEnd::NoMemory);
        }
        if self.chunk.is_empty() {
            let Ok(chunk) = vec![in self.alloc; 0u8; CHUNK] else {
                return Err(FrameEnd::NoMemory);
            };
            self.chunk = chunk;
        }
        let Ok(count) = source.read(&mut self.chunk) else {
            return Err(FrameEnd::Fault);
        };
        if self.buffer.extend_from_slice(&self.chunk[..count]).is_err() {
            return Err(FrameEnd::NoMemory);
        }
        Ok(count)
    }
}
