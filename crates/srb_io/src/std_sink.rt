ghost use Rattle.std.specs.Prelude.{◌≡◌, None};

use crate::writing::{Failed, Sink};
use std::io::{ErrorKind, Stdout, Write};

/// Standard output. It doesn't tell the bytes that it was given.
#[derive(Drop)]
pub struct StdSink {
    stdout: Stdout,
    faults: u64,
}

impl StdSink {
    pub fn new(stdout: Stdout) -> StdSink
        ensures { ⟦<StdSink as Sink>⟧.faults result ≡ 0 }
    {
        StdSink { stdout, faults: 0 }
    }
}

impl Sink for StdSink {
    ghost held = { λ _. None };

    ghost faults = { λ s. s.faults };

    // An interrupted write is made again, and one of no byte is a fault.
    fn write(&mut self, piece: &[u8]) -> Result<usize, Failed> {
        if piece.is_empty() {
            return Ok(0);
        }
        for _ in 0..u64::MAX {
            match self.stdout.write(piece) {
                Ok(n) if n > 0 => return Ok(n),
                Err(e) if e.kind() == ErrorKind::Interrupted => {}
                _ => break,
            }
        }
        self.faults += 1;
        Err(Failed)
    }
}
