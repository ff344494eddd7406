ghost use Rattle.std.specs.Prelude.{◌≡◌, None};

use crate::reading::Source;
use crate::writing::Failed;
use std::io::{ErrorKind, Read, Stdin};

/// Standard input. It doesn't tell the bytes that are left.
#[derive(Drop)]
pub struct StdSource {
    stdin: Stdin,
    faults: u64,
}

impl StdSource {
    pub fn new(stdin: Stdin) -> StdSource
        ensures { ⟦<StdSource as Source>⟧.faults result ≡ 0 }
    {
        StdSource { stdin, faults: 0 }
    }
}

impl Source for StdSource {
    ghost left = { λ _. None };

    ghost faults = { λ s. s.faults };

    // An interrupted read is made again.
    fn read(&mut self, into: &mut [u8]) -> Result<usize, Failed> {
        for _ in 0..u64::MAX {
            match self.stdin.read(into) {
                Ok(n) => return Ok(n),
                Err(e) if e.kind() == ErrorKind::Interrupted => {}
                Err(_) => break,
            }
        }
        self.faults += 1;
        Err(Failed)
    }
}
