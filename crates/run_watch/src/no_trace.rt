ghost use Rattle.std.specs.Prelude.{◌≡◌, None, Ok};

use crate::{Step, Trace};
use srb_terms::NoMemory;

/// A trace that holds nothing, and doesn't tell what it was told.
#[derive(Drop)]
pub struct NoTrace;

impl Trace for NoTrace {
    ghost told = { λ _. None };

    fn step(&mut self, _s: &Step) -> Result<(), NoMemory>
        ensures { result ≡ Ok tt }
    {
        Ok(())
    }
}
