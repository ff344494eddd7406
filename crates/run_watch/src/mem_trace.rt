ghost use Rattle.std.specs.Prelude.{◌≡◌, [], Some};

use crate::{Step, Trace};
use srb_terms::{Items, NoMemory};
use std::alloc::Global;

/// A trace that holds all steps that it was told, and tells them.
#[derive(Drop)]
pub struct MemTrace {
    /// The steps, in order.
    pub steps: Items<Step>,
    alloc: Global,
}

impl MemTrace {
    /// A trace that was told no step yet.
    pub fn new(alloc: Global) -> MemTrace
        ensures steps { result.steps ≡ [] }
        ensures told { ⟦<MemTrace as Trace>⟧.told result ≡ Some [] }
    {
        MemTrace {
            steps: Items::new(alloc),
            alloc,
        }
    }
}

impl Trace for MemTrace {
    ghost told = { λ t. Some t.steps };

    fn step(&mut self, s: &Step) -> Result<(), NoMemory> {
        let step = s.copied(self.alloc)?;
        self.steps.push(step)
    }
}
