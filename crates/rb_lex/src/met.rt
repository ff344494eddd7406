//! Long words that share their bytes with equal ones that were met before.

ghost use Rattle.std.specs.Prelude.{◌≡◌, IfOk};

use srb_terms::{NoMemory, Words};
use std::alloc::Global;

/// How many words are kept.
const KEPT: usize = 256;

/// Long words that were met lately, each at a slot that its bytes give. A file names few things many times, so most of its long words share
/// their bytes. Short ones lie in place.
#[derive(Drop)]
pub struct Met {
    slots: Vec<Option<Words>>,
}

/// A number that the bytes give.
fn mixed(bytes: &[u8]) -> usize {
    let mut mix: usize = bytes.len();
    for byte in bytes {
        mix = mix.wrapping_mul(31).wrapping_add(*byte as usize);
    }
    mix
}

fn empty_slots(alloc: Global) -> Result<Vec<Option<Words>>, NoMemory> {
    let mut slots = Vec::with_capacity(alloc, KEPT)?;
    for _ in 0..KEPT {
        slots.push(None)?;
    }
    Ok(slots)
}

impl Met {
    /// No words. It takes no memory.
    pub fn new(alloc: Global) -> Met {
        Met {
            slots: Vec::new(alloc),
        }
    }

    /// Makes the slots, where there are none.
    fn open(&mut self, alloc: Global) -> Result<(), NoMemory> {
        if self.slots.is_empty() {
            self.slots = empty_slots(alloc)?;
        }
        Ok(())
    }

    /// The words of this text. Long ones share their bytes where equal ones were met lately.
    pub fn words(&mut self, alloc: Global, text: &str) -> Result<Words, NoMemory>
        ensures { IfOk result (λ w. w ≡ text.now) }
    {
        if Words::lie_in_place(text) {
            return Words::from_str(alloc, text);
        }
        self.open(alloc)?;
        let at = mixed(text.as_bytes()) % KEPT;
        if let Some(Some(words)) = self.slots.get(at) {
            if words.as_str() == text {
                return words.copied();
            }
        }
        let words = Words::from_str(alloc, text)?;
        if let Some(slot) = self.slots.get_mut(at) {
            *slot = Some(words.copied()?);
        }
        Ok(words)
    }
}
