ghost use Rattle.std.specs.Prelude.{◌≡◌, ◌+◌, ◌<◌, ◌≤◌, ◌∷◌, [], Ok, MatchResult, length, not, if◌then◌else◌};
ghost use Rattle.std.specs.List.{swap};
ghost use Rattle.run_watch.specs.Told.{Learns, AreTold, UNTOLD, with_steps};

use crate::{Keep, Step, Trace, Watcher};
use srb_terms::NoMemory;

/// A trace over boxed watchers: it tells each of them each step, and drops those that leave.
#[derive(Drop)]
pub struct Watchers {
    /// The watchers that are there, in order.
    pub boxes: Vec<Box<dyn Watcher + Send>>,
}

impl Trace for Watchers {
    ghost told = { λ _. UNTOLD };

    fn step(&mut self, s: &Step) -> Result<(), NoMemory>
        ensures told { MatchResult result (λ _. UNTOLD ≡ with_steps UNTOLD (s.now ∷ [])) (λ _. UNTOLD ≡ UNTOLD) }
        ensures ok { result ≡ Ok tt }
        ensures boxes { AreTold (λ b. seen b) (λ b. leaves b) s.now self.old.boxes.items self.new.boxes.items }
    {
        tell_each(&mut self.boxes, s);
        Ok(())
    }
}

/// Tells each watcher the step, in order, and drops those that leave.
fn tell_each(boxes: &mut Vec<Box<dyn Watcher + Send>>, s: &Step)
    ensures { AreTold (λ b. seen b) (λ b. leaves b) s.now boxes.old.items boxes.new.items }
{
    let mut kept = 0;
    'boxes: for at in 0..boxes.len() {
        let stays = stays(&mut boxes[at], s);
        kept = settle(boxes.as_mut_slice(), kept, at, stays);
    }
    boxes.truncate(kept);
}

/// Tells the watcher the step, and answers whether it stays.
fn stays(watcher: &mut Box<dyn Watcher + Send>, s: &Step) -> bool
    ensures told { Learns (seen watcher.old) (seen watcher.new) s.now }
    ensures keep { result ≡ not (leaves watcher.old s.now) }
{
    match watcher.saw(s) {
        Keep::Stay => true,
        Keep::Leave => false,
    }
}

/// Moves the box at `at` after the first `kept` where it stays, and answers how many are kept.
fn settle<W>(boxes: &mut [W], kept: usize, at: usize, stays: bool) -> usize
    requires after { kept ≤ at }
    requires there { at < length boxes.old }
    ensures boxes { boxes.new ≡ (if stays then swap boxes.old kept at else boxes.old) }
    ensures len { length boxes.new ≡ length boxes.old }
    ensures kept { result ≡ (if stays then kept + 1 else kept) }
{
    if stays {
        boxes.swap(kept, at);
        return kept + 1;
    }
    kept
}
