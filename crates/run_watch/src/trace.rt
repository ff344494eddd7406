ghost use Rattle.std.specs.Prelude.{◌≡◌, ◌∷◌, [], List, MatchResult};
ghost use Rattle.std.specs.declared.option.Option.{Option};
ghost use Rattle.run_watch.specs.declared.step.Step.{Step as Made};
ghost use Rattle.run_watch.specs.Told.{with_steps};

use crate::Step;
use srb_terms::NoMemory;

/// What is told each step of a session, in order.
pub trait Trace {
    // The steps that it was told, where it tells them.
    ghost told: { Self → Option (List Made) };

    /// Takes note of one more step. An error takes note of none.
    fn step(&mut self, s: &Step) -> Result<(), NoMemory>
        ensures { MatchResult result (λ _. told self.new ≡ with_steps (told self.old) (s.now ∷ [])) (λ _. told self.new ≡ told self.old) };
}
