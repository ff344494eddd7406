ghost use Rattle.std.specs.Prelude.{◌≡◌, Bool, List, if◌then◌else◌};
ghost use Rattle.std.specs.declared.option.Option.{Option};
ghost use Rattle.run_watch.specs.declared.step.Step.{Step as Made};
ghost use Rattle.run_watch.specs.declared.watcher.Keep.TheVariants.{Stay, Leave};
ghost use Rattle.run_watch.specs.Told.{Learns};

use crate::Step;

/// Whether a watcher goes on to watch.
#[derive(Clone, Copy, Debug, PartialEq, Eq)]
pub enum Keep {
    Stay,
    Leave,
}

/// One that is told each step until it leaves.
pub trait Watcher: Drop {
    // The steps that it was told, where it tells them.
    ghost seen: { Self → Option (List Made) };

    // Whether it leaves at this step.
    ghost leaves: { Self → Made → Bool };

    /// Tells it one more step, and answers whether it stays.
    fn saw(&mut self, s: &Step) -> Keep
        ensures told { Learns (seen self.old) (seen self.new) s.now }
        ensures keep { result ≡ (if leaves self.old s.now then Leave else Stay) };
}
