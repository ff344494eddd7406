ghost use Rattle.std.specs.Prelude.{◌≡◌, ◌+◌, ◌^◌, ◌<◌, ◌≤◌, length};
ghost use Rattle.run_pool.specs.Leading.{IsReadyFor, Led};
ghost use Rattle.run_pool.specs.Working.{KeepsPass, KeepsSeat, StaysRight};

use crate::job_view::JobView;
use run_gate::{Gate, Seat};
use run_queues::{ResPass, Results};
use srb_terms::NoMemory;
use std::sync::Wait;

/// What leads the workers of a path, in the thread of the caller.
pub trait Chief {
    ghost use Rattle.std.specs.Prelude.{Bool, Result};
    ghost use Rattle.std.specs.declared.alloc.AllocError.{AllocError};
    ghost use Rattle.srb_check.specs.Jobs.{Known};

    /// Whether it may lead with passes that show this job.
    ghost ready: { Self → Known → Type 0 };

    /// How it led: the chief before, whether it raised its seat, its answer, and the chief after.
    ghost led: { Self → Bool → Result (Unit {0}) AllocError → Self → Type 0 };

    /// Leads, until nothing is left to do or it raised its seat. It may wait.
    ///
    /// Its seat and its pass keep what they have: what was split off is joined before it ends.
    fn lead<R: Wait>(
        &mut self,
        rt: &R,
        gate: &Gate,
        seat: &mut Seat,
        results: &Results<JobView>,
        pass: &mut ResPass<JobView>,
    ) -> Result<(), NoMemory>
        requires gate { seat.old.gate ≡ gate.now }
        requires queue { pass.old.queue ≡ results.now.name }
        requires part { 0 < length seat.old.drawn + seat.old.left }
        requires left { 2 ^ 32 ≤ pass.old.left }
        requires ready { IsReadyFor ready self.old pass.old.view }
        ensures led { Led led self.old seat.old.raised seat.new.raised result self.new }
        ensures seat { KeepsSeat seat.old seat.new }
        ensures pass { KeepsPass pass.old pass.new }
        ensures right { StaysRight pass.old pass.new };
}
