ghost use Rattle.std.specs.Prelude.{◌≡◌, IfOk};

use run_queues::Right;
use srb_check::Job;
use srb_terms::{Boxed, NoMemory};
use std::marker::Model;

/// What the passes of a path's queue show: its job, which this shares. A contract sees what is known of the job.
#[derive(Drop)]
pub struct JobView {
    job: Boxed<Job>,
}

impl Model for JobView {
    ghost use Rattle.std.specs.Coded.{codes};
    ghost use Rattle.srb_check.specs.Jobs.{Known};
    ghost use Rattle.srb_check.specs.contracts.job.Job as shared;

    ghost Value = { Known };

    ghost coded = { Prim.hlevel (codes, shared.the_row.coded) };

    ghost view = { λ v. v.job };
}

impl Right for JobView {
    ghost use Rattle.run_pool.specs.Found.{IsFoundBy};

    ghost right = { IsFoundBy };
}

impl JobView {
    /// A view of this job. It takes no memory, and fails only at 2^63 copies of the job.
    pub fn new(job: &Boxed<Job>) -> Result<JobView, NoMemory>
        ensures { IfOk result (λ v. v ≡ job.now) }
    {
        Ok(JobView { job: job.copied()? })
    }
}
