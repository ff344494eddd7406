use crate::job_view::JobView;
use run_gate::Seat;
use run_queues::ResPass;

/// Why a worker ended.
#[derive(Clone, Copy, Debug, PartialEq, Eq)]
pub enum Why {
    /// It drew a number that is no file's.
    Drained,
    /// It saw the stop word at 1.
    Stopped,
    /// It was out of memory, and raised the gate.
    NoMemory,
}

/// How a worker ended: why, and the seat and the pass that it was given.
#[derive(Drop)]
pub struct WorkerEnd {
    pub why: Why,
    pub seat: Seat,
    pub pass: ResPass<JobView>,
}
