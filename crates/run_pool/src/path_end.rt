use crate::job_view::JobView;
use run_gate::Seat;
use run_queues::{ResPass, Results};

/// How a path ended: what its workers and its chief did, and what they leave.
#[derive(Drop)]
pub struct PathEnd {
    /// How many numbers were drawn.
    pub drawn: u64,
    /// Whether the stop word was 1 once all were joined.
    pub stopped: bool,
    /// Whether the chief raised its seat.
    pub called: bool,
    /// Whether a worker was out of memory.
    pub short: bool,
    /// The seat into which all others were joined.
    pub seat: Seat,
    /// The queue, with the items that no one took.
    pub results: Results<JobView>,
    /// The pass into which all others were joined.
    pub pass: ResPass<JobView>,
}
