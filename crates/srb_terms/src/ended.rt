ghost use Rattle.std.specs.Prelude.{◌≡◌};
ghost use Rattle.srb_terms.specs.Statuses.{status_of};

use crate::Cause;

/// How a command ended.
#[derive(Debug, Drop, PartialEq, Eq)]
pub struct Ended {
    /// The status with which the program ends.
    pub status: u8,
    /// Why it ended.
    pub cause: Cause,
}

impl Ended {
    /// The end for `cause`, with its status.
    pub fn new(cause: Cause) -> Ended
        ensures cause { result.cause ≡ cause }
        ensures status { result.status ≡ status_of cause }
    {
        Ended {
            status: cause.status(),
            cause,
        }
    }
}
