//! The seats of a gate.

ghost use Rattle.std.specs.Prelude.{◌≡◌, length};

use crate::shown::Shown;
use std::marker::Model;

/// The right of one thread to step at a gate. A contract sees what it shows: which gate it is of, the numbers that it drew
/// in that order, whether it saw the stop word at 1, whether it raised, and how many numbers it may still draw.
#[derive(Drop)]
pub struct Seat {
    pub(crate) token: atomic_table::Seat<u8, Shown>,
    pub(crate) count: u64,
    pub(crate) has_raised: bool,
}

impl Model for Seat {
    ghost use Rattle.std.specs.Prelude.{◌≡◌, [], length};
    ghost use Rattle.run_gate.specs.Shows.{SeatView};

    ghost Value = { SeatView };

    ghost view = { λ s. record { gate = s.token.table_id; drawn = s.token.me.0.drawn; saw = s.token.me.0.saw; raised = s.token.me.0.raised; left = s.token.me.0.left } };

    ghost invariant = { λ s. (s.count ≡ length s.token.me.0.drawn) × (s.has_raised ≡ s.token.me.0.raised) × (s.token.me.1 ≡ []) };
}

impl Seat {
    /// How many numbers the seat drew, with those of the seats that were joined to it.
    pub fn drawn(&self) -> u64
        ensures { result ≡ length self.now.drawn }
    {
        self.count
    }

    /// Whether the seat raised, or one that was joined to it.
    pub fn raised(&self) -> bool
        ensures { result ≡ self.now.raised }
    {
        self.has_raised
    }
}
