//! What the rule of a gate knows of each seat.

use std::collections::LinkedList;

/// What the rule of a gate knows of a seat: the numbers that it drew, whether it saw the stop word at 1, whether it raised,
/// and how many numbers it may still draw. It stands in proofs, and no value of it is made.
pub struct Shown {
    pub drawn: LinkedList<u64>,
    pub saw: bool,
    pub raised: bool,
    pub left: u64,
}
