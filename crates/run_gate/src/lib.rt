//! A gate, at which the workers of a build draw the numbers of their files and by which they stop one another. Each thread
//! steps with a seat of its own.
//!
//! The layer above may rely on the following. No two seats draw the same number, and no number is left out: a seat shows
//! the numbers that it drew, and once all others were joined to it, a `look` tells that they are just those below their
//! count. The stop word is 1 exactly where a seat raised. No call waits.
#![tactic(auto)]

mod gate;
pub mod law;
mod rule;
mod seat;
mod shown;
#[cfg(test)]
mod tests;

pub use gate::Gate;
pub use seat::Seat;
pub use shown::Shown;

/// There was no memory.
pub type NoMemory = std::alloc::AllocError;
