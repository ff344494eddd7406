//! Two closures that run beside each other, each on a thread of its own, or not at all.
//!
//! The layer above may rely on the following. `run_beside` calls one closure in a new thread and the other in the caller's, returns when both
//! have ended, and says what each left behind. Where the system or the allocator refuses the thread, it answers `NoMemory`, and neither was
//! called. So closures that wait for each other may be passed to it: they never run one after the other, as `std::thread::join_mut` has them run
//! where it gets no thread.
#![tactic(auto)]

mod beside;
#[cfg(test)]
mod tests;

pub use beside::run_beside;

/// There was no memory.
pub type NoMemory = std::alloc::AllocError;
