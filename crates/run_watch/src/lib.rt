//! The steps of a session, as its record has them, and those that are told them.
#![tactic(auto)]

mod end_cause;
mod inp;
mod mem_trace;
mod no_trace;
mod step;
#[cfg(test)]
mod tests;
mod trace;
mod watcher;
mod watchers;

pub use end_cause::EndCause;
pub use inp::Inp;
pub use mem_trace::MemTrace;
pub use no_trace::NoTrace;
pub use step::Step;
pub use trace::Trace;
pub use watcher::{Keep, Watcher};
pub use watchers::Watchers;
