#![tactic(auto)]
//! What `gen N` runs: a project of N files, and a session that opens and edits each of them.

mod files;
mod frames;
pub mod law;
mod messages;
mod summary;
mod tally;
mod texts;

pub use files::project;
pub use frames::session;
pub use summary::summary_bytes;
pub use tally::{edits_in, errors_in, tell_all};

#[cfg(test)]
mod tests;
