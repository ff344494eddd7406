//! The workers of a build: threads that check the files of a project and hand over what they found.
//!
//! A worker draws the numbers of files at a gate, checks each of these files by the job of the build, and puts what it found into a queue
//! (`work`). `with_workers` runs some workers beside a chief, which leads in the thread of the caller, and takes back all that it dealt out.
//!
//! Whatever the threads do, each item that a pass of the queue gets is right by the job: its list is what a check of that file finds. No
//! two workers draw one number, and where a path ends without a stop each file was drawn.
#![tactic(auto)]

mod chief;
mod hold;
mod job_view;
mod path;
mod path_end;
#[cfg(test)]
mod tests;
mod worker;
mod worker_end;

pub use chief::Chief;
pub use hold::{Hold, Open};
pub use job_view::JobView;
pub use path::with_workers;
pub use path_end::PathEnd;
pub use worker::work;
pub use worker_end::{Why, WorkerEnd};
