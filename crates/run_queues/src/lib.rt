//! The queues of a session: the inbox, by which the thread that reads messages hands them to the one that does the work, and
//! the queue through which workers hand over what they found.
//!
//! Threads share `Inbox` and `Results` by a reference, and each holds a pass of it. Contracts see a pass as what its thread
//! knows, and of the queue its name and room alone.
//!
//! The passes of an `Inbox` show the inputs that were put and what was heard. Whatever the two threads do, the inputs that are
//! heard are those that were put, in order, each once, which the contracts say once the passes met.
//!
//! A pass of `Results` shows a view, the items that it gave and got, and how many puts and takes it may still make. Whatever
//! the other threads do, each item that comes out is right by the view, and where one pass holds the right to all puts and
//! takes, what it got in all is what it gave in all once the queue is empty.
#![tactic(auto)]

mod delivery;
mod entry;
mod heard;
mod inbox;
mod inbox_pass;
mod item;
mod pass;
mod results;
mod rule;

pub use inbox::Inbox;
pub use inbox_pass::{PutPass, TakePass};
pub use item::{Item, Right};
pub use pass::ResPass;
pub use results::Results;
