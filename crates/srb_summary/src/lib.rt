//! The summary of a file: the list of the facts that it declares, without places. A file whose summary stays when it is edited changes
//! nothing in other files.
//!
//! `Summary` is seen as the list of its facts, and its copies share them. `same` tells whether two summaries are equal.
#![tactic(auto)]

mod copies;
mod equal;
mod list;
mod make;

pub use equal::same;
pub use list::Summary;
pub use make::summary;
