#![tactic(auto)]
//! Bytes in and out, and the faults that happen on the way.
//!
//! A [`Source`] gives bytes and a [`Sink`] takes them. Each counts the calls of it that failed: its count never falls,
//! rises by one exactly where a call answers [`Failed`], and such a call leaves what is left to read, or what is held,
//! as it was. So the layer above may answer a read or a write fault only where a count has risen.
//!
//! A source may tell the bytes that are left, and a sink the bytes that it holds. Those in memory do, and those that
//! adapt a real stream don't. What is said of bytes is said where they are told.
//!
//! [`Files`] lists the Ruby files of a folder and reads them, with a count of faults of the same kind. Where they are told,
//! they are a list of paths and bytes for each folder, which no call changes.
//!
//! [`read_all`] reads a source to its end, and [`write_all`] writes a whole piece.

mod dir_files;
mod files;
mod listing;
mod mem_files;
mod mem_sink;
mod mem_source;
mod reading;
mod std_sink;
mod std_source;
mod whole;
mod writing;

pub use dir_files::DirFiles;
pub use files::{Files, FilesEnd};
pub use mem_files::MemFiles;
pub use mem_sink::MemSink;
pub use mem_source::MemSource;
pub use reading::Source;
pub use std_sink::StdSink;
pub use std_source::StdSource;
pub use whole::{ReadAllEnd, read_all, write_all};
pub use writing::{Failed, Sink};

#[cfg(test)]
mod tests;
