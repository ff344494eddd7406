//! Views of trees: what the layers above read of a tree without knowing how it was spelled.
//!
//! A `Prefix` is an operand with the first of its suffixes, a `Path` is a constant with the constants that follow it by `::`, a `Call`
//! is a call in any spelling, and `Target` and `Callee` are what an assignment assigns to and what a command calls. `place` has the
//! places that errors and questions need. A contract sees a view by its `seen` function: as a record of plain values, in which a
//! reference is what it points to.
#![tactic(auto)]

pub mod call;
pub mod laws;
pub mod path;
pub mod place;
pub mod prefix;
pub mod target;
#[cfg(test)]
mod tests;
