//! The comparison of types: whether all that belongs to one type belongs to another.
//!
//! `is_within` compares the parts of the two types, by the linearizations of the symbol table. It takes no memory, and the depth of the
//! types bounds its recursion. With `extra` false it tells subtypes; with `extra` true it tells the parts that a normal form drops.
#![tactic(auto)]

mod known;
#[cfg(test)]
mod tests;
mod within;

pub use within::is_within;
