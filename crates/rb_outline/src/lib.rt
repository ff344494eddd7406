//! Outlines of trees: what a tree is, without its places.
//!
//! `outline` makes the outline of a tree, in time and memory proportional to its size; long texts are shared with the tree. Two
//! outlines are compared by `same_outline`, without memory.
#![tactic(auto)]

mod make;
mod same;
mod words;

pub use make::outline;
pub use same::same_outline;
