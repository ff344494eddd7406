//! The rewriting of a program before its facts are read: attributes become the methods that they stand for, and initializers declare
//! the instance variables to which they give their parameters.
//!
//! `attrs` rewrites a program. `signature` reads `sig` statements and tells which are well-formed, and `declaring` tells which
//! statements of a class or module body declare by a call.
#![tactic(auto)]

pub mod attributes;
mod copies;
pub mod declaring;
pub mod initializers;
pub mod laws;
pub mod rewriting;
pub mod signature;

pub use rewriting::attrs;
