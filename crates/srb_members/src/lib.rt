//! Member lookup: which method a name calls on a part of a type.
//!
//! `find` answers what the rules of calls say: along the linearization of a class or module, along the class objects and extended modules of
//! a class object, and by `initialize` for `new`. `look_up` tells besides whether it was by `initialize`. Neither takes memory.
#![tactic(auto)]

mod instances;
mod known;
mod lookup;
mod objects;
#[cfg(test)]
mod tests;

pub use lookup::{Found, Member, find, look_up};
