//! For which class, module or value constant a constant stands, by what the symbol table holds.
//!
//! `resolve` answers what the rules of the language say of the facts for which the table stands. It takes no memory.
#![tactic(auto)]

mod lookup;
#[cfg(test)]
mod tests;

pub use lookup::resolve;
pub use srb_rules::Position;
