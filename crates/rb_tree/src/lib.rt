//! The tokens and trees of Ruby source.
#![tactic(auto)]

mod methods;
pub mod syntax;
pub mod token;
