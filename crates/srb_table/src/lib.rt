//! The symbol table of a project.
//!
//! `build` gives the table that stands for the built-in table's facts followed by those of the files: each accessor answers what the rules of
//! the language say of these facts, and nothing exactly where they say nothing.
#![tactic(auto)]

mod circles;
mod counted;
mod deciding;
mod extended;
mod extends;
mod inner;
mod ivars;
mod kinds;
mod links;
mod lins;
mod members;
mod methods;
mod nested;
mod references;
mod stages;
mod superclasses;
mod values;
mod world;

pub use world::{build, world_of};
