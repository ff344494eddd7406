//! The errors 9003 to 9007 of the declarations of a file: a class with two superclasses, a name of another kind, circular superclasses and
//! mixins, mixins that are no modules, and superclasses that may not be inherited.
//!
//! `conflicts` finds them by the symbol table of the project alone. Where the table stands for the project's facts, they are the errors
//! that the rules of the language give by these facts. It takes memory for the texts of errors and for the list of them alone.
#![tactic(auto)]

mod check;
mod errors;
mod known;
#[cfg(test)]
mod tests;

pub use check::conflicts;
