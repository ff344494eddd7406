//! The constant references of a program, each with its scope, its path and its place, and its type expressions, with the errors of references
//! that stand for nothing and of type expressions that are malformed.
//!
//! `mentions_of` gives a reference for each path of constants in an expression or a type expression, for each superclass and each mixin, and
//! for the names in front of the last one of a declared path. A constant that is assigned to is none, and neither is the `T::Array` of a
//! type expression `T::Array[X]`. `unresolved` looks them up in the symbol table. `mentions_of` gives the parts of type expressions too, of
//! which `malformed_types` finds those that are no types. `mention_errors` does it all in one walk that keeps nothing of what it reads.
//!
//! The walk serves other readers of a program too: `visit::Worklist` and `nodes::parts` give each part with its scope and how it is read,
//! and `type_form` tells the form of a type expression.
#![tactic(auto)]

mod errors;
pub mod laws;
mod malformed;
pub mod nodes;
mod own;
pub mod reading;
mod reference;
mod rows;
mod taken;
pub mod type_form;
pub mod visit;
mod walk;
mod wrong;

pub use errors::unresolved;
pub use malformed::malformed_types;
pub use reference::Reference;
pub use walk::{Mentions, mentions_of};
pub use wrong::mention_errors;
