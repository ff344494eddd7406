//! The errors of signatures, from the tree alone.
//!
//! A `sig` statement in the body of a class or module belongs to the method or attribute that follows it. Where none follows, or it is no
//! well-formed signature of it, there is an error at the `sig` statement. Where methods need signatures, those without one have an error.
#![tactic(auto)]

mod attribute;
mod following;
mod missing;
mod walk;

pub use walk::signature_errors;
