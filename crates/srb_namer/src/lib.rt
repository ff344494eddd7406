//! The facts of a program: what its classes, modules, constants, methods and instance variables declare, without places.
//!
//! `facts` reads the facts of a tree whose attributes and initializers were rewritten by `rb_rewrite`. Where a declaration stands is told
//! by a `Place`.
#![tactic(auto)]

mod declarations;
pub mod place;
pub mod walk;

pub use walk::facts;
