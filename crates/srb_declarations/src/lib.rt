//! What a program declares, with the places at which errors of its declarations stand: classes and modules, superclasses, mixins and
//! constants, in the order of the text.
//!
//! Declarations are direct statements of the program and of the bodies of its classes and modules.
#![tactic(auto)]

mod declaration;
pub mod laws;
mod mixin;
pub mod naming;
#[cfg(test)]
mod tests;
mod walk;

pub use declaration::Declaration;
pub use walk::declarations;
