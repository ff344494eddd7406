//! What a path of constants stands for.

use srb_terms::{Name, Ty};

/// What a path of constants stands for.
#[derive(Debug, Drop)]
pub enum Meaning {
    /// A class, by its full name.
    Class(Name),
    /// A module, by its full name.
    Module(Name),
    /// A value constant, by its type.
    Value(Ty),
    /// Nothing is found.
    Unresolved,
}
