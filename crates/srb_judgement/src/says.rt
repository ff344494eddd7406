//! What a test says of a variable.

use srb_terms::{Name, Ty};

/// What a test says of a variable: on which side it has what of its type.
#[derive(Debug, Drop)]
pub enum Says {
    /// The variable's truth itself.
    Truthy(Name),
    /// The variable meets the type where the test holds, and is without it where not.
    Is(Name, Ty),
    /// The same, exchanged.
    IsNot(Name, Ty),
    Nothing,
}
