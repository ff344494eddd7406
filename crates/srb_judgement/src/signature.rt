//! The types that a signature gives to a method.

use srb_terms::{Items, Name, Ty};

/// A parameter with the type that a signature gives it.
#[derive(Debug, Drop)]
pub struct Typed {
    pub name: Name,
    pub ty: Ty,
}

/// A well-formed signature.
#[derive(Debug, Drop)]
pub struct Signature {
    pub params: Items<Typed>,
    /// The type against which results are checked. `None` where it is `void` or `abstract`.
    pub result: Option<Ty>,
}
