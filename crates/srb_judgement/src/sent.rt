//! What a call is given, and what it answers.

use srb_terms::{Diag, Items, Name, Span, Ty};

/// An argument by its place: its type and its place.
#[derive(Debug, Drop)]
pub struct Given {
    pub ty: Ty,
    pub span: Span,
}

/// An argument by its name. Its place is that of its value.
#[derive(Debug, Drop)]
pub struct Named {
    pub name: Name,
    pub ty: Ty,
    pub span: Span,
}

/// A block that a call is given.
#[derive(Debug, Drop)]
pub struct GivenBlock {
    /// The number of its parameters.
    pub names: usize,
    /// What it answers: the `T.any` of its last type and its `next` types.
    pub ty: Ty,
}

/// Arguments that were judged, in order.
#[derive(Debug, Drop)]
pub struct Arguments {
    pub positional: Items<Given>,
    pub keys: Items<Named>,
}

/// What a call answers.
#[derive(Debug, Drop)]
pub struct Answer {
    pub result: Ty,
    /// The types of the block's parameters. They don't depend on what the block answers.
    pub block: Items<Ty>,
    pub errors: Items<Diag>,
}
