use srb_terms::{Diag, Items, Name, Span, Ty};

/// An argument by place: its type and its place.
#[derive(Debug, Drop)]
pub struct Arg {
    pub ty: Ty,
    pub span: Span,
}

/// An argument by name. The place is that of its value.
#[derive(Debug, Drop)]
pub struct KeyArg {
    pub name: Name,
    pub ty: Ty,
    pub span: Span,
}

/// A block that is given: the number of its names, and the type that it answers.
#[derive(Debug, Drop)]
pub struct GivenBlock {
    pub names: u32,
    pub ty: Ty,
}

/// The arguments of a call. Their types are in normal form.
#[derive(Debug, Drop)]
pub struct Args {
    pub positional: Items<Arg>,
    pub keys: Items<KeyArg>,
    pub block: Option<GivenBlock>,
}

/// On what a name is called: the type of the receiver, in normal form, the name, and its place.
#[derive(Debug, Drop)]
pub struct Recv {
    pub ty: Ty,
    pub name: Name,
    pub span: Span,
}

/// What a call answers.
#[derive(Debug, Drop)]
pub struct CallEnd {
    pub result: Ty,
    /// The types of the block's names. They don't depend on what the block answers.
    pub block: Items<Ty>,
    pub errors: Items<Diag>,
}
