use crate::{Items, Name, Names, ParamKind, SigText, TyText};

/// A path of constants as it is written. One that begins with `::` has an empty first name.
pub type Path = Names;

/// The parameters of a method, without types.
pub type Shapes = Items<ParamShape>;

/// What a constant names.
#[derive(Clone, Copy, Debug, PartialEq, Eq, PartialOrd, Ord, Hash)]
pub enum Kind {
    Class,
    Module,
    Value,
}

/// In which way a class or module refers to another.
#[derive(Clone, Copy, Debug, PartialEq, Eq, PartialOrd, Ord, Hash)]
pub enum How {
    /// As its superclass.
    Super,
    /// By `include`.
    Include,
    /// By `extend`.
    Extend,
}

/// A parameter of a method, without its type.
#[derive(Debug, Drop)]
pub struct ParamShape {
    pub name: Name,
    pub kind: ParamKind,
}

/// What is told of the type of a value constant.
#[derive(Drop)]
pub enum Given {
    /// A literal of this class.
    Literal(Name),
    /// The type of its `T.let`.
    Typed(TyText),
    /// Nothing.
    Unknown,
}

/// What a file declares, without places. A scope is the list of the full names of the enclosing class and module bodies, the innermost
/// first; names of owners and of what is declared are full.
#[derive(Drop)]
pub enum Fact {
    /// A class or module, or the name of a value constant.
    Scope {
        name: Name,
        kind: Kind,
    },
    /// A superclass or a mixin.
    Parent {
        of: Name,
        scope: Names,
        to: Path,
        how: How,
    },
    /// A value constant.
    Value {
        name: Name,
        scope: Names,
        given: Given,
    },
    /// A method.
    Method {
        owner: Name,
        scope: Names,
        /// Whether it is one of the class object.
        meta: bool,
        name: Name,
        params: Shapes,
        sig: Option<SigText>,
    },
    /// An instance variable with a declared type.
    Ivar {
        owner: Name,
        scope: Names,
        /// Whether it is one of the class object.
        meta: bool,
        name: Name,
        given: TyText,
    },
}
