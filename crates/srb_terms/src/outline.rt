use crate::{Items, Words};

/// A tree of source without its places: what a node is, and its parts in order.
///
/// Two outlines are equal exactly where the trees are equal but for their places, since each part of a tree is a part here or told by
/// the label: what may be left out in a tree (arguments, a block, `else`) is a part of a kind of its own where it stands.
#[derive(Debug, Drop)]
pub struct Outline {
    pub label: Label,
    pub parts: Items<Outline>,
}

/// What a node of an outline is.
#[derive(Debug, Drop)]
pub struct Label {
    pub kind: NodeKind,
    /// The name, the text, the digits, or the spelling of the operator or word that tells the node from others of its kind. Empty where
    /// the kind tells all.
    pub words: Words,
}

/// The tree of a type expression, without places.
#[derive(Debug, Drop)]
pub struct TyText {
    pub tree: Outline,
}

/// The tree of the whole call of `sig`, without places.
#[derive(Debug, Drop)]
pub struct SigText {
    pub tree: Outline,
}

/// The kinds of nodes: one for each kind of tree, and one for each part of a tree that is none itself.
#[derive(Clone, Copy, Debug, PartialEq, Eq, PartialOrd, Ord, Hash)]
pub enum NodeKind {
    Body,
    Modified,
    Jump,
    Assign,
    OperatorAssign,
    Command,
    Conditional,
    Binary,
    Unary,
    Post,
    Whole,
    Float,
    Text,
    Symbol,
    InstanceVariable,
    Constant,
    TopConstant,
    SelfWord,
    Nil,
    True,
    False,
    Name,
    Call,
    Yield,
    Super,
    Array,
    Hash,
    Parens,
    If,
    While,
    Case,
    Begin,
    Class,
    Module,
    Def,
    /// Arguments in brackets, perhaps none.
    Brackets,
    /// A block of a call.
    Block,
    /// A call as a suffix.
    SuffixCall,
    /// A call by `&.` as a suffix.
    SafeCall,
    /// A constant as a suffix.
    SuffixConstant,
    /// An index as a suffix.
    Index,
    /// An argument by name.
    Keyword,
    /// An argument with `&`.
    BlockArgument,
    /// A piece of a string as it is written.
    Piece,
    /// An interpolation.
    Code,
    /// A pair of a hash with `=>`.
    ArrowPair,
    /// A pair of a hash with a label.
    LabelPair,
    /// An `elsif` arm.
    Elsif,
    /// A `when` arm.
    When,
    /// What stands after `else`.
    Else,
    /// A `rescue` clause.
    Rescue,
    /// What stands after `ensure`.
    Ensure,
    /// A parameter.
    Parameter,
    /// The superclass of a class.
    Superclass,
}
