/// How a part of a program is read.
#[derive(Clone, Copy, Debug)]
pub enum Reading {
    /// As an expression or a statement.
    Plain,
    /// As the body of a class or module.
    Inner,
    /// As a direct statement of such a body.
    Direct,
    /// As a positional argument of `include` or `extend`.
    Mixin,
    /// As the body of the block of a `sig` statement.
    SigBody,
    /// As a call of a signature's chain.
    Chain,
    /// As a type expression.
    TypeExpression,
    /// As the C of a `T.class_of(C)`.
    ClassName,
}

/// How the arguments of a call are read.
#[derive(Clone, Copy, Debug)]
pub enum Taken {
    /// All, as expressions.
    All,
    /// All, those by their places as mixins.
    Mixins,
    /// All, as type expressions.
    Types,
    /// Those by their places as type expressions.
    TypesByPlace,
    /// Those by their names as type expressions.
    TypesByName,
    /// Where there are exactly two, by their places, the second as a type expression.
    SecondIsType,
    /// Those by their places as names of classes.
    ClassNames,
}
