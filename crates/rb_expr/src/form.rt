/// A form of the grammar that may stand inside others.
#[derive(Clone, Copy)]
pub enum Form {
    /// Statements, perhaps none, without declarations.
    Body,
    /// A statement without modifiers.
    Simple,
    /// The right side of an assignment: a statement without modifiers that is no jump.
    Value,
    /// An expression with operators, at most `? :`.
    Tern,
    /// An operation of operators between two operands that bind at least so tightly.
    Operation { least: u8 },
    /// An operand with a `-` in front, or with a `**` after.
    Negated,
    /// An operand with another operator in front.
    Prefixed,
}
