/// How a parameter takes its argument.
#[derive(Clone, Copy, Debug, PartialEq, Eq, PartialOrd, Ord, Hash)]
pub enum ParamKind {
    /// By its place, always.
    Required,
    /// By its place, or by its default value where the argument is left out.
    Optional,
    /// By its name, always.
    Key,
    /// By its name, or by its default value.
    KeyOptional,
    /// The block that is given to the method.
    Block,
    /// All further arguments by place. Methods of the built-in table alone have one.
    Rest,
}
