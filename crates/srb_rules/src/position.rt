/// Where a constant stands, which decides whether ancestors are looked at.
#[derive(Clone, Copy, Debug, PartialEq, Eq, PartialOrd, Ord, Hash)]
pub enum Position {
    /// In an expression or a declared name.
    Value,
    /// As a superclass or as an argument of `include` or `extend`: no ancestors are looked at.
    Parent,
}
