//! The classes that the rules name.

/// A class that the rules name.
#[derive(Clone, Copy, Debug, PartialEq, Eq)]
pub enum BuiltIn {
    Object,
    NilClass,
    TrueClass,
    FalseClass,
    Integer,
    Float,
    String,
    Symbol,
    StandardError,
}
