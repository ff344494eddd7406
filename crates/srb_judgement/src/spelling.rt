//! Spellings that a rule asks for.

use srb_terms::{Name, Names};

/// A spelling that a rule asks for.
#[derive(Drop)]
pub enum Spelling {
    /// A name alone, which may be a variable.
    NameAlone(Name),
    /// `nil`.
    NilWord,
    /// A path of constants and nothing else. One that begins with `::` has an empty first name.
    ConstantPath(Names),
    Other,
}

/// The arguments of a call, as far as tests of variables ask: whether there is none, one by its place, or anything else.
#[derive(Clone, Copy)]
pub enum Sole<'a> {
    Empty,
    One(&'a Spelling),
    Other,
}

/// The arguments of a call, as far as the forms of `T` ask: whether there are one or two by their places, or anything else.
#[derive(Clone, Copy, Debug, PartialEq, Eq)]
pub enum Count {
    One,
    Two,
    Other,
}
