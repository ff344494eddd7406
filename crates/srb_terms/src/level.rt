/// How strictly a file is checked, from the laxest to the strictest.
#[derive(Clone, Copy, Debug, PartialEq, Eq, PartialOrd, Ord, Hash)]
pub enum Level {
    /// The file is not checked and declares nothing.
    Ignore,
    /// Syntax and constants.
    False,
    /// Types too.
    True,
    /// Every method has a signature, and every instance variable is declared.
    Strict,
    /// No call of a method on an untyped receiver either.
    Strong,
}
