use srb_terms::{How, Name};

/// A reference from a class or module to its superclass or to a module that it includes.
#[derive(Debug, Drop)]
pub struct Link {
    /// The full name of the class or module that refers.
    pub of: Name,
    /// The full name of the class or module that it refers to.
    pub to: Name,
    /// In which way.
    pub how: How,
}
