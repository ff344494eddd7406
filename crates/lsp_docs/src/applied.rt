use srb_terms::Name;

/// What an accepted message about a document did.
#[derive(Debug, Drop)]
pub struct Applied {
    /// The path that its URI names.
    pub path: Name,
    /// Whether it is an edit; else the present text counts as saved.
    pub edit: bool,
}
