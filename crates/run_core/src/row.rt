use srb_terms::{Diag, Items};

/// What the core keeps of one path. Its marks are told by `Mark`.
#[derive(Drop)]
pub struct Row {
    /// Whether the project has a file there.
    pub present: bool,
    /// Whether the file is to be worked on.
    pub todo: bool,
    /// Whether a list of the file has to be written even if it is the one shown.
    pub owed: bool,
    /// Whether the file was edited since the last build.
    pub edited: bool,
    /// The list that was written last, if any.
    pub shown: Option<Items<Diag>>,
}
