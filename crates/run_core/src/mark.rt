/// What a row may say of its path.
#[derive(Clone, Copy, Debug, PartialEq, Eq)]
pub enum Mark {
    /// The project has a file there.
    Present,
    /// The file is to be worked on.
    Todo,
    /// A list of the file has to be written even if it is the one shown.
    Owed,
    /// The file was edited since the last build.
    Edited,
}
