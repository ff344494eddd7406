/// What comes of errors of a file that were found by the job of the last build.
#[derive(Drop)]
pub enum Fate {
    /// They are thrown away.
    Drop,
    /// They wait.
    Wait,
    /// They are worked in. The index is that of the file's row.
    Work(usize),
}
