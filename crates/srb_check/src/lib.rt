//! The check of files: what loading keeps of a file's bytes, the errors of a file under the facts of its project, and the lines of a
//! report.
//!
//! `Files` loads the files of a project one by one, and shares the records of files that stay as they were. `Files::job` builds the symbol
//! table of their facts, and `Job::check` and `Job::check_at` find the errors of one file: `fresh`, which the function `fresh` finds from
//! the project's bytes alone. Where an edit leaves what its file declares, as `declare_the_same` tells, `Files::job_as` shares the symbol
//! table. A `Job` and its `Files` are told by `IsJobOf` and `AreLoaded`, of which nothing else need be known.
//!
//! For a single file `load` gives the record `loaded`, and `check_file` the errors `errors_of` of a file that was loaded so. `push_report`
//! adds the lines `file_report`.
//!
//! The errors of declarations, constants, type expressions and signatures come from the program's tree, and those of types from the judgement
//! of the tree after the rewriting of attributes and initializers (`specs/Types.antt`). A program of a level that shows no error of types
//! isn't judged.
#![tactic(auto)]

mod arranged;
mod characters;
mod checking;
mod errors;
mod file;
mod files;
mod fresh_check;
mod job;
pub mod laws;
mod loading;
mod place;
mod reading;
mod report;

pub use checking::check_file;
pub use file::FileRec;
pub use files::Files;
pub use fresh_check::{fresh, job_of};
pub use job::{Job, declare_the_same};
pub use loading::load;
pub use report::push_report;
pub use srb_infer::Levels;
