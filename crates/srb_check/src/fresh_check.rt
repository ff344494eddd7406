ghost use Rattle.std.specs.Prelude.{◌≡◌, ◌<◌, List, IfOk};
ghost use Rattle.srb_terms.specs.Projects.{File, IsProject};
ghost use Rattle.srb_check.specs.Checks.{fresh};
ghost use Rattle.srb_check.specs.Jobs.{AreLoaded, IsJobOf};

use crate::files::Files;
use crate::job::Job;
use srb_terms::{Diag, Items, Name, NoMemory, Project, ProjectFile, Steps};
use std::alloc::{AllocError, Global};
use std::marker::Brand;
use std::sync::ledger::{Blank, Ledger};

/// The files, each loaded.
fn loaded_files(alloc: Global, files: &[ProjectFile]) -> Result<Files, NoMemory>
    ensures { IfOk result (AreLoaded files.now) }
{
    let before = Job::empty(alloc)?;
    let mut loaded = Files::new(alloc);
    'files: for file in files {
        loaded.add(alloc, file.path().copied()?, file.bytes(), &before)?;
    }
    Ok(loaded)
}

/// The job of these files, each loaded anew, in the order in which they stand.
pub fn job_of(alloc: Global, files: &[ProjectFile]) -> Result<Job, NoMemory>
    ensures { IfOk result (IsJobOf files.now) }
{
    loaded_files(alloc, files)?.job(alloc)
}

/// The job of a project.
fn project_job(alloc: Global, project: &Project) -> Result<Job, NoMemory>
    ensures job { IfOk result (IsJobOf project.now) }
    ensures ordered { IsProject project.now }
{
    job_of(alloc, project.files())
}

/// The errors of the file at a path of a job, over a counter of its own.
pub(crate) fn errors_at<L: Ledger>(
    alloc: Global,
    job: &Job,
    path: &Name,
    blank: Blank,
) -> Result<Items<Diag>, NoMemory>
    requires name { blank.name ≡ L.name }
    requires parts { blank.parts ≡ L.parts }
    requires some { 0 < blank.parts }
    ensures { (project : List File) → IsProject project → IsJobOf project job.now → IfOk result (λ list. list ≡ fresh project path.now) }
{
    let mut steps: Steps<L> = Steps::new(blank);
    job.check(alloc, path, &mut steps)
}

/// The errors of the file at `path` as a check finds them that begins with the project's bytes alone. A path that the
/// project doesn't hold has none.
pub fn fresh(alloc: Global, project: &Project, path: &str) -> Result<Vec<Diag>, AllocError>
    ensures { IfOk result (λ ds. ds.items ≡ fresh project.now path.now) }
{
    let job = project_job(alloc, project)?;
    let path = Name::from_str(alloc, path)?;
    let errors = errors_at::<Brand>(alloc, &job, &path, Blank::new(1))?;
    Ok(errors.into_vec())
}
