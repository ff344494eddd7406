ghost use Rattle.std.specs.Prelude.{◌≡◌, IfOk};

use crate::Inp;
use srb_terms::{Diag, Items, Name, NoMemory};
use std::alloc::Global;

/// One step of the session's core.
#[derive(Debug, Drop)]
pub enum Step {
    /// It took the next input.
    Take {
        inp: Inp,
    },
    /// It found no input waiting.
    Look,
    /// It built the symbol table of the project as it is now.
    Build,
    /// It found this file's errors after `epoch` edits, and wrote them where `shown` is set.
    Work {
        path: Name,
        epoch: u64,
        list: Items<Diag>,
        shown: bool,
    },
    /// It threw away errors of this file that may be no longer those of its project.
    Dropped {
        path: Name,
    },
    /// It found nothing left to do.
    Idle,
}

impl Step {
    /// A copy of this step.
    pub fn copied(&self, alloc: Global) -> Result<Step, NoMemory>
        ensures { IfOk result (λ step. step ≡ self.now) }
    {
        match self {
            Step::Take { inp } => Ok(Step::Take {
                inp: inp.copied(alloc)?,
            }),
            Step::Look => Ok(Step::Look),
            Step::Build => Ok(Step::Build),
            Step::Work {
                path,
                epoch,
                list,
                shown,
            } => Ok(Step::Work {
                path: path.copied()?,
                epoch: *epoch,
                list: copied_list(alloc, list.as_slice())?,
                shown: *shown,
            }),
            Step::Dropped { path } => Ok(Step::Dropped {
                path: path.copied()?,
            }),
            Step::Idle => Ok(Step::Idle),
        }
    }
}

fn copied_list(alloc: Global, list: &[Diag]) -> Result<Items<Diag>, NoMemory>
    ensures { IfOk result (λ copy. copy ≡ list.now) }
{
    let mut copy = Items::new(alloc);
    'list: for error in list {
        copy.push(error.copied()?)?;
    }
    Ok(copy)
}
