//! What the steps of a session come to.

ghost use Rattle.std.specs.Prelude.{◌≡◌, ◌+◌, ◌||◌, take, ℕ, IfOk, OnOk, MatchResult, bytes_eq};
ghost use Rattle.indexmap.specs.IndexSet.{contains};
ghost use Rattle.lsp_docs.specs.Paths.{Path};
ghost use Rattle.run_watch.specs.Told.{with_steps};
ghost use Rattle.srb_gen.specs.Tallies.{edits_in, errors_in, is_list_of, lasting_errors};

use indexmap::IndexSet;
use run_watch::{Step, Trace};
use srb_terms::{Name, NoMemory};
use std::alloc::{AllocError, Global};

/// How many edits were taken in the session of these steps.
pub fn edits_in(steps: &[Step]) -> u64
    ensures { result ≡ edits_in steps.now }
{
    let mut edits = 0;
    'steps: for step in steps {
        if let Step::Work { epoch, .. } = step {
            edits = *epoch;
        }
    }
    edits
}

/// How many errors the lists have together that were written last of each file.
pub fn errors_in(alloc: Global, steps: &[Step]) -> Result<u64, NoMemory>
    ensures { IfOk result (λ errors. errors ≡ errors_in steps.now) }
{
    let mut listed = IndexSet::new(alloc);
    let mut errors = 0;
    let mut at = steps.len();
    'steps: while at > 0 {
        at -= 1;
        let more = lasting_errors(&mut listed, &steps[at])?;
        errors = sum(more, errors)?;
    }
    Ok(errors)
}

// The errors of the list that the step writes, none where a list of the file comes later; the file is then a listed one.
fn lasting_errors(listed: &mut IndexSet<Name>, step: &Step) -> Result<u64, NoMemory>
    ensures errors { IfOk result (λ errors. errors ≡ lasting_errors (λ f. contains bytes_eq listed.old f) step.now) }
    ensures listed { OnOk result ((f : Path) → contains bytes_eq listed.new f ≡ (is_list_of f step.now || contains bytes_eq listed.old f)) }
{
    match step {
        Step::Work {
            path,
            list,
            shown: true,
            ..
        } => {
            let is_last = listed.insert(path.copied()?)?;
            if is_last {
                Ok(list.len() as u64)
            } else {
                Ok(0)
            }
        }
        _ => Ok(0),
    }
}

// The sum. One past 64 bits counts as out of memory.
fn sum(one: u64, other: u64) -> Result<u64, NoMemory>
    ensures { IfOk result (λ total. total ≡ one + other) }
{
    match one.checked_add(other) {
        Some(total) => Ok(total),
        None => Err(AllocError),
    }
}

/// Tells the trace these steps, in order. Out of memory, it was told a first part of them.
pub fn tell_all<T: Trace>(trace: &mut T, steps: &[Step]) -> Result<(), NoMemory>
    ensures { MatchResult result (λ _. T.told trace.new ≡ with_steps (T.told trace.old) steps.now) (λ _. (count : ℕ) × (T.told trace.new ≡ with_steps (T.told trace.old) (take count steps.now))) }
{
    'steps: for step in steps {
        trace.step(step)?;
    }
    Ok(())
}
