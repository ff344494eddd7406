ghost use Rattle.std.specs.Prelude.{◌==◌, None};

use crate::commands::run;
use crate::session_tests::{
    EXIT, INITIALIZE, OPEN, SHUTDOWN, files_of, frames_of, sink_of, source_of,
};
use run_watch::{EndCause, Inp, Keep, MemTrace, Step, Trace, Watcher, Watchers};
use srb_terms::NoMemory;
use std::alloc::{AllocError, Global};
use std::sync::atomic::{AtomicU64, Ordering};
use std::sync::{Arc, Wait};
use std::test::Fail;
use std::thread::Threads;

/// A call with these words over an empty folder, which reads these messages and tells its steps to the trace.
fn told<R: Threads + Wait + Sync, T: Trace + Send>(
    rt: &R,
    alloc: Global,
    words: &[&str],
    bodies: &[&str],
    trace: &mut T,
) -> Result<(), AllocError> {
    let mut said = Vec::new(alloc);
    for word in words {
        said.push(String::from_str(alloc, word)?)?;
    }
    let mut files = files_of(alloc, &[])?;
    let mut source = source_of(frames_of(alloc, bodies)?, Vec::new(alloc), Vec::new(alloc));
    let mut sink = sink_of(alloc, Vec::new(alloc));
    let _ended = run(
        rt,
        alloc,
        said.as_slice(),
        &mut files,
        &mut source,
        &mut sink,
        trace,
    );
    Ok(())
}

/// What such a call records.
fn recorded<R: Threads + Wait + Sync>(
    rt: &R,
    alloc: Global,
    words: &[&str],
    bodies: &[&str],
) -> Result<MemTrace, AllocError> {
    let mut trace = MemTrace::new(alloc);
    told(rt, alloc, words, bodies, &mut trace)?;
    Ok(trace)
}

/// Whether the steps take these inputs alone, a message and then the end after `exit`, and end with an idle step. Between them the inbox may
/// have been found empty.
fn are_of_an_exit(steps: &[Step]) -> bool {
    let mut messages = 0;
    let mut ends = 0;
    for step in steps {
        match step {
            Step::Take { inp: Inp::Msg(_) } if messages < 2 => messages += 1,
            Step::Take {
                inp: Inp::End(EndCause::Exit),
            } if ends < 2 => ends += 1,
            Step::Look | Step::Idle => {}
            _ => return false,
        }
    }
    messages == 1 && ends == 1 && matches!(steps.last(), Some(Step::Idle))
}

#[test]
fn an_exit_at_once_is_recorded(rt: HostRuntime) -> Result<(), Fail> {
    let trace = recorded(&rt, rt.alloc(), &["lsp", "d"], &[EXIT])?;
    assert!(rt; are_of_an_exit(trace.steps.as_slice()));
    Ok(())
}

#[test]
fn a_check_records_nothing(rt: HostRuntime) -> Result<(), Fail> {
    let trace = recorded(&rt, rt.alloc(), &["text"], &[])?;
    assert!(rt; trace.steps.is_empty());
    Ok(())
}

/// A watcher that sums up the steps that it is told, where others see the sum, and leaves after some.
#[derive(Drop)]
struct Summing {
    sum: Arc<AtomicU64>,
    stays_for: u64,
}

impl Watcher for Summing {
    ghost seen = { λ _. None };

    ghost leaves = { λ w _. w.stays_for == 0 };

    fn saw(&mut self, s: &Step) -> Keep {
        let sum = self.sum.load(Ordering::SeqCst);
        self.sum.store(with_step(sum, s), Ordering::SeqCst);
        if self.stays_for == 0 {
            return Keep::Leave;
        }
        self.stays_for -= 1;
        Keep::Stay
    }
}

/// The sum with one more step, which tells its place and its kind.
fn with_step(sum: u64, step: &Step) -> u64 {
    let kind = match step {
        Step::Take { .. } => 1,
        Step::Look => 2,
        Step::Build => 3,
        Step::Work { .. } => 4,
        Step::Dropped { .. } => 5,
        Step::Idle => 6,
    };
    sum.wrapping_mul(31).wrapping_add(kind)
}

/// The sum of these steps.
fn sum_of(steps: &[Step]) -> u64 {
    let mut sum = 0;
    for step in steps {
        sum = with_step(sum, step);
    }
    sum
}

/// A trace that holds the steps and tells them to its watchers.
#[derive(Drop)]
struct Both {
    held: MemTrace,
    watchers: Watchers,
}

impl Trace for Both {
    ghost told = { λ _. None };

    fn step(&mut self, s: &Step) -> Result<(), NoMemory> {
        self.held.step(s)?;
        self.watchers.step(s)
    }
}

/// Adds a box with a watcher that leaves after so many steps. Answers where its sum is seen.
fn watched_by(
    alloc: Global,
    watchers: &mut Watchers,
    stays_for: u64,
) -> Result<Arc<AtomicU64>, AllocError> {
    let seen = Arc::new(alloc, AtomicU64::new(0))?;
    let sum = Arc::try_clone(&seen)?;
    let watcher = Box::new(alloc, Summing { sum, stays_for })?;
    watchers.boxes.push(watcher)?;
    Ok(seen)
}

/// Of three boxed watchers of a session with two workers the first is told all steps, the second the first one, the third the first three.
#[test]
fn boxed_watchers_are_told_the_steps(rt: HostRuntime) -> Result<(), Fail> {
    let alloc = rt.alloc();
    let boxes = Vec::new(alloc);
    let mut watchers = Watchers { boxes };
    let staying = watched_by(alloc, &mut watchers, 1000)?;
    let leaving_at_once = watched_by(alloc, &mut watchers, 0)?;
    let leaving = watched_by(alloc, &mut watchers, 2)?;
    let held = MemTrace::new(alloc);
    let mut trace = Both { held, watchers };
    let words = ["lsp", "--workers", "2", "d"];
    let bodies = [INITIALIZE, OPEN, SHUTDOWN, EXIT];
    told(&rt, alloc, &words, &bodies, &mut trace)?;
    let steps = trace.held.steps.as_slice();
    assert!(rt; steps.len() >= 8);
    assert_eq!(rt; staying.load(Ordering::SeqCst), sum_of(steps));
    assert_eq!(rt; leaving_at_once.load(Ordering::SeqCst), sum_of(&steps[..1]));
    assert_eq!(rt; leaving.load(Ordering::SeqCst), sum_of(&steps[..3]));
    Ok(())
}
