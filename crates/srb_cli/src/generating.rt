//! The command `gen N`: a session over generated files, which is served over memory, and its summary.

ghost use Rattle.std.specs.Prelude.{◌≡◌, ◌-◌, ◌^◌, ◌<◌, ◌≤◌, ℕ, List, Option, IfOk, IfSome};
ghost use Rattle.srb_cli.specs.Generating.{EndsGenerating, IsGenerated, IsGivenBy, generated_summary};

use crate::command::USUAL_WORKERS;
use run_pool::Open;
use run_serve::serve;
use run_watch::{MemTrace, Step, Trace};
use srb_gen::{edits_in, errors_in, project, session, summary_bytes, tell_all};
use srb_io::{MemSink, MemSource, Sink, write_all};
use srb_terms::{Cause, Items, NoMemory, Project};
use std::alloc::{AllocError, Global};
use std::sync::Wait;
use std::thread::Threads;

/// The steps of the session with these bytes over a generated project. `None` comes only because memory ran out: the session is whole, and
/// what stands for its client in memory fails for nothing else.
fn steps_over<R: Threads + Wait + Sync>(
    rt: &R,
    alloc: Global,
    project: Project,
    bytes: Vec<u8>,
) -> Option<Items<Step>>
    requires { (count : ℕ) × IsGivenBy count project bytes.items }
    ensures { (count : ℕ) → IsGivenBy count project bytes.items → IfSome result (λ steps. IsGenerated count steps) }
{
    let mut source = MemSource::new(bytes, Vec::new(alloc), Vec::new(alloc));
    let mut sink = MemSink::new(Vec::new(alloc), Vec::new(alloc));
    let mut trace = MemTrace::new(alloc);
    let ended = serve(
        rt,
        alloc,
        project,
        USUAL_WORKERS,
        &mut source,
        &mut sink,
        &mut trace,
        &Open,
    );
    match ended.cause {
        Cause::Done => Some(trace.steps),
        _ => None,
    }
}

/// The steps of the generated session over so many files.
fn steps_of<R: Threads + Wait + Sync>(
    rt: &R,
    alloc: Global,
    count: u16,
) -> Result<Items<Step>, NoMemory>
    requires some { 1 ≤ count }
    requires few { count ≤ 1000 }
    ensures { IfOk result (λ steps. IsGenerated count steps) }
{
    let project = project(alloc, count)?;
    let bytes = session(alloc, count)?;
    match steps_over(rt, alloc, project, bytes) {
        Some(steps) => Ok(steps),
        None => Err(AllocError),
    }
}

/// The summary of these steps of the generated session over so many files.
fn summary_of(alloc: Global, count: u16, steps: &[Step]) -> Result<Vec<u8>, NoMemory>
    requires some { 1 ≤ count }
    requires few { count ≤ 1000 }
    requires steps { IsGenerated count steps.now }
    ensures { IfOk result (λ bytes. bytes.items ≡ generated_summary count) }
{
    let errors = errors_in(alloc, steps)?;
    summary_bytes(alloc, u64::from(count), edits_in(steps), errors)
}

/// Writes the summary of the generated session over so many files, and tells the trace the session's steps.
pub fn generate<R: Threads + Wait + Sync, K: Sink, T: Trace>(
    rt: &R,
    alloc: Global,
    count: u16,
    sink: &mut K,
    trace: &mut T,
) -> Cause
    requires some { 1 ≤ count }
    requires few { count ≤ 1000 }
    requires writes { K.faults sink.old < 2 ^ 64 - 1 }
    ensures { (left : Option (List ℕ)) (reads : ℕ) → EndsGenerating count result record {
      left_before = left;
      left_after = left;
      held_before = K.held sink.old;
      held_after = K.held sink.new;
      reads_before = reads;
      reads_after = reads;
      writes_before = K.faults sink.old;
      writes_after = K.faults sink.new;
    } record {
      told_before = T.told trace.old;
      told_after = T.told trace.new;
    } }
{
    let Ok(steps) = steps_of(rt, alloc, count) else {
        return Cause::NoMemory;
    };
    let Ok(summary) = summary_of(alloc, count, steps.as_slice()) else {
        return Cause::NoMemory;
    };
    let Ok(()) = tell_all(trace, steps.as_slice()) else {
        return Cause::NoMemory;
    };
    match write_all(sink, summary.as_slice()) {
        Ok(()) => Cause::Done,
        Err(_) => Cause::WriteFault,
    }
}
