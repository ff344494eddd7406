//! A session as a whole.

ghost use Rattle.std.specs.Prelude.{◌≡◌, ◌+◌, ◌-◌, ◌^◌, ◌<◌, ◌≤◌, [], OnOk, None, length};
ghost use Rattle.std.specs.Thread.{IsSync};
ghost use Rattle.srb_terms.specs.Projects.{IsProject};
ghost use Rattle.srb_terms.specs.Statuses.{status_of};
ghost use Rattle.run_core.specs.Runs.{IsOver};
ghost use Rattle.run_serve.specs.Causes.{IsCauseBy, cause_of, cause_of_stop};
ghost use Rattle.run_serve.specs.Deeds.{Turns};
ghost use Rattle.run_serve.specs.Hearing.{AreSent};
ghost use Rattle.run_serve.specs.Leading.{HasServed};
ghost use Rattle.run_serve.specs.Projects.{IsWithin};
ghost use Rattle.run_serve.specs.Recorded.{ServesRecorded};

use crate::reading::read;
use crate::serve_end::ServeEnd;
use crate::turning::coordinate;
use run_core::Core;
use run_gate::{Gate, Seat};
use run_pair::run_beside;
use run_pool::Hold;
use run_queues::{Inbox, PutPass, TakePass};
use run_watch::{EndCause, Trace};
use srb_io::{Sink, Source};
use srb_terms::{Cause, Ended, Project, Steps};
use std::alloc::Global;
use std::marker::Brand;
use std::sync::Wait;
use std::sync::ledger::{Blank, Ledger};
use std::thread::Threads;

/// The cause for which a session ends after this end of its input.
fn cause_of(end: EndCause, accepted: bool) -> Cause
    ensures { result ≡ cause_of end accepted }
{
    match end {
        EndCause::Exit => {
            if accepted {
                Cause::Done
            } else {
                Cause::NoShutdown
            }
        }
        EndCause::Closed => Cause::NoShutdown,
        EndCause::Broken { at } => Cause::Broken { at },
        EndCause::TooLong { length } => Cause::TooLong { length },
        EndCause::Fault => Cause::ReadFault,
        EndCause::NoMemory => Cause::NoMemory,
    }
}

/// The cause for which a session ends where its coordinator stops before the input ends.
fn cause_of_stop(stop: ServeEnd) -> Cause
    ensures { result ≡ cause_of_stop stop }
{
    match stop {
        ServeEnd::WriteFault => Cause::WriteFault,
        ServeEnd::NoMemory => Cause::NoMemory,
    }
}

/// Runs the reader and the coordinator beside each other, until both are done. Memory ran out too where no thread can be made for the reader:
/// then nothing is read, and nothing is written.
fn run_both<
    R: Threads + Wait + Sync,
    S: Source + Send,
    K: Sink + Send,
    T: Trace + Send,
    H: Hold + Sync,
    L: Ledger,
>(
    rt: &R,
    alloc: Global,
    core: &mut Core,
    inbox: &Inbox,
    putting: &mut PutPass,
    taking: &mut TakePass,
    gate: &Gate,
    seat: &mut Seat,
    reader_seat: &mut Seat,
    workers: u8,
    source: &mut S,
    sink: &mut K,
    trace: &mut T,
    hold: &H,
    steps: &mut Steps<L>,
) -> Result<(), ServeEnd>
    requires workers { workers ≤ 16 }
    requires reads { S.faults source.old < 2 ^ 64 - 1 }
    requires writes { K.faults sink.old < 2 ^ 64 - 1 }
    requires putting { (putting.old.queue ≡ inbox.now.name) × (putting.old.sent ≡ []) }
    requires taking { (taking.old.queue ≡ inbox.now.name) × (taking.old.kept ≡ None) }
    requires seat { (seat.old.gate ≡ gate.now) × (0 < length seat.old.drawn + seat.old.left) }
    requires reader_seat { (reader_seat.old.gate ≡ gate.now) × (0 < length reader_seat.old.drawn + reader_seat.old.left) }
    ensures sent { AreSent (S.left source.old) (S.left source.new) (S.faults source.old) (S.faults source.new) putting.new.sent }
    ensures turns { Turns result core.old.state core.new.state taking.old.heard taking.new.heard (record { held = K.held sink.old; told = T.told trace.old }) (record { held = K.held sink.new; told = T.told trace.new }) (K.faults sink.old) (K.faults sink.new) }
    ensures over { OnOk result (IsOver core.new.state) }
    ensures inbox { (putting.new.queue ≡ putting.old.queue) × (taking.new.queue ≡ taking.old.queue) }
    ensures gate { (seat.new.gate ≡ seat.old.gate) × (reader_seat.new.gate ≡ reader_seat.old.gate) }
{
    let mut reader = || read(rt, alloc, source, inbox, putting, gate, reader_seat);
    let mut coordinator = || -> Result<(), ServeEnd>
        requires { IsSync R.row × IsSync H.row × (workers ≤ 16) × (K.faults sink.now < 2 ^ 64 - 1) × (taking.now.queue ≡ inbox.now.name) × (taking.now.kept ≡ None) × (seat.now.gate ≡ gate.now) × (0 < length seat.now.drawn + seat.now.left) }
        ensures { HasServed result (record { core = core.entry.now; pass = taking.entry.now; seat = seat.entry.now; kept = record { held = K.held sink.entry.now; told = T.told trace.entry.now }; faults = K.faults sink.entry.now }) (record { core = core.exit.now; pass = taking.exit.now; seat = seat.exit.now; kept = record { held = K.held sink.exit.now; told = T.told trace.exit.now }; faults = K.faults sink.exit.now }) }
    {
        coordinate(
            rt, alloc, core, inbox, taking, gate, seat, workers, sink, trace, hold, steps,
        )
    };
    match run_beside(rt, &mut reader, &mut coordinator) {
        Ok((_, ended)) => ended,
        Err(_) => Err(ServeEnd::NoMemory),
    }
}

/// The cause for which a session ends, by how the coordinator stopped and by the end that the core took.
fn cause_by(ended: Result<(), ServeEnd>, core: &Core) -> Cause
    requires { OnOk ended (IsOver core.now.state) }
    ensures { IsCauseBy ended core.now.state result }
{
    match ended {
        Ok(()) => match core.end() {
            Some(end) => cause_of(end.0, end.1),
            None => unreachable!(),
        },
        Err(stop) => cause_of_stop(stop),
    }
}

/// Serves a session, whose checks are counted on this blank.
fn serve_counting<
    R: Threads + Wait + Sync,
    L: Ledger,
    S: Source + Send,
    K: Sink + Send,
    T: Trace + Send,
    H: Hold + Sync,
>(
    rt: &R,
    alloc: Global,
    project: Project,
    workers: u8,
    source: &mut S,
    sink: &mut K,
    trace: &mut T,
    hold: &H,
    blank: Blank,
) -> Cause
    requires name { blank.name ≡ L.name }
    requires parts { blank.parts ≡ L.parts }
    requires some { 0 < blank.parts }
    requires ordered { IsProject project }
    requires within { IsWithin project }
    requires workers { workers ≤ 16 }
    requires reads { S.faults source.old < 2 ^ 64 - 1 }
    requires writes { K.faults sink.old < 2 ^ 64 - 1 }
    ensures { ServesRecorded project result record {
      left_before = S.left source.old;
      left_after = S.left source.new;
      held_before = K.held sink.old;
      held_after = K.held sink.new;
      reads_before = S.faults source.old;
      reads_after = S.faults source.new;
      writes_before = K.faults sink.old;
      writes_after = K.faults sink.new;
    } record {
      told_before = T.told trace.old;
      told_after = T.told trace.new;
    } }
{
    let mut steps: Steps<L> = Steps::new(blank);
    let Ok(mut core) = Core::new(alloc, project) else {
        return Cause::NoMemory;
    };
    let Ok((inbox, mut putting, mut taking)) = Inbox::new(alloc) else {
        return Cause::NoMemory;
    };
    let Ok((gate, mut seat)) = Gate::new(alloc) else {
        return Cause::NoMemory;
    };
    let Ok(mut reader_seat) = gate.split(alloc, &mut seat) else {
        return Cause::NoMemory;
    };
    let ended = run_both(
        rt,
        alloc,
        &mut core,
        &inbox,
        &mut putting,
        &mut taking,
        &gate,
        &mut seat,
        &mut reader_seat,
        workers,
        source,
        sink,
        trace,
        hold,
        &mut steps,
    );
    inbox.meet(rt, putting, &mut taking);
    gate.join(&mut seat, reader_seat);
    cause_by(ended, &core)
}

/// Serves a session over this project: one thread reads messages, and the other does and writes all that follows from them, with so many workers
/// beside it while a project is checked. Where the thread that reads can't be made, memory ran out.
pub fn serve<
    R: Threads + Wait + Sync,
    S: Source + Send,
    K: Sink + Send,
    T: Trace + Send,
    H: Hold + Sync,
>(
    rt: &R,
    alloc: Global,
    project: Project,
    workers: u8,
    source: &mut S,
    sink: &mut K,
    trace: &mut T,
    hold: &H,
) -> Ended
    requires ordered { IsProject project }
    requires within { IsWithin project }
    requires workers { workers ≤ 16 }
    requires reads { S.faults source.old < 2 ^ 64 - 1 }
    requires writes { K.faults sink.old < 2 ^ 64 - 1 }
    ensures status { result.status ≡ status_of result.cause }
    ensures serves { ServesRecorded project result.cause record {
      left_before = S.left source.old;
      left_after = S.left source.new;
      held_before = K.held sink.old;
      held_after = K.held sink.new;
      reads_before = S.faults source.old;
      reads_after = S.faults source.new;
      writes_before = K.faults sink.old;
      writes_after = K.faults sink.new;
    } record {
      told_before = T.told trace.old;
      told_after = T.told trace.new;
    } }
{
    Ended::new(serve_counting::<R, Brand, S, K, T, H>(
        rt,
        alloc,
        project,
        workers,
        source,
        sink,
        trace,
        hold,
        Blank::new(1),
    ))
}
