//! The coordinator of a session.

ghost use Rattle.std.specs.Prelude.{◌≡◌, ◌+◌, ◌-◌, ◌^◌, ◌<◌, ◌≤◌, ◌⊎◌, ◌∷◌, [], List, IsTrue, IsFalse, IfErr, IfOk, OnOk, None, length};
ghost use Rattle.std.specs.declared.option.Option.{Option};
ghost use Rattle.run_watch.specs.Told.{with_steps};
ghost use Rattle.run_watch.specs.declared.step.Step.{Step as StepMade};
ghost use Rattle.run_watch.specs.declared.step.Step.TheVariants.{Take};
ghost use Rattle.run_queues.specs.declared.heard.Heard.TheVariants.{Took};
ghost use Rattle.run_core.specs.Machine.{is_at_rest, looked};
ghost use Rattle.run_core.specs.Runs.{IsOver};
ghost use Rattle.run_serve.specs.declared.serve_end.ServeEnd.TheVariants.{NoMemory};
ghost use Rattle.lsp_docs.specs.Documents.{MOST_FILES};
ghost use Rattle.lsp_docs.specs.Uris.{is_empty};
ghost use Rattle.run_serve.specs.Deeds.{GainsOne, GainsSome, Goes, Turns, Works, is_lost};
ghost use Rattle.run_serve.specs.Leading.{IsOwedWhole};

use crate::leading::run_path;
use crate::say::{say, tell, tell_landed};
use crate::serve_end::ServeEnd;
use run_core::Core;
use run_gate::{Gate, Seat};
use run_pool::Hold;
use run_queues::{Inbox, TakePass};
use run_watch::{EndCause, Inp, Step, Trace};
use srb_check::Job;
use srb_io::Sink;
use srb_terms::{Boxed, Steps};
use std::alloc::Global;
use std::sync::Wait;
use std::sync::ledger::Ledger;
use std::thread::Threads;

/// Whether an input is the end that tells that memory ran out.
fn is_lost(inp: &Inp) -> bool
    ensures { result ≡ is_lost (Took inp.now) }
{
    match inp {
        Inp::End(EndCause::NoMemory) => true,
        _ => false,
    }
}

/// Takes an input that was heard, and writes the answer. The end that tells that memory ran out ends the session at once.
fn take_in<K: Sink>(alloc: Global, core: &mut Core, sink: &mut K, inp: Inp) -> Result<(), ServeEnd>
    requires writes { K.faults sink.old < 2 ^ 64 - 1 }
    requires unended { core.old.state.ended ≡ None }
    ensures works { (before after : Option (List StepMade)) → after ≡ with_steps before (Take inp ∷ [])
        → Works result core.old.state (Took inp ∷ []) core.new.state (record { held = K.held sink.old; told = before }) (record { held = K.held sink.new; told = after }) (K.faults sink.old) (K.faults sink.new) }
    ensures checks { core.new.own_checks ≡ core.old.own_checks }
    ensures job { core.new.job ≡ core.old.job }
    ensures owed { IsOwedWhole core.old.state → OnOk result (IsOwedWhole core.new.state) }
{
    let lost = is_lost(&inp);
    match core.take(alloc, inp) {
        Ok(out) => {
            if lost {
                Err(ServeEnd::NoMemory)
            } else {
                say(alloc, sink, out)
            }
        }
        Err(_) => Err(ServeEnd::NoMemory),
    }
}

/// Takes the first input of the inbox and writes the answer, or finds that there is none.
pub(crate) fn hear<R: Wait, K: Sink, T: Trace>(
    rt: &R,
    alloc: Global,
    core: &mut Core,
    inbox: &Inbox,
    pass: &mut TakePass,
    sink: &mut K,
    trace: &mut T,
) -> Result<(), ServeEnd>
    requires writes { K.faults sink.old < 2 ^ 64 - 1 }
    requires unended { core.old.state.ended ≡ None }
    requires inbox { pass.old.queue ≡ inbox.now.name }
    requires none { pass.old.kept ≡ None }
    ensures turns { Turns result core.old.state core.new.state pass.old.heard pass.new.heard (record { held = K.held sink.old; told = T.told trace.old }) (record { held = K.held sink.new; told = T.told trace.new }) (K.faults sink.old) (K.faults sink.new) }
    ensures one { OnOk result (GainsOne (T.told trace.old) (T.told trace.new)) }
    ensures inbox { (pass.new.queue ≡ pass.old.queue) × (pass.new.sent ≡ pass.old.sent) }
    ensures none { OnOk result (pass.new.kept ≡ None) }
    ensures checks { core.new.own_checks ≡ core.old.own_checks }
    ensures job { core.new.job ≡ core.old.job }
    ensures owed { IsOwedWhole core.old.state → OnOk result (IsOwedWhole core.new.state) }
{
    match inbox.take(rt, pass, trace) {
        Ok(Some(inp)) => take_in(alloc, core, sink, inp),
        Ok(None) => {
            core.looked();
            Ok(())
        }
        Err(_) => Err(ServeEnd::NoMemory),
    }
}

/// Builds the symbol table, which is stale, and answers the job of the build.
fn build<T: Trace>(alloc: Global, core: &mut Core, trace: &mut T) -> Result<Boxed<Job>, ServeEnd>
    requires looked { IsTrue (looked core.old.state) }
    requires stale { IsTrue core.old.state.stale }
    ensures goes { Goes result core.old.state core.new.state (T.told trace.old) (T.told trace.new) }
    ensures want { IfErr result (λ e. e ≡ NoMemory) }
    ensures one { OnOk result (GainsOne (T.told trace.old) (T.told trace.new)) }
    ensures checks { core.new.own_checks ≡ core.old.own_checks }
    ensures job { IfOk result (λ job. core.new.job ≡ job) }
    ensures few { IfOk result (λ job. length job.files.paths ≤ MOST_FILES) }
{
    match core.build(alloc) {
        Ok(job) => match trace.step(&Step::Build) {
            Ok(()) => Ok(job),
            Err(_) => Err(ServeEnd::NoMemory),
        },
        Err(_) => Err(ServeEnd::NoMemory),
    }
}

/// Works on the next file, and writes its errors where they are to be shown.
pub(crate) fn work<L: Ledger, K: Sink, T: Trace>(
    alloc: Global,
    core: &mut Core,
    sink: &mut K,
    trace: &mut T,
    steps: &mut Steps<L>,
) -> Result<(), ServeEnd>
    requires writes { K.faults sink.old < 2 ^ 64 - 1 }
    requires looked { IsTrue (looked core.old.state) }
    requires built { IsFalse core.old.state.stale }
    requires some { IsFalse (is_at_rest core.old.state) }
    ensures works { Works result core.old.state [] core.new.state (record { held = K.held sink.old; told = T.told trace.old }) (record { held = K.held sink.new; told = T.told trace.new }) (K.faults sink.old) (K.faults sink.new) }
    ensures one { OnOk result (GainsOne (T.told trace.old) (T.told trace.new)) }
    ensures checks { IsFalse (is_empty core.old.state.owed) → core.new.own_checks ≡ core.old.own_checks }
    ensures job { core.new.job ≡ core.old.job }
    ensures owed { IsOwedWhole core.old.state → OnOk result (IsOwedWhole core.new.state) }
{
    match core.check_own(alloc, steps) {
        Ok(landed) => tell_landed(alloc, sink, trace, landed, &mut None),
        Err(_) => Err(ServeEnd::NoMemory),
    }
}

/// Notes that nothing is left to do, and replies to `shutdown` where the reply is owed.
fn settle<K: Sink, T: Trace>(
    alloc: Global,
    core: &mut Core,
    sink: &mut K,
    trace: &mut T,
) -> Result<(), ServeEnd>
    requires writes { K.faults sink.old < 2 ^ 64 - 1 }
    requires looked { IsTrue (looked core.old.state) }
    requires rest { IsTrue (is_at_rest core.old.state) }
    ensures works { Works result core.old.state [] core.new.state (record { held = K.held sink.old; told = T.told trace.old }) (record { held = K.held sink.new; told = T.told trace.new }) (K.faults sink.old) (K.faults sink.new) }
    ensures one { OnOk result (GainsOne (T.told trace.old) (T.told trace.new)) }
    ensures checks { core.new.own_checks ≡ core.old.own_checks }
    ensures owed { IsOwedWhole core.old.state → OnOk result (IsOwedWhole core.new.state) }
{
    match core.idle(alloc) {
        Ok(out) => tell(alloc, sink, trace, &Step::Idle, out),
        Err(_) => Err(ServeEnd::NoMemory),
    }
}

/// Builds the symbol table, which is stale, and has the project checked by the workers, if there are any.
fn build_and_check<R: Threads + Wait + Sync, K: Sink, T: Trace, H: Hold + Sync, L: Ledger>(
    rt: &R,
    alloc: Global,
    core: &mut Core,
    inbox: &Inbox,
    pass: &mut TakePass,
    gate: &Gate,
    seat: &mut Seat,
    workers: u8,
    sink: &mut K,
    trace: &mut T,
    hold: &H,
    steps: &mut Steps<L>,
) -> Result<(), ServeEnd>
    requires writes { K.faults sink.old < 2 ^ 64 - 1 }
    requires inbox { pass.old.queue ≡ inbox.now.name }
    requires none { pass.old.kept ≡ None }
    requires gate { seat.old.gate ≡ gate.now }
    requires workers { workers ≤ 16 }
    requires looked { IsTrue (looked core.old.state) }
    requires stale { IsTrue core.old.state.stale }
    ensures turns { Turns result core.old.state core.new.state pass.old.heard pass.new.heard (record { held = K.held sink.old; told = T.told trace.old }) (record { held = K.held sink.new; told = T.told trace.new }) (K.faults sink.old) (K.faults sink.new) }
    ensures some { OnOk result (GainsSome (T.told trace.old) (T.told trace.new)) }
    ensures one { workers ≡ 0 → OnOk result (GainsOne (T.told trace.old) (T.told trace.new)) }
    ensures checks { core.new.own_checks ≡ core.old.own_checks }
    ensures owed { 0 < workers → OnOk result (IsOwedWhole core.new.state) }
    ensures inbox { (pass.new.queue ≡ pass.old.queue) × (pass.new.sent ≡ pass.old.sent) }
    ensures none { OnOk result (pass.new.kept ≡ None) }
    ensures seat { (seat.new.gate ≡ seat.old.gate) × (seat.new.drawn ≡ seat.old.drawn) × (seat.new.left ≡ seat.old.left) }
{
    match build(alloc, core, trace) {
        Ok(job) => {
            if workers == 0 {
                Ok(())
            } else {
                run_path(
                    rt, alloc, core, inbox, pass, gate, seat, workers, sink, trace, hold, steps,
                    &job,
                )
            }
        }
        Err(end) => Err(end),
    }
}

/// Makes the next step where the inbox was looked at and the core isn't idle. After a build the workers check the project, if there are any.
fn go_on<R: Threads + Wait + Sync, K: Sink, T: Trace, H: Hold + Sync, L: Ledger>(
    rt: &R,
    alloc: Global,
    core: &mut Core,
    inbox: &Inbox,
    pass: &mut TakePass,
    gate: &Gate,
    seat: &mut Seat,
    workers: u8,
    sink: &mut K,
    trace: &mut T,
    hold: &H,
    steps: &mut Steps<L>,
) -> Result<(), ServeEnd>
    requires writes { K.faults sink.old < 2 ^ 64 - 1 }
    requires inbox { pass.old.queue ≡ inbox.now.name }
    requires none { pass.old.kept ≡ None }
    requires gate { seat.old.gate ≡ gate.now }
    requires workers { workers ≤ 16 }
    requires looked { IsTrue (looked core.old.state) }
    ensures turns { Turns result core.old.state core.new.state pass.old.heard pass.new.heard (record { held = K.held sink.old; told = T.told trace.old }) (record { held = K.held sink.new; told = T.told trace.new }) (K.faults sink.old) (K.faults sink.new) }
    ensures some { OnOk result (GainsSome (T.told trace.old) (T.told trace.new)) }
    ensures one { workers ≡ 0 → OnOk result (GainsOne (T.told trace.old) (T.told trace.new)) }
    ensures checks { 0 < workers → IsOwedWhole core.old.state → core.new.own_checks ≡ core.old.own_checks }
    ensures owed { 0 < workers → IsOwedWhole core.old.state → OnOk result (IsOwedWhole core.new.state) }
    ensures inbox { (pass.new.queue ≡ pass.old.queue) × (pass.new.sent ≡ pass.old.sent) }
    ensures none { OnOk result (pass.new.kept ≡ None) }
    ensures seat { (seat.new.gate ≡ seat.old.gate) × (seat.new.drawn ≡ seat.old.drawn) × (seat.new.left ≡ seat.old.left) }
{
    if core.is_stale() {
        build_and_check(
            rt, alloc, core, inbox, pass, gate, seat, workers, sink, trace, hold, steps,
        )
    } else if core.rest() {
        settle(alloc, core, sink, trace)
    } else {
        work(alloc, core, sink, trace, steps)
    }
}

/// Whether the end of input was taken and all is done that follows from it.
fn is_over(core: &Core) -> bool
    ensures { IsTrue result → IsOver core.now.state }
{
    core.end().is_some() && core.rest() && core.is_idle()
}

/// One round of the coordinator: it makes a step of the core, tells the trace, and writes what the step says. Where the step is a build and there are
/// workers, they check the project, and the round makes the steps of that too, until all is checked or an edit makes the symbol table stale. Where
/// nothing is left to do it waits for an input first. Once the session is over it makes no step. A raised gate ends the session as if memory ran out.
pub fn turn<R: Threads + Wait + Sync, K: Sink, T: Trace, H: Hold + Sync, L: Ledger>(
    rt: &R,
    alloc: Global,
    core: &mut Core,
    inbox: &Inbox,
    pass: &mut TakePass,
    gate: &Gate,
    seat: &mut Seat,
    workers: u8,
    sink: &mut K,
    trace: &mut T,
    hold: &H,
    steps: &mut Steps<L>,
) -> Result<(), ServeEnd>
    requires writes { K.faults sink.old < 2 ^ 64 - 1 }
    requires inbox { pass.old.queue ≡ inbox.now.name }
    requires none { pass.old.kept ≡ None }
    requires gate { seat.old.gate ≡ gate.now }
    requires workers { workers ≤ 16 }
    ensures turns { Turns result core.old.state core.new.state pass.old.heard pass.new.heard (record { held = K.held sink.old; told = T.told trace.old }) (record { held = K.held sink.new; told = T.told trace.new }) (K.faults sink.old) (K.faults sink.new) }
    ensures some { OnOk result (GainsSome (T.told trace.old) (T.told trace.new) ⊎ IsOver core.old.state) }
    ensures one { workers ≡ 0 → OnOk result (GainsOne (T.told trace.old) (T.told trace.new) ⊎ IsOver core.old.state) }
    ensures checks { 0 < workers → IsOwedWhole core.old.state → core.new.own_checks ≡ core.old.own_checks }
    ensures owed { 0 < workers → IsOwedWhole core.old.state → OnOk result (IsOwedWhole core.new.state) }
    ensures inbox { (pass.new.queue ≡ pass.old.queue) × (pass.new.sent ≡ pass.old.sent) }
    ensures none { OnOk result (pass.new.kept ≡ None) }
    ensures seat { (seat.new.gate ≡ seat.old.gate) × (seat.new.drawn ≡ seat.old.drawn) × (seat.new.left ≡ seat.old.left) }
{
    if gate.look(seat) {
        return Err(ServeEnd::NoMemory);
    }
    if !core.is_looked() {
        return hear(rt, alloc, core, inbox, pass, sink, trace);
    }
    if !core.rest() || !core.is_idle() {
        return go_on(
            rt, alloc, core, inbox, pass, gate, seat, workers, sink, trace, hold, steps,
        );
    }
    if core.end().is_some() {
        return Ok(());
    }
    inbox.wait(rt, pass);
    hear(rt, alloc, core, inbox, pass, sink, trace)
}

/// Makes the core's steps until the session is over, and waits for inputs where nothing is left to do. Where it stops before, it raises the
/// gate, so that the reader stops too.
pub fn coordinate<R: Threads + Wait + Sync, K: Sink, T: Trace, H: Hold + Sync, L: Ledger>(
    rt: &R,
    alloc: Global,
    core: &mut Core,
    inbox: &Inbox,
    pass: &mut TakePass,
    gate: &Gate,
    seat: &mut Seat,
    workers: u8,
    sink: &mut K,
    trace: &mut T,
    hold: &H,
    steps: &mut Steps<L>,
) -> Result<(), ServeEnd>
    requires writes { K.faults sink.old < 2 ^ 64 - 1 }
    requires inbox { pass.old.queue ≡ inbox.now.name }
    requires none { pass.old.kept ≡ None }
    requires gate { seat.old.gate ≡ gate.now }
    requires workers { workers ≤ 16 }
    requires part { 0 < length seat.old.drawn + seat.old.left }
    ensures turns { Turns result core.old.state core.new.state pass.old.heard pass.new.heard (record { held = K.held sink.old; told = T.told trace.old }) (record { held = K.held sink.new; told = T.told trace.new }) (K.faults sink.old) (K.faults sink.new) }
    ensures over { OnOk result (IsOver core.new.state) }
    ensures checks { 0 < workers → IsOwedWhole core.old.state → core.new.own_checks ≡ core.old.own_checks }
    ensures inbox { (pass.new.queue ≡ pass.old.queue) × (pass.new.sent ≡ pass.old.sent) }
    ensures none { OnOk result (pass.new.kept ≡ None) }
    ensures gate { seat.new.gate ≡ seat.old.gate }
{
    'turns: for _ in rt.forever() {
        match turn(
            rt, alloc, core, inbox, pass, gate, seat, workers, sink, trace, hold, steps,
        ) {
            Ok(()) => {}
            Err(end) => {
                gate.raise(seat);
                return Err(end);
            }
        }
        if is_over(core) {
            return Ok(());
        }
    }
    unreachable!()
}
