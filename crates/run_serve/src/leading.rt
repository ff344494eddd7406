//! What the coordinator does while workers run: it lands what they find, and takes messages between two files.

ghost use Rattle.std.specs.Prelude.{◌≡◌, ℕ, ◌+◌, ◌-◌, ◌^◌, ◌<◌, ◌≤◌, ◌||◌, false, [], Some, None, length, IsTrue, IsFalse, OnOk};
ghost use Rattle.lsp_docs.specs.Documents.{MOST_FILES};
ghost use Rattle.lsp_docs.specs.Uris.{is_empty};
ghost use Rattle.srb_check.specs.Jobs.{Known};
ghost use Rattle.run_core.specs.Machine.{is_at_rest, looked};
ghost use Rattle.run_serve.specs.Deeds.{Turns, Works};
ghost use Rattle.run_serve.specs.Leading.{HasLed, HasLooked, HasTaken, IsWaiting, how_path, raises};

use crate::say::tell_landed;
use crate::serve_end::ServeEnd;
use crate::turning::{hear, work};
use run_core::Core;
use run_gate::{Gate, Seat};
use run_pool::{Chief, Hold, JobView, PathEnd, with_workers};
use run_queues::{Inbox, Item, ResPass, Results, TakePass};
use run_watch::Trace;
use srb_check::Job;
use srb_io::Sink;
use srb_terms::{Boxed, NoMemory, Steps};
use std::alloc::{AllocError, Global};
use std::sync::Wait;
use std::sync::ledger::Ledger;
use std::thread;
use std::thread::Threads;

/// How often in a row the results may be found empty before a leader sleeps for a while after each time.
const MOST_YIELDS: u32 = 4;

/// How often in a row the results may be found empty before the inbox is looked at.
const MOST_EMPTY_POLLS: u32 = 8;

/// How many items a leader takes at most.
const MOST_ITEMS: u64 = 0xffff_ffff;

/// What a leader keeps from one round to the next.
#[derive(Drop)]
pub(crate) struct Keeping {
    /// An item that isn't landed yet.
    pub(crate) item: Option<Item>,
    /// How many items were taken.
    pub(crate) taken: u64,
    /// How often in a row none was found.
    pub(crate) empty: u32,
}

/// Takes an item of the results, if there is one, else lets other threads go on: at first for an instant, later until a message comes or a while
/// is over.
fn poll<R: Wait>(
    rt: &R,
    inbox: &Inbox,
    pass: &TakePass,
    results: &Results<JobView>,
    items: &mut ResPass<JobView>,
    keeping: &mut Keeping,
) -> Result<(), NoMemory>
    requires inbox { pass.now.queue ≡ inbox.now.name }
    requires queue { items.old.queue ≡ results.now.name }
    requires left { 2 ^ 32 ≤ items.old.left + keeping.old.taken }
    requires few { keeping.old.taken < 2 ^ 32 }
    requires none { keeping.old.item ≡ None }
    ensures taken { HasTaken items.old items.new keeping.old.taken keeping.new.taken }
    ensures few { keeping.new.taken < 2 ^ 32 }
    ensures item { (job : Known) → items.old.view ≡ Some job → IsWaiting job keeping.new.item }
{
    if keeping.taken >= MOST_ITEMS {
        return Err(AllocError);
    }
    match results.take(rt, items) {
        Some(item) => {
            keeping.item = Some(item);
            keeping.taken += 1;
            keeping.empty = 0;
        }
        None => {
            keeping.empty = keeping.empty.saturating_add(1);
            if keeping.empty > MOST_YIELDS {
                inbox.wait_briefly(rt, pass);
            } else {
                thread::yield_now();
            }
        }
    }
    Ok(())
}

/// Looks at the inbox where the results were found empty often enough.
fn listen<R: Wait, K: Sink, T: Trace>(
    rt: &R,
    alloc: Global,
    core: &mut Core,
    inbox: &Inbox,
    pass: &mut TakePass,
    sink: &mut K,
    trace: &mut T,
    keeping: &mut Keeping,
) -> Result<(), ServeEnd>
    requires writes { K.faults sink.old < 2 ^ 64 - 1 }
    requires inbox { pass.old.queue ≡ inbox.now.name }
    requires none { pass.old.kept ≡ None }
    ensures turns { Turns result core.old.state core.new.state pass.old.heard pass.new.heard (record { held = K.held sink.old; told = T.told trace.old }) (record { held = K.held sink.new; told = T.told trace.new }) (K.faults sink.old) (K.faults sink.new) }
    ensures inbox { (pass.new.queue ≡ pass.old.queue) × (pass.new.sent ≡ pass.old.sent) }
    ensures none { OnOk result (pass.new.kept ≡ None) }
    ensures checks { core.new.own_checks ≡ core.old.own_checks }
    ensures job { core.new.job ≡ core.old.job }
    ensures same { (keeping.new.item ≡ keeping.old.item) × (keeping.new.taken ≡ keeping.old.taken) }
{
    if keeping.empty < MOST_EMPTY_POLLS || core.end().is_some() {
        return Ok(());
    }
    keeping.empty = 0;
    hear(rt, alloc, core, inbox, pass, sink, trace)
}

/// Lands the item that is kept, if there is one. Where it has to wait it stays.
fn land<K: Sink, T: Trace>(
    alloc: Global,
    core: &mut Core,
    sink: &mut K,
    trace: &mut T,
    keeping: &mut Keeping,
) -> Result<(), ServeEnd>
    requires writes { K.faults sink.old < 2 ^ 64 - 1 }
    requires item { IsWaiting core.old.job keeping.old.item }
    ensures works { Works result core.old.state [] core.new.state (record { held = K.held sink.old; told = T.told trace.old }) (record { held = K.held sink.new; told = T.told trace.new }) (K.faults sink.old) (K.faults sink.new) }
    ensures checks { core.new.own_checks ≡ core.old.own_checks }
    ensures job { core.new.job ≡ core.old.job }
    ensures item { IsWaiting core.new.job keeping.new.item }
    ensures taken { keeping.new.taken ≡ keeping.old.taken }
{
    let Some(item) = keeping.item.take() else {
        return Ok(());
    };
    match core.land(alloc, item) {
        Ok(landed) => { tell_landed(alloc, sink, trace, landed, &mut keeping.item) }
        Err(_) => Err(ServeEnd::NoMemory),
    }
}

/// One round of the leader. An owed file is checked at once, and what the workers found lands else. The inbox is looked at before both, so that
/// a message that comes is taken between two files.
fn lead_round<R: Wait, K: Sink, T: Trace, L: Ledger>(
    rt: &R,
    alloc: Global,
    core: &mut Core,
    inbox: &Inbox,
    pass: &mut TakePass,
    sink: &mut K,
    trace: &mut T,
    steps: &mut Steps<L>,
    results: &Results<JobView>,
    items: &mut ResPass<JobView>,
    keeping: &mut Keeping,
) -> Result<(), ServeEnd>
    requires writes { K.faults sink.old < 2 ^ 64 - 1 }
    requires inbox { pass.old.queue ≡ inbox.now.name }
    requires none { pass.old.kept ≡ None }
    requires built { IsFalse core.old.state.stale }
    requires some { IsFalse (is_at_rest core.old.state) }
    requires queue { items.old.queue ≡ results.now.name }
    requires view { items.old.view ≡ Some core.old.job }
    requires left { 2 ^ 32 ≤ items.old.left + keeping.old.taken }
    requires few { keeping.old.taken < 2 ^ 32 }
    requires item { IsWaiting core.old.job keeping.old.item }
    ensures turns { Turns result core.old.state core.new.state pass.old.heard pass.new.heard (record { held = K.held sink.old; told = T.told trace.old }) (record { held = K.held sink.new; told = T.told trace.new }) (K.faults sink.old) (K.faults sink.new) }
    ensures inbox { (pass.new.queue ≡ pass.old.queue) × (pass.new.sent ≡ pass.old.sent) }
    ensures none { OnOk result (pass.new.kept ≡ None) }
    ensures checks { core.new.own_checks ≡ core.old.own_checks }
    ensures job { core.new.job ≡ core.old.job }
    ensures taken { HasTaken items.old items.new keeping.old.taken keeping.new.taken }
    ensures few { keeping.new.taken < 2 ^ 32 }
    ensures item { IsWaiting core.new.job keeping.new.item }
{
    if keeping.item.is_none() && !core.owes() {
        if poll(rt, inbox, pass, results, items, keeping).is_err() {
            return Err(ServeEnd::NoMemory);
        }
        return listen(rt, alloc, core, inbox, pass, sink, trace, keeping);
    }
    if !core.is_looked() {
        return hear(rt, alloc, core, inbox, pass, sink, trace);
    }
    if core.owes() {
        return work(alloc, core, sink, trace, steps);
    }
    land(alloc, core, sink, trace, keeping)
}

/// Whether the symbol table is stale, or nothing is left to work on.
fn is_done(core: &Core) -> bool
    ensures { result ≡ (core.now.state.stale || is_at_rest core.now.state) }
{
    core.is_stale() || core.rest()
}

/// Makes rounds until nothing is left to work on, the symbol table is stale, or a gate is raised.
fn lead_on<R: Wait, K: Sink, T: Trace, L: Ledger>(
    rt: &R,
    alloc: Global,
    core: &mut Core,
    inbox: &Inbox,
    pass: &mut TakePass,
    gate: &Gate,
    seat: &mut Seat,
    sink: &mut K,
    trace: &mut T,
    steps: &mut Steps<L>,
    path_gate: &Gate,
    path_seat: &mut Seat,
    results: &Results<JobView>,
    items: &mut ResPass<JobView>,
) -> Result<(), ServeEnd>
    requires writes { K.faults sink.old < 2 ^ 64 - 1 }
    requires inbox { pass.old.queue ≡ inbox.now.name }
    requires none { pass.old.kept ≡ None }
    requires gate { seat.old.gate ≡ gate.now }
    requires path_gate { path_seat.old.gate ≡ path_gate.now }
    requires queue { items.old.queue ≡ results.now.name }
    requires view { items.old.view ≡ Some core.old.job }
    requires left { 2 ^ 32 ≤ items.old.left }
    ensures led { HasLed result (record { core = core.old; pass = pass.old; seat = seat.old; kept = record { held = K.held sink.old; told = T.told trace.old }; faults = K.faults sink.old }) (record { core = core.new; pass = pass.new; seat = seat.new; kept = record { held = K.held sink.new; told = T.told trace.new }; faults = K.faults sink.new }) }
    ensures path_seat { HasLooked path_seat.old path_seat.new }
    ensures items { (taken : ℕ) × HasTaken items.old items.new 0 taken }
{
    let mut keeping = Keeping {
        item: None,
        taken: 0,
        empty: 0,
    };
    'rounds: for _ in rt.forever() {
        let stopped = gate.look(seat);
        let path_stopped = path_gate.look(path_seat);
        if stopped || path_stopped {
            return Err(ServeEnd::NoMemory);
        }
        if is_done(core) {
            return Ok(());
        }
        match lead_round(
            rt,
            alloc,
            core,
            inbox,
            pass,
            sink,
            trace,
            steps,
            results,
            items,
            &mut keeping,
        ) {
            Ok(()) => {}
            Err(end) => return Err(end),
        }
    }
    unreachable!()
}

/// Whether a leader that ended so raises the gate of its path: where it was cut short, or the symbol table is stale.
fn raises(ended: &Result<(), ServeEnd>, core: &Core) -> bool
    ensures { result ≡ raises ended.now core.now.state }
{
    match ended {
        Ok(()) => core.is_stale(),
        Err(_) => true,
    }
}

/// Raises the seat, where it is to be raised.
fn raise_if(gate: &Gate, seat: &mut Seat, is_raised: bool)
    requires gate { seat.old.gate ≡ gate.now }
    requires part { 0 < length seat.old.drawn + seat.old.left }
    ensures raised { seat.new.raised ≡ (seat.old.raised || is_raised) }
    ensures same { (seat.new.gate ≡ seat.old.gate) × (seat.new.drawn ≡ seat.old.drawn) × (seat.new.left ≡ seat.old.left) }
{
    if is_raised {
        gate.raise(seat);
    }
}

/// Leads the workers of a path. Where it is cut short, or an edit made the symbol table stale, it raises the gate of the path, so that each worker
/// ends after its present file.
fn lead_path<R: Wait, K: Sink, T: Trace, L: Ledger>(
    rt: &R,
    alloc: Global,
    core: &mut Core,
    inbox: &Inbox,
    pass: &mut TakePass,
    gate: &Gate,
    seat: &mut Seat,
    sink: &mut K,
    trace: &mut T,
    steps: &mut Steps<L>,
    path_gate: &Gate,
    path_seat: &mut Seat,
    results: &Results<JobView>,
    items: &mut ResPass<JobView>,
) -> Result<(), ServeEnd>
    requires writes { K.faults sink.old < 2 ^ 64 - 1 }
    requires inbox { pass.old.queue ≡ inbox.now.name }
    requires none { pass.old.kept ≡ None }
    requires gate { seat.old.gate ≡ gate.now }
    requires path_gate { path_seat.old.gate ≡ path_gate.now }
    requires part { 0 < length path_seat.old.drawn + path_seat.old.left }
    requires queue { items.old.queue ≡ results.now.name }
    requires view { items.old.view ≡ Some core.old.job }
    requires left { 2 ^ 32 ≤ items.old.left }
    ensures led { HasLed result (record { core = core.old; pass = pass.old; seat = seat.old; kept = record { held = K.held sink.old; told = T.told trace.old }; faults = K.faults sink.old }) (record { core = core.new; pass = pass.new; seat = seat.new; kept = record { held = K.held sink.new; told = T.told trace.new }; faults = K.faults sink.new }) }
    ensures raised { path_seat.new.raised ≡ (path_seat.old.raised || raises result core.new.state) }
    ensures path_seat { (path_seat.new.gate ≡ path_seat.old.gate) × (path_seat.new.drawn ≡ path_seat.old.drawn) × (path_seat.new.left ≡ path_seat.old.left) }
    ensures items { (taken : ℕ) × HasTaken items.old items.new 0 taken }
{
    let ended = lead_on(
        rt, alloc, core, inbox, pass, gate, seat, sink, trace, steps, path_gate, path_seat,
        results, items,
    );
    raise_if(path_gate, path_seat, raises(&ended, core));
    ended
}

/// The coordinator as the chief of a path.
struct Leader<'a, 'b, 'c, 'd, 'e, 'f, 'g, 'h, K: Sink, T: Trace, L: Ledger> {
    alloc: Global,
    core: &'a mut Core,
    inbox: &'b Inbox,
    pass: &'c mut TakePass,
    gate: &'d Gate,
    seat: &'e mut Seat,
    sink: &'f mut K,
    trace: &'g mut T,
    steps: &'h mut Steps<L>,
    faulted: bool,
}

impl<'a, 'b, 'c, 'd, 'e, 'f, 'g, 'h, K: Sink, T: Trace, L: Ledger> Chief
    for Leader<'a, 'b, 'c, 'd, 'e, 'f, 'g, 'h, K, T, L> {
    ghost use Rattle.std.specs.Prelude.{◌≡◌, ◌-◌, ◌^◌, ◌<◌, false, None};
    ghost use Rattle.run_serve.specs.Leading.{HasLed, how_led, raises};

    ghost ready = { λ c job. (c.core.now.job ≡ job) × (K.faults c.sink.now < 2 ^ 64 - 1) × (c.pass.now.queue ≡ c.inbox.now.name) × (c.pass.now.kept ≡ None) × (c.seat.now.gate ≡ c.gate.now) × (c.faulted ≡ false) };

    ghost led = { λ old raised answer new.
        ((new.core.ghost_name ≡ old.core.ghost_name) × (new.pass.ghost_name ≡ old.pass.ghost_name) × (new.seat.ghost_name ≡ old.seat.ghost_name) × (new.sink.ghost_name ≡ old.sink.ghost_name) × (new.trace.ghost_name ≡ old.trace.ghost_name) × (new.steps.ghost_name ≡ old.steps.ghost_name))
        × (raised ≡ raises (how_led answer new.faulted) new.core.now.state)
        × HasLed (how_led answer new.faulted) (record { core = old.core.now; pass = old.pass.now; seat = old.seat.now; kept = record { held = K.held old.sink.now; told = T.told old.trace.now }; faults = K.faults old.sink.now }) (record { core = new.core.now; pass = new.pass.now; seat = new.seat.now; kept = record { held = K.held new.sink.now; told = T.told new.trace.now }; faults = K.faults new.sink.now }) };

    fn lead<R: Wait>(
        &mut self,
        rt: &R,
        gate: &Gate,
        seat: &mut Seat,
        results: &Results<JobView>,
        pass: &mut ResPass<JobView>,
    ) -> Result<(), NoMemory> {
        let ended = lead_path(
            rt, self.alloc, self.core, self.inbox, self.pass, self.gate, self.seat, self.sink,
            self.trace, self.steps, gate, seat, results, pass,
        );
        match ended {
            Ok(()) => Ok(()),
            Err(ServeEnd::WriteFault) => {
                self.faulted = true;
                Ok(())
            }
            Err(ServeEnd::NoMemory) => Err(AllocError),
        }
    }
}

/// How the path of a build ended for the coordinator, by whether it ended well and by whether a write failed.
fn ended_by(ended: Result<PathEnd, NoMemory>, faulted: bool) -> Result<(), ServeEnd>
    ensures { result ≡ how_path ended faulted }
{
    match ended {
        Ok(_) => {
            if faulted {
                Err(ServeEnd::WriteFault)
            } else {
                Ok(())
            }
        }
        Err(_) => Err(ServeEnd::NoMemory),
    }
}

/// Runs the workers of a path beside this leader.
fn lead_workers<R: Threads + Wait + Sync, K: Sink, T: Trace, H: Hold + Sync, L: Ledger>(
    rt: &R,
    alloc: Global,
    workers: u8,
    hold: &H,
    job: &Boxed<Job>,
    leader: &mut Leader<'_, '_, '_, '_, '_, '_, '_, '_, K, T, L>,
) -> Result<(), ServeEnd>
    requires writes { K.faults leader.old.sink.now < 2 ^ 64 - 1 }
    requires inbox { leader.old.pass.now.queue ≡ leader.old.inbox.now.name }
    requires none { leader.old.pass.now.kept ≡ None }
    requires gate { leader.old.seat.now.gate ≡ leader.old.gate.now }
    requires unfaulted { leader.old.faulted ≡ false }
    requires workers { workers ≤ 16 }
    requires job { leader.old.core.now.job ≡ job.now }
    requires few { length job.now.files.paths ≤ MOST_FILES }
    ensures names { (leader.new.core.ghost_name ≡ leader.old.core.ghost_name) × (leader.new.pass.ghost_name ≡ leader.old.pass.ghost_name) × (leader.new.seat.ghost_name ≡ leader.old.seat.ghost_name) × (leader.new.sink.ghost_name ≡ leader.old.sink.ghost_name) × (leader.new.trace.ghost_name ≡ leader.old.trace.ghost_name) × (leader.new.steps.ghost_name ≡ leader.old.steps.ghost_name) }
    ensures led { HasLed result (record { core = leader.old.core.now; pass = leader.old.pass.now; seat = leader.old.seat.now; kept = record { held = K.held leader.old.sink.now; told = T.told leader.old.trace.now }; faults = K.faults leader.old.sink.now }) (record { core = leader.new.core.now; pass = leader.new.pass.now; seat = leader.new.seat.now; kept = record { held = K.held leader.new.sink.now; told = T.told leader.new.trace.now }; faults = K.faults leader.new.sink.now }) }
{
    let ended = with_workers(rt, alloc, workers, job, hold, leader);
    ended_by(ended, leader.faulted)
}

/// Checks the project of a build: workers check its files beside the coordinator, which leads them.
pub(crate) fn run_path<R: Threads + Wait + Sync, K: Sink, T: Trace, H: Hold + Sync, L: Ledger>(
    rt: &R,
    alloc: Global,
    core: &mut Core,
    inbox: &Inbox,
    pass: &mut TakePass,
    gate: &Gate,
    seat: &mut Seat,
    workers: u8,
    sink: &mut K,
    trace: &mut T,
    hold: &H,
    steps: &mut Steps<L>,
    job: &Boxed<Job>,
) -> Result<(), ServeEnd>
    requires writes { K.faults sink.old < 2 ^ 64 - 1 }
    requires inbox { pass.old.queue ≡ inbox.now.name }
    requires none { pass.old.kept ≡ None }
    requires gate { seat.old.gate ≡ gate.now }
    requires workers { workers ≤ 16 }
    requires job { core.old.job ≡ job.now }
    requires few { length job.now.files.paths ≤ MOST_FILES }
    ensures led { HasLed result (record { core = core.old; pass = pass.old; seat = seat.old; kept = record { held = K.held sink.old; told = T.told trace.old }; faults = K.faults sink.old }) (record { core = core.new; pass = pass.new; seat = seat.new; kept = record { held = K.held sink.new; told = T.told trace.new }; faults = K.faults sink.new }) }
{
    let mut leader = Leader {
        alloc,
        core,
        inbox,
        pass,
        gate,
        seat,
        sink,
        trace,
        steps,
        faulted: false,
    };
    let ended = lead_workers(rt, alloc, workers, hold, job, &mut leader);
    let Leader {
        alloc: _,
        core: _,
        inbox: _,
        pass: _,
        gate: _,
        seat: _,
        sink: _,
        trace: _,
        steps: _,
        faulted: _,
    } = leader;
    ended
}
