ghost use Rattle.std.specs.Prelude.{◌≡◌, ◌+◌, ◌-◌, ◌^◌, ◌<◌, ◌≤◌, ◌||◌, true, false, List, [], ◌∷◌, ◌++◌, length, slice_get, Some, IfOk};
ghost use Rattle.std.specs.Option.{option_map};
ghost use Rattle.srb_terms.specs.Projects.{File};
ghost use Rattle.srb_check.specs.Checks.{fresh_of};
ghost use Rattle.srb_check.specs.Jobs.{IsJobOf, bytes_of_file};
ghost use Rattle.srb_check.specs.Symbols.{project_facts};
ghost use Rattle.run_pool.specs.Found.{IsFoundBy};
ghost use Rattle.run_pool.specs.Working.{Hands, IsStoppedBy, KeepsPass, KeepsSeat, file_count, is_short};

use crate::hold::Hold;
use crate::job_view::JobView;
use crate::worker_end::{Why, WorkerEnd};
use run_gate::{Gate, Seat};
use run_queues::{Item, ResPass, Results};
use srb_check::Job;
use srb_terms::{Diag, Items, NoMemory, Steps};
use std::alloc::Global;
use std::marker::Brand;
use std::sync::Wait;
use std::sync::ledger::{Blank, Ledger};
use std::thread;

// The errors of the file at an index, by a check that is counted on this blank.
fn errors_of<L: Ledger>(
    alloc: Global,
    job: &Job,
    index: usize,
    blank: Blank,
) -> Result<Items<Diag>, NoMemory>
    requires name { blank.name ≡ L.name }
    requires parts { blank.parts ≡ L.parts }
    requires some { 0 < blank.parts }
    ensures { (project : List File) → IsJobOf project job.now → IfOk result (λ list. list ≡ fresh_of (project_facts project) (option_map bytes_of_file (slice_get project index))) }
{
    let mut steps: Steps<L> = Steps::new(blank);
    job.check_at(alloc, index, &mut steps)
}

// The item of the file with this number.
fn item_of(alloc: Global, job: &Job, number: u64) -> Result<Item, NoMemory>
    requires { number < file_count job.now }
    ensures number { IfOk result (λ item. item.number ≡ number) }
    ensures found { IfOk result (λ item. IsFoundBy job.now item) }
{
    let list = errors_of::<Brand>(alloc, job, number as usize, Blank::new(1))?;
    Ok(Item { number, list })
}

// Puts the item. Where the queue is full it looks at the stop word, and tries again where that isn't 1. Whether it was put.
fn hand_over<R: Wait>(
    rt: &R,
    gate: &Gate,
    seat: &mut Seat,
    results: &Results<JobView>,
    pass: &mut ResPass<JobView>,
    job: &Job,
    mut item: Item,
) -> bool
    requires gate { seat.old.gate ≡ gate.now }
    requires queue { pass.old.queue ≡ results.now.name }
    requires view { pass.old.view ≡ Some job.now }
    requires found { IsFoundBy job.now item }
    requires left { 0 < pass.old.left }
    ensures put { result ≡ true → pass.new ≡ record pass.old { gave = pass.old.gave ++ item ∷ []; left = pass.old.left - 1 } }
    ensures stopped { result ≡ false → (pass.new ≡ pass.old) × (seat.new.saw ≡ true) }
    ensures same { (seat.new.gate ≡ seat.old.gate) × (seat.new.drawn ≡ seat.old.drawn) × (seat.new.raised ≡ seat.old.raised) × (seat.new.left ≡ seat.old.left) }
{
    'tries: for _ in rt.forever() {
        match results.put(rt, pass, item) {
            Ok(()) => return true,
            Err(back) => item = back,
        }
        if gate.look(seat) {
            return false;
        }
        thread::yield_now();
    }
    unreachable!()
}

/// Draws numbers, and checks the files with these and hands over what it finds, until it ends.
pub(crate) fn work_on<R: Wait, H: Hold>(
    rt: &R,
    alloc: Global,
    job: &Job,
    gate: &Gate,
    seat: &mut Seat,
    results: &Results<JobView>,
    pass: &mut ResPass<JobView>,
    hold: &H,
) -> Why
    requires gate { seat.old.gate ≡ gate.now }
    requires queue { pass.old.queue ≡ results.now.name }
    requires view { pass.old.view ≡ Some job.now }
    requires few { length seat.old.drawn + file_count job.now < 2 ^ 32 }
    requires seat { 2 ^ 32 ≤ seat.old.left }
    requires pass { 2 ^ 32 ≤ pass.old.left }
    ensures hands { Hands job.now result seat.old.drawn seat.new.drawn pass.old.gave pass.new.gave }
    ensures stopped { IsStoppedBy result seat.new }
    ensures raised { seat.new.raised ≡ (seat.old.raised || is_short result) }
    ensures seat { KeepsSeat seat.old seat.new }
    ensures pass { KeepsPass pass.old pass.new }
{
    let files = job.len() as u64;
    'rounds: for _ in rt.forever() {
        if gate.look(seat) {
            return Why::Stopped;
        }
        let number = gate.draw(seat);
        if number >= files {
            return Why::Drained;
        }
        hold.before(rt, number);
        let Ok(item) = item_of(alloc, job, number) else {
            gate.raise(seat);
            return Why::NoMemory;
        };
        if !hand_over(rt, gate, seat, results, pass, job, item) {
            return Why::Stopped;
        }
    }
    unreachable!()
}

/// One worker. It draws the numbers of files, checks each of these files by the job, and puts what it finds into the queue, until it draws a
/// number that is no file's, sees the stop word at 1 or is out of memory. In the last case it raises the gate first.
pub fn work<R: Wait, H: Hold>(
    rt: &R,
    alloc: Global,
    job: &Job,
    gate: &Gate,
    seat: Seat,
    results: &Results<JobView>,
    pass: ResPass<JobView>,
    hold: &H,
) -> WorkerEnd
    requires gate { seat.gate ≡ gate.now }
    requires queue { pass.queue ≡ results.now.name }
    requires view { pass.view ≡ Some job.now }
    requires few { length seat.drawn + file_count job.now < 2 ^ 32 }
    requires seat { 2 ^ 32 ≤ seat.left }
    requires pass { 2 ^ 32 ≤ pass.left }
    ensures hands { Hands job.now result.why seat.drawn result.seat.drawn pass.gave result.pass.gave }
    ensures stopped { IsStoppedBy result.why result.seat }
    ensures raised { result.seat.raised ≡ (seat.raised || is_short result.why) }
    ensures seat { KeepsSeat seat result.seat }
    ensures pass { KeepsPass pass result.pass }
{
    let mut seat = seat;
    let mut pass = pass;
    let why = work_on(rt, alloc, job, gate, &mut seat, results, &mut pass, hold);
    WorkerEnd { why, seat, pass }
}
