ghost use Rattle.std.specs.Prelude.{◌≡◌, ◌+◌, ◌-◌, ◌/◌, ◌^◌, ◌<◌, ◌≤◌, true, false, ◌||◌, [], length, Some, Ok, IfOk, OnOk, OnErr};
ghost use Rattle.std.specs.Thread.{IsSync};
ghost use Rattle.run_gate.specs.Tickets.{AreJustBelow};
ghost use Rattle.run_queues.specs.Handing.{EachIsRight};
ghost use Rattle.run_queues.specs.Held.{IsWhole};
ghost use Rattle.run_pool.specs.Dealt.{EachNew, HasAll, IsDealt, IsNew, Leads};
ghost use Rattle.run_pool.specs.Found.{IsFoundBy};
ghost use Rattle.run_pool.specs.Paths.{IsRefused, WorkersEnded, room_for};
ghost use Rattle.run_pool.specs.Working.{WorksAt, file_count, is_short};

use crate::chief::Chief;
use crate::hold::Hold;
use crate::job_view::JobView;
use crate::path_end::PathEnd;
use crate::worker::work_on;
use crate::worker_end::Why;
use run_gate::{Gate, Seat};
use run_pair::run_beside as run_two;
use run_queues::{ResPass, Results};
use srb_check::Job;
use srb_terms::{Boxed, NoMemory};
use std::alloc::Global;
use std::sync::Wait;
use std::thread::Threads;

/// What one worker is given.
#[derive(Drop)]
pub(crate) struct Place {
    pub(crate) seat: Seat,
    pub(crate) pass: ResPass<JobView>,
}

/// How the workers and the chief ended.
#[derive(Drop)]
pub(crate) struct Course {
    pub(crate) answer: Result<(), NoMemory>,
    pub(crate) called: bool,
    pub(crate) short: bool,
}

// Whether the worker was out of memory.
fn is_short(why: Why) -> bool
    ensures { result ≡ is_short why }
{
    match why {
        Why::Drained | Why::Stopped => false,
        Why::NoMemory => true,
    }
}

// Whether the worker or one of the others was out of memory.
fn is_short_or(why: Why, others: bool) -> bool
    ensures { result ≡ (is_short why || others) }
{
    is_short(why) || others
}

// The room of a queue for the items of so many files.
fn room_for(files: usize) -> usize
    ensures room { result ≡ room_for files }
    ensures some { 0 < result }
{
    if files == 0 { 1 } else { files }
}

// Lets the chief lead.
fn lead<R: Wait, C: Chief>(
    rt: &R,
    job: &Job,
    gate: &Gate,
    results: &Results<JobView>,
    chief: &mut C,
    seat: &mut Seat,
    pass: &mut ResPass<JobView>,
) -> Course
    requires new { IsNew job.now gate.now results.now seat.old pass.old }
    requires ready { C.ready chief.old job.now }
    ensures { Leads C.led job.now [] chief.old chief.new seat.old seat.new pass.old pass.new result }
{
    let answer = chief.lead(rt, gate, seat, results, pass);
    Course {
        answer,
        called: seat.raised(),
        short: false,
    }
}

// Runs a worker at each place beside the others and the chief, and joins all of them.
#[cycle(running)]
fn run_all<R: Threads + Wait + Sync, H: Hold + Sync, C: Chief>(
    rt: &R,
    alloc: Global,
    job: &Job,
    gate: &Gate,
    results: &Results<JobView>,
    hold: &H,
    chief: &mut C,
    places: &mut Vec<Place>,
    seat: &mut Seat,
    pass: &mut ResPass<JobView>,
) -> Course
    requires files { file_count job.now < 2 ^ 32 }
    requires places { EachNew job.now gate.now results.now places.old.items }
    requires new { IsNew job.now gate.now results.now seat.old pass.old }
    requires ready { C.ready chief.old job.now }
    ensures { Leads C.led job.now places.old.items chief.old chief.new seat.old seat.new pass.old pass.new result }
{
    let Some(place) = places.pop() else {
        return lead(rt, job, gate, results, chief, seat, pass);
    };
    let Place {
        seat: mut given_seat,
        pass: mut given_pass,
    } = place;
    let (why, course) = run_beside(
        rt,
        alloc,
        job,
        gate,
        results,
        hold,
        &mut given_seat,
        &mut given_pass,
        chief,
        places,
        seat,
        pass,
    );
    gate.join(seat, given_seat);
    results.join(rt, pass, given_pass);
    Course {
        answer: course.answer,
        called: course.called,
        short: is_short_or(why, course.short),
    }
}

// Runs one worker beside all others and the chief. Where it gets no thread it is out of memory: the gate is raised, by which all others end.
#[cycle(running)]
fn run_beside<R: Threads + Wait + Sync, H: Hold + Sync, C: Chief>(
    rt: &R,
    alloc: Global,
    job: &Job,
    gate: &Gate,
    results: &Results<JobView>,
    hold: &H,
    given_seat: &mut Seat,
    given_pass: &mut ResPass<JobView>,
    chief: &mut C,
    places: &mut Vec<Place>,
    seat: &mut Seat,
    pass: &mut ResPass<JobView>,
) -> (Why, Course)
    requires files { file_count job.now < 2 ^ 32 }
    requires given { IsNew job.now gate.now results.now given_seat.old given_pass.old }
    requires places { EachNew job.now gate.now results.now places.old.items }
    requires new { IsNew job.now gate.now results.now seat.old pass.old }
    requires ready { C.ready chief.old job.now }
    ensures works { WorksAt job.now given_seat.old given_seat.new given_pass.old given_pass.new result.0 }
    ensures leads { Leads C.led job.now places.old.items chief.old chief.new seat.old seat.new pass.old pass.new result.1 }
{
    let mut worker = || -> Why
        requires { IsSync R.row × IsSync H.row × (file_count job.now < 2 ^ 32) × IsNew job.now gate.now results.now given_seat.now given_pass.now }
        ensures { WorksAt job.entry.now given_seat.entry.now given_seat.exit.now given_pass.entry.now given_pass.exit.now result }
    { work_on(rt, alloc, job, gate, given_seat, results, given_pass, hold) };
    let mut others = || -> Course
        requires { IsSync R.row × IsSync H.row × (file_count job.now < 2 ^ 32) × EachNew job.now gate.now results.now places.now.items × IsNew job.now gate.now results.now seat.now pass.now × C.ready chief.now job.now }
        ensures { Leads C.led job.entry.now places.entry.now.items chief.entry.now chief.exit.now seat.entry.now seat.exit.now pass.entry.now pass.exit.now result }
    {
        run_all(
            rt, alloc, job, gate, results, hold, chief, places, seat, pass,
        )
    };
    match run_two(rt, &mut worker, &mut others) {
        Ok(both) => both,
        Err(_) => {
            gate.raise(given_seat);
            (Why::NoMemory, others())
        }
    }
}

// Splits off what a worker is given. Without memory all is as it was.
fn split_off<R: Wait>(
    rt: &R,
    alloc: Global,
    job: &Job,
    gate: &Gate,
    results: &Results<JobView>,
    seat: &mut Seat,
    pass: &mut ResPass<JobView>,
) -> Result<Place, NoMemory>
    requires { IsNew job.now gate.now results.now seat.old pass.old }
    ensures own { OnOk result ((seat.new ≡ record seat.old { left = seat.old.left - seat.old.left / 2 }) × (pass.new ≡ record pass.old { left = pass.old.left - pass.old.left / 2 })) }
    ensures given { IfOk result (λ place. (place.seat ≡ record seat.old { left = seat.old.left / 2 }) × (place.pass ≡ record pass.old { left = pass.old.left / 2 })) }
    ensures refused { OnErr result ((seat.new.gate ≡ seat.old.gate) × (pass.new.queue ≡ pass.old.queue)) }
{
    let given_seat = gate.split(alloc, seat)?;
    match results.split(rt, alloc, pass) {
        Ok(given_pass) => Ok(Place {
            seat: given_seat,
            pass: given_pass,
        }),
        Err(error) => {
            gate.join(seat, given_seat);
            Err(error)
        }
    }
}

// Joins all that was dealt out.
fn take_back<R: Wait>(
    rt: &R,
    job: &Job,
    gate: &Gate,
    results: &Results<JobView>,
    mut places: Vec<Place>,
    seat: &mut Seat,
    pass: &mut ResPass<JobView>,
)
    requires places { EachNew job.now gate.now results.now places.items }
    requires seat { seat.old.gate ≡ gate.now }
    requires pass { pass.old.queue ≡ results.now.name }
{
    while let Some(place) = places.pop() {
        let Place {
            seat: other_seat,
            pass: other_pass,
        } = place;
        gate.join(seat, other_seat);
        results.join(rt, pass, other_pass);
    }
}

// Deals out a seat and a pass to each worker. Without memory it takes back what it dealt out.
fn deal<R: Wait>(
    rt: &R,
    alloc: Global,
    workers: u8,
    job: &Job,
    gate: &Gate,
    results: &Results<JobView>,
    seat: &mut Seat,
    pass: &mut ResPass<JobView>,
) -> Result<Vec<Place>, NoMemory>
    requires workers { workers ≤ 16 }
    requires all { HasAll job.now gate.now results.now seat.old pass.old }
    ensures dealt { IfOk result (λ places. IsDealt job.now gate.now results.now places.items seat.new pass.new) }
    ensures count { IfOk result (λ places. length places.items ≡ workers) }
{
    let mut places = Vec::new(alloc);
    places.reserve_exact(workers as usize)?;
    'deals: for count in 0..workers {
        match split_off(rt, alloc, job, gate, results, seat, pass) {
            Ok(place) => places.push_reserved(place),
            Err(error) => {
                take_back(rt, job, gate, results, places, seat, pass);
                return Err(error);
            }
        }
    }
    Ok(places)
}

/// Runs workers and a chief beside each other, until all ended. The workers check the files of the job and hand over what they find; the
/// chief leads in the thread of the caller.
///
/// The numbers that were drawn are just those below `drawn`. Where there is a worker and neither `stopped` nor `short` is set, each file's
/// number is among them. Where memory runs out before a worker starts, what was dealt out is taken back, and the chief is as before.
pub fn with_workers<R: Threads + Wait + Sync, H: Hold + Sync, C: Chief>(
    rt: &R,
    alloc: Global,
    workers: u8,
    job: &Boxed<Job>,
    hold: &H,
    chief: &mut C,
) -> Result<PathEnd, NoMemory>
    requires workers { workers ≤ 16 }
    requires files { file_count job.now < 2 ^ 32 }
    requires ready { C.ready chief.old job.now }
    ensures led { IfOk result (λ path. C.led chief.old path.called (Ok tt) chief.new) }
    ensures refused { OnErr result (IsRefused C.led chief.old chief.new) }
    ensures raised { IfOk result (λ path. path.seat.raised ≡ (path.called || path.short)) }
    ensures short { IfOk result (λ path. WorkersEnded workers (file_count job.now) path.seat path.short) }
    ensures stopped { IfOk result (λ path. path.stopped ≡ true → path.seat.saw ≡ true) }
    ensures unstopped { IfOk result (λ path. (path.called || path.short) ≡ false → path.stopped ≡ false) }
    ensures drawn { IfOk result (λ path. (path.drawn ≡ length path.seat.drawn) × AreJustBelow path.drawn path.seat.drawn) }
    ensures all { IfOk result (λ path. 0 < workers → path.stopped ≡ false → path.short ≡ false → file_count job.now < path.drawn) }
    ensures seat { IfOk result (λ path. length path.seat.drawn + path.seat.left ≡ 2 ^ 63) }
    ensures pass { IfOk result (λ path. (path.pass.queue ≡ path.results.name) × (path.pass.view ≡ Some job.now) × IsWhole path.pass) }
    ensures right { IfOk result (λ path. EachIsRight IsFoundBy job.now path.pass.gave) }
    ensures room { IfOk result (λ path. path.results.room ≡ room_for (file_count job.now)) }
{
    let (gate, mut seat) = Gate::new(alloc)?;
    let view = JobView::new(job)?;
    let job = job.get();
    let (results, mut pass) = Results::new(alloc, room_for(job.len()), view)?;
    let mut places = deal(
        rt, alloc, workers, job, &gate, &results, &mut seat, &mut pass,
    )?;
    let course = run_all(
        rt,
        alloc,
        job,
        &gate,
        &results,
        hold,
        chief,
        &mut places,
        &mut seat,
        &mut pass,
    );
    course.answer?;
    let stopped = gate.look(&mut seat);
    Ok(PathEnd {
        drawn: seat.drawn(),
        stopped,
        called: course.called,
        short: course.short,
        seat,
        results,
        pass,
    })
}
