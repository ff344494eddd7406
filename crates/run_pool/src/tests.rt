ghost use Rattle.std.specs.Prelude.{◌≡◌, ◌+◌, ◌^◌, ◌<◌, ◌≤◌, Some, IfOk, length};
ghost use Rattle.run_pool.specs.Working.{file_count};

use crate::worker::work_on;
use crate::{Chief, Hold, JobView, Open, Why, with_workers, work};
use run_gate::{Gate, Seat};
use run_queues::{ResPass, Results};
use srb_check::{Files, Job};
use srb_terms::{Boxed, Name, NoMemory};
use std::alloc::{AllocError, Global};
use std::sync::Wait;
use std::sync::atomic::{AtomicBool, AtomicU64, Ordering};
use std::thread;
use std::thread::{Threads, join_mut};

// A job of the first files of three.
fn job_of(alloc: Global, count: usize) -> Result<Boxed<Job>, NoMemory>
    ensures { IfOk result (λ job. file_count job < 2 ^ 32) }
{
    let before = Job::empty(alloc)?;
    let mut files = Files::new(alloc);
    for path in ["a.rb", "b.rb", "c.rb"].iter().take(count) {
        files.add(alloc, Name::from_str(alloc, path)?, b"x = 1\n", &before)?;
    }
    let job = files.job(alloc)?;
    if job.len() >= 1 << 32 {
        return Err(AllocError);
    }
    Boxed::new(alloc, job)
}

/// A chief that takes items until it took so many, or the stop word is 1, and notes their numbers.
#[derive(Drop)]
struct Counting {
    wanted: u32,
    taken: u32,
    numbers: u64,
}

impl Chief for Counting {
    ghost use Rattle.std.specs.Prelude.{◌≡◌, false};

    ghost ready = { λ _ _. Unit {0} };

    ghost led = { λ _ raised _ _. raised ≡ false };

    fn lead<R: Wait>(
        &mut self,
        rt: &R,
        gate: &Gate,
        seat: &mut Seat,
        results: &Results<JobView>,
        pass: &mut ResPass<JobView>,
    ) -> Result<(), NoMemory> {
        let wanted = self.wanted;
        let mut taken = 0u32;
        let mut numbers = 0u64;
        'polls: for _ in rt.forever() {
            if taken >= wanted || gate.look(seat) {
                break;
            }
            match results.take(rt, pass) {
                Some(item) => {
                    taken += 1;
                    numbers |= 1 << (item.number % 64);
                }
                None => thread::yield_now(),
            }
        }
        self.taken = taken;
        self.numbers = numbers;
        Ok(())
    }
}

fn chief_for(wanted: u32) -> Counting {
    Counting {
        wanted,
        taken: 0,
        numbers: 0,
    }
}

/// A chief that raises its seat at once.
#[derive(Drop)]
struct Raising;

impl Chief for Raising {
    ghost use Rattle.std.specs.Prelude.{◌≡◌, true};

    ghost ready = { λ _ _. Unit {0} };

    ghost led = { λ _ raised _ _. raised ≡ true };

    fn lead<R: Wait>(
        &mut self,
        _rt: &R,
        gate: &Gate,
        seat: &mut Seat,
        _results: &Results<JobView>,
        _pass: &mut ResPass<JobView>,
    ) -> Result<(), NoMemory> {
        gate.raise(seat);
        Ok(())
    }
}

/// A hold that keeps the first until a second has begun.
#[derive(Drop)]
struct Second {
    begun: AtomicU64,
    gave_up: AtomicBool,
}

impl Hold for Second {
    fn before<R: Wait>(&self, _rt: &R, _number: u64) {
        if self.begun.fetch_add(1, Ordering::SeqCst) > 0 {
            return;
        }
        for _turn in 0..1_000_000u64 {
            if self.begun.load(Ordering::SeqCst) > 1 {
                return;
            }
            thread::yield_now();
        }
        self.gave_up.store(true, Ordering::SeqCst);
    }
}

#[test]
fn two_workers_check_at_once(rt: HostRuntime) -> Result<(), NoMemory> {
    let alloc = rt.alloc();
    let job = job_of(alloc, 3)?;
    let hold = Second {
        begun: AtomicU64::new(0),
        gave_up: AtomicBool::new(false),
    };
    let mut chief = chief_for(3);
    let path = with_workers(&rt, alloc, 2, &job, &hold, &mut chief)?;
    assert!(rt; !hold.gave_up.load(Ordering::SeqCst));
    assert_eq!(rt; hold.begun.load(Ordering::SeqCst), 3);
    assert_eq!(rt; (chief.taken, chief.numbers), (3, 7));
    assert_eq!(rt; (path.drawn, path.seat.drawn()), (5, 5));
    assert!(rt; !path.stopped && !path.called && !path.short);
    Ok(())
}

#[test]
fn a_chief_stops_the_workers(rt: HostRuntime) -> Result<(), NoMemory> {
    let alloc = rt.alloc();
    let job = job_of(alloc, 3)?;
    let path = with_workers(&rt, alloc, 2, &job, &Open, &mut Raising)?;
    assert!(rt; path.stopped && path.called && !path.short);
    assert!(rt; path.seat.raised());
    Ok(())
}

#[test]
fn no_file_is_drawn_where_there_is_none(rt: HostRuntime) -> Result<(), NoMemory> {
    let alloc = rt.alloc();
    let job = job_of(alloc, 0)?;
    let mut chief = chief_for(0);
    let path = with_workers(&rt, alloc, 2, &job, &Open, &mut chief)?;
    assert_eq!(rt; (chief.taken, path.drawn), (0, 2));
    assert!(rt; !path.stopped && !path.called && !path.short);
    Ok(())
}

#[test]
fn three_workers_share_three_files(rt: HostRuntime) -> Result<(), NoMemory> {
    let alloc = rt.alloc();
    let job = job_of(alloc, 3)?;
    let mut chief = chief_for(3);
    let path = with_workers(&rt, alloc, 3, &job, &Open, &mut chief)?;
    assert_eq!(rt; (chief.taken, chief.numbers, path.drawn), (3, 7, 6));
    Ok(())
}

#[test]
fn sixteen_workers_share_three_files(rt: HostRuntime) -> Result<(), NoMemory> {
    let alloc = rt.alloc();
    let job = job_of(alloc, 3)?;
    let mut chief = chief_for(3);
    let path = with_workers(&rt, alloc, 16, &job, &Open, &mut chief)?;
    assert_eq!(rt; (chief.taken, chief.numbers, path.drawn), (3, 7, 19));
    Ok(())
}

#[test]
fn a_chief_may_lead_alone(rt: HostRuntime) -> Result<(), NoMemory> {
    let alloc = rt.alloc();
    let job = job_of(alloc, 3)?;
    let mut chief = chief_for(0);
    let path = with_workers(&rt, alloc, 0, &job, &Open, &mut chief)?;
    assert_eq!(rt; path.drawn, 0);
    assert!(rt; !path.stopped && !path.called && !path.short);
    Ok(())
}

// The number of the next item, or 9 where there is none.
fn next<R: Wait>(rt: &R, results: &Results<JobView>, pass: &mut ResPass<JobView>) -> u64
    requires queue { pass.old.queue ≡ results.now.name }
    requires left { 0 < pass.old.left }
    ensures queue { pass.new.queue ≡ pass.old.queue }
    ensures left { pass.old.left ≤ pass.new.left + 1 }
{
    match results.take(rt, pass) {
        Some(item) => item.number,
        None => 9,
    }
}

// The numbers of the next three items.
fn next_three<R: Wait>(rt: &R, results: &Results<JobView>, pass: &mut ResPass<JobView>) -> [u64; 3]
    requires queue { pass.old.queue ≡ results.now.name }
    requires left { 3 ≤ pass.old.left }
{
    [
        next(rt, results, pass),
        next(rt, results, pass),
        next(rt, results, pass),
    ]
}

#[test]
fn a_worker_drains_a_path(rt: HostRuntime) -> Result<(), NoMemory> {
    let alloc = rt.alloc();
    let job = job_of(alloc, 3)?;
    let (gate, mut seat) = Gate::new(alloc)?;
    let (results, mut pass) = Results::new(alloc, 3, JobView::new(&job)?)?;
    let given_seat = gate.split(alloc, &mut seat)?;
    let given_pass = results.split(&rt, alloc, &mut pass)?;
    let end = work(
        &rt,
        alloc,
        job.get(),
        &gate,
        given_seat,
        &results,
        given_pass,
        &Open,
    );
    assert!(rt; end.why == Why::Drained);
    assert_eq!(rt; end.seat.drawn(), 4);
    assert!(rt; next_three(&rt, &results, &mut pass) == [0, 1, 2]);
    Ok(())
}

#[test]
fn a_worker_stops_where_the_gate_is_raised(rt: HostRuntime) -> Result<(), NoMemory> {
    let alloc = rt.alloc();
    let job = job_of(alloc, 3)?;
    let (gate, mut seat) = Gate::new(alloc)?;
    let (results, mut pass) = Results::new(alloc, 3, JobView::new(&job)?)?;
    let given_seat = gate.split(alloc, &mut seat)?;
    let given_pass = results.split(&rt, alloc, &mut pass)?;
    gate.raise(&mut seat);
    let end = work(
        &rt,
        alloc,
        job.get(),
        &gate,
        given_seat,
        &results,
        given_pass,
        &Open,
    );
    assert!(rt; end.why == Why::Stopped);
    Ok(())
}

// Raises the seat after a while.
fn raise_later(gate: &Gate, seat: &mut Seat)
    requires gate { seat.old.gate ≡ gate.now }
    requires left { 0 < seat.old.left }
{
    for _turn in 0..1_000u64 {
        thread::yield_now();
    }
    gate.raise(seat);
}

// Works while another thread raises its seat, and answers why it ended.
fn work_until_raised<R: Threads + Wait + Sync>(
    rt: &R,
    alloc: Global,
    job: &Job,
    gate: &Gate,
    seat: &mut Seat,
    other: &mut Seat,
    results: &Results<JobView>,
    pass: &mut ResPass<JobView>,
) -> Why
    requires files { length seat.old.drawn + file_count job.now < 2 ^ 32 }
    requires seat { (seat.old.gate ≡ gate.now) × (2 ^ 32 ≤ seat.old.left) }
    requires other { (other.old.gate ≡ gate.now) × (0 < other.old.left) }
    requires pass { (pass.old.queue ≡ results.now.name) × (pass.old.view ≡ Some job.now) × (2 ^ 32 ≤ pass.old.left) }
{
    let (why, _) = join_mut(
        rt,
        &mut || work_on(rt, alloc, job, gate, seat, results, pass, &Open),
        &mut || raise_later(gate, other),
    );
    why
}

#[test]
fn a_worker_at_a_full_queue_is_stopped(rt: HostRuntime) -> Result<(), NoMemory> {
    let alloc = rt.alloc();
    let job = job_of(alloc, 3)?;
    let (gate, mut seat) = Gate::new(alloc)?;
    let (results, mut pass) = Results::new(alloc, 1, JobView::new(&job)?)?;
    let mut other = gate.split(alloc, &mut seat)?;
    let why = work_until_raised(
        &rt,
        alloc,
        job.get(),
        &gate,
        &mut seat,
        &mut other,
        &results,
        &mut pass,
    );
    assert!(rt; why == Why::Stopped);
    Ok(())
}
