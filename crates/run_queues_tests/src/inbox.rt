//! Messages that threads hand over.

ghost use Rattle.std.specs.Prelude.{◌≡◌, ◌≤◌, true};
ghost use Rattle.run_queues.specs.Mails.{inputs};

use run_queues::{Inbox, PutPass, TakePass};
use run_watch::{EndCause, Inp, MemTrace, NoTrace, Step, Trace};
use srb_terms::NoMemory;
use std::alloc::{AllocError, Global};
use std::sync::Wait;
use std::sync::atomic::{AtomicBool, Ordering};
use std::thread::{Threads, join_mut};

// Puts an input that tells this number, and answers whether there was memory.
fn put<R: Wait>(rt: &R, inbox: &Inbox, pass: &mut PutPass, number: u64) -> bool
    requires { pass.old.queue ≡ inbox.now.name }
    ensures { pass.new.queue ≡ pass.old.queue }
{
    inbox
        .put(rt, pass, Inp::End(EndCause::Broken { at: number }))
        .is_ok()
}

// The number that the input tells.
fn number_of(inp: &Inp) -> u64 {
    match inp {
        Inp::End(EndCause::Broken { at }) => *at,
        _ => 0,
    }
}

// Takes an input, and answers its number, or 1,000 where there is none and 2,000 where the trace refuses it.
fn next<R: Wait, T: Trace>(rt: &R, inbox: &Inbox, pass: &mut TakePass, trace: &mut T) -> u64
    requires { pass.old.queue ≡ inbox.now.name }
    ensures { pass.new.queue ≡ pass.old.queue }
{
    match inbox.take(rt, pass, trace) {
        Ok(Some(inp)) => number_of(&inp),
        Ok(None) => 1_000,
        Err(_) => 2_000,
    }
}

// What four calls of `next` answer once 7, 2 and 5 were put.
fn next_four<R: Wait, T: Trace>(
    rt: &R,
    inbox: &Inbox,
    put_pass: &mut PutPass,
    take_pass: &mut TakePass,
    trace: &mut T,
) -> [u64; 4]
    requires put { put_pass.old.queue ≡ inbox.now.name }
    requires take { take_pass.old.queue ≡ inbox.now.name }
    ensures put { put_pass.new.queue ≡ put_pass.old.queue }
    ensures take { take_pass.new.queue ≡ take_pass.old.queue }
{
    let _ = put(rt, inbox, put_pass, 7)
        && put(rt, inbox, put_pass, 2)
        && put(rt, inbox, put_pass, 5);
    [
        next(rt, inbox, take_pass, trace),
        next(rt, inbox, take_pass, trace),
        next(rt, inbox, take_pass, trace),
        next(rt, inbox, take_pass, trace),
    ]
}

// Whether these are the steps of a look and then of the input 7.
fn are_look_and_seven(steps: &[Step]) -> bool {
    match steps {
        [
            Step::Look,
            Step::Take {
                inp: Inp::End(EndCause::Broken { at }),
            },
        ] => *at == 7,
        _ => false,
    }
}

// Whether the trace is told a look at an empty inbox, and then an input.
fn is_told<R: Wait>(
    rt: &R,
    alloc: Global,
    inbox: &Inbox,
    put_pass: &mut PutPass,
    take_pass: &mut TakePass,
) -> bool
    requires put { put_pass.old.queue ≡ inbox.now.name }
    requires take { take_pass.old.queue ≡ inbox.now.name }
    ensures put { put_pass.new.queue ≡ put_pass.old.queue }
    ensures take { take_pass.new.queue ≡ take_pass.old.queue }
{
    let mut trace = MemTrace::new(alloc);
    let empty = next(rt, inbox, take_pass, &mut trace);
    let given = put(rt, inbox, put_pass, 7);
    let taken = next(rt, inbox, take_pass, &mut trace);
    empty == 1_000 && given && taken == 7 && are_look_and_seven(trace.steps.as_slice())
}

// Drops them.
fn end(_inbox: Inbox, _put_pass: PutPass, _take_pass: TakePass) {}

#[test]
fn inputs_come_out_in_order(rt: HostRuntime) -> Result<(), NoMemory> {
    let (inbox, mut put_pass, mut take_pass) = Inbox::new(rt.alloc())?;
    let taken = next_four(&rt, &inbox, &mut put_pass, &mut take_pass, &mut NoTrace);
    assert!(rt; taken == [7, 2, 5, 1_000]);
    assert!(rt; is_told(&rt, rt.alloc(), &inbox, &mut put_pass, &mut take_pass));
    end(inbox, put_pass, take_pass);
    Ok(())
}

/// A trace that refuses its first steps.
#[derive(Drop)]
struct Refusing {
    left: u64,
}

impl Trace for Refusing {
    ghost use Rattle.std.specs.Prelude.{None};

    ghost told = { λ _. None };

    fn step(&mut self, _s: &Step) -> Result<(), NoMemory> {
        if self.left == 0 {
            return Ok(());
        }
        self.left -= 1;
        Err(AllocError)
    }
}

#[test]
fn a_refused_input_is_given_next(rt: HostRuntime) -> Result<(), NoMemory> {
    let (inbox, mut put_pass, mut take_pass) = Inbox::new(rt.alloc())?;
    let mut trace = Refusing { left: 2 };
    let taken = next_four(&rt, &inbox, &mut put_pass, &mut take_pass, &mut trace);
    assert!(rt; taken == [2_000, 2_000, 7, 2]);
    end(inbox, put_pass, take_pass);
    Ok(())
}

// Puts five inputs, and says so where one is refused.
fn put_five<R: Wait>(rt: &R, inbox: &Inbox, pass: &mut PutPass, refused: &AtomicBool)
    requires { pass.old.queue ≡ inbox.now.name }
    ensures { pass.new.queue ≡ pass.old.queue }
{
    for number in 1..6 {
        if !put(rt, inbox, pass, number) {
            refused.store(true, Ordering::SeqCst);
            inbox.wake(rt);
            return;
        }
    }
}

// Takes five inputs, and answers their numbers, or fewer where an input was refused.
fn take_five<R: Wait>(rt: &R, inbox: &Inbox, pass: &mut TakePass, refused: &AtomicBool) -> [u64; 5]
    requires { pass.old.queue ≡ inbox.now.name }
    ensures { pass.new.queue ≡ pass.old.queue }
{
    let mut numbers = [0; 5];
    let mut count = 0;
    for _ in rt.forever() {
        if count >= 5 || refused.load(Ordering::SeqCst) {
            return numbers;
        }
        let number = next(rt, inbox, pass, &mut NoTrace);
        if number < 1_000 {
            numbers[count] = number;
            count += 1;
        } else {
            inbox.wait(rt, pass);
        }
    }
    unreachable!()
}

// What one thread takes of the five inputs that another puts.
fn hand_five_over<R: Threads + Wait + Sync>(
    rt: &R,
    inbox: &Inbox,
    put_pass: &mut PutPass,
    take_pass: &mut TakePass,
) -> [u64; 5]
    requires put { put_pass.old.queue ≡ inbox.now.name }
    requires take { take_pass.old.queue ≡ inbox.now.name }
    ensures put { put_pass.new.queue ≡ put_pass.old.queue }
    ensures take { take_pass.new.queue ≡ take_pass.old.queue }
{
    let refused = AtomicBool::new(false);
    let (_, numbers) = join_mut(
        rt,
        &mut || put_five(rt, inbox, put_pass, &refused),
        &mut || -> [u64; 5]
            requires { take_pass.now.queue ≡ inbox.now.name }
            ensures { take_pass.exit.now.queue ≡ take_pass.entry.now.queue }
        { take_five(rt, inbox, take_pass, &refused) },
    );
    numbers
}

// Whether all that was put was heard.
fn is_all_heard<R: Wait>(rt: &R, inbox: &Inbox, put_pass: PutPass, take_pass: &mut TakePass) -> bool
    requires put { put_pass.queue ≡ inbox.now.name }
    requires take { take_pass.old.queue ≡ inbox.now.name }
    ensures same { take_pass.new.queue ≡ take_pass.old.queue }
    ensures all { result ≡ true → put_pass.sent ≡ inputs take_pass.old.heard }
{
    inbox.meet(rt, put_pass, take_pass);
    match inbox.take(rt, take_pass, &mut NoTrace) {
        Ok(None) => true,
        _ => false,
    }
}

// Drops them.
fn end_met(_inbox: Inbox, _take_pass: TakePass) {}

#[test]
fn two_threads_hand_inputs_over_in_order(rt: HostRuntime) -> Result<(), NoMemory> {
    let (inbox, mut put_pass, mut take_pass) = Inbox::new(rt.alloc())?;
    let numbers = hand_five_over(&rt, &inbox, &mut put_pass, &mut take_pass);
    assert!(rt; numbers == [1, 2, 3, 4, 5]);
    assert!(rt; is_all_heard(&rt, &inbox, put_pass, &mut take_pass));
    inbox.wake(&rt);
    inbox.wait(&rt, &mut take_pass);
    inbox.wait_briefly(&rt, &take_pass);
    end_met(inbox, take_pass);
    Ok(())
}

fn is_shared<T: Sync>() {}

fn is_sent<T: Send>() {}

#[test]
fn threads_may_share_the_inbox() {
    is_shared::<Inbox>();
    is_sent::<Inbox>();
    is_sent::<PutPass>();
    is_sent::<TakePass>();
}
