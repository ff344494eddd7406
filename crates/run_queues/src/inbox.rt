ghost use Rattle.std.specs.Prelude.{◌≡◌, ◌≢◌, true, [], ◌∷◌, ◌++◌, Option, Some, None, IfOk, IfErr, OnOk, OnErr, IfSome, IfNone, MatchResult};
ghost use Rattle.crossbeam_queue.specs.SegTies.{IsSegPassOf};
ghost use Rattle.run_watch.specs.Told.{with_steps};
ghost use Rattle.run_queues.specs.Mails.{inputs};
ghost use Rattle.run_queues.specs.Deliveries.{IsFront, HeldBeside, after_look};
ghost use Rattle.run_queues.specs.Hearings.{step_of, Hears};

use crate::delivery::{Ends, Gets, Knowledge, Learns, Mailbox, NotesEmpty, Sends};
use crate::inbox_pass::{PutPass, TakePass};
use run_watch::{Inp, Step, Trace};
use srb_terms::NoMemory;
use std::alloc::{AllocError, Global};
use std::marker::Model;
use std::sync::Wait;
use std::thread::Parker;
use std::time::Duration;

/// The inbox of a session, which two threads share by a reference: one puts inputs, and the other takes them. A contract sees
/// it as its name.
pub struct Inbox {
    queue: Mailbox,
    parker: Parker,
}

impl Model for Inbox {
    ghost use Rattle.run_queues.specs.Hearings.{Place};

    ghost Value = { Place };

    ghost view = { λ i. record { name = i.queue } };
}

impl Drop for Inbox {
    fn drop(self) {
        let Inbox { queue, parker } = self;
        queue.destroy();
        drop(parker);
    }
}

// Takes the first input out of the queue, and notes what was heard.
fn hear<R: Wait>(rt: &R, queue: &Mailbox, knowing: &mut Knowledge) -> Option<Inp>
    requires { IsSegPassOf queue.now knowing.old × (knowing.old.me.view.client.takes ≡ true) }
    ensures same { IsSegPassOf queue.now knowing.new }
    ensures heard { knowing.new.me.view.client ≡ after_look knowing.old.me.view.client result }
    ensures empty { IfNone result (HeldBeside knowing.old.me.view.client []) }
    ensures front { knowing.new.me.view.client.puts ≡ true → IsFront knowing.new.me.view.client.heard knowing.new.me.view.client.sent }
{
    match queue.pop_as::<Gets, R>(rt, knowing) {
        Some(inp) => Some(inp),
        None => {
            drop(queue.another::<NotesEmpty>(knowing));
            None
        }
    }
}

// The step of a session that takes this input, or finds none.
fn step_for(found: Option<Inp>) -> Step
    ensures { result ≡ step_of found }
{
    match found {
        Some(inp) => Step::Take { inp },
        None => Step::Look,
    }
}

// The input that the step takes, or none where it found none.
fn taken(step: Step) -> Option<Inp>
    ensures { (found : Option Inp) → step ≡ step_of found → result ≡ found }
{
    match step {
        Step::Take { inp } => Some(inp),
        _ => None,
    }
}

// Tells the trace what was found, and gives it back.
fn tell<T: Trace>(trace: &mut T, found: Option<Inp>) -> Result<Option<Inp>, Option<Inp>>
    ensures ok { IfOk result (λ got. got ≡ found) }
    ensures err { IfErr result (λ kept. kept ≡ found) }
    ensures told { MatchResult result (λ _. T.told trace.new ≡ with_steps (T.told trace.old) (step_of found ∷ [])) (λ _. T.told trace.new ≡ T.told trace.old) }
{
    let made = step_for(found);
    match trace.step(&made) {
        Ok(()) => Ok(taken(made)),
        Err(_) => Err(taken(made)),
    }
}

impl Inbox {
    /// An empty inbox, and its two passes: nothing was put, and nothing was heard.
    pub fn new(alloc: Global) -> Result<(Inbox, PutPass, TakePass), NoMemory>
        ensures put { IfOk result (λ r. r.1 ≡ record { queue = r.0.name; sent = [] }) }
        ensures take { IfOk result (λ r. r.2 ≡ record { queue = r.0.name; heard = []; kept = None; sent = None }) }
    {
        let (queue, mut putting) = Mailbox::with_rule(alloc)?;
        let taking = queue.another::<Ends>(&mut putting);
        let inbox = Inbox {
            queue,
            parker: Parker::new(),
        };
        let put_pass = PutPass { knowing: putting };
        let take_pass = TakePass {
            knowing: taking,
            kept: None,
        };
        Ok((inbox, put_pass, take_pass))
    }

    /// Puts the input after those of the inbox, and wakes the thread that waits. Where there is no memory, nothing is put, and
    /// the pass is as it was.
    pub fn put<R: Wait>(&self, rt: &R, p: &mut PutPass, inp: Inp) -> Result<(), NoMemory>
        requires { p.old.queue ≡ self.now.name }
        ensures sent { OnOk result (p.new ≡ record p.old { sent = p.old.sent ++ inp ∷ [] }) }
        ensures same { OnErr result (p.new ≡ p.old) }
    {
        match self.queue.push_as::<Sends, R>(rt, &mut p.knowing, inp) {
            Ok(()) => {
                self.parker.unpark();
                Ok(())
            }
            Err(_) => Err(AllocError),
        }
    }

    /// Takes the first input, or finds the inbox empty, and tells the trace a Take or a Look of it. Where the pass knows what
    /// was put, `None` tells that all of it was heard; before, only that this can be. An error is the trace's, which was told nothing: the input that was found stays
    /// with the pass, and the next call gives it without looking again. The call takes no memory itself.
    pub fn take<R: Wait, T: Trace>(
        &self,
        rt: &R,
        p: &mut TakePass,
        t: &mut T,
    ) -> Result<Option<Inp>, NoMemory>
        requires { p.old.queue ≡ self.now.name }
        ensures same { (p.new.queue ≡ p.old.queue) × (p.new.sent ≡ p.old.sent) }
        ensures kept { IfSome p.old.kept (λ inp. MatchResult result (λ got. (got ≡ Some inp) × (p.new ≡ record p.old { kept = None })) (λ _. p.new ≡ p.old)) }
        ensures heard { IfNone p.old.kept (MatchResult result (λ got. Hears p.old p.new got None) (λ _. (found : Option Inp) × Hears p.old p.new found found)) }
        ensures told { MatchResult result (λ got. T.told t.new ≡ with_steps (T.told t.old) (step_of got ∷ [])) (λ _. T.told t.new ≡ T.told t.old) }
        ensures front { IfSome p.new.sent (IsFront p.new.heard) }
        ensures all { IfOk result (λ got. IfNone got (IfSome p.old.sent (λ sent. sent ≡ inputs p.old.heard))) }
    {
        let found = match p.kept.take() {
            Some(inp) => Some(inp),
            None => hear(rt, &self.queue, &mut p.knowing),
        };
        match tell(t, found) {
            Ok(got) => Ok(got),
            Err(kept) => {
                p.kept = kept;
                Err(AllocError)
            }
        }
    }

    /// Waits until another thread calls `put` or `wake`. It returns at once where one did since the last `wait`.
    pub fn wait<R: Wait>(&self, rt: &R, p: &mut TakePass)
        requires { p.old.queue ≡ self.now.name }
        ensures { p.new ≡ p.old }
    {
        let _ = p;
        self.parker.park(rt);
    }

    /// Waits until another thread calls `put` or `wake`, as `wait` does, but 100 microseconds at most.
    pub fn wait_briefly<R: Wait>(&self, rt: &R, p: &TakePass)
        requires { p.now.queue ≡ self.now.name }
    {
        let _ = p;
        self.parker.park_timeout(rt, Duration::from_micros(100));
    }

    /// Wakes the thread that waits, or lets the next `wait` return at once.
    pub fn wake<R>(&self, _rt: &R) {
        self.parker.unpark();
    }

    /// Ends the put pass by one join, and reads how many inputs are left. The take pass shows from then on what was put, of
    /// which the inputs that it heard are the first. It takes no memory.
    pub fn meet<R: Wait>(&self, rt: &R, p: PutPass, q: &mut TakePass)
        requires put { p.queue ≡ self.now.name }
        requires take { q.old.queue ≡ self.now.name }
        ensures sent { q.new ≡ record q.old { sent = Some p.sent } }
        ensures front { IsFront q.new.heard p.sent }
    {
        let PutPass { knowing } = p;
        self.queue.absorb::<Ends>(&mut q.knowing, knowing);
        self.queue.len_as::<Learns, R>(rt, &mut q.knowing);
    }
}
