//! Two closures that run beside each other, or not at all.

ghost use Rattle.std.specs.Prelude.{◌≡◌, IfErr, IfOk, MatchResult};

use crate::NoMemory;
use std::alloc::AllocError;
use std::snapshot::Snapshot;
use std::sync::Wait;
use std::sync::atomic::AtomicBool;
use std::sync::atomic::Ordering::SeqCst;
use std::thread::{Promise, Threads, scope, scope_env};

/// Calls `f` in a new thread and `g` in this one, and returns when both have ended. `Err` where no thread can be made: then it calls neither.
pub fn run_beside<R: Threads + Wait, F: FnMut() -> A + Send, G: FnMut() -> B, A: Send + Drop, B>(
    rt: &R,
    f: &mut F,
    g: &mut G,
) -> Result<(A, B), NoMemory>
    requires { F.pre f.old × G.pre g.old }
    ensures ok { IfOk result (λ r. F.step f.old r.0 f.new × G.step g.old r.1 g.new) }
    ensures err { IfErr result (λ _. (f.new ≡ f.old) × (g.new ≡ g.old)) }
{
    match work_beside(rt, Lent { call: f }, Lent { call: g }) {
        Ok(((f, a), (g, b))) => {
            end_loan(f);
            end_loan(g);
            Ok((a, b))
        }
        Err((Lent { call: f }, Lent { call: g })) => {
            end_loan(f);
            end_loan(g);
            Err(AllocError)
        }
    }
}

/// What is done once and then used up. A thread's closure holds it by value: of what a thread leaves behind a reference that its closure
/// captured, a proof knows nothing.
trait Work {
    type Outcome;

    // Whether it may be done.
    ghost may_begin: { Self → Type 0 };

    // Whether it may come out so.
    ghost brings: { Self → Self.Outcome → Type 0 };

    // Does it.
    fn finish(self) -> Self::Outcome
        requires { may_begin self }
        ensures { brings self result };
}

/// A closure that was lent. Its work is one call, and brings it back.
#[derive(Drop)]
struct Lent<'a, F> {
    call: &'a mut F,
}

impl<'a, F: FnMut() -> A, A> Work for Lent<'a, F> {
    type Outcome = (&'a mut F, A);

    ghost may_begin = { λ work. F.pre work.call.now };

    ghost brings = { λ work out. (out.0.ghost_name ≡ work.call.ghost_name) × F.step work.call.now out.1 out.0.now };

    fn finish(self) -> (&'a mut F, A) {
        let Lent { call } = self;
        let a = call();
        (call, a)
    }
}

/// That a thread finished this work, or gave it back as it was.
#[derive(Drop)]
struct Finished<W> {
    work: Snapshot<W>,
}

impl<W: Work<Outcome = A>, A> Promise<Result<A, W>> for Finished<W> {
    ghost kept_by = { λ promise r. MatchResult r (W.brings promise.work.value) (λ back. back ≡ promise.work.value) };
}

/// Finishes `first` in a new thread and `second` in this one. Where no thread can be made, `Err` has both as they were.
fn work_beside<
    R: Threads + Wait,
    V: Work<Outcome = A> + Send + Drop,
    W: Work<Outcome = B> + Drop,
    A: Send + Drop,
    B,
>(rt: &R, first: V, second: W) -> Result<(A, B), (V, W)>
    requires { V.may_begin first × W.may_begin second }
    ensures { MatchResult result (λ r. V.brings first r.0 × W.brings second r.1) (λ r. (r.0 ≡ first) × (r.1 ≡ second)) }
{
    // Set only once no thread runs the closure: then a call of it gives the work back. So two arms below are never reached, but a proof
    // doesn't know what an atomic holds.
    let refused = AtomicBool::new(false);
    let refused = &refused;
    scope(
        scope_env(),
        rt,
        move |threads| -> Result<(A, B), (V, W)>
            requires { V.may_begin first × W.may_begin second }
            ensures { MatchResult result (λ r. V.brings first r.0 × W.brings second r.1) (λ r. (r.0 ≡ first) × (r.1 ≡ second)) }
        {
            let promise = Finished {
                work: Snapshot::of(&first),
            };
            let body = move || -> Result<A, V>
                requires { V.may_begin first }
                ensures { MatchResult result (V.brings first) (λ back. back ≡ first) }
            {
                if refused.load(SeqCst) {
                    Err(first)
                } else {
                    Ok(first.finish())
                }
            };
            match threads.spawn_with(promise, body) {
                Ok(thread) => {
                    let b = second.finish();
                    match thread.join(rt) {
                        Ok(a) => Ok((a, b)),
                        Err(first) => Ok((first.finish(), b)),
                    }
                }
                Err(unmade) => {
                    refused.store(true, SeqCst);
                    match (unmade.value)() {
                        Ok(a) => Ok((a, second.finish())),
                        Err(first) => Err((first, second)),
                    }
                }
            }
        },
    )
}

/// Does nothing. A reference that came back is used here, so that the borrow checker ties it to the parameter that lent it.
fn end_loan<T>(lent: &mut T)
    ensures { lent.new ≡ lent.old }
{}
