ghost use Rattle.std.specs.Prelude.{◌==◌, None};

use crate::{Inp, Keep, MemTrace, NoTrace, Step, Trace, Watcher, Watchers};
use lsp_msg::{Id, Msg};
use srb_terms::{Items, Name, NoMemory};
use std::alloc::{AllocError, Global};
use std::sync::Arc;
use std::sync::atomic::{AtomicU64, Ordering};

#[test]
fn a_copied_work_is_the_same(rt: HostRuntime) -> Result<(), NoMemory> {
    let alloc = rt.alloc();
    let step = Step::Work {
        path: Name::from_str(alloc, "a.rb")?,
        epoch: 2,
        list: Items::new(alloc),
        shown: true,
    };
    let copy = step.copied(alloc)?;
    assert!(rt;
        matches!(
            &copy,
            Step::Work {
                epoch: 2,
                shown: true,
                ..
            }
        )
    );
    Ok(())
}

#[test]
fn a_copied_message_is_the_same(rt: HostRuntime) -> Result<(), NoMemory> {
    let alloc = rt.alloc();
    let asked = Inp::Msg(Msg::Shutdown { id: Id::Number(2) });
    let copy = asked.copied(alloc)?;
    assert!(rt; matches!(&copy, Inp::Msg(_)));
    Ok(())
}

#[test]
fn a_trace_in_memory_holds_its_steps(rt: HostRuntime) -> Result<(), NoMemory> {
    let mut trace = MemTrace::new(rt.alloc());
    trace.step(&Step::Look)?;
    trace.step(&Step::Build)?;
    assert!(rt; matches!(trace.steps.as_slice(), [Step::Look, Step::Build]));
    Ok(())
}

#[test]
fn no_trace_takes_any_step(rt: HostRuntime) {
    assert!(rt; NoTrace.step(&Step::Idle).is_ok());
}

/// A watcher that counts what it was told, where others see the count, and leaves after some steps.
#[derive(Drop)]
struct Counting {
    told: Arc<AtomicU64>,
    stays_for: u64,
}

impl Watcher for Counting {
    ghost seen = { λ _. None };

    ghost leaves = { λ w _. w.stays_for == 0 };

    fn saw(&mut self, _s: &Step) -> Keep {
        self.told.fetch_add(1, Ordering::SeqCst);
        if self.stays_for == 0 {
            return Keep::Leave;
        }
        self.stays_for -= 1;
        Keep::Stay
    }
}

/// How often two boxed watchers are told something in three steps, of which the second leaves at its second step, and
/// how many are there afterwards.
fn watched(alloc: Global) -> Result<(u64, u64, usize), AllocError> {
    let first = Arc::new(alloc, AtomicU64::new(0))?;
    let second = Arc::new(alloc, AtomicU64::new(0))?;
    let mut boxes: Vec<Box<dyn Watcher + Send>> = Vec::new(alloc);
    boxes.push(Box::new(
        alloc,
        Counting {
            told: Arc::try_clone(&first)?,
            stays_for: 9,
        },
    )?)?;
    boxes.push(Box::new(
        alloc,
        Counting {
            told: Arc::try_clone(&second)?,
            stays_for: 1,
        },
    )?)?;
    let mut watchers = Watchers { boxes };
    watchers.step(&Step::Look)?;
    watchers.step(&Step::Build)?;
    watchers.step(&Step::Idle)?;
    Ok((
        first.load(Ordering::SeqCst),
        second.load(Ordering::SeqCst),
        watchers.boxes.len(),
    ))
}

#[test]
fn a_watcher_that_left_is_told_nothing_more(rt: HostRuntime) -> Result<(), NoMemory> {
    assert!(rt; watched(rt.alloc())? == (3, 2, 1));
    Ok(())
}
