ghost use Rattle.std.specs.Prelude.{◌≡◌, ◌<◌, ◌^◌, ◌+◌, ◌-◌, ◌/◌, [], ◌∷◌, ◌++◌, length, Some, IfOk, IfErr, OnOk, OnErr, IfSome, IfNone, IsPermutation};
ghost use Rattle.crossbeam_queue.specs.Passes.{IsPassOf, view as known};
ghost use Rattle.run_queues.specs.Handing.{opening, telling, working, IsRightBy};
ghost use Rattle.run_queues.specs.declared.entry.Stage.TheVariants.{Telling};
ghost use Rattle.run_queues.specs.Held.{HeldAtAStep, IsWhole};

use crate::entry::{Entry, Shown};
use crate::item::{Item, Right};
use crate::pass::ResPass;
use crate::rule::{Halves, Hears, Knowing, Puts, Queue, Takes};
use srb_terms::NoMemory;
use std::alloc::{AllocError, Global};
use std::marker::Model;
use std::sync::Wait;

/// The queue of results, which threads share by a reference. A contract sees it as its name and the number of items that
/// it has room for.
#[derive(Drop)]
pub struct Results<W: Right> {
    queue: Queue<W>,
}

impl<W: Right> Model for Results<W> {
    ghost use Rattle.crossbeam_queue.specs.Passes.{ruled_capacity};
    ghost use Rattle.run_queues.specs.Showings.{Places};

    ghost Value = { Places };

    ghost view = { λ r. record { name = r.queue.table.shared.table_id; room = ruled_capacity r.queue } };
}

// Puts the view into the new queue.
fn put_view<W: Right>(queue: &Queue<W>, knowing: &mut Knowing<W>, view: W) -> Result<(), NoMemory>
    requires { IsPassOf queue.now knowing.old × (known knowing.old ≡ opening) }
    ensures same { IsPassOf queue.now knowing.new }
    ensures told { OnOk result (known knowing.new ≡ telling view) }
{
    match queue.try_push_as::<Puts<W>>(knowing, Entry::View(view)) {
        Ok(()) => Ok(()),
        Err(_) => Err(AllocError),
    }
}

// Takes the view out of the new queue, which tells it to the pass.
fn take_view<W: Right>(queue: &Queue<W>, knowing: &mut Knowing<W>) -> Result<(), NoMemory>
    requires { IsPassOf queue.now knowing.old × ((known knowing.old).stage ≡ Telling) }
    ensures same { IsPassOf queue.now knowing.new }
    ensures told { OnOk result (known knowing.new ≡ working (known knowing.old).view [] [] (2 ^ 63)) }
{
    match queue.try_pop_as::<Hears<W>>(knowing) {
        Some(_) => Ok(()),
        None => Err(AllocError),
    }
}

impl<W: Right> Results<W> {
    /// An empty queue with room for `room` items, and the first pass of it. The pass shows `view` and that nothing was
    /// given or got, and it may make all 2^63 puts and takes.
    pub fn new(alloc: Global, room: usize, view: W) -> Result<(Results<W>, ResPass<W>), NoMemory>
        requires { 0 < room }
        ensures { IfOk result (λ r. (r.0.room ≡ room) × (r.1 ≡ record { queue = r.0.name; view = Some view; gave = []; got = []; left = 2 ^ 63 })) }
    {
        let (queue, mut knowing) = Queue::<W>::ruled(alloc, room)?;
        put_view(&queue, &mut knowing, view)?;
        take_view(&queue, &mut knowing)?;
        Ok((Results { queue }, ResPass { knowing }))
    }

    /// A pass for another thread, which shows the same view and may make half of the puts and takes that `p` may still
    /// make, rounded down.
    pub fn split<R>(
        &self,
        _rt: &R,
        _alloc: Global,
        p: &mut ResPass<W>,
    ) -> Result<ResPass<W>, NoMemory>
        requires { p.old.queue ≡ self.now.name }
        ensures kept { OnOk result (p.new ≡ record p.old { left = p.old.left - p.old.left / 2 }) }
        ensures given { IfOk result (λ q. q ≡ record p.old { gave = []; got = []; left = p.old.left / 2 }) }
        ensures err { OnErr result (p.new ≡ p.old) }
    {
        Ok(ResPass {
            knowing: self.queue.another::<Halves<W>>(&mut p.knowing),
        })
    }

    /// Ends `other`. What it gave and got, and the puts and takes that it may still make, go to `p`.
    pub fn join<R>(&self, _rt: &R, p: &mut ResPass<W>, other: ResPass<W>)
        requires pass { p.old.queue ≡ self.now.name }
        requires other { other.queue ≡ self.now.name }
        ensures { p.new ≡ record p.old { gave = p.old.gave ++ other.gave; got = p.old.got ++ other.got; left = p.old.left + other.left } }
    {
        let ResPass { knowing } = other;
        self.queue.absorb::<Halves<W>>(&mut p.knowing, knowing);
    }

    /// Puts `item` after the items of the queue. A full queue gives it back, and `p` is as it was. It takes no memory.
    pub fn put<R: Wait>(&self, rt: &R, p: &mut ResPass<W>, item: Item) -> Result<(), Item>
        requires pass { p.old.queue ≡ self.now.name }
        requires right { IsRightBy W.right p.old.view item }
        requires left { 0 < p.old.left }
        ensures put { OnOk result (p.new ≡ record p.old { gave = p.old.gave ++ item ∷ []; left = p.old.left - 1 }) }
        ensures back { IfErr result (λ x. x ≡ item) }
        ensures same { OnErr result (p.new ≡ p.old) }
        ensures full { OnErr result (HeldAtAStep W.right self.now.room p.old) }
        ensures alone { OnErr result (IsWhole p.old → length p.old.gave ≡ length p.old.got + self.now.room) }
    {
        let entry = Entry::Found(item);
        match self.queue.push_as::<Puts<W>, R>(rt, &mut p.knowing, entry) {
            Ok(()) => Ok(()),
            Err(Entry::Found(back)) => Err(back),
            Err(Entry::View(_)) => unreachable!(),
        }
    }

    /// Takes the first item out of the queue. `None` comes only where the queue was empty at a step of the call, and `p` is
    /// as it was. It takes no memory.
    ///
    /// Where no other pass shows an item or may still put or take, `None` tells that `p` got just the items that it gave.
    pub fn take<R: Wait>(&self, rt: &R, p: &mut ResPass<W>) -> Option<Item>
        requires pass { p.old.queue ≡ self.now.name }
        requires left { 0 < p.old.left }
        ensures right { IfSome result (λ item. IsRightBy W.right p.old.view item) }
        ensures taken { IfSome result (λ item. p.new ≡ record p.old { got = p.old.got ++ item ∷ []; left = p.old.left - 1 }) }
        ensures same { IfNone result (p.new ≡ p.old) }
        ensures empty { IfNone result (HeldAtAStep W.right 0 p.old) }
        ensures all { IfNone result (IsWhole p.old → IsPermutation p.old.got p.old.gave) }
    {
        match self.queue.pop_as::<Takes<W>, R>(rt, &mut p.knowing) {
            Some(Entry::Found(item)) => Some(item),
            Some(Entry::View(_)) => unreachable!(),
            None => None,
        }
    }
}
