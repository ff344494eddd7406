use crate::entry::{Entry, Shown};
use crate::item::Right;
use crossbeam_queue::protocol::{Join, Lesson, Outcome, Protocol, Split};
use crossbeam_queue::{Pass, RuledArrayQueue};
use std::marker::PhantomData;

/// The queue under its rule.
pub type Queue<W> = RuledArrayQueue<Entry<W>, Shown<W>, Handing<W>>;

/// What one thread knows of the queue.
pub type Knowing<W> = Pass<Entry<W>, Shown<W>>;

/// The rule of the queue.
pub struct Handing<W> {
    marker: PhantomData<W>,
}

impl<W: Right> Protocol<Entry<W>, Shown<W>> for Handing<W> {
    ghost use Rattle.run_queues.specs.Handing.{Hands, opening};

    ghost holds = { Hands W.right };

    ghost first = { opening };
}

/// A push, and a full push.
pub struct Puts<W> {
    marker: PhantomData<W>,
}

impl<W: Right> Outcome<Entry<W>, Shown<W>> for Puts<W> {
    ghost use Rattle.run_queues.specs.Steps.{Pushed};

    ghost then = { Pushed };
}

impl<W: Right> Lesson<Entry<W>, Shown<W>> for Puts<W> {
    ghost use Rattle.run_queues.specs.Steps.{HeldBeside};

    ghost fact = { HeldBeside W.right };
}

/// A pop of the view, while the queue is made.
pub struct Hears<W> {
    marker: PhantomData<W>,
}

impl<W: Right> Outcome<Entry<W>, Shown<W>> for Hears<W> {
    ghost use Rattle.run_queues.specs.Steps.{WasTold};

    ghost then = { WasTold };
}

/// A pop of an item, and an empty pop.
pub struct Takes<W> {
    marker: PhantomData<W>,
}

impl<W: Right> Outcome<Entry<W>, Shown<W>> for Takes<W> {
    ghost use Rattle.run_queues.specs.Steps.{Popped};

    ghost then = { Popped W.right };
}

impl<W: Right> Lesson<Entry<W>, Shown<W>> for Takes<W> {
    ghost use Rattle.run_queues.specs.Steps.{HeldBeside};

    ghost fact = { HeldBeside W.right };
}

/// A split, and a join.
pub struct Halves<W> {
    marker: PhantomData<W>,
}

impl<W: Right> Split<Shown<W>> for Halves<W> {
    ghost use Rattle.run_queues.specs.Steps.{kept_half, given_half};

    ghost left = { kept_half };

    ghost right = { given_half };
}

impl<W: Right> Join<Shown<W>> for Halves<W> {
    ghost use Rattle.run_queues.specs.Handing.{spent};
    ghost use Rattle.run_queues.specs.Steps.{joined};

    ghost both = { joined };

    ghost spent = { spent };
}
