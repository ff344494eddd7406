//! The gate, with its two words and the steps that a seat makes at it.

ghost use Rattle.std.specs.Prelude.{◌≡◌, ◌+◌, ◌-◌, ◌/◌, ◌^◌, ◌<◌, Bool, true, false, ◌||◌, [], ◌∷◌, ◌++◌, length, IfOk, OnErr};
ghost use Rattle.std.specs.List.{All};
ghost use Rattle.run_gate.specs.Tickets.{AreJustBelow, NoneTwice};

use crate::NoMemory;
use crate::rule::{Count, Draw, Halve, Look, Merge, Raise, Tickets};
use crate::seat::Seat;
use crate::shown::Shown;
use atomic_table::Table;
use std::alloc::Global;
use std::marker::Model;

const TICKET: usize = 0;

const STOP: usize = 1;

/// A ticket word, of which seats draw numbers, and a stop word, by which they stop one another. Threads share it. A contract
/// sees which gate it is, which its seats show too: each call takes seats of this same gate.
#[derive(Drop)]
pub struct Gate {
    table: Table<u8, Shown, (), Tickets, Global>,
}

impl Model for Gate {
    ghost use Rattle.std.specs.Prelude.{◌≡◌};
    ghost use Rattle.atomic_table.specs.Seated.{TableId, table_id_coded};

    ghost Value = { TableId };

    ghost coded = { table_id_coded };

    ghost view = { λ gate. gate.table.shared.table_id };

    ghost invariant = { λ gate. gate.table.shared.table_id.words ≡ 2 };
}

impl Gate {
    /// A gate of which no number was drawn and whose stop word is 0, and its first seat, which may draw every number.
    pub fn new(alloc: Global) -> Result<(Gate, Seat), NoMemory>
        ensures gate { IfOk result (λ made. made.1.gate ≡ made.0) }
        ensures seat { IfOk result (λ made. (made.1.drawn ≡ []) × (made.1.saw ≡ false) × (made.1.raised ≡ false) × (made.1.left ≡ 2 ^ 63)) }
    {
        let (table, token) = Table::of_words(alloc, &[0, 0], &())?;
        let seat = Seat {
            token,
            count: 0,
            has_raised: false,
        };
        Ok((Gate { table }, seat))
    }

    /// Draws the next number, which no seat drew before, by one step on the ticket word. The seat may still draw one, and
    /// drew fewer than 2^32 numbers so far. It takes no memory.
    pub fn draw(&self, s: &mut Seat) -> u64
        requires gate { s.old.gate ≡ self.now }
        requires left { 0 < s.old.left }
        requires few { length s.old.drawn < 2 ^ 32 }
        ensures drawn { s.new.drawn ≡ s.old.drawn ++ result ∷ [] }
        ensures left { s.new.left + 1 ≡ s.old.left }
        ensures greater { All (λ n. n < result) s.old.drawn }
        ensures same { (s.new.gate ≡ s.old.gate) × (s.new.saw ≡ s.old.saw) × (s.new.raised ≡ s.old.raised) }
    {
        let number = self.table.shared.fetch_add::<Draw>(&mut s.token, TICKET, 1);
        s.count += 1;
        number
    }

    /// Whether the stop word is 1, which it stays once a seat raised. Where no other seat has drawn a number or may still
    /// draw one, this seat's numbers are just those below their count, and it raised if it saw the stop word at 1. It takes
    /// no memory.
    pub fn look(&self, s: &mut Seat) -> bool
        requires gate { s.old.gate ≡ self.now }
        ensures saw { s.new.saw ≡ (s.old.saw || result) }
        ensures stays { (s.old.saw || s.old.raised) ≡ true → result ≡ true }
        ensures whole { length s.old.drawn + s.old.left ≡ 2 ^ 63 → AreJustBelow (length s.new.drawn) s.new.drawn × (s.new.saw ≡ true → s.new.raised ≡ true) }
        ensures same { (s.new.gate ≡ s.old.gate) × (s.new.drawn ≡ s.old.drawn) × (s.new.raised ≡ s.old.raised) × (s.new.left ≡ s.old.left) }
    {
        self.table.shared.load::<Look>(&mut s.token, STOP) == 1
    }

    /// Sets the stop word to 1. The seat drew a number or may still draw one. It takes no memory.
    pub fn raise(&self, s: &mut Seat)
        requires gate { s.old.gate ≡ self.now }
        requires part { 0 < length s.old.drawn + s.old.left }
        ensures raised { s.new.raised ≡ true }
        ensures same { (s.new.gate ≡ s.old.gate) × (s.new.drawn ≡ s.old.drawn) × (s.new.saw ≡ s.old.saw) × (s.new.left ≡ s.old.left) }
    {
        self.table.shared.fetch_max::<Raise>(&mut s.token, STOP, 1);
        s.has_raised = true;
    }

    /// Gives a new seat, which may draw half as many numbers as this one might, rounded down. When memory runs out this seat is
    /// as it was.
    pub fn split(&self, alloc: Global, s: &mut Seat) -> Result<Seat, NoMemory>
        requires gate { s.old.gate ≡ self.now }
        ensures new { IfOk result (λ other. (other.gate ≡ s.old.gate) × (other.drawn ≡ []) × (other.saw ≡ false) × (other.raised ≡ false) × (other.left ≡ s.old.left / 2)) }
        ensures left { IfOk result (λ other. s.new.left + other.left ≡ s.old.left) }
        ensures same { (s.new.gate ≡ s.old.gate) × (s.new.drawn ≡ s.old.drawn) × (s.new.saw ≡ s.old.saw) × (s.new.raised ≡ s.old.raised) }
        ensures refused { OnErr result (s.new ≡ s.old) }
    {
        let _ = alloc;
        Ok(Seat {
            token: self.table.shared.split_seat::<Halve>(&mut s.token),
            count: 0,
            has_raised: false,
        })
    }

    /// Adds what the other seat shows to what this one does, and ends the other. No number was drawn by both, nor twice by
    /// one. It takes no memory.
    pub fn join(&self, s: &mut Seat, other: Seat)
        requires gate { (s.old.gate ≡ self.now) × (other.gate ≡ self.now) }
        ensures drawn { s.new.drawn ≡ s.old.drawn ++ other.drawn }
        ensures apart { NoneTwice s.new.drawn }
        ensures saw { s.new.saw ≡ (s.old.saw || other.saw) }
        ensures raised { s.new.raised ≡ (s.old.raised || other.raised) }
        ensures left { s.new.left ≡ s.old.left + other.left }
        ensures gate { s.new.gate ≡ s.old.gate }
    {
        let Seat {
            token,
            count,
            has_raised,
        } = other;
        self.table.shared.join_seat::<Merge>(&mut s.token, token);
        // This tells how many numbers one seat can have, so that the two counts may be added.
        self.table.shared.load::<Count>(&mut s.token, TICKET);
        s.count += count;
        s.has_raised = s.has_raised || has_raised;
    }
}
