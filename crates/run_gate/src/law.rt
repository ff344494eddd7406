//! What follows from the rule of a gate. Each law is the contract of a function that does nothing.

ghost use Rattle.std.specs.Prelude.{◌≡◌, ◌≢◌, ℕ, ◌<◌, ◌≤◌, ◌↔◌, true, List};
ghost use mathlib.Core.Option.{some};
ghost use lib.ListN.{get_elem?};
ghost use Rattle.run_gate.specs.declared.shown.Shown.{Shown};
ghost use Rattle.run_gate.specs.Tickets.{IsKept, times, NoneTwice};

/// Between any two steps no number stands in the lists of two seats, nor twice in the list of one.
pub fn no_two_seats_draw_the_same_number()
    ensures two { (ticket stop : ℕ) (seats : List Shown) → IsKept ticket stop seats → (by other : ℕ) (v w : Shown) → by ≢ other → get_elem? seats by ≡ some v → get_elem? seats other ≡ some w → (n : ℕ) → 0 < times n v.drawn → times n w.drawn ≡ 0 }
    ensures one { (ticket stop : ℕ) (seats : List Shown) → IsKept ticket stop seats → (by : ℕ) (v : Shown) → get_elem? seats by ≡ some v → NoneTwice v.drawn }
{}

/// Between any two steps each number below the ticket word stands in the list of some seat, and no other in any.
pub fn no_number_is_left_out()
    ensures others { (ticket stop : ℕ) (seats : List Shown) → IsKept ticket stop seats → (by : ℕ) (v : Shown) → get_elem? seats by ≡ some v → (n : ℕ) → ticket ≤ n → times n v.drawn ≡ 0 }
    ensures each { (ticket stop : ℕ) (seats : List Shown) → IsKept ticket stop seats → (n : ℕ) → n < ticket → (by : ℕ) × (v : Shown) × (get_elem? seats by ≡ some v) × (times n v.drawn ≡ 1) }
{}

/// Between any two steps the stop word is 1 exactly where some seat raised.
pub fn the_stop_word_tells_whether_a_seat_raised()
    ensures { (ticket stop : ℕ) (seats : List Shown) → IsKept ticket stop seats → (stop ≡ 1) ↔ ((by : ℕ) × (v : Shown) × (get_elem? seats by ≡ some v) × (v.raised ≡ true)) }
{}
