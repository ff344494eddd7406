//! The rule that the table of a gate keeps, and what each step of a seat tells it.

use crate::shown::Shown;
use atomic_table::{Join, Play, Split, TableRule};

// The numbers are dealt out once each, and the stop word says whether a seat raised.
pub(crate) struct Tickets;

impl TableRule<u8, Shown, ()> for Tickets {
    ghost use Rattle.std.specs.Prelude.{◌^◌};
    ghost use Rattle.run_gate.specs.Tickets.{newcomer, Keeps};

    ghost holds = { λ _ table. Keeps table };

    ghost first = { λ _. newcomer (2 ^ 63) };
}

// The number found is one more of the seat's, and is greater than each that it drew before.
pub(crate) struct Draw;

impl Play<u8, Shown> for Draw {
    ghost use Rattle.std.specs.Prelude.{◌≡◌, ◌-◌, ◌<◌, [], ◌∷◌, ◌++◌};
    ghost use Rattle.std.specs.List.{All};
    ghost use Rattle.run_gate.specs.Tickets.{shown};

    ghost then = { λ _ v found w. (w ≡ (shown (v.0.drawn ++ found ∷ []) v.0.saw v.0.raised (v.0.left - 1), v.1)) × All (λ n. n < found) v.0.drawn };
}

// The seat notes where the stop word was 1. A seat that saw 1 or raised finds it at 1 again. Where no other seat has a part,
// the numbers are just those below their count, and a stop word at 1 is the seat's own.
pub(crate) struct Look;

impl Play<u8, Shown> for Look {
    ghost use Rattle.std.specs.Prelude.{◌≡◌, ◌^◌, ◌==◌, ◌||◌, true, length};
    ghost use Rattle.run_gate.specs.Tickets.{shown, part, AreJustBelow};

    ghost then = { λ _ v found w. (w ≡ (shown v.0.drawn (v.0.saw || (found == 1)) v.0.raised v.0.left, v.1)) × ((v.0.saw || v.0.raised) ≡ true → found ≡ 1) × (part v.0 ≡ 2 ^ 63 → AreJustBelow (length v.0.drawn) v.0.drawn × ((v.0.saw || (found == 1)) ≡ true → v.0.raised ≡ true)) };
}

// The seat raised.
pub(crate) struct Raise;

impl Play<u8, Shown> for Raise {
    ghost use Rattle.std.specs.Prelude.{◌≡◌, true};
    ghost use Rattle.run_gate.specs.Tickets.{shown};

    ghost then = { λ _ v _ w. w ≡ (shown v.0.drawn v.0.saw true v.0.left, v.1) };
}

// What the rule knows of one seat: no number is its own twice, and it has at most all numbers.
pub(crate) struct Count;

impl Play<u8, Shown> for Count {
    ghost use Rattle.std.specs.Prelude.{◌≡◌, ◌≤◌, ◌^◌};
    ghost use Rattle.run_gate.specs.Tickets.{part, NoneTwice};

    ghost then = { λ _ v _ w. (w ≡ v) × (part w.0 ≤ 2 ^ 63) × NoneTwice w.0.drawn };
}

// A newcomer has half of what is left.
pub(crate) struct Halve;

impl Split<Shown> for Halve {
    ghost use Rattle.std.specs.Prelude.{◌-◌, ◌/◌};
    ghost use Rattle.run_gate.specs.Tickets.{shown, newcomer};

    ghost left = { λ v. shown v.drawn v.saw v.raised (v.left - v.left / 2) };

    ghost right = { λ v. newcomer (v.left / 2) };
}

// One seat shows what both showed.
pub(crate) struct Merge;

impl Join<Shown> for Merge {
    ghost use Rattle.std.specs.Prelude.{◌+◌, ◌++◌, ◌||◌};
    ghost use Rattle.run_gate.specs.Tickets.{shown, spent};

    ghost both = { λ v w. shown (v.drawn ++ w.drawn) (v.saw || w.saw) (v.raised || w.raised) (v.left + w.left) };

    ghost spent = { spent };
}
