//! What holds of the places of every text. The law is the contract of a function that does nothing.

ghost use Rattle.std.specs.Prelude.{◌≡◌, ℕ, List, chars};
ghost use Rattle.std.specs.Str.{IsUtf8};
ghost use Rattle.srb_text.specs.Positions.{IsStart, position_of, one};
ghost use Rattle.srb_check.specs.Reports.{place_of, position_at};

/// The place that a report gives an offset is its position in the text's characters, each of which counts one.
pub fn places_are_positions()
    ensures { (bytes : List ℕ) (at : ℕ) → IsUtf8 bytes → IsStart (chars bytes) at → position_at (place_of bytes at) ≡ position_of one (chars bytes) at }
{}
