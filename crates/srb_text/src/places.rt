//! Positions and offsets in the bytes of a text, by the table of its line starts.
ghost use Rattle.std.specs.Prelude.{◌≡◌, ◌-◌, ◌^◌, ◌<◌, ◌≤◌, length, take, drop};
ghost use Rattle.srb_text.specs.Lines.{lines};
ghost use Rattle.srb_text.specs.LineStarts.{line_starts};
ghost use Rattle.srb_text.specs.Positions.{position_in, offset_in, one};
ghost use Rattle.srb_text.specs.Units.{weight_at};

use crate::table::starts_up_to;
use crate::units::{len_of_units, units_in_line};
use crate::{Encoding, Pos};

// The bytes from `from` on.
fn rest(bytes: &[u8], from: u32) -> &[u8]
    requires { from ≤ length bytes.now }
    ensures { result.now ≡ drop from bytes.now }
{
    &bytes[from as usize..]
}

// The bytes from `from` to `to`.
fn part(bytes: &[u8], from: u32, to: u32) -> &[u8]
    requires ordered { from ≤ to }
    requires within { to ≤ length bytes.now }
    ensures { result.now ≡ take (to - from) (drop from bytes.now) }
{
    &bytes[from as usize..to as usize]
}

// The offset that a position names.
pub fn offset_in(starts: &[u32], text: &[u8], p: Pos, encoding: Encoding) -> u32
    requires table { starts.now ≡ line_starts text.now }
    requires small { length text.now < 2 ^ 31 }
    ensures offset { result ≡ offset_in one (weight_at encoding) p.line p.unit (lines text.now) }
    ensures within { result ≤ length text.now }
{
    let line = p.line as usize;
    if line < starts.len() {
        let start = starts[line];
        let units = len_of_units(encoding, rest(text, start), p.unit);
        return start + units as u32;
    }
    text.len() as u32
}

// The position of an offset.
pub fn position_in(starts: &[u32], text: &[u8], at: u32, encoding: Encoding) -> Pos
    requires table { starts.now ≡ line_starts text.now }
    requires small { length text.now < 2 ^ 29 }
    requires within { at ≤ length text.now }
    ensures { result ≡ position_in one (weight_at encoding) 0 at (lines text.now) }
{
    let line = starts_up_to(starts, at) - 1;
    let start = starts[line];
    let unit = units_in_line(encoding, part(text, start, at));
    Pos {
        line: line as u32,
        unit,
    }
}
