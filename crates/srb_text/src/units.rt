//! What a line's characters count in its places, read off its bytes.
ghost use Rattle.std.specs.Prelude.{◌≡◌, ◌+◌, ◌^◌, ◌<◌, ◌≤◌, length, IsTrue};
ghost use Rattle.std.specs.List.{sum_by};
ghost use Rattle.srb_text.specs.Lines.{is_line_end};
ghost use Rattle.srb_text.specs.LineStarts.{first_content};
ghost use Rattle.srb_text.specs.Positions.{fitting};
ghost use Rattle.srb_text.specs.Units.{lead_weight, weight_at};

use crate::Encoding;

fn is_line_end(byte: u8) -> bool
    ensures { result ≡ is_line_end byte }
{
    byte == b'\n' || byte == b'\r'
}

// What a character of several bytes counts whose first byte this is.
fn lead_weight(encoding: Encoding, byte: u8) -> u32
    ensures weight { result ≡ lead_weight encoding byte }
    ensures bound { result ≤ 4 }
{
    match encoding {
        Encoding::Utf8 => match byte {
            0..224 => 2,
            224..240 => 3,
            240.. => 4,
        },
        Encoding::Utf16 => match byte {
            0..240 => 1,
            240.. => 2,
        },
        Encoding::Utf32 => 1,
    }
}

// What the character counts that begins with the byte, or nothing where the byte continues one.
fn weight_at(encoding: Encoding, byte: u8) -> u32
    ensures weight { result ≡ weight_at encoding byte }
    ensures bound { result ≤ 4 }
{
    match byte {
        0..128 => 1,
        128..192 => 0,
        192.. => lead_weight(encoding, byte),
    }
}

// What the characters before the first line end count.
pub fn units_in_line(encoding: Encoding, bytes: &[u8]) -> u32
    requires { length bytes.now < 2 ^ 29 }
    ensures { result ≡ sum_by (weight_at encoding) (first_content bytes.now) }
{
    let mut units = 0;
    for byte in bytes {
        if is_line_end(*byte) {
            return units;
        }
        units += weight_at(encoding, *byte);
    }
    units
}

// The length of the longest front that has no line end, and whose characters count no more than so many units.
pub fn len_of_units(encoding: Encoding, bytes: &[u8], units: u32) -> usize
    ensures len { result ≡ length (fitting (weight_at encoding) units (first_content bytes.now)) }
    ensures bound { result ≤ length bytes.now }
{
    let mut left = units;
    for (i, byte) in bytes.iter().enumerate() {
        let needed = weight_at(encoding, *byte);
        if is_line_end(*byte) || left < needed {
            return i;
        }
        left -= needed;
    }
    bytes.len()
}
