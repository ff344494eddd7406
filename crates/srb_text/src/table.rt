//! The table of the places at which the lines of a text start, in bytes.
ghost use Rattle.std.specs.Prelude.{◌≡◌, ◌+◌, ◌-◌, ◌^◌, ◌<◌, ◌≤◌, List, [], ◌∷◌, ◌++◌, length, take, drop, map, slice_index, nat_le, ◌==◌, if◌then◌else◌, All, IfOk, OnOk};
ghost use Rattle.std.specs.List.{prefix_len};
ghost use Rattle.std.specs.List.Sorted.{IsStrictlyIncreasing};
ghost use Rattle.srb_text.specs.Lines.{begins_with_line_feed, ends_line};
ghost use Rattle.srb_text.specs.LineStarts.{starts_after, line_starts};

use memchr::memchr2;
use std::alloc::{AllocError, Global};

const LINE_FEED: u8 = b'\n';

const CARRIAGE_RETURN: u8 = b'\r';

// How many bytes a line has at least, in most texts: so many lines have room from the start.
const BYTES_OF_A_LINE: usize = 32;

// How many of the starts are at most `at`.
pub fn starts_up_to(starts: &[u32], at: u32) -> usize
    requires { IsStrictlyIncreasing starts.now }
    ensures count { result ≡ prefix_len (λ s. nat_le s at) starts.now }
    ensures bound { result ≤ length starts.now }
{
    starts.partition_point(|s| *s <= at)
}

// Whether a line feed follows the first `count` bytes; after the bytes is `rest`.
fn line_feed_follows(bytes: &[u8], count: usize, rest: &[u8]) -> bool
    requires { count ≤ length bytes.now }
    ensures { result ≡ begins_with_line_feed (drop count bytes.now ++ rest.now) }
{
    if count < bytes.len() {
        return bytes[count] == LINE_FEED;
    }
    if rest.is_empty() {
        return false;
    }
    rest[0] == LINE_FEED
}

// Whether a line ends after the byte at a place; after the bytes is `rest`.
fn ends_line(bytes: &[u8], at: usize, rest: &[u8]) -> bool
    requires { at < length bytes.now }
    ensures { result ≡ ends_line (slice_index bytes.now at) (drop (at + 1) bytes.now ++ rest.now) }
{
    bytes[at] == LINE_FEED
        || (bytes[at] == CARRIAGE_RETURN && !line_feed_follows(bytes, at + 1, rest))
}

// Adds a start, if a line starts there.
fn push_if(starts: &mut Vec<u32>, is_start: bool, start: u32) -> Result<(), AllocError>
    ensures { OnOk result (starts.new.items ≡ starts.old.items ++ (if is_start then start ∷ [] else [])) }
{
    if is_start {
        starts.push(start)?;
    }
    Ok(())
}

// Adds where lines start after the bytes, which begin at `at` and before `rest`.
pub fn push_starts(
    starts: &mut Vec<u32>,
    at: u32,
    bytes: &[u8],
    rest: &[u8],
) -> Result<(), AllocError>
    requires { at + length bytes.now < 2 ^ 32 }
    ensures { OnOk result (starts.new.items ≡ starts.old.items ++ starts_after at bytes.now rest.now) }
{
    let mut i = 0;
    'ends: while let Some(len) = memchr2(LINE_FEED, CARRIAGE_RETURN, &bytes[i..]) {
        let end = i + len;
        push_if(starts, ends_line(bytes, end, rest), at + end as u32 + 1)?;
        i = end + 1;
    }
    Ok(())
}

// The line starts of a text.
pub fn built(alloc: Global, text: &[u8]) -> Result<Vec<u32>, AllocError>
    requires { length text.now < 2 ^ 31 }
    ensures { IfOk result (λ v. v.items ≡ line_starts text.now) }
{
    let mut starts = Vec::with_capacity(alloc, 1 + text.len() / BYTES_OF_A_LINE)?;
    starts.push(0)?;
    push_starts(&mut starts, 0, text, &[])?;
    Ok(starts)
}

// Adds starts that were counted from `from` on and are now counted from `to` on.
fn push_moved(starts: &mut Vec<u32>, moved: &[u32], from: u32, to: u32) -> Result<(), AllocError>
    requires after { All (λ s. from ≤ s) moved.now }
    requires fits { All (λ s. (s - from) + to < 2 ^ 32) moved.now }
    ensures { OnOk result (starts.new.items ≡ starts.old.items ++ map (λ s. (s - from) + to) moved.now) }
{
    for s in moved {
        starts.push(*s - from + to)?;
    }
    Ok(())
}

// The line starts of a text where `new` stands in the place of the bytes from `start` to `end`. They are
// made of those of the text, and of what is read of it the byte before `start` and the one at `end`.
pub fn renewed(
    alloc: Global,
    starts: &[u32],
    text: &[u8],
    start: u32,
    end: u32,
    new: &[u8],
) -> Result<Vec<u32>, AllocError>
    requires table { starts.now ≡ line_starts text.now }
    requires ordered { start ≤ end }
    requires within { end ≤ length text.now }
    requires fits { (length text.now - (end - start)) + length new.now < 2 ^ 31 }
    ensures { IfOk result (λ v. v.items ≡ line_starts (take start text.now ++ new.now ++ drop end text.now)) }
{
    let first = start.saturating_sub(1);
    let tail = &text[end as usize..];
    let kept = starts_up_to(starts, first);
    let passed = starts_up_to(starts, end);
    let mut renewed = Vec::with_capacity(alloc, starts.len())?;
    renewed.extend_from_slice(&starts[..kept])?;
    push_starts(
        &mut renewed,
        first,
        &text[first as usize..start as usize],
        first_of(new, tail),
    )?;
    push_starts(&mut renewed, start, new, tail)?;
    push_moved(
        &mut renewed,
        &starts[passed..],
        end,
        start + new.len() as u32,
    )?;
    Ok(renewed)
}

// What begins with the byte that follows where the bytes stand before the rest.
fn first_of<'a>(bytes: &'a [u8], rest: &'a [u8]) -> &'a [u8]
    ensures { begins_with_line_feed result.now ≡ begins_with_line_feed (bytes.now ++ rest.now) }
{
    if bytes.is_empty() { rest } else { bytes }
}
