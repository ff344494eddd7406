//! Sessions with a client that waits for answers, and with one that doesn't read them.

ghost use Rattle.std.specs.Prelude.{◌≡◌, None};

use crate::commands::run;
use crate::session_tests::{files_of, frames_of};
use run_watch::NoTrace;
use srb_io::{Failed, Files, Sink, Source};
use std::alloc::{AllocError, Global};
use std::sync::Wait;
use std::sync::atomic::{AtomicU64, Ordering};
use std::test::Fail;
use std::thread::{Threads, yield_now};

/// How many messages the source has given, and how much of what it waits for was done: bytes that were written, or checks that began.
#[derive(Drop)]
pub(crate) struct Pace {
    given: AtomicU64,
    pub(crate) done: AtomicU64,
}

impl Pace {
    pub(crate) fn new() -> Pace {
        Pace {
            given: AtomicU64::new(0),
            done: AtomicU64::new(0),
        }
    }
}

/// Whether the number comes to be at least this within 20,000,000 turns.
pub(crate) fn comes_to(number: &AtomicU64, least: u64) -> bool {
    for _ in 0..20_000_000 {
        if number.load(Ordering::SeqCst) >= least {
            return true;
        }
        yield_now();
    }
    false
}

/// A message, and how much must be done before it is given.
#[derive(Drop)]
pub(crate) struct Turn {
    pub(crate) frame: Vec<u8>,
    pub(crate) after: u64,
}

/// A source that gives one message after the other, each once enough was done, and fails where that doesn't come.
#[derive(Drop)]
pub(crate) struct Client<'a> {
    pace: &'a Pace,
    turns: Vec<Turn>,
    next: usize,
    at: usize,
    faults: u64,
}

impl<'a> Source for Client<'a> {
    ghost left = { λ _. None };

    ghost faults = { λ s. s.faults };

    fn read(&mut self, into: &mut [u8]) -> Result<usize, Failed> {
        let Some(turn) = self.turns.get(self.next) else {
            return Ok(0);
        };
        if self.at == 0 && !comes_to(&self.pace.done, turn.after) {
            self.faults += 1;
            return Err(Failed);
        }
        let size = turn.frame.len();
        if self.at >= size {
            return Ok(0);
        }
        let count = into.len().min(size - self.at);
        into[..count].copy_from_slice(&turn.frame[self.at..self.at + count]);
        if self.at + count == size {
            self.at = 0;
            self.next += 1;
            self.pace.given.fetch_add(1, Ordering::SeqCst);
        } else {
            self.at += count;
        }
        Ok(count)
    }
}

/// A sink that counts what is written. It takes a list only once so many messages were given, and fails where that doesn't come.
#[derive(Drop)]
struct Counting<'a> {
    pace: &'a Pace,
    held: Vec<u8>,
    lists_after: u64,
    faults: u64,
}

/// Whether these bytes have a list in them.
fn has_list(piece: &[u8]) -> bool {
    let word = b"publishDiagnostics".as_slice();
    for rest in piece.windows(word.len()) {
        if rest == word {
            return true;
        }
    }
    false
}

impl<'a> Sink for Counting<'a> {
    ghost held = { λ _. None };

    ghost faults = { λ s. s.faults };

    fn write(&mut self, piece: &[u8]) -> Result<usize, Failed> {
        if has_list(piece) && !comes_to(&self.pace.given, self.lists_after) {
            self.faults += 1;
            return Err(Failed);
        }
        if self.held.extend_from_slice(piece).is_err() {
            self.faults += 1;
            return Err(Failed);
        }
        self.pace
            .done
            .fetch_add(piece.len() as u64, Ordering::SeqCst);
        Ok(piece.len())
    }
}

pub(crate) fn client_of<'a>(pace: &'a Pace, turns: Vec<Turn>) -> Client<'a>
    ensures { ⟦<Client<'a> as Source>⟧.faults result ≡ 0 }
{
    Client {
        pace,
        turns,
        next: 0,
        at: 0,
        faults: 0,
    }
}

fn counting_of<'a>(alloc: Global, pace: &'a Pace, lists_after: u64) -> Counting<'a>
    ensures { ⟦<Counting<'a> as Sink>⟧.faults result ≡ 0 }
{
    Counting {
        pace,
        held: Vec::new(alloc),
        lists_after,
        faults: 0,
    }
}

/// The turns in which these messages are given: each with how many of the messages in `written` come before it.
fn turns_of(
    alloc: Global,
    bodies: &[(&str, usize)],
    written: &[&str],
) -> Result<Vec<Turn>, AllocError> {
    let mut turns = Vec::new(alloc);
    for (body, count) in bodies {
        let before = frames_of(alloc, &written[..(*count).min(written.len())])?;
        turns.push(Turn {
            frame: frames_of(alloc, &[*body])?,
            after: before.len() as u64,
        })?;
    }
    Ok(turns)
}

/// Whether a session over these files writes these messages and ends with this status, where a client gives each of its messages once so many
/// were written, and reads lists only once it gave so many messages.
pub(crate) fn is_served_in_turns<R: Threads + Wait + Sync>(
    rt: &R,
    alloc: Global,
    files: &[(&str, &str)],
    bodies: &[(&str, usize)],
    lists_after: u64,
    written: &[&str],
    status: u8,
) -> Result<bool, AllocError> {
    let words = [
        String::from_str(alloc, "lsp")?,
        String::from_str(alloc, "d")?,
    ];
    let output = frames_of(alloc, written)?;
    let turns = turns_of(alloc, bodies, written)?;
    let mut files = files_of(alloc, files)?;
    let pace = Pace::new();
    let mut source = client_of(&pace, turns);
    let mut sink = counting_of(alloc, &pace, lists_after);
    let ended = run(
        rt,
        alloc,
        &words,
        &mut files,
        &mut source,
        &mut sink,
        &mut NoTrace,
    );
    Ok(ended.status == status && sink.held.as_slice() == output.as_slice())
}
