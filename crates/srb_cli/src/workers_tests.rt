//! Sessions with workers over generated files: two workers check at once, an edit cancels a check, and the workers share the files.

ghost use Rattle.std.specs.Prelude.{◌≤◌, None};

use crate::paced_tests::{Pace, Turn, client_of, comes_to};
use crate::session_tests::{frames_of, sink_of};
use lsp_msg::Msg;
use run_pool::Hold;
use run_serve::serve;
use run_watch::{Inp, Step, Trace};
use srb_gen::project;
use srb_terms::NoMemory;
use std::alloc::{AllocError, Global};
use std::sync::Wait;
use std::sync::atomic::{AtomicU64, Ordering};
use std::test::Fail;
use std::thread::{Threads, yield_now};

const INITIALIZE: &str =
    r#"{"id":1,"jsonrpc":"2.0","method":"initialize","params":{"capabilities":{},"rootUri":"file:///p"}}"#;

const CLASS: &str =
    r##"{"jsonrpc":"2.0","method":"textDocument/didOpen","params":{"textDocument":{"uri":"file:///p/g0500.rb","languageId":"ruby","version":1,"text":"class Added\nend\n"}}}"##;

const SHUTDOWN: &str = r#"{"id":2,"jsonrpc":"2.0","method":"shutdown"}"#;

const EXIT: &str = r#"{"jsonrpc":"2.0","method":"exit"}"#;

/// What is seen of a session: how many files were worked on and edits taken, how many files were worked on before the first one, and how often
/// something that was waited for didn't come.
#[derive(Drop)]
struct Seen {
    works: AtomicU64,
    edits: AtomicU64,
    before_first: AtomicU64,
    missed: AtomicU64,
}

fn nothing_seen() -> Seen {
    Seen {
        works: AtomicU64::new(0),
        edits: AtomicU64::new(0),
        before_first: AtomicU64::new(0),
        missed: AtomicU64::new(0),
    }
}

/// A trace that counts what it is told.
#[derive(Drop)]
struct Counts<'a> {
    seen: &'a Seen,
}

impl<'a> Trace for Counts<'a> {
    ghost told = { λ _. None };

    fn step(&mut self, s: &Step) -> Result<(), NoMemory> {
        match s {
            Step::Work { path, .. } => {
                let works = self.seen.works.fetch_add(1, Ordering::SeqCst);
                if path.as_str() == "g0000.rb" {
                    self.seen.before_first.store(works, Ordering::SeqCst);
                }
            }
            Step::Take {
                inp: Inp::Msg(Msg::Opened { .. }),
            } => {
                self.seen.edits.fetch_add(1, Ordering::SeqCst);
            }
            _ => {}
        }
        Ok(())
    }
}

/// What checks wait for.
#[derive(Drop)]
enum Way {
    /// The first one waits until a second has begun.
    Second,
    /// Each waits until an edit was taken, and lets other threads go on often.
    Edit,
    /// That of the first file waits until so many other files were worked on.
    Others(u64),
}

/// A hold that lets checks wait, and counts in `pace` how many began.
#[derive(Drop)]
struct Waits<'a> {
    way: Way,
    pace: &'a Pace,
    seen: &'a Seen,
}

impl<'a> Waits<'a> {
    /// Notes where the number doesn't come to be at least this.
    fn wait_for(&self, number: &AtomicU64, least: u64) {
        if !comes_to(number, least) {
            self.seen.missed.fetch_add(1, Ordering::SeqCst);
        }
    }
}

impl<'a> Hold for Waits<'a> {
    fn before<R: Wait>(&self, _rt: &R, number: u64) {
        let begun = self.pace.done.fetch_add(1, Ordering::SeqCst);
        match self.way {
            Way::Second => {
                if begun == 0 {
                    self.wait_for(&self.pace.done, 2);
                }
            }
            Way::Edit => {
                self.wait_for(&self.seen.edits, 1);
                for _ in 0..100 {
                    yield_now();
                }
            }
            Way::Others(count) => {
                if number == 0 {
                    self.wait_for(&self.seen.works, count);
                }
            }
        }
    }
}

/// The status of a session with two workers over so many generated files, whose client gives these messages, each once so many checks began.
fn served<R: Threads + Wait + Sync>(
    rt: &R,
    alloc: Global,
    count: u16,
    bodies: &[(&str, u64)],
    way: Way,
    pace: &Pace,
    seen: &Seen,
) -> Result<u8, AllocError>
    requires some { 1 ≤ count }
    requires few { count ≤ 1000 }
{
    let project = project(alloc, count)?;
    let mut turns = Vec::new(alloc);
    for (body, after) in bodies {
        turns.push(Turn {
            frame: frames_of(alloc, &[*body])?,
            after: *after,
        })?;
    }
    let mut source = client_of(pace, turns);
    let mut sink = sink_of(alloc, Vec::new(alloc));
    let mut trace = Counts { seen };
    let hold = Waits { way, pace, seen };
    let ended = serve(
        rt,
        alloc,
        project,
        2,
        &mut source,
        &mut sink,
        &mut trace,
        &hold,
    );
    Ok(ended.status)
}

/// Two workers check at once: the first check waits until another one has begun.
#[test]
fn two_workers_check_at_once(rt: HostRuntime) -> Result<(), Fail> {
    let alloc = rt.alloc();
    let (pace, seen) = (Pace::new(), nothing_seen());
    let bodies = [(INITIALIZE, 0), (SHUTDOWN, 0), (EXIT, 0)];
    let status = served(&rt, alloc, 3, &bodies, Way::Second, &pace, &seen)?;
    assert_eq!(rt; status, 0);
    assert_eq!(rt; seen.missed.load(Ordering::SeqCst), 0);
    assert_eq!(rt; seen.works.load(Ordering::SeqCst), 3);
    Ok(())
}

/// An edit that declares a class cancels a check of 1,000 files: few of its checks have begun then, and all files are checked again.
#[test]
fn an_edit_cancels_a_check(rt: HostRuntime) -> Result<(), Fail> {
    let alloc = rt.alloc();
    let (pace, seen) = (Pace::new(), nothing_seen());
    let bodies = [(INITIALIZE, 0), (CLASS, 1), (SHUTDOWN, 1), (EXIT, 1)];
    let status = served(&rt, alloc, 1000, &bodies, Way::Edit, &pace, &seen)?;
    assert_eq!(rt; status, 0);
    assert_eq!(rt; seen.missed.load(Ordering::SeqCst), 0);
    assert_eq!(rt; seen.edits.load(Ordering::SeqCst), 1);
    assert!(rt; pace.done.load(Ordering::SeqCst) < 2_000);
    Ok(())
}

/// While the check of one file takes long, the others land, and the coordinator doesn't check that file itself.
#[test]
fn workers_share_the_files(rt: HostRuntime) -> Result<(), Fail> {
    let alloc = rt.alloc();
    let (pace, seen) = (Pace::new(), nothing_seen());
    let bodies = [(INITIALIZE, 0), (SHUTDOWN, 0), (EXIT, 0)];
    let status = served(&rt, alloc, 30, &bodies, Way::Others(29), &pace, &seen)?;
    assert_eq!(rt; status, 0);
    assert_eq!(rt; seen.missed.load(Ordering::SeqCst), 0);
    assert_eq!(rt; seen.works.load(Ordering::SeqCst), 30);
    assert_eq!(rt; seen.before_first.load(Ordering::SeqCst), 29);
    Ok(())
}
