use crate::commands::run;
use crate::session_tests::{files_of, sink_of, source_of};
use run_watch::{MemTrace, Step};
use std::alloc::{AllocError, Global};
use std::sync::Wait;
use std::test::Fail;
use std::thread::Threads;

/// What `gen` with this number comes to, where these writes fail: its status, what the sink holds, and how many inputs its steps take.
fn generated<R: Threads + Wait + Sync>(
    rt: &R,
    alloc: Global,
    number: &str,
    fail_at: &[u64],
) -> Result<(u8, Vec<u8>, usize), AllocError> {
    let words = [
        String::from_str(alloc, "gen")?,
        String::from_str(alloc, number)?,
    ];
    let mut files = files_of(alloc, &[])?;
    let mut source = source_of(Vec::new(alloc), Vec::new(alloc), Vec::new(alloc));
    let mut sink = sink_of(alloc, fail_at.to_vec(alloc)?);
    let mut trace = MemTrace::new(alloc);
    let ended = run(
        rt,
        alloc,
        &words,
        &mut files,
        &mut source,
        &mut sink,
        &mut trace,
    );
    Ok((ended.status, sink.held, inputs_in(trace.steps.as_slice())))
}

/// How many of the steps take an input.
fn inputs_in(steps: &[Step]) -> usize {
    steps
        .iter()
        .filter(|step| matches!(step, Step::Take { .. }))
        .count()
}

/// The files of which two thirds have one error each, in each of two runs. Its session opens and changes each file between `initialize`,
/// `shutdown` and `exit`, and its end is one input more.
#[test]
fn files_are_generated_and_checked(rt: HostRuntime) -> Result<(), Fail> {
    for (number, summary, inputs) in [
        ("1", "files 1\nedits 2\nerrors 1\n", 6),
        ("2", "files 2\nedits 4\nerrors 2\n", 8),
        ("3", "files 3\nedits 6\nerrors 2\n", 10),
        ("0004", "files 4\nedits 8\nerrors 3\n", 12),
        ("300", "files 300\nedits 600\nerrors 200\n", 604),
        ("300", "files 300\nedits 600\nerrors 200\n", 604),
    ] {
        let (status, held, taken) = generated(&rt, rt.alloc(), number, &[])?;
        assert_eq!(rt; held.as_slice(), summary.as_bytes());
        assert_eq!(rt; status, 0);
        assert_eq!(rt; taken, inputs);
    }
    Ok(())
}

#[test]
fn a_summary_that_cannot_be_written(rt: HostRuntime) -> Result<(), Fail> {
    let (status, held, taken) = generated(&rt, rt.alloc(), "1", &[1])?;
    assert_eq!(rt; held.as_slice(), b"".as_slice());
    assert_eq!(rt; status, 4);
    assert_eq!(rt; taken, 6);
    Ok(())
}

#[test]
fn numbers_of_files_that_are_refused(rt: HostRuntime) -> Result<(), Fail> {
    for number in ["0", "1001", "00004", "-1", ""] {
        let (status, held, taken) = generated(&rt, rt.alloc(), number, &[])?;
        assert!(rt; held.starts_with(b"usage: "));
        assert_eq!(rt; status, 2);
        assert_eq!(rt; taken, 0);
    }
    Ok(())
}
