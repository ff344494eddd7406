ghost use Rattle.std.specs.Prelude.{◌≡◌, None, IfOk};

use crate::commands::run;
use run_watch::NoTrace;
use srb_io::{Failed, Files, MemFiles, MemSink, MemSource, Sink, Source};
use std::alloc::{AllocError, Global};
use std::sync::Wait;
use std::test::Fail;
use std::thread::Threads;

fn source_of(
    alloc: Global,
    bytes: &[u8],
    pieces: &[u32],
    fail_at: &[u64],
) -> Result<MemSource, AllocError>
    ensures { IfOk result (λ s. ⟦<MemSource as Source>⟧.faults s ≡ 0) }
{
    let bytes = bytes.to_vec(alloc)?;
    Ok(MemSource::new(bytes, pieces.to_vec(alloc)?, fail_at.to_vec(alloc)?))
}

fn no_files(alloc: Global) -> MemFiles
    ensures { ⟦<MemFiles as Files>⟧.faults result ≡ 0 }
{
    MemFiles::new(Vec::new(alloc), Vec::new(alloc))
}

fn sink_of(alloc: Global, fail_at: &[u64]) -> Result<MemSink, AllocError>
    ensures { IfOk result (λ s. ⟦<MemSink as Sink>⟧.faults s ≡ 0) }
{
    Ok(MemSink::new(Vec::new(alloc), fail_at.to_vec(alloc)?))
}

/// A sink that takes one byte at a time, and fails once it holds as many as it has room for.
#[derive(Drop)]
struct OneByOne {
    held: Vec<u8>,
    room: usize,
    faults: u64,
}

impl Sink for OneByOne {
    ghost held = { λ _. None };

    ghost faults = { λ s. s.faults };

    fn write(&mut self, piece: &[u8]) -> Result<usize, Failed> {
        let [first, ..] = piece else {
            return Ok(0);
        };
        if self.held.len() >= self.room || self.held.push(*first).is_err() {
            self.faults += 1;
            return Err(Failed);
        }
        Ok(1)
    }
}

/// The status of `text` on this input, and what it writes.
fn checked<R: Threads + Wait + Sync>(
    rt: &R,
    alloc: Global,
    input: &[u8],
    pieces: &[u32],
) -> Result<(u8, Vec<u8>), AllocError> {
    let words = [String::from_str(alloc, "text")?];
    let mut source = source_of(alloc, input, pieces, &[])?;
    let mut sink = sink_of(alloc, &[])?;
    let ended = run(
        rt,
        alloc,
        &words,
        &mut no_files(alloc),
        &mut source,
        &mut sink,
        &mut NoTrace,
    );
    Ok((ended.status, sink.held))
}

/// Inputs, and the reports that they have.
const ROWS: [(&str, &str); 32] = [
    ("", ""),
    (
        "# typed: true\nx = T.let(\"a\", Integer)\n",
        "stdin.rb:2:11: 7007 expected Integer, found String\n",
    ),
    ("x = T.let(\"a\", Integer)", ""),
    (
        "# typed: true\nT.reveal_type(nil)\n",
        "stdin.rb:2:1: 7014 type is NilClass\n",
    ),
    ("class A; end", ""),
    ("# typed: true\nclass A; end", ""),
    (
        "# typed: true\nT.let(true, Integer)\n",
        "stdin.rb:2:7: 7007 expected Integer, found TrueClass\n",
    ),
    (
        "# typed: true\nT.let(false, NilClass)\n_a1 = T.reveal_type(0)\n\nT.let(12, Integer)\n\"a b\"\nnil",
        "stdin.rb:2:7: 7007 expected NilClass, found FalseClass\nstdin.rb:3:7: 7014 type is Integer\n",
    ),
    (
        "#typed:strong  \nT.reveal_type(\"\")",
        "stdin.rb:2:1: 7014 type is String\n",
    ),
    ("# typed: ignore\nT.reveal_type(1)\n", ""),
    ("# typed: false\nT.reveal_type(1)\n", ""),
    (
        "# a\n\n# typed: sure\n# typed: strict\nT.reveal_type(1)\n",
        "stdin.rb:5:1: 7014 type is Integer\n",
    ),
    ("nil\n# typed: true\nT.reveal_type(1)\n", ""),
    ("# typed: ignore\n)", ""),
    ("0123456789", "stdin.rb:1:1: 9001 outside the profile\n"),
    ("1234567890123456789", ""),
    ("# typed: true\n1234567890123456789", ""),
    (
        "# typed: true\nx = 1\nx.nope",
        "stdin.rb:3:3: 7003 method nope does not exist on Integer\n",
    ),
    ("if = 1\n", "stdin.rb:1:4: 2001 syntax error\n"),
    ("1a = 1\n", "stdin.rb:1:1: 9001 outside the profile\n"),
    ("x  = 1\n", ""),
    ("x = 1 \n", ""),
    ("\t", ""),
    ("\"😀\"", ""),
    ("\"😀\" )", "stdin.rb:1:5: 2001 syntax error\n"),
    ("f -1", "stdin.rb:1:3: 2001 syntax error\n"),
    ("f(-1)", ""),
    ("f /x/", "stdin.rb:1:3: 2001 syntax error\n"),
    ("x = /a/", "stdin.rb:1:5: 9001 outside the profile\n"),
    ("class A", "stdin.rb:1:8: 2001 syntax error\n"),
    ("T.let(1, Integer)\r\n", ""),
    (
        "# typed: true\nT.let(1, String)\r\n",
        "stdin.rb:2:7: 7007 expected String, found Integer\n",
    ),
];

#[test]
fn reports_in_one_piece_and_in_single_bytes(rt: HostRuntime) -> Result<(), Fail> {
    for (input, report) in ROWS {
        let expected: u8 = if report.is_empty() { 0 } else { 1 };
        let (status, held) = checked(&rt, rt.alloc(), input.as_bytes(), &[])?;
        assert_eq!(rt; held.as_slice(), report.as_bytes());
        assert_eq!(rt; status, expected);
        let (status, held) = checked(&rt, rt.alloc(), input.as_bytes(), &[1])?;
        assert_eq!(rt; held.as_slice(), report.as_bytes());
        assert_eq!(rt; status, expected);
    }
    Ok(())
}

#[test]
fn bytes_that_are_no_text_or_no_program(rt: HostRuntime) -> Result<(), Fail> {
    for (input, report) in [
        (b"\xff".as_slice(), "stdin.rb:1:1: 9009 not UTF-8\n"),
        (
            b"# typed: ignore\n\xf0\x9f\x98",
            "stdin.rb:1:1: 9009 not UTF-8\n",
        ),
        (b"nil\0", "stdin.rb:1:4: 2001 syntax error\n"),
    ] {
        let (status, held) = checked(&rt, rt.alloc(), input, &[])?;
        assert_eq!(rt; held.as_slice(), report.as_bytes());
        assert_eq!(rt; status, 1);
    }
    Ok(())
}

/// Brackets inside one another.
fn nested(alloc: Global, count: usize) -> Result<Vec<u8>, AllocError> {
    let mut text = Vec::new(alloc);
    for _ in 0..count {
        text.push(b'[')?;
    }
    for _ in 0..count {
        text.push(b']')?;
    }
    Ok(text)
}

#[test]
fn brackets_of_two_hundred_levels(rt: HostRuntime) -> Result<(), Fail> {
    let input = nested(rt.alloc(), 200)?;
    let (status, held) = checked(&rt, rt.alloc(), input.as_slice(), &[])?;
    assert_eq!(rt; held.as_slice(), b"".as_slice());
    assert_eq!(rt; status, 0);
    let input = nested(rt.alloc(), 201)?;
    let (status, held) = checked(&rt, rt.alloc(), input.as_slice(), &[])?;
    assert_eq!(rt;
        held.as_slice(),
        b"stdin.rb:1:201: 9008 nesting is deeper than 200\n".as_slice()
    );
    assert_eq!(rt; status, 1);
    Ok(())
}

#[test]
fn sizes_at_the_limits(rt: HostRuntime) -> Result<(), Fail> {
    let alloc = rt.alloc();
    let mut input = vec![in alloc; b'\n'; 1_048_576]?;
    let (status, held) = checked(&rt, rt.alloc(), input.as_slice(), &[])?;
    assert_eq!(rt; held.as_slice(), b"".as_slice());
    assert_eq!(rt; status, 0);
    input.push(b'\n')?;
    let (status, held) = checked(&rt, rt.alloc(), input.as_slice(), &[])?;
    assert_eq!(rt;
        held.as_slice(),
        b"stdin.rb:1:1: 9002 file is larger than 1048576 bytes\n".as_slice()
    );
    assert_eq!(rt; status, 1);
    let mut input = vec![in alloc; b'\n'; 16_777_216]?;
    let (status, _) = checked(&rt, rt.alloc(), input.as_slice(), &[])?;
    assert_eq!(rt; status, 1);
    input.push(b'\n')?;
    let (status, held) = checked(&rt, rt.alloc(), input.as_slice(), &[])?;
    assert_eq!(rt; held.as_slice(), b"".as_slice());
    assert_eq!(rt; status, 6);
    Ok(())
}

#[test]
fn other_words(rt: HostRuntime) -> Result<(), Fail> {
    let alloc = rt.alloc();
    for words in [
        [].as_slice(),
        &["tc"],
        &["tc", "-d"],
        &["tc", ""],
        &["tc", "d", "e"],
        &["text", "text"],
        &["Text"],
        &["--help"],
    ] {
        let mut list = Vec::new(alloc);
        for word in words {
            list.push(String::from_str(alloc, word)?)?;
        }
        let mut source = source_of(alloc, b"nil", &[], &[])?;
        let mut sink = sink_of(alloc, &[])?;
        let ended = run(
            &rt,
            alloc,
            list.as_slice(),
            &mut no_files(alloc),
            &mut source,
            &mut sink,
            &mut NoTrace,
        );
        assert_eq!(rt; ended.status, 2);
        assert_eq!(rt;
            sink.held.as_slice(),
            b"usage: srb text | srb tc DIR | srb lsp DIR [--workers N] | srb gen N\n".as_slice()
        );
    }
    Ok(())
}

#[test]
fn a_source_that_fails_at_each_of_its_reads(rt: HostRuntime) -> Result<(), Fail> {
    let alloc = rt.alloc();
    let words = [String::from_str(alloc, "text")?];
    for call in 1..6 {
        let mut source = source_of(alloc, b"nil\n", &[1], &[call])?;
        let mut sink = sink_of(alloc, &[])?;
        let ended = run(
            &rt,
            alloc,
            &words,
            &mut no_files(alloc),
            &mut source,
            &mut sink,
            &mut NoTrace,
        );
        assert_eq!(rt; ended.status, 3);
        assert_eq!(rt; sink.held.as_slice(), b"".as_slice());
    }
    Ok(())
}

#[test]
fn a_sink_that_fails_or_takes_one_byte_at_a_time(rt: HostRuntime) -> Result<(), Fail> {
    let alloc = rt.alloc();
    let words = [String::from_str(alloc, "text")?];
    let report = b"stdin.rb:1:1: 2001 syntax error\n";
    let mut source = source_of(alloc, b")", &[], &[])?;
    let mut sink = sink_of(alloc, &[1])?;
    let ended = run(
        &rt,
        alloc,
        &words,
        &mut no_files(alloc),
        &mut source,
        &mut sink,
        &mut NoTrace,
    );
    assert_eq!(rt; ended.status, 4);
    assert_eq!(rt; sink.held.as_slice(), b"".as_slice());
    for room in [0, 1, 20, report.len() - 1, report.len(), 100] {
        let mut source = source_of(alloc, b")", &[], &[])?;
        let mut sink = OneByOne {
            held: Vec::new(alloc),
            room,
            faults: 0,
        };
        let ended = run(
            &rt,
            alloc,
            &words,
            &mut no_files(alloc),
            &mut source,
            &mut sink,
            &mut NoTrace,
        );
        let whole = room >= report.len();
        assert_eq!(rt; ended.status, if whole { 1 } else { 4 });
        assert_eq!(rt; sink.held.len(), if whole { report.len() } else { room });
        assert!(rt; report.starts_with(sink.held.as_slice()));
    }
    Ok(())
}
