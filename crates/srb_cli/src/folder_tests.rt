ghost use Rattle.std.specs.Prelude.{◌≡◌, IfOk};

use crate::commands::run;
use crate::session_tests::{many_files, sink_of, source_of};
use run_watch::NoTrace;
use srb_io::{Files, MemFiles, MemSink, Sink};
use srb_terms::{Cause, Ended};
use std::alloc::{AllocError, Global};
use std::sync::Wait;
use std::test::Fail;
use std::thread::Threads;

/// The files at these paths with these bytes, whose calls with these numbers fail.
fn folder_of(
    alloc: Global,
    files: &[(&str, &[u8])],
    fail_at: &[u64],
) -> Result<MemFiles, AllocError>
    ensures { IfOk result (λ f. ⟦<MemFiles as Files>⟧.faults f ≡ 0) }
{
    let mut list = Vec::new(alloc);
    for (path, bytes) in files {
        list.push((String::from_str(alloc, path)?, bytes.to_vec(alloc)?))?;
    }
    Ok(MemFiles::new(list, fail_at.to_vec(alloc)?))
}

/// How `tc d` ends over these files, with a source that can't be read.
fn ended_on<R: Threads + Wait + Sync>(
    rt: &R,
    alloc: Global,
    mut files: MemFiles,
    sink: &mut MemSink,
) -> Result<Ended, AllocError>
    requires files { ⟦<MemFiles as Files>⟧.faults files ≡ 0 }
    requires sink { ⟦<MemSink as Sink>⟧.faults sink.old ≡ 0 }
{
    let words = [
        String::from_str(alloc, "tc")?,
        String::from_str(alloc, "d")?,
    ];
    let mut source = source_of(
        b"T.let(1, String)\n".to_vec(alloc)?,
        Vec::new(alloc),
        vec![in alloc; 1; 1]?,
    );
    Ok(run(
        rt,
        alloc,
        &words,
        &mut files,
        &mut source,
        sink,
        &mut NoTrace,
    ))
}

/// The status of `tc d` over these files, and what it writes.
fn checked<R: Threads + Wait + Sync>(
    rt: &R,
    alloc: Global,
    files: MemFiles,
) -> Result<(u8, Vec<u8>), AllocError>
    requires { ⟦<MemFiles as Files>⟧.faults files ≡ 0 }
{
    let mut sink = sink_of(alloc, Vec::new(alloc));
    let ended = ended_on(rt, alloc, files, &mut sink)?;
    Ok((ended.status, sink.held))
}

/// Files in no order, of which `c.rb` is right, and their report.
const WRONG: [(&str, &[u8]); 4] = [
    ("b.rb", b")"),
    ("a/b.rb", b"# typed: true\n\nT.let(1, String)\n"),
    ("c.rb", b"# typed: true\nT.let(1, Integer)\n"),
    (
        "a.rb",
        b"# typed: true\nT.reveal_type(nil)\nT.reveal_type(1)\n",
    ),
];

const REPORT: &[u8] = b"a.rb:2:1: 7014 type is NilClass
a.rb:3:1: 7014 type is Integer
a/b.rb:3:7: 7007 expected String, found Integer
b.rb:1:1: 2001 syntax error
";

#[test]
fn reports_of_folders(rt: HostRuntime) -> Result<(), Fail> {
    let alloc = rt.alloc();
    let ignored: [(&str, &[u8]); 2] = [("a.rb", b"# typed: ignore\n)"), ("b.rb", b"\xff")];
    let right: [(&str, &[u8]); 2] = [("a.rb", b"# typed: true\nnil\n"), ("wrong.txt", b")")];
    for (files, report) in [
        ([].as_slice(), b"".as_slice()),
        (right.as_slice(), b"".as_slice()),
        (ignored.as_slice(), b"b.rb:1:1: 9009 not UTF-8\n".as_slice()),
        (WRONG.as_slice(), REPORT),
    ] {
        let (status, held) = checked(&rt, alloc, folder_of(alloc, files, &[])?)?;
        assert_eq!(rt; held.as_slice(), report);
        assert_eq!(rt; status, if report.is_empty() { 0 } else { 1 });
    }
    Ok(())
}

/// Files that declare what others name, and whose errors come of what others declare.
#[test]
fn reports_of_files_that_rest_on_one_another(rt: HostRuntime) -> Result<(), Fail> {
    let alloc = rt.alloc();
    let found: [(&str, &[u8]); 2] = [("a.rb", b"A\n"), ("b.rb", b"class A\nend\n")];
    let module: [(&str, &[u8]); 2] = [
        ("a.rb", b"module M\nend\n"),
        ("b.rb", b"class C < M\nend\n"),
    ];
    let class: [(&str, &[u8]); 2] = [("a.rb", b"class C\nend\n"), ("b.rb", b"module C\nend\n")];
    for (files, report) in [
        (found.as_slice(), b"".as_slice()),
        (
            module.as_slice(),
            b"b.rb:1:11: 9007 M cannot be inherited\n".as_slice(),
        ),
        (
            class.as_slice(),
            b"b.rb:1:8: 9004 C is already a class\n".as_slice(),
        ),
    ] {
        let (status, held) = checked(&rt, alloc, folder_of(alloc, files, &[])?)?;
        assert_eq!(rt; held.as_slice(), report);
        assert_eq!(rt; status, if report.is_empty() { 0 } else { 1 });
    }
    Ok(())
}

#[test]
fn a_call_on_the_files_that_fails(rt: HostRuntime) -> Result<(), Fail> {
    let alloc = rt.alloc();
    for call in 1..6 {
        let (status, held) = checked(&rt, alloc, folder_of(alloc, &WRONG, &[call])?)?;
        assert_eq!(rt; held.as_slice(), b"".as_slice());
        assert_eq!(rt; status, 3);
    }
    Ok(())
}

#[test]
fn a_report_that_cannot_be_written(rt: HostRuntime) -> Result<(), Fail> {
    let alloc = rt.alloc();
    let mut sink = sink_of(alloc, vec![in alloc; 1; 1]?);
    let ended = ended_on(&rt, alloc, folder_of(alloc, &WRONG, &[])?, &mut sink)?;
    assert_eq!(rt; ended.status, 4);
    assert_eq!(rt; sink.held.as_slice(), b"".as_slice());
    Ok(())
}

#[test]
fn folders_at_the_limits(rt: HostRuntime) -> Result<(), Fail> {
    let alloc = rt.alloc();
    let (status, held) = checked(&rt, alloc, many_files(alloc, 0, 0, 1_048_577)?)?;
    assert_eq!(rt;
        held.as_slice(),
        b"z.rb:1:1: 9002 file is larger than 1048576 bytes\n".as_slice()
    );
    assert_eq!(rt; status, 1);
    let mut sink = sink_of(alloc, Vec::new(alloc));
    let ended = ended_on(&rt, alloc, many_files(alloc, 4096, 0, 0)?, &mut sink)?;
    assert!(rt; matches!(&ended.cause, Cause::TooMany { files } if *files == 4097));
    assert_eq!(rt; sink.held.as_slice(), b"".as_slice());
    let mut sink = sink_of(alloc, Vec::new(alloc));
    let ended = ended_on(&rt, alloc, many_files(alloc, 16, 1_048_576, 1)?, &mut sink)?;
    assert!(rt; matches!(&ended.cause, Cause::TooBig { path } if path.as_str() == "z.rb"));
    assert_eq!(rt; sink.held.as_slice(), b"".as_slice());
    Ok(())
}

/// 500 classes in a circle: each has an error.
#[test]
fn a_circle_of_classes(rt: HostRuntime) -> Result<(), Fail> {
    let alloc = rt.alloc();
    let mut text = Vec::new(alloc);
    for n in 0..500u32 {
        let next = (n + 1) % 500;
        let class = format!(in alloc; "class C{n} < C{next}\nend\n")?;
        text.extend_from_slice(class.as_bytes())?;
    }
    let files = folder_of(alloc, &[("a.rb", text.as_slice())], &[])?;
    let (status, held) = checked(&rt, alloc, files)?;
    assert_eq!(rt; status, 1);
    assert!(rt;
        held.as_slice()
            .starts_with(b"a.rb:1:12: 9005 circular parent C1 of C0\n")
    );
    assert_eq!(rt; held.as_slice().split(|byte| *byte == b'\n').count(), 501);
    Ok(())
}
