ghost use Rattle.std.specs.Prelude.{◌≡◌, IfOk};

use crate::commands::run;
use crate::paced_tests::is_served_in_turns;
use run_watch::NoTrace;
use srb_io::{Files, MemFiles, MemSink, MemSource, Sink, Source};
use std::alloc::{AllocError, Global};
use std::sync::Wait;
use std::test::Fail;
use std::thread::Threads;

pub(crate) const INITIALIZE: &str =
    r#"{"id":1,"jsonrpc":"2.0","method":"initialize","params":{"capabilities":{},"rootUri":"file:///p"}}"#;

pub(crate) const OPEN: &str =
    r##"{"jsonrpc":"2.0","method":"textDocument/didOpen","params":{"textDocument":{"uri":"file:///p/a.rb","languageId":"ruby","version":1,"text":"# typed: true\nx = T.let(\"a\", Integer)\n"}}}"##;

pub(crate) const SHUTDOWN: &str = r#"{"id":2,"jsonrpc":"2.0","method":"shutdown"}"#;

pub(crate) const EXIT: &str = r#"{"jsonrpc":"2.0","method":"exit"}"#;

const INITIALIZED: &str =
    r#"{"id":1,"jsonrpc":"2.0","result":{"capabilities":{"positionEncoding":"utf-16","textDocumentSync":{"change":2,"openClose":true,"save":{"includeText":false}}},"serverInfo":{"name":"srb"}}}"#;

const LIST: &str =
    r#"{"jsonrpc":"2.0","method":"textDocument/publishDiagnostics","params":{"diagnostics":[{"code":7007,"message":"expected Integer, found String","range":{"end":{"character":13,"line":1},"start":{"character":10,"line":1}},"severity":1,"source":"srb"}],"epoch":1,"uri":"file:///p/a.rb"}}"#;

const NULL: &str = r#"{"id":2,"jsonrpc":"2.0","result":null}"#;

/// The frames of these bodies.
pub(crate) fn frames_of(alloc: Global, bodies: &[&str]) -> Result<Vec<u8>, AllocError> {
    let mut frames = Vec::new(alloc);
    for body in bodies {
        let size = body.len();
        let frame = format!(in alloc; "Content-Length: {size}\r\n\r\n{body}")?;
        frames.extend_from_slice(frame.as_bytes())?;
    }
    Ok(frames)
}

pub(crate) fn source_of(bytes: Vec<u8>, pieces: Vec<u32>, fail_at: Vec<u64>) -> MemSource
    ensures { ⟦<MemSource as Source>⟧.faults result ≡ 0 }
{
    MemSource::new(bytes, pieces, fail_at)
}

pub(crate) fn sink_of(alloc: Global, fail_at: Vec<u64>) -> MemSink
    ensures { ⟦<MemSink as Sink>⟧.faults result ≡ 0 }
{
    MemSink::new(Vec::new(alloc), fail_at)
}

/// The files at these paths with these texts.
pub(crate) fn files_of(alloc: Global, files: &[(&str, &str)]) -> Result<MemFiles, AllocError>
    ensures { IfOk result (λ f. ⟦<MemFiles as Files>⟧.faults f ≡ 0) }
{
    let mut list = Vec::new(alloc);
    for (path, text) in files {
        list.push((
            String::from_str(alloc, path)?,
            text.as_bytes().to_vec(alloc)?,
        ))?;
    }
    Ok(MemFiles::new(list, Vec::new(alloc)))
}

/// The status of a call with these words over these, and what its sink holds then.
fn ended_by<R: Threads + Wait + Sync>(
    rt: &R,
    alloc: Global,
    words: &[&str],
    mut files: MemFiles,
    mut source: MemSource,
    mut sink: MemSink,
) -> Result<(u8, Vec<u8>), AllocError>
    requires files { ⟦<MemFiles as Files>⟧.faults files ≡ 0 }
    requires source { ⟦<MemSource as Source>⟧.faults source ≡ 0 }
    requires sink { ⟦<MemSink as Sink>⟧.faults sink ≡ 0 }
{
    let mut said = Vec::new(alloc);
    for word in words {
        said.push(String::from_str(alloc, word)?)?;
    }
    let ended = run(
        rt,
        alloc,
        said.as_slice(),
        &mut files,
        &mut source,
        &mut sink,
        &mut NoTrace,
    );
    Ok((ended.status, sink.held))
}

/// The status of a session over these, and what its sink holds then.
fn ended_on<R: Threads + Wait + Sync>(
    rt: &R,
    alloc: Global,
    files: MemFiles,
    source: MemSource,
    sink: MemSink,
) -> Result<(u8, Vec<u8>), AllocError>
    requires files { ⟦<MemFiles as Files>⟧.faults files ≡ 0 }
    requires source { ⟦<MemSource as Source>⟧.faults source ≡ 0 }
    requires sink { ⟦<MemSink as Sink>⟧.faults sink ≡ 0 }
{
    ended_by(rt, alloc, &["lsp", "d"], files, source, sink)
}

/// The status of a session over these files whose input is these bytes, and what it writes.
fn served<R: Threads + Wait + Sync>(
    rt: &R,
    alloc: Global,
    files: &[(&str, &str)],
    input: &[u8],
    pieces: &[u32],
) -> Result<(u8, Vec<u8>), AllocError> {
    let files = files_of(alloc, files)?;
    let source = source_of(input.to_vec(alloc)?, pieces.to_vec(alloc)?, Vec::new(alloc));
    let sink = sink_of(alloc, Vec::new(alloc));
    ended_on(rt, alloc, files, source, sink)
}

/// Whether a session over these files that reads these bodies writes those and ends with this status, in one piece and in
/// single bytes.
fn is_served<R: Threads + Wait + Sync>(
    rt: &R,
    alloc: Global,
    files: &[(&str, &str)],
    bodies: &[&str],
    written: &[&str],
    status: u8,
) -> Result<bool, AllocError> {
    let input = frames_of(alloc, bodies)?;
    let output = frames_of(alloc, written)?;
    let whole = served(rt, alloc, files, input.as_slice(), &[])?;
    let bytewise = served(rt, alloc, files, input.as_slice(), &[1])?;
    Ok(
        whole.0 == status
            && whole.1.as_slice() == output.as_slice()
            && bytewise.0 == status
            && bytewise.1.as_slice() == output.as_slice(),
    )
}

#[test]
fn a_session_on_an_empty_folder(rt: HostRuntime) -> Result<(), Fail> {
    let bodies = [INITIALIZE, OPEN, SHUTDOWN, EXIT];
    let written = [INITIALIZED, LIST, NULL];
    assert!(rt; is_served(&rt, rt.alloc(), &[], &bodies, &written, 0)?);
    assert_eq!(rt; NULL.len(), 38);
    Ok(())
}

/// The same with no worker, one, two and sixteen.
#[test]
fn a_session_with_other_numbers_of_workers(rt: HostRuntime) -> Result<(), Fail> {
    let alloc = rt.alloc();
    let output = frames_of(alloc, &[INITIALIZED, LIST, NULL])?;
    for workers in ["0", "1", "2", "16"] {
        for pieces in [[].as_slice(), &[1u32]] {
            let input = frames_of(alloc, &[INITIALIZE, OPEN, SHUTDOWN, EXIT])?;
            let source = source_of(input, pieces.to_vec(alloc)?, Vec::new(alloc));
            let sink = sink_of(alloc, Vec::new(alloc));
            let files = files_of(alloc, &[])?;
            let words = ["lsp", "--workers", workers, "d"];
            let (status, held) = ended_by(&rt, alloc, &words, files, source, sink)?;
            assert_eq!(rt; status, 0);
            assert_eq!(rt; held.as_slice(), output.as_slice());
        }
    }
    Ok(())
}

/// A client that reads no list before it gave `shutdown`: messages are read while a list is written.
#[test]
fn messages_are_read_while_a_list_is_written(rt: HostRuntime) -> Result<(), Fail> {
    let bodies = [(INITIALIZE, 0), (OPEN, 0), (SHUTDOWN, 0), (EXIT, 0)];
    let written = [INITIALIZED, LIST, NULL];
    assert!(rt; is_served_in_turns(&rt, rt.alloc(), &[], &bodies, 3, &written, 0)?);
    Ok(())
}

/// A client that opens a file only once a list of another was written.
#[test]
fn a_file_is_opened_once_a_list_was_written(rt: HostRuntime) -> Result<(), Fail> {
    let files = [("b.rb", "# typed: true\nT.reveal_type(nil)\n")];
    let first =
        r#"{"jsonrpc":"2.0","method":"textDocument/publishDiagnostics","params":{"diagnostics":[{"code":7014,"message":"type is NilClass","range":{"end":{"character":18,"line":1},"start":{"character":0,"line":1}},"severity":1,"source":"srb"}],"epoch":0,"uri":"file:///p/b.rb"}}"#;
    let bodies = [(INITIALIZE, 0), (OPEN, 2), (SHUTDOWN, 2), (EXIT, 2)];
    let written = [INITIALIZED, first, LIST, NULL];
    assert!(rt; is_served_in_turns(&rt, rt.alloc(), &files, &bodies, 0, &written, 0)?);
    Ok(())
}

/// What is read, what is written, and the status.
const ROWS: [(&[&str], &[&str], u8); 8] = [
    // before `initialize` and after `shutdown`
    (
        &[
            r#"{"jsonrpc":"2.0","id":7,"method":"textDocument/hover"}"#,
            EXIT,
        ],
        &[r#"{"error":{"code":-32002,"message":"server not initialized"},"id":7,"jsonrpc":"2.0"}"#],
        1,
    ),
    (
        &[
            INITIALIZE,
            SHUTDOWN,
            r#"{"jsonrpc":"2.0","id":3,"method":"textDocument/hover"}"#,
            EXIT,
        ],
        &[
            INITIALIZED,
            NULL,
            r#"{"error":{"code":-32600,"message":"invalid request"},"id":3,"jsonrpc":"2.0"}"#,
        ],
        0,
    ),
    // without `shutdown`, and without `exit`
    (&[INITIALIZE, OPEN, EXIT], &[INITIALIZED, LIST], 1),
    (&[INITIALIZE, OPEN, SHUTDOWN], &[INITIALIZED, LIST, NULL], 1),
    (&[INITIALIZE], &[INITIALIZED], 1),
    // a change of a file that isn't open: no edit is counted
    (
        &[
            INITIALIZE,
            r#"{"jsonrpc":"2.0","method":"textDocument/didChange","params":{"textDocument":{"uri":"file:///p/z.rb","version":2},"contentChanges":[{"text":""}]}}"#,
            OPEN,
            SHUTDOWN,
            EXIT,
        ],
        &[
            INITIALIZED,
            r#"{"jsonrpc":"2.0","method":"window/logMessage","params":{"message":"refused textDocument/didChange: not open","type":1}}"#,
            LIST,
            NULL,
        ],
        0,
    ),
    // no message
    (
        &["{}"],
        &[r#"{"error":{"code":-32600,"message":"invalid request"},"id":null,"jsonrpc":"2.0"}"#],
        1,
    ),
    // a URI that isn't one of the project
    (
        &[
            INITIALIZE,
            r#"{"jsonrpc":"2.0","method":"textDocument/didOpen","params":{"textDocument":{"uri":"untitled:1","languageId":"ruby","version":1,"text":"nil"}}}"#,
        ],
        &[
            INITIALIZED,
            r#"{"jsonrpc":"2.0","method":"window/logMessage","params":{"message":"refused textDocument/didOpen: not in the project","type":1}}"#,
        ],
        1,
    ),
];

#[test]
fn sessions_of_other_forms(rt: HostRuntime) -> Result<(), Fail> {
    for (bodies, written, status) in ROWS {
        assert!(rt; is_served(&rt, rt.alloc(), &[], bodies, written, status)?);
    }
    Ok(())
}

/// A file whose name has a blank: its URI is escaped, and read back.
#[test]
fn a_blank_in_a_path(rt: HostRuntime) -> Result<(), Fail> {
    let files = [("a b.rb", "# typed: true\nT.reveal_type(nil)\n")];
    let bodies = [
        (INITIALIZE, 0),
        (
            r#"{"jsonrpc":"2.0","method":"textDocument/didOpen","params":{"textDocument":{"uri":"file:///p/a%20b.rb","languageId":"ruby","version":1,"text":""}}}"#,
            2,
        ),
    ];
    let written = [
        INITIALIZED,
        r#"{"jsonrpc":"2.0","method":"textDocument/publishDiagnostics","params":{"diagnostics":[{"code":7014,"message":"type is NilClass","range":{"end":{"character":18,"line":1},"start":{"character":0,"line":1}},"severity":1,"source":"srb"}],"epoch":0,"uri":"file:///p/a%20b.rb"}}"#,
        r#"{"jsonrpc":"2.0","method":"textDocument/publishDiagnostics","params":{"diagnostics":[],"epoch":1,"uri":"file:///p/a%20b.rb"}}"#,
    ];
    assert!(rt; is_served_in_turns(&rt, rt.alloc(), &files, &bodies, 0, &written, 1)?);
    Ok(())
}

/// A list of no errors of `a.rb` or `b.rb`, and the one error of `b.rb` where `A` is nothing.
const NONE_IN_A_1: &str =
    r#"{"jsonrpc":"2.0","method":"textDocument/publishDiagnostics","params":{"diagnostics":[],"epoch":1,"uri":"file:///p/a.rb"}}"#;

const NONE_IN_A_2: &str =
    r#"{"jsonrpc":"2.0","method":"textDocument/publishDiagnostics","params":{"diagnostics":[],"epoch":2,"uri":"file:///p/a.rb"}}"#;

const NONE_IN_A_3: &str =
    r#"{"jsonrpc":"2.0","method":"textDocument/publishDiagnostics","params":{"diagnostics":[],"epoch":3,"uri":"file:///p/a.rb"}}"#;

const NONE_IN_B_2: &str =
    r#"{"jsonrpc":"2.0","method":"textDocument/publishDiagnostics","params":{"diagnostics":[],"epoch":2,"uri":"file:///p/b.rb"}}"#;

const LOST_IN_B_1: &str =
    r#"{"jsonrpc":"2.0","method":"textDocument/publishDiagnostics","params":{"diagnostics":[{"code":5002,"message":"constant A not found","range":{"end":{"character":1,"line":0},"start":{"character":0,"line":0}},"severity":1,"source":"srb"}],"epoch":1,"uri":"file:///p/b.rb"}}"#;

const LOST_IN_B_3: &str =
    r#"{"jsonrpc":"2.0","method":"textDocument/publishDiagnostics","params":{"diagnostics":[{"code":5002,"message":"constant A not found","range":{"end":{"character":1,"line":0},"start":{"character":0,"line":0}},"severity":1,"source":"srb"}],"epoch":3,"uri":"file:///p/b.rb"}}"#;

/// A file that names the class of another has an error once that class is gone, though no message names this file.
#[test]
fn a_class_that_another_file_names_is_taken_out(rt: HostRuntime) -> Result<(), Fail> {
    let bodies = [
        (INITIALIZE, 0),
        (
            r#"{"jsonrpc":"2.0","method":"textDocument/didOpen","params":{"textDocument":{"uri":"file:///p/a.rb","languageId":"ruby","version":1,"text":"class A\nend\n"}}}"#,
            1,
        ),
        (
            r#"{"jsonrpc":"2.0","method":"textDocument/didOpen","params":{"textDocument":{"uri":"file:///p/b.rb","languageId":"ruby","version":1,"text":"A\n"}}}"#,
            2,
        ),
        (
            r#"{"jsonrpc":"2.0","method":"textDocument/didChange","params":{"textDocument":{"uri":"file:///p/a.rb","version":2},"contentChanges":[{"text":""}]}}"#,
            3,
        ),
        (SHUTDOWN, 5),
        (EXIT, 6),
    ];
    let written = [
        INITIALIZED,
        NONE_IN_A_1,
        NONE_IN_B_2,
        NONE_IN_A_3,
        LOST_IN_B_3,
        NULL,
    ];
    assert!(rt; is_served_in_turns(&rt, rt.alloc(), &[], &bodies, 0, &written, 0)?);
    Ok(())
}

/// The text that is opened of a file counts in place of the one in the folder, and once it is closed the latter counts again.
#[test]
fn a_class_that_another_file_names_comes_back(rt: HostRuntime) -> Result<(), Fail> {
    let files = [
        ("a.rb", "class A\nend\n"),
        ("b.rb", "A\n"),
        ("c.rb", "class C\nend\n"),
    ];
    let bodies = [
        (INITIALIZE, 0),
        (
            r#"{"jsonrpc":"2.0","method":"textDocument/didOpen","params":{"textDocument":{"uri":"file:///p/a.rb","languageId":"ruby","version":1,"text":""}}}"#,
            1,
        ),
        (
            r#"{"jsonrpc":"2.0","method":"textDocument/didClose","params":{"textDocument":{"uri":"file:///p/a.rb"}}}"#,
            3,
        ),
        (SHUTDOWN, 5),
        (EXIT, 6),
    ];
    let written = [
        INITIALIZED,
        NONE_IN_A_1,
        LOST_IN_B_1,
        NONE_IN_A_2,
        NONE_IN_B_2,
        NULL,
    ];
    assert!(rt; is_served_in_turns(&rt, rt.alloc(), &files, &bodies, 0, &written, 0)?);
    Ok(())
}

/// Ranges count UTF-16 units: the second change puts `1` in the place of what the first one left of a pair.
#[test]
fn changes_of_ranges(rt: HostRuntime) -> Result<(), Fail> {
    let bodies = [
        (INITIALIZE, 0),
        (
            r##"{"jsonrpc":"2.0","method":"textDocument/didOpen","params":{"textDocument":{"uri":"file:///p/a.rb","languageId":"ruby","version":1,"text":"# typed: true\n# 😀😀\nx = '😀' )\n"}}}"##,
            1,
        ),
        (
            r#"{"jsonrpc":"2.0","method":"textDocument/didChange","params":{"textDocument":{"uri":"file:///p/a.rb","version":2},"contentChanges":[{"range":{"start":{"line":1,"character":3},"end":{"line":1,"character":6}},"text":""},{"range":{"start":{"line":1,"character":0},"end":{"line":2,"character":10}},"text":"T.reveal_type(1)"}]}}"#,
            2,
        ),
        (SHUTDOWN, 3),
        (EXIT, 4),
    ];
    let written = [
        INITIALIZED,
        r#"{"jsonrpc":"2.0","method":"textDocument/publishDiagnostics","params":{"diagnostics":[{"code":2001,"message":"syntax error","range":{"end":{"character":10,"line":2},"start":{"character":9,"line":2}},"severity":1,"source":"srb"}],"epoch":1,"uri":"file:///p/a.rb"}}"#,
        r#"{"jsonrpc":"2.0","method":"textDocument/publishDiagnostics","params":{"diagnostics":[{"code":7014,"message":"type is Integer","range":{"end":{"character":16,"line":1},"start":{"character":0,"line":1}},"severity":1,"source":"srb"}],"epoch":2,"uri":"file:///p/a.rb"}}"#,
        NULL,
    ];
    assert!(rt; is_served_in_turns(&rt, rt.alloc(), &[], &bodies, 0, &written, 0)?);
    Ok(())
}

/// Input that is no list of frames: what was read before it is checked first.
#[test]
fn input_that_breaks(rt: HostRuntime) -> Result<(), Fail> {
    let alloc = rt.alloc();
    let output = frames_of(alloc, &[INITIALIZED, LIST])?;
    for (last, status) in [
        (b"Content-Type: x\r\n\r\n".as_slice(), 5u8),
        (b"Content-Length: 16777217\r\n\r\n", 6),
        (b"Content-Length: 3\r\n\r\n{}", 5),
    ] {
        let mut input = frames_of(alloc, &[INITIALIZE, OPEN])?;
        input.extend_from_slice(last)?;
        let (ended, written) = served(&rt, alloc, &[], input.as_slice(), &[])?;
        assert_eq!(rt; ended, status);
        assert_eq!(rt; written.as_slice(), output.as_slice());
    }
    Ok(())
}

/// Each write of a session fails in turn: what was written before it stands.
#[test]
fn a_write_that_fails(rt: HostRuntime) -> Result<(), Fail> {
    let alloc = rt.alloc();
    let written = [INITIALIZED, LIST, NULL];
    for count in 0..3 {
        let input = frames_of(alloc, &[INITIALIZE, OPEN, SHUTDOWN, EXIT])?;
        let source = source_of(input, Vec::new(alloc), Vec::new(alloc));
        let sink = sink_of(alloc, vec![in alloc; count as u64 + 1; 1]?);
        let files = files_of(alloc, &[])?;
        let (status, held) = ended_on(&rt, alloc, files, source, sink)?;
        assert_eq!(rt; status, 4);
        let output = frames_of(alloc, &written[..count])?;
        assert_eq!(rt; held.as_slice(), output.as_slice());
    }
    Ok(())
}

/// How many of these messages a source gave whole in its first so many bytes.
fn given_whole(alloc: Global, bodies: &[&str], bytes: usize) -> Result<usize, AllocError> {
    let mut count = 0;
    for last in 0..bodies.len() {
        if frames_of(alloc, &bodies[..=last])?.len() <= bytes {
            count = last + 1;
        }
    }
    Ok(count)
}

/// Each read of a session fails in turn, of at most 64 bytes: the messages that were given whole before it are answered and checked first.
#[test]
fn a_read_that_fails(rt: HostRuntime) -> Result<(), Fail> {
    let alloc = rt.alloc();
    let bodies = [INITIALIZE, OPEN, SHUTDOWN, EXIT];
    let written = [INITIALIZED, LIST, NULL];
    let last = frames_of(alloc, &bodies)?.len().saturating_sub(1) / 64;
    for reads in 0..=last {
        let fail_at = vec![in alloc; (reads as u64).saturating_add(1); 1]?;
        let source = source_of(frames_of(alloc, &bodies)?, vec![in alloc; 64; 1]?, fail_at);
        let sink = sink_of(alloc, Vec::new(alloc));
        let files = files_of(alloc, &[])?;
        let (status, held) = ended_on(&rt, alloc, files, source, sink)?;
        assert_eq!(rt; status, 3);
        let count = given_whole(alloc, &bodies, reads.saturating_mul(64))?;
        let output = frames_of(alloc, &written[..count.min(3)])?;
        assert_eq!(rt; held.as_slice(), output.as_slice());
    }
    Ok(())
}

/// A file that is opened with one byte more than a file may have, and then changed to the empty text.
#[test]
fn a_text_that_is_too_large(rt: HostRuntime) -> Result<(), Fail> {
    let alloc = rt.alloc();
    let mut text = String::new(alloc);
    for _ in 0..1_048_577 {
        text.push('1')?;
    }
    let opened = format!(in alloc;
        r#"{{"jsonrpc":"2.0","method":"textDocument/didOpen","params":{{"textDocument":{{"uri":"file:///p/a.rb","languageId":"ruby","version":1,"text":"{text}"}}}}}}"#
    )?;
    let emptied =
        r#"{"jsonrpc":"2.0","method":"textDocument/didChange","params":{"textDocument":{"uri":"file:///p/a.rb","version":2},"contentChanges":[{"text":""}]}}"#;
    let too_large =
        r#"{"jsonrpc":"2.0","method":"textDocument/publishDiagnostics","params":{"diagnostics":[{"code":9002,"message":"file is larger than 1048576 bytes","range":{"end":{"character":0,"line":0},"start":{"character":0,"line":0}},"severity":1,"source":"srb"}],"epoch":1,"uri":"file:///p/a.rb"}}"#;
    let bodies = [
        (INITIALIZE, 0),
        (opened.as_str(), 1),
        (emptied, 2),
        (SHUTDOWN, 3),
        (EXIT, 4),
    ];
    let written = [INITIALIZED, too_large, NONE_IN_A_2, NULL];
    assert!(rt; is_served_in_turns(&rt, alloc, &[], &bodies, 0, &written, 0)?);
    Ok(())
}

/// The status of a session over these files that has no input, and how many bytes it writes.
fn begun<R: Threads + Wait + Sync>(
    rt: &R,
    alloc: Global,
    files: MemFiles,
) -> Result<(u8, usize), AllocError>
    requires { ⟦<MemFiles as Files>⟧.faults files ≡ 0 }
{
    let source = source_of(Vec::new(alloc), Vec::new(alloc), Vec::new(alloc));
    let sink = sink_of(alloc, Vec::new(alloc));
    let (status, written) = ended_on(rt, alloc, files, source, sink)?;
    Ok((status, written.len()))
}

/// So many files of so many bytes, and one more of this size.
pub(crate) fn many_files(
    alloc: Global,
    count: usize,
    size: usize,
    last: usize,
) -> Result<MemFiles, AllocError>
    ensures { IfOk result (λ f. ⟦<MemFiles as Files>⟧.faults f ≡ 0) }
{
    let mut list = Vec::new(alloc);
    for n in 0..count {
        let path = format!(in alloc; "{n}.rb")?;
        list.push((path, vec![in alloc; b'\n'; size]?))?;
    }
    list.push((
        String::from_str(alloc, "z.rb")?,
        vec![in alloc; b'\n'; last]?,
    ))?;
    Ok(MemFiles::new(list, Vec::new(alloc)))
}

#[test]
fn too_many_files(rt: HostRuntime) -> Result<(), Fail> {
    let files = many_files(rt.alloc(), 4096, 0, 0)?;
    assert_eq!(rt; begun(&rt, rt.alloc(), files)?, (6, 0));
    Ok(())
}

#[test]
fn as_many_bytes_as_there_may_be_and_one_more(rt: HostRuntime) -> Result<(), Fail> {
    let files = many_files(rt.alloc(), 16, 1_048_576, 0)?;
    assert_eq!(rt; begun(&rt, rt.alloc(), files)?, (1, 0));
    let files = many_files(rt.alloc(), 16, 1_048_576, 1)?;
    assert_eq!(rt; begun(&rt, rt.alloc(), files)?, (6, 0));
    Ok(())
}

/// The folder of three files can't be listed, or one of them can't be read: no message is answered.
#[test]
fn a_folder_that_fails(rt: HostRuntime) -> Result<(), Fail> {
    let alloc = rt.alloc();
    for call in 1..5u64 {
        let mut files = Vec::new(alloc);
        for path in ["a.rb", "b.rb", "c.rb"] {
            files.push((String::from_str(alloc, path)?, Vec::new(alloc)))?;
        }
        let files = MemFiles::new(files, vec![in alloc; call; 1]?);
        let input = frames_of(alloc, &[INITIALIZE, EXIT])?;
        let source = source_of(input, Vec::new(alloc), Vec::new(alloc));
        let sink = sink_of(alloc, Vec::new(alloc));
        let (status, held) = ended_on(&rt, alloc, files, source, sink)?;
        assert_eq!(rt; status, 3);
        assert_eq!(rt; held.len(), 0);
    }
    Ok(())
}
