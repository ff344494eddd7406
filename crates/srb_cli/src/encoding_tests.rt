//! Sessions whose positions count bytes, UTF-16 units or characters, as the client and the server agree.

use crate::paced_tests::is_served_in_turns;
use crate::session_tests::{EXIT, SHUTDOWN};
use std::alloc::{AllocError, Global};
use std::test::Fail;

const OPEN: &str =
    r##"{"jsonrpc":"2.0","method":"textDocument/didOpen","params":{"textDocument":{"uri":"file:///p/a.rb","languageId":"ruby","version":1,"text":"# typed: true\nx = T.let(\"😀\", Integer)\n"}}}"##;

const NO_ERRORS: &str =
    r#"{"jsonrpc":"2.0","method":"textDocument/publishDiagnostics","params":{"diagnostics":[],"epoch":2,"uri":"file:///p/a.rb"}}"#;

const NULL: &str = r#"{"id":2,"jsonrpc":"2.0","result":null}"#;

/// The encodings that a client lists, the one that the server names, where `"😀"` ends, and where `Integer` begins and ends.
const ROWS: [(&str, &str, &str, &str, &str); 6] = [
    (r#"["utf-32","utf-16"]"#, "utf-32", "13", "15", "22"),
    (r#"["utf-8"]"#, "utf-8", "16", "18", "25"),
    (r#"["utf-16"]"#, "utf-16", "14", "16", "23"),
    (r#"["latin1"]"#, "utf-16", "14", "16", "23"),
    (r#"[]"#, "utf-16", "14", "16", "23"),
    (r#"["latin1","utf-8","utf-32"]"#, "utf-8", "16", "18", "25"),
];

/// The parts as one text.
fn joined(alloc: Global, parts: &[&str]) -> Result<String, AllocError> {
    let mut text = String::from_str(alloc, "")?;
    for part in parts {
        text.push_str(part)?;
    }
    Ok(text)
}

/// The list and the edit count alike: the edit turns `Integer` into `String`, and the error goes.
#[test]
fn positions_are_of_the_encoding_that_was_agreed_on(rt: HostRuntime) -> Result<(), Fail> {
    let alloc = rt.alloc();
    for (listed, named, end, from, to) in ROWS {
        let initialize = joined(
            alloc,
            &[
                r#"{"id":1,"jsonrpc":"2.0","method":"initialize","params":{"capabilities":{"general":{"positionEncodings":"#,
                listed,
                r#"}},"rootUri":"file:///p"}}"#,
            ],
        )?;
        let change = joined(
            alloc,
            &[
                r#"{"jsonrpc":"2.0","method":"textDocument/didChange","params":{"textDocument":{"uri":"file:///p/a.rb","version":2},"contentChanges":[{"range":{"start":{"line":1,"character":"#,
                from,
                r#"},"end":{"line":1,"character":"#,
                to,
                r#"}},"text":"String"}]}}"#,
            ],
        )?;
        let initialized = joined(
            alloc,
            &[
                r#"{"id":1,"jsonrpc":"2.0","result":{"capabilities":{"positionEncoding":""#,
                named,
                r#"","textDocumentSync":{"change":2,"openClose":true,"save":{"includeText":false}}},"serverInfo":{"name":"srb"}}}"#,
            ],
        )?;
        let list = joined(
            alloc,
            &[
                r#"{"jsonrpc":"2.0","method":"textDocument/publishDiagnostics","params":{"diagnostics":[{"code":7007,"message":"expected Integer, found String","range":{"end":{"character":"#,
                end,
                r#","line":1},"start":{"character":10,"line":1}},"severity":1,"source":"srb"}],"epoch":1,"uri":"file:///p/a.rb"}}"#,
            ],
        )?;
        let bodies = [
            (initialize.as_str(), 0),
            (OPEN, 1),
            (change.as_str(), 2),
            (SHUTDOWN, 3),
            (EXIT, 3),
        ];
        let written = [initialized.as_str(), list.as_str(), NO_ERRORS, NULL];
        assert!(rt;
            is_served_in_turns(&rt, alloc, &[], &bodies, 0, &written, 0)?,
            "{listed}"
        );
    }
    Ok(())
}
