//! The messages that bodies say, and the bodies of replies.

use lsp_msg::{Id, Out, Placed, Reason, chosen_encoding, decode, encode};
use srb_terms::{Items, Words};
use srb_text::{Encoding, Pos};
use std::alloc::{AllocError, Global};
use std::process::Abort;
use std::test::Fail;

const PARSE_ERROR: &str = "Bad { code: -32700, id: None }";

const INVALID: &str = "Bad { code: -32600, id: None }";

const BAD_OPEN: &str = "BadParams { method: textDocument/didOpen, id: None }";

const BAD_CHANGE: &str = "BadParams { method: textDocument/didChange, id: None }";

// As editors send them, with all their other members, and what each says.
const EDITORS: &[(&str, &str)] = &[
    // Visual Studio Code
    (
        r#"{"jsonrpc":"2.0","id":0,"method":"initialize","params":{"processId":4711,"clientInfo":{"name":"Visual Studio Code","version":"1.85.1"},"locale":"en","rootPath":"/home/u/p","rootUri":"file:///home/u/p","capabilities":{"workspace":{"applyEdit":true,"workspaceEdit":{"documentChanges":true,"resourceOperations":["create","rename","delete"],"failureHandling":"textOnlyTransactional"}},"textDocument":{"synchronization":{"dynamicRegistration":true,"willSave":true,"willSaveWaitUntil":true,"didSave":true}},"general":{"staleRequestSupport":{"cancel":true,"retryOnContentModified":["textDocument/semanticTokens/full"]},"regularExpressions":{"engine":"ECMAScript","version":"ES2020"},"positionEncodings":["utf-16"]}},"trace":"off","workspaceFolders":[{"uri":"file:///home/u/q","name":"q"}]}}"#,
        "Initialize { id: Number(0), root: Some(file:///home/u/p), encodings: Items { elements: [utf-16] } }",
    ),
    (
        r#"{"jsonrpc":"2.0","method":"initialized","params":{}}"#,
        "Ignored",
    ),
    (
        r#"{"jsonrpc":"2.0","method":"$/setTrace","params":{"value":"off"}}"#,
        "Ignored",
    ),
    (
        r#"{"jsonrpc":"2.0","method":"textDocument/didChange","params":{"textDocument":{"uri":"file:///p/a.rb","version":2},"contentChanges":[{"range":{"start":{"line":1,"character":4},"end":{"line":1,"character":5}},"rangeLength":1,"text":"x"},{"text":""}]}}"#,
        "Changed { uri: file:///p/a.rb, changes: Items { elements: [Change { range: Some((Pos { line: 1, unit: 4 }, Pos { line: 1, unit: 5 })), text: x }, Change { range: None, text:  }] } }",
    ),
    (
        r#"{"jsonrpc":"2.0","id":1,"method":"textDocument/hover","params":{"textDocument":{"uri":"file:///p/a.rb"},"position":{"line":1,"character":1}}}"#,
        "Unknown { id: Number(1) }",
    ),
    (
        r#"{"jsonrpc":"2.0","method":"$/cancelRequest","params":{"id":1}}"#,
        "Ignored",
    ),
    // Neovim
    (
        r#"{"id":1,"jsonrpc":"2.0","method":"initialize","params":{"workDoneToken":"1","capabilities":{"general":{"positionEncodings":["utf-8","utf-16","utf-32"]},"window":{"workDoneProgress":true}},"clientInfo":{"name":"Neovim","version":"0.11.0"},"processId":4712,"rootPath":"\/p","rootUri":"file:\/\/\/p","trace":"off","workspaceFolders":[{"name":"\/p","uri":"file:\/\/\/p"}]}}"#,
        "Initialize { id: Number(1), root: Some(file:///p), encodings: Items { elements: [utf-8, utf-16, utf-32] } }",
    ),
    (
        r#"{"jsonrpc":"2.0","method":"textDocument\/didOpen","params":{"textDocument":{"languageId":"ruby","text":"x = \"\ud83d\ude00\"\n","uri":"file:\/\/\/p\/a.rb","version":0}}}"#,
        "Opened { uri: file:///p/a.rb, text: x = \"\u{1f600}\"\n }",
    ),
    (
        r#"{"jsonrpc":"2.0","method":"textDocument\/didSave","params":{"textDocument":{"uri":"file:\/\/\/p\/a.rb"}}}"#,
        "Saved { uri: file:///p/a.rb }",
    ),
    (
        r#"{"id":2,"jsonrpc":"2.0","method":"shutdown"}"#,
        "Shutdown { id: Number(2) }",
    ),
    (r#"{"jsonrpc":"2.0","method":"exit"}"#, "Exit"),
    // Emacs
    (
        r#"{"jsonrpc":"2.0","id":1,"method":"initialize","params":{"processId":4713,"clientInfo":{"name":"Eglot","version":"1.17"},"rootPath":"/p/","rootUri":null,"initializationOptions":{},"capabilities":{"workspace":{"applyEdit":true,"workspaceFolders":true},"general":{"positionEncodings":["utf-32","utf-8","utf-16"]},"experimental":{}},"workspaceFolders":[{"uri":"file:///p","name":"~/p"},{"uri":"file:///q","name":"~/q"}]}}"#,
        "Initialize { id: Number(1), root: Some(file:///p), encodings: Items { elements: [utf-32, utf-8, utf-16] } }",
    ),
    (
        r#"{"jsonrpc":"2.0","method":"textDocument/didClose","params":{"textDocument":{"uri":"file:///p/a.rb"}}}"#,
        "Closed { uri: file:///p/a.rb }",
    ),
    (
        r#"{"jsonrpc":"2.0","id":9,"method":"shutdown","params":null}"#,
        "Shutdown { id: Number(9) }",
    ),
    (r#"{"jsonrpc":"2.0","method":"exit","params":null}"#, "Exit"),
    // The worked session, and requests at other times
    (
        r#"{"id":1,"jsonrpc":"2.0","method":"initialize","params":{"capabilities":{},"rootUri":"file:///p"}}"#,
        "Initialize { id: Number(1), root: Some(file:///p), encodings: Items { elements: [] } }",
    ),
    (
        r##"{"jsonrpc":"2.0","method":"textDocument/didOpen","params":{"textDocument":{"uri":"file:///p/a.rb","languageId":"ruby","version":1,"text":"# typed: true\nx = T.let(\"a\", Integer)\n"}}}"##,
        "Opened { uri: file:///p/a.rb, text: # typed: true\nx = T.let(\"a\", Integer)\n }",
    ),
    (
        r#"{"jsonrpc":"2.0","id":7,"method":"textDocument/definition","params":{}}"#,
        "Unknown { id: Number(7) }",
    ),
];

// No messages, ids, and names of the other kind.
const MESSAGES: &[(&str, &str)] = &[
    ("", PARSE_ERROR),
    ("{", PARSE_ERROR),
    ("{} {}", PARSE_ERROR),
    ("\u{feff}{}", PARSE_ERROR),
    (
        r#"{"jsonrpc":"2.0","method":"exit","x":1e999}"#,
        PARSE_ERROR,
    ),
    (
        r#"{"jsonrpc":"2.0","method":"exit","x":"\ud83d"}"#,
        PARSE_ERROR,
    ),
    (
        r#"{"jsonrpc":"2.0","method":"exit","x":"\ude00\ud83d"}"#,
        PARSE_ERROR,
    ),
    ("{}", INVALID),
    ("null", INVALID),
    (r#"[{"jsonrpc":"2.0","method":"exit"}]"#, INVALID),
    (r#"{"method":"exit"}"#, INVALID),
    (r#"{"jsonrpc":2.0,"method":"exit"}"#, INVALID),
    (r#"{"jsonrpc":"1.0","id":1,"method":"shutdown"}"#, INVALID),
    (
        r#"{"jsonrpc":"1.0","jsonrpc":"2.0","method":"exit"}"#,
        "Exit",
    ),
    (
        r#"{"jsonrpc":"2.0","id":null,"method":"shutdown"}"#,
        INVALID,
    ),
    (r#"{"jsonrpc":"2.0","id":1.0,"method":"shutdown"}"#, INVALID),
    (r#"{"jsonrpc":"2.0","id":1e2,"method":"shutdown"}"#, INVALID),
    (r#"{"jsonrpc":"2.0","id":-0,"method":"shutdown"}"#, INVALID),
    (r#"{"jsonrpc":"2.0","id":[1],"method":"shutdown"}"#, INVALID),
    (
        r#"{"jsonrpc":"2.0","id":9223372036854775808,"method":"shutdown"}"#,
        INVALID,
    ),
    (
        r#"{"jsonrpc":"2.0","id":-9223372036854775809,"method":"shutdown"}"#,
        INVALID,
    ),
    (
        r#"{"jsonrpc":"2.0","id":9223372036854775807,"method":"shutdown"}"#,
        "Shutdown { id: Number(9223372036854775807) }",
    ),
    (
        r#"{"jsonrpc":"2.0","id":-9223372036854775808,"method":"shutdown"}"#,
        "Shutdown { id: Number(-9223372036854775808) }",
    ),
    (
        r#"{"jsonrpc":"2.0","id":"a-1","method":"shutdown"}"#,
        "Shutdown { id: Text(a-1) }",
    ),
    (
        r#"{"jsonrpc":"2.0","id":"","method":"shutdown"}"#,
        "Shutdown { id: Text() }",
    ),
    (r#"{"jsonrpc":"2.0","id":1,"result":null}"#, "Ignored"),
    (
        r#"{"jsonrpc":"2.0","id":1,"error":{"code":1,"message":"m"}}"#,
        "Ignored",
    ),
    (
        r#"{"jsonrpc":"2.0","id":1,"result":1,"error":1}"#,
        "Ignored",
    ),
    (r#"{"jsonrpc":"2.0","result":1}"#, INVALID),
    (
        r#"{"jsonrpc":"2.0","id":1}"#,
        "Bad { code: -32600, id: Some(Number(1)) }",
    ),
    (
        r#"{"jsonrpc":"2.0","id":"a","method":1,"result":1}"#,
        "Bad { code: -32600, id: Some(Text(a)) }",
    ),
    (r#"{"jsonrpc":"2.0","method":null}"#, INVALID),
    (
        r#"{"jsonrpc":"2.0","id":1,"method":"exit"}"#,
        "Unknown { id: Number(1) }",
    ),
    (
        r#"{"jsonrpc":"2.0","id":1,"method":"textDocument/didOpen"}"#,
        "Unknown { id: Number(1) }",
    ),
    (
        r#"{"jsonrpc":"2.0","method":"initialize","params":{}}"#,
        "Ignored",
    ),
    (r#"{"jsonrpc":"2.0","method":"shutdown"}"#, "Ignored"),
    (r#"{"jsonrpc":"2.0","method":"Exit"}"#, "Ignored"),
];

const PARAMS: &[(&str, &str)] = &[
    (
        r#"{"jsonrpc":"2.0","id":1,"method":"initialize"}"#,
        "BadParams { method: initialize, id: Some(Number(1)) }",
    ),
    (
        r#"{"jsonrpc":"2.0","id":"a","method":"initialize","params":[{"rootUri":"file:///p"}]}"#,
        "BadParams { method: initialize, id: Some(Text(a)) }",
    ),
    (
        r#"{"jsonrpc":"2.0","id":1,"method":"initialize","params":{"rootUri":1,"workspaceFolders":{"0":{"uri":"u"}},"capabilities":{"general":{"positionEncodings":"utf-8"}}}}"#,
        "Initialize { id: Number(1), root: None, encodings: Items { elements: [] } }",
    ),
    (
        r#"{"jsonrpc":"2.0","id":1,"method":"initialize","params":{"workspaceFolders":[],"capabilities":{"general":{"positionEncodings":["utf-8",8,null,"x"]}}}}"#,
        "Initialize { id: Number(1), root: None, encodings: Items { elements: [utf-8, x] } }",
    ),
    (
        r#"{"jsonrpc":"2.0","method":"textDocument/didOpen"}"#,
        BAD_OPEN,
    ),
    (
        r#"{"jsonrpc":"2.0","method":"textDocument/didOpen","params":{"textDocument":{"uri":"u"}}}"#,
        BAD_OPEN,
    ),
    (
        r#"{"jsonrpc":"2.0","method":"textDocument/didOpen","params":{"textDocument":{"uri":1,"text":""}}}"#,
        BAD_OPEN,
    ),
    (
        r#"{"jsonrpc":"2.0","method":"textDocument/didSave","params":{}}"#,
        "BadParams { method: textDocument/didSave, id: None }",
    ),
    (
        r#"{"jsonrpc":"2.0","method":"textDocument/didClose","params":{"textDocument":"u"}}"#,
        "BadParams { method: textDocument/didClose, id: None }",
    ),
    (
        r#"{"jsonrpc":"2.0","method":"textDocument/didChange","params":{"textDocument":{"uri":"u"},"contentChanges":[]}}"#,
        "Changed { uri: u, changes: Items { elements: [] } }",
    ),
    (
        r#"{"jsonrpc":"2.0","method":"textDocument/didChange","params":{"textDocument":{"uri":"u"}}}"#,
        BAD_CHANGE,
    ),
    (
        r#"{"jsonrpc":"2.0","method":"textDocument/didChange","params":{"contentChanges":[]}}"#,
        BAD_CHANGE,
    ),
    (
        r#"{"jsonrpc":"2.0","method":"textDocument/didChange","params":{"textDocument":{"uri":"u"},"contentChanges":[{"text":"a"},{"text":"b","range":null}]}}"#,
        BAD_CHANGE,
    ),
    (
        r#"{"jsonrpc":"2.0","method":"textDocument/didChange","params":{"textDocument":{"uri":"u"},"contentChanges":[{"range":{"start":{"line":0,"character":0},"end":{"line":0,"character":0}}}]}}"#,
        BAD_CHANGE,
    ),
    (
        r#"{"jsonrpc":"2.0","method":"textDocument/didChange","params":{"textDocument":{"uri":"u"},"contentChanges":[{"text":"a","range":{"start":{"line":4294967295,"character":4294967296},"end":{"line":18446744073709551615,"character":0}}}]}}"#,
        "Changed { uri: u, changes: Items { elements: [Change { range: Some((Pos { line: 4294967295, unit: 4294967295 }, Pos { line: 4294967295, unit: 0 })), text: a }] } }",
    ),
];

fn check(rt: &impl Abort, alloc: Global, body: &[u8], said: &str) -> Result<(), AllocError> {
    let msg = decode(alloc, body)?;
    let text = format!(in alloc; "{msg:?}")?;
    assert_eq!(rt; text.as_str(), said);
    Ok(())
}

fn check_all(rt: &impl Abort, alloc: Global, table: &[(&str, &str)]) -> Result<(), AllocError> {
    for (body, said) in table {
        check(rt, alloc, body.as_bytes(), said)?;
    }
    Ok(())
}

#[test]
fn bodies_of_editors(rt: HostRuntime) -> Result<(), Fail> {
    check_all(&rt, rt.alloc(), EDITORS)?;
    Ok(())
}

#[test]
fn messages_and_none(rt: HostRuntime) -> Result<(), Fail> {
    check_all(&rt, rt.alloc(), MESSAGES)?;
    check(
        &rt,
        rt.alloc(),
        b"{\"jsonrpc\":\"2.0\",\"method\":\"exit\",\"x\":\"\xff\"}",
        PARSE_ERROR,
    )?;
    Ok(())
}

#[test]
fn params_of_each_method(rt: HostRuntime) -> Result<(), Fail> {
    check_all(&rt, rt.alloc(), PARAMS)?;
    Ok(())
}

fn brackets(alloc: Global, depth: usize) -> Result<Vec<u8>, AllocError> {
    let mut body = Vec::new(alloc);
    for _ in 0..depth {
        body.push(b'[')?;
    }
    for _ in 0..depth {
        body.push(b']')?;
    }
    Ok(body)
}

#[test]
fn deep_bodies(rt: HostRuntime) -> Result<(), Fail> {
    check(&rt, rt.alloc(), &brackets(rt.alloc(), 127)?, INVALID)?;
    check(&rt, rt.alloc(), &brackets(rt.alloc(), 128)?, PARSE_ERROR)?;
    Ok(())
}

fn change_at(alloc: Global, number: &str) -> Result<String, AllocError> {
    let mut body = String::from_str(
        alloc,
        r#"{"jsonrpc":"2.0","method":"textDocument/didChange","params":{"textDocument":{"uri":"u"},"contentChanges":[{"text":"a","range":{"end":{"line":0,"character":0},"start":{"line":0,"character":"#,
    )?;
    body.push_str(number)?;
    body.push_str("}}}]}}")?;
    Ok(body)
}

#[test]
fn numbers_of_no_position(rt: HostRuntime) -> Result<(), Fail> {
    for number in [
        "18446744073709551616",
        "-1",
        "-0",
        "1.0",
        "1e2",
        "null",
        "\"1\"",
    ] {
        let body = change_at(rt.alloc(), number)?;
        check(&rt, rt.alloc(), body.as_str().as_bytes(), BAD_CHANGE)?;
    }
    Ok(())
}

fn written(rt: &impl Abort, alloc: Global, out: Out, body: &str) -> Result<(), AllocError> {
    let bytes = encode(alloc, &out)?;
    assert_eq!(rt; bytes.as_slice(), body.as_bytes());
    Ok(())
}

const INITIALIZED: &str =
    r#"{"id":1,"jsonrpc":"2.0","result":{"capabilities":{"positionEncoding":"utf-16","textDocumentSync":{"change":2,"openClose":true,"save":{"includeText":false}}},"serverInfo":{"name":"srb"}}}"#;

const INITIALIZED_BY_BYTES: &str =
    r#"{"id":1,"jsonrpc":"2.0","result":{"capabilities":{"positionEncoding":"utf-8","textDocumentSync":{"change":2,"openClose":true,"save":{"includeText":false}}},"serverInfo":{"name":"srb"}}}"#;

// The names that a client lists, and the encoding that is taken.
const CHOICES: &[(&[&str], Encoding)] = &[
    (&[], Encoding::Utf16),
    (&["latin1"], Encoding::Utf16),
    (&["utf-32", "utf-16"], Encoding::Utf32),
    (&["utf-16", "utf-8"], Encoding::Utf16),
    (&["UTF-8", "utf-7", "utf-8"], Encoding::Utf8),
];

#[test]
fn choices(rt: HostRuntime) -> Result<(), Fail> {
    for (listed, encoding) in CHOICES {
        let mut names = Items::new(rt.alloc());
        for name in *listed {
            names.push(Words::from_str(rt.alloc(), name)?)?;
        }
        assert_eq!(rt; chosen_encoding(names.as_slice()), *encoding);
    }
    Ok(())
}

#[test]
fn results(rt: HostRuntime) -> Result<(), Fail> {
    let null = r#"{"id":2,"jsonrpc":"2.0","result":null}"#;
    written(
        &rt,
        rt.alloc(),
        Out::Initialized {
            id: Id::Number(1),
            encoding: Encoding::Utf16,
        },
        INITIALIZED,
    )?;
    written(
        &rt,
        rt.alloc(),
        Out::Initialized {
            id: Id::Number(1),
            encoding: Encoding::Utf8,
        },
        INITIALIZED_BY_BYTES,
    )?;
    written(&rt, rt.alloc(), Out::Null { id: Id::Number(2) }, null)?;
    Ok(())
}

#[test]
fn strange_ids(rt: HostRuntime) -> Result<(), Fail> {
    let least = r#"{"id":-9223372036854775808,"jsonrpc":"2.0","result":null}"#;
    written(
        &rt,
        rt.alloc(),
        Out::Null {
            id: Id::Number(i64::MIN),
        },
        least,
    )?;
    let text = Words::from_str(rt.alloc(), "\"\\/\n\u{8}\u{1f}\u{7f}é")?;
    let escaped = "{\"id\":\"\\\"\\\\/\\n\\b\\u001f\u{7f}é\",\"jsonrpc\":\"2.0\",\"result\":null}";
    written(&rt, rt.alloc(), Out::Null { id: Id::Text(text) }, escaped)?;
    Ok(())
}

const ERRORS: [(i32, &str); 6] = [
    (
        -32700,
        r#"{"error":{"code":-32700,"message":"parse error"},"id":null,"jsonrpc":"2.0"}"#,
    ),
    (
        -32600,
        r#"{"error":{"code":-32600,"message":"invalid request"},"id":null,"jsonrpc":"2.0"}"#,
    ),
    (
        -32601,
        r#"{"error":{"code":-32601,"message":"method not found"},"id":null,"jsonrpc":"2.0"}"#,
    ),
    (
        -32602,
        r#"{"error":{"code":-32602,"message":"invalid params"},"id":null,"jsonrpc":"2.0"}"#,
    ),
    (
        -32002,
        r#"{"error":{"code":-32002,"message":"server not initialized"},"id":null,"jsonrpc":"2.0"}"#,
    ),
    (
        7,
        r#"{"error":{"code":7,"message":"invalid request"},"id":null,"jsonrpc":"2.0"}"#,
    ),
];

#[test]
fn errors(rt: HostRuntime) -> Result<(), Fail> {
    for (code, body) in ERRORS {
        written(&rt, rt.alloc(), Out::Error { id: None, code }, body)?;
    }
    let early =
        r#"{"error":{"code":-32002,"message":"server not initialized"},"id":7,"jsonrpc":"2.0"}"#;
    let id = Some(Id::Number(7));
    written(&rt, rt.alloc(), Out::Error { id, code: -32002 }, early)?;
    Ok(())
}

const LOGS: [(Reason, &str); 6] = [
    (
        Reason::NotOpen,
        r#"{"jsonrpc":"2.0","method":"window/logMessage","params":{"message":"refused textDocument/didChange: not open","type":1}}"#,
    ),
    (
        Reason::Backwards,
        r#"{"jsonrpc":"2.0","method":"window/logMessage","params":{"message":"refused textDocument/didChange: range ends before it starts","type":1}}"#,
    ),
    (
        Reason::TooMany,
        r#"{"jsonrpc":"2.0","method":"window/logMessage","params":{"message":"refused textDocument/didChange: too many files","type":1}}"#,
    ),
    (
        Reason::TooBig,
        r#"{"jsonrpc":"2.0","method":"window/logMessage","params":{"message":"refused textDocument/didChange: too many bytes","type":1}}"#,
    ),
    (
        Reason::NotInProject,
        r#"{"jsonrpc":"2.0","method":"window/logMessage","params":{"message":"refused textDocument/didChange: not in the project","type":1}}"#,
    ),
    (
        Reason::InvalidParams,
        r#"{"jsonrpc":"2.0","method":"window/logMessage","params":{"message":"refused textDocument/didChange: invalid params","type":1}}"#,
    ),
];

#[test]
fn log_messages(rt: HostRuntime) -> Result<(), Fail> {
    for (reason, body) in LOGS {
        let method = Words::from_str(rt.alloc(), "textDocument/didChange")?;
        written(&rt, rt.alloc(), Out::Log { method, reason }, body)?;
    }
    Ok(())
}

fn one_error(alloc: Global) -> Result<Items<Placed>, AllocError> {
    let mut items = Items::new(alloc);
    items.push(Placed {
        start: Pos { line: 1, unit: 10 },
        end: Pos { line: 1, unit: 13 },
        number: 7007,
        text: Words::from_str(alloc, "expected Integer, found String")?,
    })?;
    Ok(items)
}

const LIST: &str =
    r#"{"jsonrpc":"2.0","method":"textDocument/publishDiagnostics","params":{"diagnostics":[{"code":7007,"message":"expected Integer, found String","range":{"end":{"character":13,"line":1},"start":{"character":10,"line":1}},"severity":1,"source":"srb"}],"epoch":1,"uri":"file:///p/a.rb"}}"#;

const EMPTY_LIST: &str =
    r#"{"jsonrpc":"2.0","method":"textDocument/publishDiagnostics","params":{"diagnostics":[],"epoch":18446744073709551615,"uri":"u"}}"#;

#[test]
fn lists(rt: HostRuntime) -> Result<(), Fail> {
    let uri = Words::from_str(rt.alloc(), "file:///p/a.rb")?;
    let items = one_error(rt.alloc())?;
    written(
        &rt,
        rt.alloc(),
        Out::List {
            uri,
            epoch: 1,
            items,
        },
        LIST,
    )?;
    let uri = Words::from_str(rt.alloc(), "u")?;
    let items = Items::new(rt.alloc());
    written(
        &rt,
        rt.alloc(),
        Out::List {
            uri,
            epoch: u64::MAX,
            items,
        },
        EMPTY_LIST,
    )?;
    Ok(())
}
