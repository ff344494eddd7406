//! Edits of documents, and the documents that they leave.

use lsp_docs::{Applied, DocEnd, Docs};
use lsp_msg::{Change, Msg};
use srb_terms::{Diag, Items, Name, Project, Span, Words};
use srb_text::{Encoding, Pos};
use std::alloc::{AllocError, Global};
use std::test::Fail;

const A: &str = "file:///p/a.rb";

const B: &str = "file:///p/b.rb";

const A_EDITED: &str = "Ok(Applied { path: a.rb, edit: true })";

const B_EDITED: &str = "Ok(Applied { path: b.rb, edit: true })";

const A_SAVED: &str = "Ok(Applied { path: a.rb, edit: false })";

const UNKNOWN: &str = "Err(Unknown)";

const FOREIGN: &str = "Err(Foreign)";

fn rooted(alloc: Global, root: &str) -> Result<Docs, AllocError> {
    let mut docs = Docs::new(alloc, Project::new(alloc))?;
    let root = Words::from_str(alloc, root)?;
    docs.set_root(alloc, Some(&root))?;
    Ok(docs)
}

fn put(
    docs: &mut Docs,
    alloc: Global,
    uri: Words,
    range: Option<(Pos, Pos)>,
    text: Words,
) -> Result<Applied, DocEnd> {
    let mut changes = Items::new(alloc);
    changes.push(Change { range, text })?;
    docs.apply(alloc, &Msg::Changed { uri, changes })
}

// Opens, saves or closes the document, or puts the text in the place of all of it or of its start.
fn step(
    docs: &mut Docs,
    alloc: Global,
    what: &str,
    uri: &str,
    text: &str,
) -> Result<Applied, DocEnd> {
    let start = Pos { line: 0, unit: 0 };
    let uri = Words::from_str(alloc, uri)?;
    let text = Words::from_str(alloc, text)?;
    match what {
        "open" => docs.apply(alloc, &Msg::Opened { uri, text }),
        "save" => docs.apply(alloc, &Msg::Saved { uri }),
        "close" => docs.apply(alloc, &Msg::Closed { uri }),
        "insert" => put(docs, alloc, uri, Some((start, start)), text),
        _ => put(docs, alloc, uri, None, text),
    }
}

// What comes of a step, as a text.
fn told(
    docs: &mut Docs,
    alloc: Global,
    what: &str,
    uri: &str,
    text: &str,
) -> Result<String, AllocError> {
    format!(in alloc; "{:?}", step(docs, alloc, what, uri, text))
}

// What the project has at the path.
fn shown(docs: &Docs, alloc: Global, path: &str) -> Result<String, Fail> {
    let path = Name::from_str(alloc, path)?;
    match docs.bytes(&path) {
        Some(bytes) => Ok(String::from_str(alloc, std::str::from_utf8(bytes)?)?),
        None => Ok(String::from_str(alloc, "none")?),
    }
}

// The two places of a change of `a😀b` and a line feed, its text, what comes of it, and the text then.
const EDITS: &[(u32, u32, u32, u32, &str, &str, &str)] = &[
    (0, 3, 0, 4, "c", A_EDITED, "a😀c\n"),
    (0, 2, 0, 3, "", A_EDITED, "ab\n"),
    (9, 0, 9, 0, "q", A_EDITED, "a😀b\nq"),
    (
        0,
        4,
        0,
        1,
        "",
        "Err(Backwards { start: 6, end: 1 })",
        "a😀b\n",
    ),
];

fn edit(docs: &mut Docs, alloc: Global, from: Pos, to: Pos, text: &str) -> Result<String, Fail> {
    let uri = Words::from_str(alloc, A)?;
    let text = Words::from_str(alloc, text)?;
    let told = put(docs, alloc, uri, Some((from, to)), text);
    Ok(format!(in alloc; "{told:?}")?)
}

#[test]
fn edits_by_utf16_units(rt: HostRuntime) -> Result<(), Fail> {
    let alloc = rt.alloc();
    for (line, unit, end_line, end_unit, text, outcome, now) in EDITS {
        let mut docs = rooted(alloc, "file:///p")?;
        step(&mut docs, alloc, "open", A, "a😀b\n")?;
        let from = Pos {
            line: *line,
            unit: *unit,
        };
        let to = Pos {
            line: *end_line,
            unit: *end_unit,
        };
        let told = edit(&mut docs, alloc, from, to, text)?;
        assert!(rt; told.as_str() == *outcome);
        assert!(rt; shown(&docs, alloc, "a.rb")?.as_str() == *now);
    }
    Ok(())
}

// An encoding, the places of a change of `a😀b` and a line feed, its text, and the text then.
const OTHER_EDITS: &[(Encoding, u32, u32, &str, &str)] = &[
    (Encoding::Utf8, 5, 6, "c", "a😀c\n"),
    (Encoding::Utf8, 3, 5, "", "ab\n"),
    (Encoding::Utf32, 2, 3, "c", "a😀c\n"),
    (Encoding::Utf32, 1, 2, "", "ab\n"),
];

#[test]
fn edits_by_what_was_agreed_on(rt: HostRuntime) -> Result<(), Fail> {
    let alloc = rt.alloc();
    for (encoding, unit, end_unit, text, now) in OTHER_EDITS {
        let mut docs = rooted(alloc, "file:///p")?;
        docs.set_encoding(*encoding);
        step(&mut docs, alloc, "open", A, "a😀b\n")?;
        let from = Pos {
            line: 0,
            unit: *unit,
        };
        let to = Pos {
            line: 0,
            unit: *end_unit,
        };
        let told = edit(&mut docs, alloc, from, to, text)?;
        assert!(rt; told.as_str() == A_EDITED);
        assert!(rt; shown(&docs, alloc, "a.rb")?.as_str() == *now);
    }
    Ok(())
}

// Two changes of one message, the second of which is refused, change nothing.
#[test]
fn a_refused_change_takes_the_others_back(rt: HostRuntime) -> Result<(), Fail> {
    let alloc = rt.alloc();
    let mut docs = rooted(alloc, "file:///p")?;
    step(&mut docs, alloc, "open", A, "a")?;
    let mut changes = Items::new(alloc);
    let far = Pos { line: 0, unit: 2 };
    let near = Pos { line: 0, unit: 1 };
    for range in [None, Some((far, near))] {
        changes.push(Change {
            range,
            text: Words::from_str(alloc, "xy")?,
        })?;
    }
    let uri = Words::from_str(alloc, A)?;
    let told = docs.apply(alloc, &Msg::Changed { uri, changes });
    let told = format!(in alloc; "{told:?}")?;
    assert!(rt; told.as_str() == "Err(Backwards { start: 2, end: 1 })");
    assert!(rt; shown(&docs, alloc, "a.rb")?.as_str() == "a");
    Ok(())
}

// What is done with a document, what comes of it, and what `a.rb` has then.
const SESSION: &[(&str, &str, &str, &str, &str)] = &[
    ("put", A, "zero", UNKNOWN, "none"),
    ("open", A, "one", A_EDITED, "one"),
    ("open", A, "two", A_EDITED, "two"),
    ("save", A, "", A_SAVED, "two"),
    ("put", A, "three", A_EDITED, "three"),
    ("open", A, "four", A_EDITED, "four"),
    ("open", B, "other", B_EDITED, "four"),
    ("close", A, "", A_EDITED, "two"),
    ("close", A, "", UNKNOWN, "two"),
    ("put", A, "five", UNKNOWN, "two"),
    ("save", A, "", UNKNOWN, "two"),
    ("close", B, "", B_EDITED, "two"),
    ("save", B, "", UNKNOWN, "two"),
    ("open", A, "six", A_EDITED, "six"),
    ("open", "untitled:1", "", FOREIGN, "six"),
    ("close", "file:///q/a.rb", "", FOREIGN, "six"),
    ("save", "file:///p/a.txt", "", FOREIGN, "six"),
    ("put", "file:///p/%FF.rb", "", FOREIGN, "six"),
    ("put", "file:///p/%61.rb", "seven", A_EDITED, "seven"),
];

#[test]
fn brings_back_what_was_saved(rt: HostRuntime) -> Result<(), Fail> {
    let alloc = rt.alloc();
    let mut docs = rooted(alloc, "file:///p")?;
    for (what, uri, text, outcome, now) in SESSION {
        assert!(rt; told(&mut docs, alloc, what, uri, text)?.as_str() == *outcome);
        assert!(rt; shown(&docs, alloc, "a.rb")?.as_str() == *now);
    }
    Ok(())
}

#[test]
fn takes_as_many_files_as_fit(rt: HostRuntime) -> Result<(), Fail> {
    let alloc = rt.alloc();
    let mut docs = rooted(alloc, "file:///p")?;
    for number in 0..4096 {
        let uri = format!(in alloc; "file:///p/{number}.rb")?;
        step(&mut docs, alloc, "open", uri.as_str(), "")?;
    }
    let told = told(&mut docs, alloc, "open", A, "")?;
    assert!(rt; told.as_str() == "Err(TooMany { count: 4096 })");
    step(&mut docs, alloc, "close", "file:///p/8.rb", "")?;
    step(&mut docs, alloc, "open", A, "")?;
    Ok(())
}

// What comes of each, after a document of as many bytes as fit was opened.
const FULL: &[(&str, &str, &str, &str)] = &[
    ("open", B, "y", "Err(TooBig { bytes: 16777217 })"),
    ("insert", A, "y", "Err(TooBig { bytes: 16777217 })"),
    ("save", A, "", A_SAVED),
    ("put", A, "", A_EDITED),
    ("open", B, "y", B_EDITED),
    ("close", A, "", "Err(TooBig { bytes: 16777217 })"),
    ("put", A, "z", A_EDITED),
    ("close", B, "", B_EDITED),
    ("close", A, "", A_EDITED),
];

#[test]
fn takes_as_many_bytes_as_fit(rt: HostRuntime) -> Result<(), Fail> {
    let alloc = rt.alloc();
    let mut docs = rooted(alloc, "file:///p")?;
    let most = String::from_utf8(vec![in alloc; b'x'; 16_777_216]?)?;
    step(&mut docs, alloc, "open", A, most.as_str())?;
    for (what, uri, text, outcome) in FULL {
        assert!(rt; told(&mut docs, alloc, what, uri, text)?.as_str() == *outcome);
    }
    Ok(())
}

// A root, a path, and its URI.
const URIS: &[(&str, &str, &str)] = &[
    ("file:///p", "a b.rb", "file:///p/a%20b.rb"),
    ("file:///p//", "d/ü.rb", "file:///p/d/%C3%BC.rb"),
    ("file:///", "50%.rb", "file:///50%25.rb"),
    ("x", "A-z_0~.rb", "x/A-z_0~.rb"),
    ("f:/", "[a].rb", "f:/%5Ba%5D.rb"),
];

#[test]
fn writes_uris_and_reads_them_back(rt: HostRuntime) -> Result<(), Fail> {
    let alloc = rt.alloc();
    for (root, path, uri) in URIS {
        let mut docs = rooted(alloc, root)?;
        let name = Name::from_str(alloc, path)?;
        assert!(rt; docs.uri(alloc, &name)?.as_str() == *uri);
        assert!(rt; step(&mut docs, alloc, "open", uri, "")?.path.is_same(&name));
    }
    Ok(())
}

// The bytes of a file, an error's two offsets, and its places.
const PLACES: &[(&[u8], u32, u32, &str)] = &[
    (b"a\xf0\x9f\x98\x80b\n", 1, 5, "0:1 0:3"),
    (b"a\xf0\x9f\x98\x80b\n", 2, 4, "0:1 0:1"),
    (b"a\xf0\x9f\x98\x80b\n", 7, 99, "1:0 1:0"),
    (b"x\r\ny", 2, 4, "0:1 1:1"),
    (b"\xff\n\n", 0, 2, "0:0 0:0"),
    (b"", 0, 7, "0:0 0:0"),
];

// The documents of a project with one file, `a.rb`.
fn one_file(alloc: Global, bytes: &[u8]) -> Result<Docs, Fail> {
    if bytes.len() > 1000 {
        return Err("too many bytes".into());
    }
    let path = Name::from_str(alloc, "a.rb")?;
    let project = Project::from_file(alloc, path, bytes.to_vec(alloc)?)?;
    Ok(Docs::new(alloc, project)?)
}

// The places of an error of `a.rb`, as a text.
fn places(docs: &Docs, alloc: Global, start: u32, end: u32) -> Result<String, Fail> {
    let path = Name::from_str(alloc, "a.rb")?;
    let error = Diag {
        span: Span { start, end },
        number: 2001,
        text: Words::from_str(alloc, "")?,
    };
    let list = docs.placed(alloc, &path, &[error])?;
    let one = list.get(0).ok_or("no error")?;
    let (from, to) = (one.start, one.end);
    Ok(format!(in alloc; "{}:{} {}:{}", from.line, from.unit, to.line, to.unit)?)
}

#[test]
fn places_errors(rt: HostRuntime) -> Result<(), Fail> {
    let alloc = rt.alloc();
    for (bytes, start, end, found) in PLACES {
        let docs = one_file(alloc, bytes)?;
        assert!(rt; places(&docs, alloc, *start, *end)?.as_str() == *found);
    }
    Ok(())
}

// An encoding, and the places of the error that stands on the `b` of `a😀b`.
const OTHER_PLACES: &[(Encoding, &str)] = &[
    (Encoding::Utf8, "0:5 0:6"),
    (Encoding::Utf16, "0:3 0:4"),
    (Encoding::Utf32, "0:2 0:3"),
];

#[test]
fn places_errors_by_what_was_agreed_on(rt: HostRuntime) -> Result<(), Fail> {
    let alloc = rt.alloc();
    for (encoding, found) in OTHER_PLACES {
        let mut docs = one_file(alloc, "a😀b\n".as_bytes())?;
        docs.set_encoding(*encoding);
        assert!(rt; places(&docs, alloc, 5, 6)?.as_str() == *found);
    }
    Ok(())
}
