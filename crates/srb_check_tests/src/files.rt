//! The reports of single files.

use srb_check::{fresh, load, push_report};
use srb_terms::{Diag, Level, Name, Project, Span, Words};
use std::alloc::{AllocError, Global};
use std::process::Abort;
use std::test::Fail;

/// The errors of a file.
fn errors_in(alloc: Global, bytes: &[u8]) -> Result<Vec<Diag>, Fail> {
    let path = Name::from_str(alloc, "f")?;
    let project = Project::from_file(alloc, path, bytes.to_vec(alloc)?)?;
    Ok(fresh(alloc, &project, "f")?)
}

/// The report of a file.
fn reported(alloc: Global, bytes: &[u8]) -> Result<Vec<u8>, Fail> {
    let errors = errors_in(alloc, bytes)?;
    let mut report = Vec::new(alloc);
    push_report(&mut report, "f", bytes, errors.as_slice())?;
    Ok(report)
}

fn all_reported<R: Abort + AllocGlobal>(rt: &R, rows: &[(&str, &str)]) -> Result<(), Fail> {
    for (source, expected) in rows {
        let report = reported(rt.alloc(), source.as_bytes())?;
        assert!(rt; report.as_slice() == expected.as_bytes(), "{source}");
    }
    Ok(())
}

#[test]
fn texts_that_are_no_program(rt: HostRuntime) -> Result<(), Fail> {
    all_reported(
        &rt,
        &[
            ("f -1", "f:1:3: 2001 syntax error\n"),
            ("f(-1)", ""),
            ("f /x/", "f:1:3: 2001 syntax error\n"),
            ("x = /a/", "f:1:5: 9001 outside the profile\n"),
            ("class A", "f:1:8: 2001 syntax error\n"),
            ("class A # b", "f:1:12: 2001 syntax error\n"),
            ("class A\n# b\n# c\n", "f:4:1: 2001 syntax error\n"),
            ("x = end", "f:1:5: 2001 syntax error\n"),
            ("def m(a = 1, b)\nend", "f:1:15: 2001 syntax error\n"),
            ("\"a", "f:1:3: 2001 syntax error\n"),
            ("\"a\\", "f:1:4: 2001 syntax error\n"),
            ("\u{feff}x", "f:1:1: 9001 outside the profile\n"),
            ("x\0", "f:1:2: 2001 syntax error\n"),
            (")", "f:1:1: 2001 syntax error\n"),
            ("# typed: ignore\n)", ""),
            ("# typed: ignore\n\"", ""),
            ("# typed: strong\nx = ", "f:2:5: 2001 syntax error\n"),
            ("x = 'é' + é", "f:1:11: 9001 outside the profile\n"),
            ("begin\n  1\nend while f", "f:3:5: 2001 syntax error\n"),
            ("retry", "f:1:1: 9001 outside the profile\n"),
        ],
    )
}

#[test]
fn types_of_programs(rt: HostRuntime) -> Result<(), Fail> {
    all_reported(
        &rt,
        &[
            ("# typed: true\n", ""),
            (
                "# typed: true\nT.let(true, Integer)",
                "f:2:7: 7007 expected Integer, found TrueClass\n",
            ),
            (
                "# typed: true\nx = T.reveal_type(\"a b\")",
                "f:2:5: 7014 type is String\n",
            ),
            (
                "# typed: true\n_1a = T.let(false, NilClass)",
                "f:2:13: 7007 expected NilClass, found FalseClass\n",
            ),
            (
                "# typed: strict\nT.let('', String)\n0\nx = nil; T.reveal_type(1)",
                "f:4:10: 7014 type is Integer\n",
            ),
            (
                "# typed: strong\nT.let( nil,\n  String # a\n)",
                "f:2:8: 7007 expected String, found NilClass\n",
            ),
            (
                "# typed: true\nx = T.reveal_type nil\nT.let 1, String",
                "f:2:5: 7014 type is NilClass\nf:3:7: 7007 expected String, found Integer\n",
            ),
            ("# typed: true\nT.let(123456789012345678, Integer)", ""),
            ("# typed: false\nT.let(1, String)\nT.reveal_type(1)", ""),
            ("T.let(1, String)\n# typed: true", ""),
            ("class A; end", ""),
            (
                "# typed: true\nT.let(1, String)\nclass A; end",
                "f:2:7: 7007 expected String, found Integer\n",
            ),
            (
                "# typed: true\nx = nil\nwhile T.unsafe(true)\n  x = 1\nend\nT.reveal_type(x)\n",
                "f:4:7: 7001 variable x stays NilClass in a loop or block, found Integer\nf:6:1: 7014 type is NilClass\n",
            ),
        ],
    )
}

#[test]
fn levels_show_errors_of_types(rt: HostRuntime) -> Result<(), Fail> {
    all_reported(
        &rt,
        &[
            ("# typed: false\nx = 1\nx.nope\n@x\n", ""),
            (
                "# typed: true\nx = 1\nx.nope\n@x\n",
                "f:3:3: 7003 method nope does not exist on Integer\n",
            ),
            (
                "# typed: strict\n@x\nx = T.unsafe(1)\nx.foo\n",
                "f:2:1: 6002 instance variable @x is not declared\n",
            ),
            (
                "# typed: strong\nx = T.unsafe(1)\nx.foo\n",
                "f:3:3: 7018 call of foo on an untyped receiver\n",
            ),
        ],
    )
}

#[test]
fn attributes_and_initializers_are_judged(rt: HostRuntime) -> Result<(), Fail> {
    all_reported(
        &rt,
        &[
            (
                "# typed: true\nclass A\n  extend T::Sig\n  sig { returns(Integer) }\n  attr_reader :a\n  def initialize\n    @a = T.let(\"s\", String)\n  end\nend\n",
                "f:5:15: 7005 result expects Integer, found String\n",
            ),
            (
                "# typed: true\nclass A\n  extend T::Sig\n  sig { returns(Integer) }\n  attr_reader :a\n  sig { params(a: Integer).void }\n  def initialize(a)\n    @a = a\n  end\nend\nT.reveal_type(A.new(1).a)\n",
                "f:11:1: 7014 type is Integer\n",
            ),
        ],
    )
}

/// A line of so many opening brackets and as many closing ones.
fn nested(alloc: Global, depth: usize) -> Result<Vec<u8>, AllocError> {
    let mut source = Vec::new(alloc);
    for _ in 0..depth {
        source.push(b'[')?;
    }
    for _ in 0..depth {
        source.push(b']')?;
    }
    Ok(source)
}

/// The sum of 1 and as many further ones.
fn summed(alloc: Global, count: usize) -> Result<Vec<u8>, AllocError> {
    let mut source = b"1".to_vec(alloc)?;
    for _ in 0..count {
        source.extend_from_slice(b"+1")?;
    }
    Ok(source)
}

/// A text of so many bytes after this front.
fn padded(alloc: Global, front: &[u8], size: usize) -> Result<Vec<u8>, AllocError> {
    let mut source = front.to_vec(alloc)?;
    for _ in source.len()..size {
        source.push(b'\n')?;
    }
    Ok(source)
}

#[test]
fn limits_of_a_file(rt: HostRuntime) -> Result<(), Fail> {
    let alloc = rt.alloc();
    let rows = [
        (nested(alloc, 200)?, ""),
        (
            nested(alloc, 201)?,
            "f:1:201: 9008 nesting is deeper than 200\n",
        ),
        (summed(alloc, 200)?, ""),
        (
            summed(alloc, 201)?,
            "f:1:402: 9008 nesting is deeper than 200\n",
        ),
        (padded(alloc, b"", 1_048_576)?, ""),
        (
            padded(alloc, b"# typed: ignore\n", 1_048_577)?,
            "f:1:1: 9002 file is larger than 1048576 bytes\n",
        ),
        (b"\xff".to_vec(alloc)?, "f:1:1: 9009 not UTF-8\n"),
        (
            b"# typed: ignore\n\xff".to_vec(alloc)?,
            "f:1:1: 9009 not UTF-8\n",
        ),
    ];
    for (source, expected) in &rows {
        let report = reported(alloc, source.as_slice())?;
        assert!(rt; report.as_slice() == expected.as_bytes(), "{expected}");
    }
    Ok(())
}

#[test]
fn places_have_ends(rt: HostRuntime) -> Result<(), Fail> {
    let alloc = rt.alloc();
    for (source, start, end) in [
        ("f -1", 2, 3),
        ("x = end", 4, 7),
        ("class A # b", 11, 11),
        ("x = é", 4, 6),
        ("# typed: true\nT.let(true, Integer)", 20, 24),
        ("# typed: true\nx = T.reveal_type(1)", 18, 34),
        ("# typed: true\nx = T.reveal_type 1", 18, 33),
    ] {
        let errors = errors_in(alloc, source.as_bytes())?;
        assert_eq!(rt; errors.len(), 1, "{source}");
        assert_eq!(rt; errors[0].span, Span { start, end }, "{source}");
    }
    Ok(())
}

#[test]
fn records_keep_texts_and_trees(rt: HostRuntime) -> Result<(), Fail> {
    let alloc = rt.alloc();
    for (source, level, text, tree, error) in [
        (
            b"# typed: strict\nx = 1".as_slice(),
            Level::Strict,
            true,
            true,
            false,
        ),
        (
            b"# typed: true\n)".as_slice(),
            Level::True,
            true,
            false,
            true,
        ),
        (
            b"# typed: ignore\nx".as_slice(),
            Level::Ignore,
            true,
            false,
            false,
        ),
        (b"\xff".as_slice(), Level::False, false, false, true),
    ] {
        let file = load(alloc, source)?;
        assert_eq!(rt; file.level, level);
        assert_eq!(rt; file.text.is_some(), text);
        assert_eq!(rt; file.tree.is_some(), tree);
        assert_eq!(rt; file.error.is_some(), error);
    }
    Ok(())
}

#[test]
fn fresh_errors_of_a_file_and_of_none(rt: HostRuntime) -> Result<(), Fail> {
    let alloc = rt.alloc();
    let bytes = b"# typed: true\nT.reveal_type(nil)\n".to_vec(alloc)?;
    let project = Project::from_file(alloc, Name::from_str(alloc, "a.rb")?, bytes)?;
    let errors = fresh(alloc, &project, "a.rb")?;
    assert_eq!(rt; errors.len(), 1);
    assert_eq!(rt; errors[0].number, 7014);
    assert_eq!(rt; errors[0].text.as_str(), "type is NilClass");
    assert_eq!(rt; fresh(alloc, &project, "b.rb")?.len(), 0);
    Ok(())
}

/// An error that starts at this offset.
fn error_at(alloc: Global, start: u32) -> Result<Diag, AllocError> {
    Ok(Diag {
        span: Span { start, end: start },
        number: 1,
        text: Words::from_str(alloc, "x")?,
    })
}

/// Offsets of a text with characters of one, two and four bytes and each kind of line end, and their lines and columns. The
/// last ones are out of order and after the end.
const OFFSETS: [u32; 11] = [0, 2, 3, 4, 8, 9, 10, 11, 12, 2, 99];

const REPORT: &str =
    "f:1:1: 1 x\nf:1:2: 1 x\nf:1:2: 1 x\nf:2:1: 1 x\nf:2:2: 1 x\nf:2:3: 1 x\nf:3:1: 1 x\nf:3:2: 1 x\nf:4:1: 1 x\nf:1:2: 1 x\nf:4:1: 1 x\n";

#[test]
fn columns_count_characters(rt: HostRuntime) -> Result<(), Fail> {
    let alloc = rt.alloc();
    let mut errors = Vec::new(alloc);
    for start in OFFSETS {
        errors.push(error_at(alloc, start)?)?;
    }
    let mut report = Vec::new(alloc);
    push_report(
        &mut report,
        "f",
        "é\r\n😀b\rc\n".as_bytes(),
        errors.as_slice(),
    )?;
    assert_eq!(rt; report.as_slice(), REPORT.as_bytes());
    Ok(())
}
