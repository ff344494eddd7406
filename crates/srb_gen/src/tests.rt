use crate::{edits_in, errors_in, project, session, summary_bytes, tell_all};
use run_watch::{MemTrace, Step};
use srb_terms::{Diag, Items, Name, NoMemory, Span, Words};
use std::alloc::Global;
use std::test::Fail;

// The four files, by the definition of the generated project.
const FILES: &[(&str, &str)] = &[
    (
        "g0000.rb",
        r##"# typed: true
class G0000
  extend T::Sig
  sig { params(x: Integer).returns(Integer) }
  def run(x)
    x + 1
  end
end
"##,
    ),
    (
        "g0001.rb",
        r##"# typed: true
class G0001
  extend T::Sig
  sig { params(x: Integer).returns(Integer) }
  def run(x)
    G0000.new.run(x)
  end
end
"##,
    ),
    (
        "g0002.rb",
        r##"# typed: true
class G0002
  extend T::Sig
  sig { params(x: Integer).returns(Integer) }
  def run(x)
    G0001.new.run(x)
  end
end
"##,
    ),
    (
        "g0003.rb",
        r##"# typed: true
class G0003
  extend T::Sig
  sig { params(x: Integer).returns(Integer) }
  def run(x)
    G0002.new.run(x)
  end
end
"##,
    ),
];

// The bodies of the session over them.
const BODIES: &[&str] = &[
    r##"{"id":1,"jsonrpc":"2.0","method":"initialize","params":{"capabilities":{},"rootUri":"file:///g"}}"##,
    r##"{"jsonrpc":"2.0","method":"textDocument/didOpen","params":{"textDocument":{"languageId":"ruby","text":"# typed: true\nclass G0000\n  extend T::Sig\n  sig { params(x: Integer).returns(Integer) }\n  def run(x)\n    x + 1\n  end\nend\n","uri":"file:///g/g0000.rb","version":1}}}"##,
    r##"{"jsonrpc":"2.0","method":"textDocument/didChange","params":{"contentChanges":[{"text":"# typed: true\nclass G0000\n  extend T::Sig\n  sig { params(x: Integer).returns(Integer) }\n  def run(x)\n    \"a\"\n  end\nend\n"}],"textDocument":{"uri":"file:///g/g0000.rb","version":2}}}"##,
    r##"{"jsonrpc":"2.0","method":"textDocument/didOpen","params":{"textDocument":{"languageId":"ruby","text":"# typed: true\nclass G0001\n  extend T::Sig\n  sig { params(x: Integer).returns(Integer) }\n  def run(x)\n    G0000.new.run(x)\n  end\nend\n","uri":"file:///g/g0001.rb","version":1}}}"##,
    r##"{"jsonrpc":"2.0","method":"textDocument/didChange","params":{"contentChanges":[{"text":"# typed: true\nclass G0001\n  extend T::Sig\n  sig { params(x: Integer).returns(String) }\n  def run(x)\n    G0000.new.run(x)\n  end\nend\n"}],"textDocument":{"uri":"file:///g/g0001.rb","version":2}}}"##,
    r##"{"jsonrpc":"2.0","method":"textDocument/didOpen","params":{"textDocument":{"languageId":"ruby","text":"# typed: true\nclass G0002\n  extend T::Sig\n  sig { params(x: Integer).returns(Integer) }\n  def run(x)\n    G0001.new.run(x)\n  end\nend\n","uri":"file:///g/g0002.rb","version":1}}}"##,
    r##"{"jsonrpc":"2.0","method":"textDocument/didChange","params":{"contentChanges":[{"text":"# typed: true\nclass G0002\n  extend T::Sig\n  sig { params(x: Integer).returns(Integer) }\n  def run(x)\n    \"b\".length\n  end\nend\n"}],"textDocument":{"uri":"file:///g/g0002.rb","version":2}}}"##,
    r##"{"jsonrpc":"2.0","method":"textDocument/didOpen","params":{"textDocument":{"languageId":"ruby","text":"# typed: true\nclass G0003\n  extend T::Sig\n  sig { params(x: Integer).returns(Integer) }\n  def run(x)\n    G0002.new.run(x)\n  end\nend\n","uri":"file:///g/g0003.rb","version":1}}}"##,
    r##"{"jsonrpc":"2.0","method":"textDocument/didChange","params":{"contentChanges":[{"text":"# typed: true\nclass G0003\n  extend T::Sig\n  sig { params(x: Integer).returns(Integer) }\n  def run(x)\n    \"a\"\n  end\nend\n"}],"textDocument":{"uri":"file:///g/g0003.rb","version":2}}}"##,
    r##"{"id":2,"jsonrpc":"2.0","method":"shutdown"}"##,
    r##"{"jsonrpc":"2.0","method":"exit"}"##,
];

#[test]
fn four_files_are_generated(rt: HostRuntime) -> Result<(), Fail> {
    let project = project(rt.alloc(), 4)?;
    assert_eq!(rt; project.len(), 4);
    for (path, text) in FILES {
        assert!(rt; project.bytes(path) == Some(text.as_bytes()), "at {path}");
    }
    Ok(())
}

#[test]
fn the_session_over_four_files_is_these_frames(rt: HostRuntime) -> Result<(), Fail> {
    let mut expected = Vec::new(rt.alloc());
    for body in BODIES {
        let length = body.len();
        let head = format!(in rt.alloc(); "Content-Length: {length}\r\n\r\n")?;
        expected.extend_from_slice(head.as_bytes())?;
        expected.extend_from_slice(body.as_bytes())?;
    }
    let bytes = session(rt.alloc(), 4)?;
    assert!(rt; bytes.starts_with(b"Content-Length: 97\r\n\r\n{\"id\":1,"));
    assert!(rt;
        bytes.ends_with(b"Content-Length: 33\r\n\r\n{\"jsonrpc\":\"2.0\",\"method\":\"exit\"}")
    );
    assert!(rt; bytes == expected);
    Ok(())
}

#[test]
fn a_thousand_files_are_generated(rt: HostRuntime) -> Result<(), Fail> {
    let project = project(rt.alloc(), 1000)?;
    assert_eq!(rt; project.len(), 1000);
    assert!(rt; project.bytes("g0999.rb").is_some() && project.bytes("g1000.rb").is_none());
    Ok(())
}

#[test]
fn the_summary_has_three_lines(rt: HostRuntime) -> Result<(), Fail> {
    let bytes = summary_bytes(rt.alloc(), 4, 8, 30)?;
    assert!(rt; bytes.as_slice() == b"files 4\nedits 8\nerrors 30\n".as_slice());
    Ok(())
}

// A step that finds so many errors in a file after so many edits.
fn work(alloc: Global, path: &str, epoch: u64, errors: u64, shown: bool) -> Result<Step, NoMemory> {
    let mut list = Items::new(alloc);
    for _ in 0..errors {
        list.push(Diag {
            span: Span { start: 0, end: 1 },
            number: 7002,
            text: Words::from_str(alloc, "an error")?,
        })?;
    }
    Ok(Step::Work {
        path: Name::from_str(alloc, path)?,
        epoch,
        list,
        shown,
    })
}

// The steps of a session that finds errors in two files, and in each of them twice.
fn two_files(alloc: Global) -> Result<Vec<Step>, NoMemory> {
    let mut steps = Vec::new(alloc);
    steps.push(Step::Look)?;
    steps.push(Step::Build)?;
    for (path, epoch, errors, shown) in [
        ("a.rb", 1, 5, true),
        ("b.rb", 1, 2, true),
        ("a.rb", 2, 1, true),
        ("b.rb", 3, 2, false),
    ] {
        steps.push(work(alloc, path, epoch, errors, shown)?)?;
    }
    steps.push(Step::Idle)?;
    Ok(steps)
}

#[test]
fn the_last_list_of_each_file_counts(rt: HostRuntime) -> Result<(), Fail> {
    let alloc = rt.alloc();
    let steps = two_files(alloc)?;
    assert_eq!(rt; edits_in(steps.as_slice()), 3);
    assert_eq!(rt; errors_in(alloc, steps.as_slice())?, 3);
    assert_eq!(rt; (edits_in(&[]), errors_in(alloc, &[])?), (0, 0));
    let mut trace = MemTrace::new(alloc);
    tell_all(&mut trace, steps.as_slice())?;
    assert_eq!(rt; trace.steps.len(), 7);
    Ok(())
}
