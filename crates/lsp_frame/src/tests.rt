ghost use Rattle.std.specs.Prelude.{◌≡◌, IfOk};

use crate::{FrameEnd, Frames, Input, WriteEnd, write};
use srb_io::{MemSink, MemSource};
use std::alloc::{AllocError, Global};
use std::test::Fail;

fn source_of(
    alloc: Global,
    bytes: &[u8],
    pieces: &[u32],
    fail_at: &[u64],
) -> Result<MemSource, AllocError>
    ensures { IfOk result (λ s. ⟦<MemSource as srb_io::Source>⟧.faults s ≡ 0) }
{
    let bytes = bytes.to_vec(alloc)?;
    Ok(MemSource::new(bytes, pieces.to_vec(alloc)?, fail_at.to_vec(alloc)?))
}

fn is_send<T: Send>(_value: &T) {}

// All bodies, each with a `|` after it, and the end.
fn read_all(
    alloc: Global,
    mut source: MemSource,
) -> Result<(Vec<u8>, Result<(), FrameEnd>), AllocError>
    requires { ⟦<MemSource as srb_io::Source>⟧.faults source ≡ 0 }
{
    let mut frames = Frames::new(alloc);
    is_send(&frames);
    let mut bodies = Vec::new(alloc);
    for _ in 0..99 {
        match frames.next(&mut source) {
            Ok(Input::Body(body)) => {
                bodies.extend_from_slice(&body)?;
                bodies.push(b'|')?;
            }
            Ok(Input::End) => return Ok((bodies, Ok(()))),
            Err(end) => return Ok((bodies, Err(end))),
        }
    }
    Err(AllocError)
}

fn broken(at: u64) -> Result<(), FrameEnd> {
    Err(FrameEnd::Broken { at })
}

// In one piece, in single bytes and in pieces of three.
#[test]
fn strange_heads(rt: HostRuntime) -> Result<(), Fail> {
    let mut long = b"A: ".to_vec(rt.alloc())?;
    long.resize(5003, b'a')?;
    let table: [(&[u8], &[u8], Result<(), FrameEnd>); 17] = [
        (b"", b"", Ok(())),
        (b"content-length:\t2 \r\n\r\n{}", b"{}|", Ok(())),
        (
            b"CONTENT-LENGTH:0\r\n\r\nContent-Length: 1\r\n\r\nx",
            b"|x|",
            Ok(()),
        ),
        (
            b"Content-Type: a; b=c\r\nContent-Length: 2\r\nX-1:\t~\r\n\r\nok",
            b"ok|",
            Ok(()),
        ),
        (
            b"Content-Length: 0000000000000000002\r\n\r\nok",
            b"ok|",
            Ok(()),
        ),
        (
            b"Content-Length: 5\r\nContent-Length: 5\r\n\r\n",
            b"",
            broken(33),
        ),
        (b"Content-Length: x", b"", broken(16)),
        (b"Content-Length: 12345678901234567890", b"", broken(35)),
        (b"Content-Length: 5\n", b"", broken(17)),
        (b"Content-Length: 5 5", b"", broken(18)),
        (b"Content-Length: \r\n", b"", broken(16)),
        (b"Content-Length : 5", b"", broken(14)),
        (b": x\r\n", b"", broken(0)),
        (b"Content-Length: 5\r\n\r\nhel", b"", broken(24)),
        (b"Content-Type: x\r\n\r\n", b"", broken(17)),
        (
            b"Content-Length: 1\r\n\r\nxContent-Length: 1\r\n\r\n",
            b"x|",
            broken(43),
        ),
        (long.as_slice(), b"", broken(4096)),
    ];
    for (bytes, bodies, end) in table {
        for pieces in [[9999], [1], [3]] {
            let source = source_of(rt.alloc(), bytes, &pieces, &[])?;
            let (found, ended) = read_all(rt.alloc(), source)?;
            assert_eq!(rt; found.as_slice(), bodies);
            assert_eq!(rt; ended, end);
        }
    }
    Ok(())
}

#[test]
fn lengths_at_the_limit(rt: HostRuntime) -> Result<(), Fail> {
    let mut bytes = b"Content-Length: 16777216\r\n\r\n".to_vec(rt.alloc())?;
    bytes.resize(28 + 16777216, b' ')?;
    let (bodies, end) = read_all(rt.alloc(), source_of(rt.alloc(), &bytes, &[], &[])?)?;
    assert_eq!(rt; bodies.len(), 16777217);
    assert_eq!(rt; end, Ok(()));
    let long = b"Content-Length: 16777217\r\n\r\n";
    let (_, end) = read_all(rt.alloc(), source_of(rt.alloc(), long, &[1], &[])?)?;
    assert_eq!(rt; end, Err(FrameEnd::TooLong { length: 16777217 }));
    Ok(())
}

// A source that fails at one of its reads. The first frame has 22 bytes, and eleven reads of two bytes give it.
#[test]
fn a_read_that_fails(rt: HostRuntime) -> Result<(), Fail> {
    let bytes = b"Content-Length: 1\r\n\r\naContent-Length: 1\r\n\r\nb";
    for failing in 1..24 {
        let source = source_of(rt.alloc(), bytes, &[2], &[failing])?;
        let (bodies, end) = read_all(rt.alloc(), source)?;
        let given: &[u8] = if failing <= 11 {
            b""
        } else if failing <= 22 {
            b"a|"
        } else {
            b"a|b|"
        };
        assert_eq!(rt; bodies.as_slice(), given, "at {failing}");
        assert_eq!(rt; end, Err(FrameEnd::Fault));
    }
    Ok(())
}

#[test]
fn writes_frames(rt: HostRuntime) -> Result<(), Fail> {
    let mut sink = MemSink::new(Vec::new(rt.alloc()), vec![in rt.alloc(); 3]?);
    assert_eq!(rt; write(rt.alloc(), &mut sink, "\u{e9}".as_bytes()), Ok(()));
    assert_eq!(rt; write(rt.alloc(), &mut sink, b""), Ok(()));
    let held = "Content-Length: 2\r\n\r\n\u{e9}Content-Length: 0\r\n\r\n";
    assert_eq!(rt; sink.held.as_slice(), held.as_bytes());
    assert_eq!(rt; write(rt.alloc(), &mut sink, b"no"), Err(WriteEnd::Fault));
    assert_eq!(rt; sink.held.as_slice(), held.as_bytes());
    Ok(())
}
