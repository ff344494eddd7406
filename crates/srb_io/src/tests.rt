ghost use Rattle.std.specs.Prelude.{◌≡◌, None, IfOk};

use crate::{
    DirFiles, Failed, Files, FilesEnd, MemFiles, MemSink, MemSource, ReadAllEnd, Sink, Source,
    read_all, write_all,
};
use std::alloc::{AllocError, Global};
use std::fs;
use std::process::Abort;
use std::rt::Files as System;
use std::test::Fail;

fn source_of(
    alloc: Global,
    bytes: &[u8],
    pieces: &[u32],
    fail_at: &[u64],
) -> Result<MemSource, AllocError>
    ensures { IfOk result (λ s. ⟦<MemSource as Source>⟧.faults s ≡ 0) }
{
    let bytes = bytes.to_vec(alloc)?;
    Ok(MemSource::new(bytes, pieces.to_vec(alloc)?, fail_at.to_vec(alloc)?))
}

// A sink that takes one byte at a time, and fails once it holds three.
#[derive(Drop)]
struct OneByOne {
    held: Vec<u8>,
    faults: u64,
}

impl Sink for OneByOne {
    ghost held = { λ _. None };

    ghost faults = { λ s. s.faults };

    fn write(&mut self, piece: &[u8]) -> Result<usize, Failed> {
        let [first, ..] = piece else {
            return Ok(0);
        };
        if self.held.len() >= 3 || self.held.push(*first).is_err() {
            self.faults += 1;
            return Err(Failed);
        }
        Ok(1)
    }
}

// How many bytes the next read moves, with room for four.
fn next_length(rt: &impl Abort, source: &mut MemSource) -> usize
    requires { ⟦<MemSource as Source>⟧.faults source.old ≡ 0 }
    ensures { ⟦<MemSource as Source>⟧.faults source.new ≡ 0 }
{
    let mut into = [0u8; 4];
    match source.read(&mut into) {
        Ok(n) => n,
        Err(Failed) => panic!(rt; "no read is listed"),
    }
}

fn is_send<T: Send>(_value: &T) {}

// The lengths of the pieces in which a source gives ten bytes to reads with room for four.
#[test]
fn pieces_in_turn(rt: HostRuntime) -> Result<(), Fail> {
    let table: [(&[u32], [usize; 6]); 4] = [
        (&[], [4, 4, 2, 0, 0, 0]),
        (&[3], [3, 3, 3, 1, 0, 0]),
        (&[1, 9, 2], [1, 4, 2, 2, 1, 0]),
        (&[0, 4], [1, 4, 4, 1, 0, 0]),
    ];
    for (pieces, lengths) in table {
        let mut source = source_of(rt.alloc(), b"0123456789", pieces, &[])?;
        is_send(&source);
        for length in lengths {
            assert_eq!(rt; next_length(&rt, &mut source), length, "of {pieces:?}");
        }
    }
    Ok(())
}

#[test]
fn a_source_to_its_end(rt: HostRuntime) -> Result<(), Fail> {
    let table: [(&[u32], &[u64], usize, Result<usize, ReadAllEnd>); 6] = [
        (&[], &[], 9, Ok(6)),
        (&[1], &[], 6, Ok(6)),
        (&[4], &[], 5, Err(ReadAllEnd::TooBig)),
        (&[], &[], 0, Err(ReadAllEnd::TooBig)),
        (&[2], &[3], 6, Err(ReadAllEnd::Fault)),
        (&[], &[2, 1], 9, Err(ReadAllEnd::Fault)),
    ];
    for (pieces, fail_at, most, ended) in table {
        let mut source = source_of(rt.alloc(), b"abcdef", pieces, fail_at)?;
        let all = read_all(rt.alloc(), &mut source, most);
        if let Ok(bytes) = &all {
            assert_eq!(rt; bytes.as_slice(), b"abcdef".as_slice());
        }
        assert_eq!(rt; all.map(|bytes| bytes.len()), ended);
    }
    Ok(())
}

#[test]
fn a_piece_whole(rt: HostRuntime) -> Result<(), Fail> {
    let mut sink = MemSink::new(b"a".to_vec(rt.alloc())?, vec![in rt.alloc(); 2]?);
    is_send(&sink);
    assert_eq!(rt; write_all(&mut sink, b"bc"), Ok(()));
    assert_eq!(rt; sink.held.as_slice(), b"abc".as_slice());
    let mut slow = OneByOne {
        held: Vec::new(rt.alloc()),
        faults: 0,
    };
    assert_eq!(rt; write_all(&mut slow, b"12"), Ok(()));
    assert_eq!(rt; slow.faults, 0);
    assert_eq!(rt; write_all(&mut slow, b"345"), Err(Failed));
    assert_eq!(rt; slow.held.as_slice(), b"123".as_slice());
    assert_eq!(rt; slow.faults, 1);
    Ok(())
}

#[test]
fn a_listed_write(rt: HostRuntime) -> Result<(), Fail> {
    let mut sink = MemSink::new(Vec::new(rt.alloc()), vec![in rt.alloc(); 2]?);
    assert_eq!(rt; sink.write(b"ab"), Ok(2));
    assert_eq!(rt; sink.write(b"cd"), Err(Failed));
    assert_eq!(rt; sink.write(b"ef"), Ok(2));
    assert_eq!(rt; sink.held.as_slice(), b"abef".as_slice());
    Ok(())
}

fn files_of(alloc: Global, rows: &[(&str, &str)], fail_at: &[u64]) -> Result<MemFiles, AllocError>
    ensures { IfOk result (λ s. ⟦<MemFiles as Files>⟧.faults s ≡ 0) }
{
    let mut files = Vec::new(alloc);
    for (path, text) in rows {
        files.push((
            String::from_str(alloc, path)?,
            text.as_bytes().to_vec(alloc)?,
        ))?;
    }
    Ok(MemFiles::new(files, fail_at.to_vec(alloc)?))
}

#[test]
fn files_in_memory(rt: HostRuntime) -> Result<(), Fail> {
    let alloc = rt.alloc();
    let rows = [
        ("b.rb", "two"),
        ("a/z.rb", "one"),
        ("b.rb", "other"),
        ("c.txt", ""),
        ("a.rb", ""),
    ];
    let mut files = files_of(alloc, &rows, &[])?;
    let Ok(paths) = files.list(alloc, "d") else {
        assert!(rt; false, "no call is listed");
        return Ok(());
    };
    assert_eq!(rt; paths.len(), 3);
    for (path, expected) in paths.iter().zip(["a.rb", "a/z.rb", "b.rb"]) {
        assert_eq!(rt; path.as_str(), expected);
    }
    assert!(rt;
        files
            .read(alloc, "d", "b.rb", 2)
            .is_ok_and(|bytes| bytes.as_slice() == b"tw".as_slice())
    );
    Ok(())
}

#[test]
fn calls_on_files_that_fail(rt: HostRuntime) -> Result<(), Fail> {
    let alloc = rt.alloc();
    let mut files = files_of(alloc, &[("a.rb", "nil")], &[1, 3])?;
    assert!(rt; files.list(alloc, "d").is_err());
    assert!(rt; files.read(alloc, "d", "a.rb", 9).is_ok());
    Ok(())
}

// A folder of the system with a Ruby file in it, another file, a link, and a Ruby file in a folder of it.
#[test]
fn files_of_the_system(rt: HostRuntime) -> Result<(), Fail> {
    let alloc = rt.alloc();
    let top = "srb_io_files_of_the_system";
    let _ = fs::remove_dir_all(&rt, top);
    fs::create_dir_all(&rt, "srb_io_files_of_the_system/sub")?;
    fs::write(&rt, "srb_io_files_of_the_system/b.rb", "nil\n")?;
    fs::write(&rt, "srb_io_files_of_the_system/c.txt", "nil\n")?;
    fs::write(&rt, "srb_io_files_of_the_system/sub/a.rb", "1\n")?;
    rt.symlink("b.rb", "srb_io_files_of_the_system/a.rb")?;
    let mut files = DirFiles::new(&rt);
    let Ok(paths) = files.list(alloc, top) else {
        assert!(rt; false, "the folder can be read");
        return Ok(());
    };
    assert_eq!(rt; paths.len(), 2);
    assert_eq!(rt; paths[0].as_str(), "b.rb");
    assert_eq!(rt; paths[1].as_str(), "sub/a.rb");
    assert!(rt;
        files
            .read(alloc, top, "b.rb", 3)
            .is_ok_and(|bytes| bytes.as_slice() == b"nil".as_slice())
    );
    assert!(rt; files.read(alloc, top, "z.rb", 3).is_err());
    Ok(fs::remove_dir_all(&rt, top)?)
}
