ghost use Rattle.std.specs.Prelude.{◌≡◌, ◌≤◌, ◌+◌, IfOk, None, map, string_bytes, vec_len, length};
ghost use Rattle.srb_io.specs.Files.{AreInOrder};

use crate::files::{Files, FilesEnd};
use crate::listing::{in_order, is_ruby};
use std::alloc::{AllocError, Global};
use std::fs;
use std::io::{Error, ErrorKind, Read};
use std::rt::Files as System;

// The entry of a listing at which it is given up, counted from 1.
const LAST_ENTRY: u32 = 1_000_000;

// How many bytes one read asks for, at most.
const CHUNK: usize = 65536;

/// The files of the system. They don't tell what they are.
///
/// Only regular files are listed, and no link is followed. A name that isn't UTF-8 is passed over, and so is all below it. A listing
/// fails at its 1,000,000th entry.
#[derive(Drop)]
pub struct DirFiles<'a, R: System + AllocGlobal + Clone + Drop> {
    rt: &'a R,
    faults: u64,
    // What a read puts bytes into: empty before the first one, else `CHUNK` bytes.
    chunk: Vec<u8>,
}

impl<'a, R: System + AllocGlobal + Clone + Drop> DirFiles<'a, R> {
    pub fn new(rt: &'a R) -> DirFiles<'a, R>
        ensures { ⟦<DirFiles<'a, R> as Files>⟧.faults result ≡ 0 }
    {
        DirFiles {
            rt,
            faults: 0,
            chunk: Vec::new(rt.alloc()),
        }
    }
}

impl<'a, R: System + AllocGlobal + Clone + Drop> Files for DirFiles<'a, R> {
    ghost told = { λ _ _. None };

    ghost faults = { λ s. s.faults };

    fn list(&mut self, alloc: Global, dir: &str) -> Result<Vec<String>, FilesEnd> {
        match listed(self.rt, alloc, dir) {
            Err(FilesEnd::Failed) => {
                self.faults += 1;
                Err(FilesEnd::Failed)
            }
            other => other,
        }
    }

    fn read(
        &mut self,
        alloc: Global,
        dir: &str,
        path: &str,
        most: u64,
    ) -> Result<Vec<u8>, FilesEnd> {
        match first_bytes(self.rt, alloc, dir, path, most, &mut self.chunk) {
            Err(FilesEnd::Failed) => {
                self.faults += 1;
                Err(FilesEnd::Failed)
            }
            other => other,
        }
    }
}

// What a listing has come to.
#[derive(Drop)]
struct Walk {
    // The paths of Ruby files.
    found: Vec<String>,
    // The folders that weren't looked into yet, each with `/` after it.
    folders: Vec<String>,
    entries: u32,
}

fn end_of(error: Error) -> FilesEnd {
    if error.kind() == ErrorKind::OutOfMemory {
        FilesEnd::NoMemory
    } else {
        FilesEnd::Failed
    }
}

fn listed<R: System + AllocGlobal + Clone + Drop>(
    rt: &R,
    alloc: Global,
    dir: &str,
) -> Result<Vec<String>, FilesEnd>
    ensures { IfOk result (λ paths. AreInOrder (map string_bytes paths.items)) }
{
    let mut walk = Walk {
        found: Vec::new(alloc),
        folders: Vec::new(alloc),
        entries: 0,
    };
    push(&mut walk.folders, String::new(alloc))?;
    for _ in 0..u64::MAX {
        let Some(folder) = walk.folders.pop() else {
            break;
        };
        look_into(rt, alloc, dir, folder.as_str(), &mut walk)?;
    }
    let Walk {
        found,
        folders: _,
        entries: _,
    } = walk;
    Ok(in_order(found)?)
}

// Adds what is in this folder below `dir`.
fn look_into<R: System + AllocGlobal + Clone + Drop>(
    rt: &R,
    alloc: Global,
    dir: &str,
    folder: &str,
    walk: &mut Walk,
) -> Result<(), FilesEnd> {
    let place = joined(alloc, dir, folder)?;
    let entries = match fs::read_dir(rt, place.as_str()) {
        Ok(entries) => entries,
        Err(error) => return Err(end_of(error)),
    };
    for entry in entries {
        walk.entries = walk.entries.saturating_add(1);
        if walk.entries >= LAST_ENTRY {
            return Err(FilesEnd::Failed);
        }
        let entry = match entry {
            Ok(entry) => entry,
            // (a name that isn't UTF-8 is in no path)
            Err(error) if error.kind() == ErrorKind::InvalidFilename => continue,
            Err(error) => return Err(end_of(error)),
        };
        let kind = match entry.file_type() {
            Ok(kind) => kind,
            Err(error) => return Err(end_of(error)),
        };
        let mut path = String::from_str(alloc, folder)?;
        path.push_str(entry.file_name())?;
        if kind.is_dir() {
            path.push('/')?;
            push(&mut walk.folders, path)?;
        } else if kind.is_file() && is_ruby(path.as_str()) {
            push(&mut walk.found, path)?;
        }
    }
    Ok(())
}

fn push(paths: &mut Vec<String>, path: String) -> Result<(), AllocError> {
    Ok(paths.push(path)?)
}

// The path below `dir`.
fn joined(alloc: Global, dir: &str, path: &str) -> Result<String, FilesEnd> {
    let mut place = String::from_str(alloc, dir)?;
    place.push('/')?;
    place.push_str(path)?;
    Ok(place)
}

// The file at a path below `dir`. Its whole path takes memory only while it is opened, so that no hole is left before the bytes that are read.
fn opened<R: System + AllocGlobal + Clone + Drop>(
    rt: &R,
    alloc: Global,
    dir: &str,
    path: &str,
) -> Result<R::File, FilesEnd> {
    let place = joined(alloc, dir, path)?;
    match fs::open(rt, place.as_str()) {
        Ok(file) => Ok(file),
        Err(error) => Err(end_of(error)),
    }
}

fn first_bytes<R: System + AllocGlobal + Clone + Drop>(
    rt: &R,
    alloc: Global,
    dir: &str,
    path: &str,
    most: u64,
    chunk: &mut Vec<u8>,
) -> Result<Vec<u8>, FilesEnd>
    ensures { IfOk result (λ bytes. vec_len bytes ≤ most) }
{
    let mut file = opened(rt, alloc, dir, path)?;
    if chunk.is_empty() {
        *chunk = vec![in alloc; 0u8; CHUNK]?;
    }
    let mut bytes = Vec::new(alloc);
    for _ in 0..u64::MAX {
        let room = (chunk.len() as u64).min(most.saturating_sub(bytes.len() as u64)) as usize;
        let n = read_some(&mut file, &mut chunk[..room])?;
        if n == 0 {
            return Ok(bytes);
        }
        bytes.extend_from_slice(&chunk[..n])?;
    }
    Err(FilesEnd::Failed)
}

// Reads once, and again where a read was interrupted.
fn read_some<F: Read>(file: &mut F, into: &mut [u8]) -> Result<usize, FilesEnd>
    ensures { IfOk result (λ n. n ≤ length into.new) }
{
    for _ in 0..u64::MAX {
        match file.read(into) {
            Ok(n) => return Ok(n),
            Err(error) if error.kind() == ErrorKind::Interrupted => {}
            Err(error) => return Err(end_of(error)),
        }
    }
    Err(FilesEnd::Failed)
}
