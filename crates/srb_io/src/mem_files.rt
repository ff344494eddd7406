ghost use Rattle.std.specs.Prelude.{◌≡◌, ◌-◌, ◌^◌, ◌<◌, ◌≤◌, ◌↔◌, List, ℕ, IfOk, Ok, Err, IsTrue, Some, map, string_bytes, vec_len, take, ◌||◌, is_none};
ghost use Rattle.std.specs.Option.{option_copied};
ghost use Rattle.srb_io.specs.Files.{AreInOrder, AreListed, AreFirst, CountsFault, bytes_at, ruby_paths};
ghost use Rattle.srb_io.specs.Memory.{fails_at};

use crate::files::{Files, FilesEnd};
use crate::listing::{in_order, is_ruby};
use std::alloc::{AllocError, Global};

/// Files in memory, the same below each folder. They tell their paths and bytes.
#[derive(Drop)]
pub struct MemFiles {
    /// The paths and the bytes. Of two files at one path the first counts.
    pub files: Vec<(String, Vec<u8>)>,
    /// The numbers of the calls that fail, counted from 1.
    pub fail_at: Vec<u64>,
    calls: u64,
    faults: u64,
}

impl MemFiles {
    ghost use Rattle.std.specs.Prelude.{◌+◌, if◌then◌else◌};
    ghost use Rattle.srb_io.specs.MemFiles.{next_call, told_files, IsNextTo};

    /// These files, which no call has listed or read yet.
    pub fn new(files: Vec<(String, Vec<u8>)>, fail_at: Vec<u64>) -> MemFiles
        ensures script { (result.files ≡ files) × (result.fail_at ≡ fail_at) }
        ensures uncalled { next_call result ≡ 1 }
        ensures told { (dir : List ℕ) → ⟦<MemFiles as Files>⟧.told result dir ≡ Some (told_files result) }
        ensures faults { ⟦<MemFiles as Files>⟧.faults result ≡ 0 }
    {
        MemFiles {
            files,
            fail_at,
            calls: 0,
            faults: 0,
        }
    }

    // Counts a call, and whether it is listed as one that fails.
    fn is_failing(&mut self) -> bool
        requires { self.old.faults < 2 ^ 64 - 1 }
        ensures answer { result ≡ fails_at self.old.fail_at.items (next_call self.old) }
        ensures next { IsNextTo self.old self.new }
        ensures count { self.new.faults ≡ (if result then self.old.faults + 1 else self.old.faults) }
    {
        self.calls = self.calls.saturating_add(1);
        let fails = self.fail_at.contains(&self.calls);
        if fails {
            self.faults += 1;
        }
        fails
    }
}

impl Files for MemFiles {
    ghost use Rattle.srb_io.specs.MemFiles.{told_files, tells, next_call, IsNextTo};

    ghost told = { tells };

    ghost faults = { λ s. s.faults };

    fn list(&mut self, alloc: Global, _dir: &str) -> Result<Vec<String>, FilesEnd>
        requires { self.old.faults < 2 ^ 64 - 1 }
        ensures ordered { IfOk result (λ paths. AreInOrder (map string_bytes paths.items)) }
        ensures listed { IfOk result (λ paths. AreListed (Some (told_files self.old)) (map string_bytes paths.items)) }
        ensures unchanged { tells self.new ≡ tells self.old }
        ensures cause { CountsFault self.old.faults self.new.faults result }
        ensures fails { result ≡ Err FilesEnd.Failed ↔ IsTrue (fails_at self.old.fail_at.items (next_call self.old)) }
        ensures next { IsNextTo self.old self.new }
    {
        if self.is_failing() {
            return Err(FilesEnd::Failed);
        }
        let paths = ruby_paths(alloc, &self.files)?;
        Ok(in_order(paths)?)
    }

    fn read(
        &mut self,
        alloc: Global,
        _dir: &str,
        path: &str,
        most: u64,
    ) -> Result<Vec<u8>, FilesEnd>
        requires { self.old.faults < 2 ^ 64 - 1 }
        ensures within { IfOk result (λ bytes. vec_len bytes ≤ most) }
        ensures first { IfOk result (λ bytes. AreFirst (Some (told_files self.old)) path.now most bytes.items) }
        ensures unchanged { tells self.new ≡ tells self.old }
        ensures cause { CountsFault self.old.faults self.new.faults result }
        ensures fails { result ≡ Err FilesEnd.Failed ↔ IsTrue (fails_at self.old.fail_at.items (next_call self.old) || is_none (bytes_at path.now (told_files self.old))) }
        ensures next { IsNextTo self.old self.new }
    {
        if self.is_failing() {
            return Err(FilesEnd::Failed);
        }
        let Some(bytes) = find(&self.files, path) else {
            self.faults += 1;
            return Err(FilesEnd::Failed);
        };
        match front(alloc, bytes, most) {
            Ok(front) => Ok(front),
            Err(_) => Err(FilesEnd::NoMemory),
        }
    }
}

// The paths that end in `.rb`.
fn ruby_paths(alloc: Global, files: &[(String, Vec<u8>)]) -> Result<Vec<String>, AllocError>
    ensures { IfOk result (λ paths. map string_bytes paths.items ≡ ruby_paths (map (λ file. (string_bytes file.0, file.1.items)) files.now)) }
{
    let mut paths = Vec::new(alloc);
    'files: for file in files {
        if is_ruby(file.0.as_str()) {
            paths.push(String::from_str(alloc, file.0.as_str())?)?;
        }
    }
    Ok(paths)
}

// The bytes of the first file at the path.
fn find<'a>(files: &'a [(String, Vec<u8>)], path: &str) -> Option<&'a [u8]>
    ensures { option_copied result ≡ bytes_at path.now (map (λ file. (string_bytes file.0, file.1.items)) files.now) }
{
    'files: for file in files {
        if path == file.0.as_str() {
            return Some(file.1.as_slice());
        }
    }
    None
}

// The first `most` of the bytes.
fn front(alloc: Global, bytes: &[u8], most: u64) -> Result<Vec<u8>, AllocError>
    ensures first { IfOk result (λ front. front.items ≡ take most bytes.now) }
    ensures within { IfOk result (λ front. vec_len front ≤ most) }
{
    let count = most.min(bytes.len() as u64) as usize;
    bytes[..count].to_vec(alloc)
}
