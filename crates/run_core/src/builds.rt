//! A build: each file of the project is loaded, and the symbol table is made of what they declare. And the same after an edit that keeps
//! the symbol table.

ghost use Rattle.std.specs.Prelude.{◌≡◌, ◌≢◌, ◌+◌, ◌<◌, ◌≤◌, ◌&&◌, List, Option, Some, not, length, take, IfOk, OnOk, OnErr, IsTrue};
ghost use Rattle.std.specs.Option.{option_copied, option_map};
ghost use Rattle.srb_terms.specs.Projects.{File, IsProject, bytes_at};
ghost use Rattle.lsp_docs.specs.Paths.{Path, Bytes};
ghost use Rattle.lsp_docs.specs.Documents.{Documents, MOST_FILES};
ghost use Rattle.lsp_docs.specs.Rows.{HasRoom, planned};
ghost use Rattle.srb_check.specs.FactLists.{same_facts};
ghost use Rattle.srb_check.specs.Jobs.{AreLoaded, IsJobOf, IsJobWith, facts_in};
ghost use Rattle.srb_check.specs.Records.{loaded};
ghost use Rattle.srb_check.specs.Symbols.{project_facts};

use lsp_docs::{Docs, Plan};
use srb_check::{FileRec, Files, Job, declare_the_same};
use srb_terms::{Boxed, Name, NoMemory};
use std::alloc::Global;

/// The job of the project whose present texts the documents have. Where `before` has a file with the same text, what was
/// loaded of it is shared.
pub fn job_of(alloc: Global, docs: &Docs, before: &Job) -> Result<Job, NoMemory>
    ensures job { IfOk result (IsJobOf docs.now.project) }
    ensures few { OnOk result (length docs.now.project ≤ MOST_FILES) }
{
    loaded_files(alloc, docs, before)?.job(alloc)
}

// The files of the project, each loaded.
fn loaded_files(alloc: Global, docs: &Docs, before: &Job) -> Result<Files, NoMemory>
    ensures files { IfOk result (AreLoaded docs.now.project) }
    ensures few { OnOk result (length docs.now.project ≤ MOST_FILES) }
{
    let count = docs.len();
    let mut files = Files::new(alloc);
    'files: for index in 0..count {
        add_at(alloc, &mut files, docs, index, before)?;
    }
    Ok(files)
}

// Adds the file at `index`, in byte order of the paths, to those before it.
fn add_at(
    alloc: Global,
    files: &mut Files,
    docs: &Docs,
    index: usize,
    before: &Job,
) -> Result<(), NoMemory>
    requires ordered { IsProject docs.now.project }
    requires within { index < length docs.now.project }
    requires front { AreLoaded (take index docs.now.project) files.old }
    ensures { OnOk result (AreLoaded (take (index + 1) docs.now.project) files.new) }
{
    let path = docs.path_at(index);
    match docs.bytes(path) {
        Some(bytes) => files.add(alloc, path.copied()?, bytes, before),
        None => unreachable!(),
    }
}

/// Whether the file at `path` declares in these documents what this record tells.
pub fn is_kept(
    alloc: Global,
    docs: &Docs,
    path: &Name,
    file: &Option<Boxed<FileRec>>,
    before: &Job,
) -> Result<bool, NoMemory>
    ensures { (bytes : Option Bytes) → file.now ≡ option_map loaded bytes
        → IfOk result (λ kept. kept ≡ same_facts (facts_in (bytes_at path.now docs.now.project)) (facts_in bytes)) }
{
    let old = before.load_at(alloc, path, docs.bytes(path))?;
    Ok(declare_the_same(&old, file))
}

/// Whether the symbol table isn't stale after an edit that keeps it or doesn't.
pub fn stays(kept: bool, stale: bool) -> bool
    ensures { result ≡ (kept && not stale) }
{
    kept && !stale
}

/// Does an edit that was planned and keeps the facts: of documents, and of the job of their project. Where the path was a file of the project
/// and still is, its record takes the place of the one that the job has, and no other file is looked at. After an error both are as they
/// were.
pub fn edit_job(
    alloc: Global,
    job: &mut Job,
    docs: &mut Docs,
    plan: Plan,
    file: &Option<Boxed<FileRec>>,
) -> Result<(), NoMemory>
    requires room { HasRoom plan.path plan.kept docs.old.project }
    requires file { file.now ≡ option_map loaded (bytes_at plan.path (planned plan docs.old).project) }
    requires others { (f : Path) (bytes : Bytes) → f ≢ plan.path → bytes_at f (planned plan docs.old).project ≡ Some bytes → IsJobWith f bytes job.old }
    ensures docs { OnOk result (docs.new ≡ planned plan docs.old) }
    ensures edited { IsProject docs.old.project → IsJobOf docs.old.project job.old → project_facts (planned plan docs.old).project ≡ project_facts docs.old.project
        → OnOk result (IsJobOf (planned plan docs.old).project job.new) }
    ensures err { OnErr result ((job.new ≡ job.old) × (docs.new ≡ docs.old)) }
{
    if let Some(file) = file {
        if docs.bytes(&plan.path).is_some() && job.put(&plan.path, file.copied()?) {
            match docs.enact(plan) {
                Ok(()) => return Ok(()),
                Err(_) => unreachable!(),
            }
        }
    }
    let path = plan.path.copied()?;
    let mut after = docs.copied(alloc)?;
    after.enact(plan)?;
    *job = edited_job(alloc, &after, &path, file, job)?;
    *docs = after;
    Ok(())
}

// The job of the project whose present texts the documents have, after an edit of the file at `path` of the project of `before` that keeps
// the facts. What was loaded of the other files is shared, and so is the symbol table.
fn edited_job(
    alloc: Global,
    docs: &Docs,
    path: &Name,
    file: &Option<Boxed<FileRec>>,
    before: &Job,
) -> Result<Job, NoMemory>
    requires file { file.now ≡ option_map loaded (bytes_at path.now docs.now.project) }
    requires others { (f : Path) (bytes : Bytes) → f ≢ path.now → bytes_at f docs.now.project ≡ Some bytes → IsJobWith f bytes before.now }
    ensures { (old : List File) → IsJobOf old before.now → project_facts docs.now.project ≡ project_facts old → IfOk result (IsJobOf docs.now.project) }
{
    edited_files(alloc, docs, path, file, before)?.job_as(alloc, before)
}

// The files of the project, of which one is loaded so and the others are those of the job.
fn edited_files(
    alloc: Global,
    docs: &Docs,
    path: &Name,
    file: &Option<Boxed<FileRec>>,
    before: &Job,
) -> Result<Files, NoMemory>
    requires file { file.now ≡ option_map loaded (bytes_at path.now docs.now.project) }
    requires others { (f : Path) (bytes : Bytes) → f ≢ path.now → bytes_at f docs.now.project ≡ Some bytes → IsJobWith f bytes before.now }
    ensures { IfOk result (AreLoaded docs.now.project) }
{
    let count = docs.len();
    let mut files = Files::new(alloc);
    'files: for index in 0..count {
        add_edited(&mut files, docs, index, path, file, before)?;
    }
    Ok(files)
}

// Adds the file at `index`, in byte order of the paths, to those before it.
fn add_edited(
    files: &mut Files,
    docs: &Docs,
    index: usize,
    path: &Name,
    file: &Option<Boxed<FileRec>>,
    before: &Job,
) -> Result<(), NoMemory>
    requires ordered { IsProject docs.now.project }
    requires within { index < length docs.now.project }
    requires front { AreLoaded (take index docs.now.project) files.old }
    requires file { file.now ≡ option_map loaded (bytes_at path.now docs.now.project) }
    requires others { (f : Path) (bytes : Bytes) → f ≢ path.now → bytes_at f docs.now.project ≡ Some bytes → IsJobWith f bytes before.now }
    ensures { OnOk result (AreLoaded (take (index + 1) docs.now.project) files.new) }
{
    let here = docs.path_at(index);
    if !here.is_same(path) {
        return files.keep(here.copied()?, before);
    }
    match file {
        Some(file) => files.add_record(here.copied()?, file.copied()?),
        None => unreachable!(),
    }
}
