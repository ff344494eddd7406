ghost use Rattle.std.specs.Prelude.{◌≡◌, ◌↔◌, ◌+◌, ℕ, List, [], length, map, slice_get, Some, IsTrue, IsFalse, IfOk, IfSome};
ghost use Rattle.std.specs.Option.{option_copied, option_map};
ghost use Rattle.srb_terms.specs.Projects.{File, IsProject, bytes_at, put_file};
ghost use Rattle.srb_check.specs.Checks.{fresh, fresh_of};
ghost use Rattle.srb_check.specs.FactLists.{same_facts};
ghost use Rattle.srb_check.specs.Jobs.{AreRecords, IsJobOf, IsJobWith, IsLoaded, bytes_of_file, facts_by, path_of_file};
ghost use Rattle.srb_check.specs.Records.{loaded};
ghost use Rattle.srb_check.specs.Symbols.{project_facts};

use crate::checking::check_file;
use crate::file::FileRec;
use crate::loading::load_by;
use rb_lex::Lexer;
use srb_infer::Levels;
use srb_summary::{Summary, same};
use srb_terms::{Boxed, Diag, Fact, Items, Name, NoMemory, Steps, World};
use std::alloc::Global;
use std::marker::Model;
use std::sync::ledger::Ledger;

/// A project as it was at a build: its symbol table, and the paths and records of its files, in the order in which they were added. Jobs
/// share symbol tables and records.
#[derive(Drop)]
pub struct Job {
    world: Boxed<World>,
    /// What its files are judged by.
    levels: Levels,
    paths: Items<Name>,
    records: Items<Boxed<FileRec>>,
}

impl Model for Job {
    ghost use Rattle.std.specs.Coded.{codes};
    ghost use Rattle.srb_terms.specs.contracts.world.World as symbols;
    ghost use Rattle.srb_check.specs.contracts.file.FileRec as file;
    ghost use Rattle.srb_check.specs.Jobs.{AreRecords, Known};

    ghost Value = { Known };

    ghost coded = { Prim.hlevel (codes, symbols.the_row.coded, file.the_row.coded) };

    ghost view = { λ j. record { world = j.world; files = record { paths = j.paths; records = j.records } } };

    ghost invariant = { λ j. AreRecords j.records };
}

impl Job {
    /// A job of no files, whose symbol table is empty. It is the job of no project.
    #[tactic(auto, using(crate::proofs::Jobs::no_records))]
    pub fn empty(alloc: Global) -> Result<Job, NoMemory> {
        Ok(Job {
            world: Boxed::new(alloc, World::new(alloc))?,
            levels: Levels::usual(alloc)?,
            paths: Items::new(alloc),
            records: Items::new(alloc),
        })
    }

    /// The job of these files with this symbol table, judged by these levels.
    pub(crate) fn with(
        world: Boxed<World>,
        levels: Levels,
        paths: Items<Name>,
        records: Items<Boxed<FileRec>>,
    ) -> Job
        requires { AreRecords records }
        ensures { result ≡ record { world = world; files = record { paths = paths; records = records } } }
    {
        Job {
            world,
            levels,
            paths,
            records,
        }
    }

    /// The symbol table, which copies share.
    pub(crate) fn world(&self) -> Result<Boxed<World>, NoMemory>
        ensures { IfOk result (λ world. world ≡ self.now.world) }
    {
        self.world.copied()
    }

    /// The record of a file at a path, if there is a file. Where the job has the record of the same bytes at this path, it is shared.
    pub fn load_at(
        &self,
        alloc: Global,
        path: &Name,
        bytes: Option<&[u8]>,
    ) -> Result<Option<Boxed<FileRec>>, NoMemory>
        ensures { IfOk result (λ r. r ≡ option_map loaded (option_copied bytes.entry)) }
    {
        match bytes {
            Some(bytes) => Ok(Some(self.load(
                alloc,
                &mut Lexer::new(alloc),
                path,
                self.paths.len(),
                bytes,
            )?)),
            None => Ok(None),
        }
    }

    /// The record of the file of these bytes at a path, shared where the job has it, otherwise loaded with the lexer's room. The path is
    /// looked for at the index `near` first.
    pub(crate) fn load(
        &self,
        alloc: Global,
        lexer: &mut Lexer,
        path: &Name,
        near: usize,
        bytes: &[u8],
    ) -> Result<Boxed<FileRec>, NoMemory>
        ensures { IfOk result (λ r. r ≡ loaded bytes.now) }
    {
        match self.record(path, near, bytes) {
            Some(record) => record.copied(),
            None => Boxed::new(alloc, load_by(alloc, lexer, bytes)?),
        }
    }

    /// A copy, which shares the symbol table, the paths and the records. It takes memory for their lists.
    pub fn copied(&self, alloc: Global) -> Result<Job, NoMemory>
        ensures { IfOk result (λ job. job ≡ self.now) }
    {
        Ok(Job {
            world: self.world()?,
            levels: Levels::usual(alloc)?,
            paths: copied_paths(alloc, self.paths.as_slice())?,
            records: copied_records(alloc, self.records.as_slice())?,
        })
    }

    /// Puts the record of a file in the place of the one that the job has at its path, and answers whether it has one. It takes no memory, and
    /// the symbol table stays, which is theirs where the file declares the same as before.
    pub fn put(&mut self, path: &Name, file: Boxed<FileRec>) -> bool
        requires { IsLoaded file }
        ensures put { (project : List File) (bytes : List ℕ) → IsProject project → IsJobOf project self.old → file ≡ loaded bytes
            → project_facts (put_file path.now bytes project) ≡ project_facts project → IsTrue result → IsJobOf (put_file path.now bytes project) self.new }
        ensures absent { IsFalse result → self.new ≡ self.old }
    {
        let index = place(self.paths.as_slice(), path);
        if index >= self.records.len() || !stands_at(self.paths.as_slice(), index, path) {
            return false;
        }
        self.records.set(index, file);
        true
    }

    /// The number of files.
    pub fn len(&self) -> usize
        ensures { result ≡ length self.now.files.paths }
    {
        self.paths.len()
    }

    /// The path of the file at an index. `None` exactly where there are no more than so many files.
    pub fn path_at(&self, index: usize) -> Option<&Name>
        ensures { option_copied result ≡ slice_get self.now.files.paths index }
    {
        self.paths.get(index)
    }

    /// The errors of the file at an index, none where there are no more than so many files. It counts one step, whatever it answers.
    pub fn check_at<L: Ledger>(
        &self,
        alloc: Global,
        index: usize,
        steps: &mut Steps<L>,
    ) -> Result<Items<Diag>, NoMemory>
        ensures list { (project : List File) → IsJobOf project self.now → IfOk result (λ list. list ≡ fresh_of (project_facts project) (option_map bytes_of_file (slice_get project index))) }
        ensures counted { steps.new ≡ steps.old + 1 }
    {
        match self.records.get(index) {
            Some(record) => {
                let errors = check_file(
                    alloc,
                    self.world.get(),
                    &self.levels,
                    record.get(),
                    steps,
                )?;
                Ok(Items::from_vec(errors))
            }
            None => {
                steps.count();
                Ok(Items::new(alloc))
            }
        }
    }

    /// The errors of the file at a path, none where there is no such file. It counts one step, whatever it answers.
    pub fn check<L: Ledger>(
        &self,
        alloc: Global,
        path: &Name,
        steps: &mut Steps<L>,
    ) -> Result<Items<Diag>, NoMemory>
        ensures list { (project : List File) → IsProject project → IsJobOf project self.now → IfOk result (λ list. list ≡ fresh project path.now) }
        ensures counted { steps.new ≡ steps.old + 1 }
    {
        self.check_at(alloc, place(self.paths.as_slice(), path), steps)
    }

    /// The record of a file of these bytes, where the file at the path has them.
    fn record(&self, path: &Name, near: usize, bytes: &[u8]) -> Option<&Boxed<FileRec>>
        ensures { IfSome result (λ r. r.now ≡ loaded bytes.now) }
    {
        let record = self
            .records
            .get(place_near(self.paths.as_slice(), path, near))?;
        if has_bytes(record.get(), bytes) {
            Some(record)
        } else {
            None
        }
    }

    /// The record of the file at a path that the job has. The path is looked for at the index `near` first.
    pub(crate) fn kept(&self, path: &Name, near: usize) -> Result<Boxed<FileRec>, NoMemory>
        requires { (bytes : List ℕ) × IsJobWith path.now bytes self.now }
        ensures { (bytes : List ℕ) → IsJobWith path.now bytes self.now → IfOk result (λ r. r ≡ loaded bytes) }
    {
        match self
            .records
            .get(place_near(self.paths.as_slice(), path, near))
        {
            Some(record) => record.copied(),
            None => unreachable!(),
        }
    }
}

/// The index of the path, or a number that is no index where it isn't there. The paths stand in byte order.
fn place(paths: &[Name], path: &Name) -> usize
    ensures { (project : List File) → IsProject project → paths.now ≡ map path_of_file project → option_map bytes_of_file (slice_get project result) ≡ bytes_at path.now project }
{
    let found = paths.binary_search_by(|other| other.as_str().cmp(path.as_str()));
    found.unwrap_or(paths.len())
}

/// Whether the path stands at the index.
fn stands_at(paths: &[Name], index: usize, path: &Name) -> bool
    ensures { IsTrue result → slice_get paths.now index ≡ Some path.now }
{
    match paths.get(index) {
        Some(other) => other.is_same(path),
        None => false,
    }
}

/// The same index, which is `near` for most files of two projects that few edits part.
fn place_near(paths: &[Name], path: &Name, near: usize) -> usize
    ensures { (project : List File) → IsProject project → paths.now ≡ map path_of_file project → option_map bytes_of_file (slice_get project result) ≡ bytes_at path.now project }
{
    match paths.get(near) {
        Some(other) => {
            if other.is_same(path) {
                near
            } else {
                place(paths, path)
            }
        }
        None => place(paths, path),
    }
}

fn copied_paths(alloc: Global, paths: &[Name]) -> Result<Items<Name>, NoMemory>
    ensures { IfOk result (λ list. list ≡ paths.now) }
{
    let mut list = Vec::with_capacity(alloc, paths.len())?;
    'paths: for path in paths {
        list.push(path.copied()?)?;
    }
    Ok(Items::from_vec(list))
}

fn copied_records(
    alloc: Global,
    records: &[Boxed<FileRec>],
) -> Result<Items<Boxed<FileRec>>, NoMemory>
    ensures { IfOk result (λ list. list ≡ records.now) }
{
    let mut list = Vec::with_capacity(alloc, records.len())?;
    'records: for record in records {
        list.push(record.copied()?)?;
    }
    Ok(Items::from_vec(list))
}

/// Whether a record has a text of these bytes.
fn has_bytes(file: &FileRec, bytes: &[u8]) -> bool
    ensures { IsLoaded file.now → IsTrue result → file.now ≡ loaded bytes.now }
{
    match &file.text {
        Some(text) => *text.as_str().as_bytes() == *bytes,
        None => false,
    }
}

/// Whether two files declare the same, of which these are the records. An absent file declares nothing. It takes no memory.
#[tactic(auto, using(crate::proofs::FactLists::same_nothing))]
pub fn declare_the_same(old: &Option<Boxed<FileRec>>, new: &Option<Boxed<FileRec>>) -> bool
    ensures { result ≡ same_facts (facts_by old.now) (facts_by new.now) }
{
    match old {
        Some(old) => match new {
            Some(new) => are_same(&old.get().summary, &new.get().summary),
            None => is_none(&old.get().summary),
        },
        None => match new {
            Some(new) => is_none(&new.get().summary),
            None => true,
        },
    }
}

fn are_same(a: &Summary, b: &Summary) -> bool
    ensures { result ≡ same_facts a.now b.now }
{
    same(a, b)
}

/// Whether a file declares nothing.
fn is_none(facts: &Summary) -> bool
    ensures one { result ≡ same_facts facts.now [] }
    ensures other { result ≡ same_facts [] facts.now }
{
    is_empty_list(facts.facts())
}

fn is_empty_list(facts: &[Fact]) -> bool
    ensures { IsTrue result ↔ (facts.now ≡ []) }
{
    facts.is_empty()
}
