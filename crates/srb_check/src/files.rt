ghost use Rattle.std.specs.Prelude.{◌≡◌, ℕ, List, [], ◌∷◌, ◌++◌, map, IfOk, OnOk};
ghost use Rattle.srb_terms.specs.Projects.{File};
ghost use Rattle.srb_check.specs.Jobs.{AreLoaded, IsJobOf, IsJobWith, IsLoaded, summary_of};
ghost use Rattle.srb_check.specs.Records.{loaded};
ghost use Rattle.srb_check.specs.Symbols.{project_facts};

use crate::file::FileRec;
use crate::job::Job;
use rb_lex::Lexer;
use srb_infer::Levels;
use srb_summary::Summary;
use srb_table::build;
use srb_terms::{Boxed, Items, Name, NoMemory};
use std::alloc::Global;
use std::marker::Model;

/// The files of a project, each loaded, as they are added: in the order of their paths, where the job is to find them by their paths.
#[derive(Drop)]
pub struct Files {
    paths: Items<Name>,
    records: Items<Boxed<FileRec>>,
    /// What reads the texts. All loads share its room, so that none leaves a hole of its own in memory.
    lexer: Lexer,
}

impl Model for Files {
    ghost use Rattle.std.specs.Coded.{codes};
    ghost use Rattle.srb_check.specs.contracts.file.FileRec as file;
    ghost use Rattle.srb_check.specs.Jobs.{AreRecords, Held};

    ghost Value = { Held };

    ghost coded = { Prim.hlevel (codes, file.the_row.coded) };

    ghost view = { λ f. record { paths = f.paths; records = f.records } };

    ghost invariant = { λ f. AreRecords f.records };
}

impl Files {
    /// No files. It takes no memory.
    #[tactic(auto, using(crate::proofs::Jobs::no_records))]
    pub fn new(alloc: Global) -> Files
        ensures { AreLoaded [] result }
    {
        Files {
            paths: Items::new(alloc),
            records: Items::new(alloc),
            lexer: Lexer::new(alloc),
        }
    }

    /// Adds the file at a path. Where `before` has the record of the same bytes at this path, it is shared.
    pub fn add(
        &mut self,
        alloc: Global,
        path: Name,
        bytes: &[u8],
        before: &Job,
    ) -> Result<(), NoMemory>
        ensures { (project : List File) → AreLoaded project self.old → OnOk result (AreLoaded (project ++ (path, bytes.now) ∷ []) self.new) }
    {
        let record = before.load(alloc, &mut self.lexer, &path, self.paths.len(), bytes)?;
        self.add_record(path, record)
    }

    /// Adds the file at a path that has this record. The record is shared.
    pub fn add_record(&mut self, path: Name, file: Boxed<FileRec>) -> Result<(), NoMemory>
        requires { IsLoaded file }
        ensures { (project : List File) (bytes : List ℕ) → AreLoaded project self.old → file ≡ loaded bytes
            → OnOk result (AreLoaded (project ++ (path, bytes) ∷ []) self.new) }
    {
        self.paths.push(path)?;
        self.records.push(file)?;
        Ok(())
    }

    /// Adds the file at a path as `before` has it, whose record is shared: no bytes are compared.
    pub fn keep(&mut self, path: Name, before: &Job) -> Result<(), NoMemory>
        requires { (bytes : List ℕ) × IsJobWith path bytes before.now }
        ensures { (project : List File) (bytes : List ℕ) → AreLoaded project self.old → IsJobWith path bytes before.now
            → OnOk result (AreLoaded (project ++ (path, bytes) ∷ []) self.new) }
    {
        let record = before.kept(&path, self.paths.len())?;
        self.add_record(path, record)
    }

    /// The job of these files: its symbol table is built.
    pub fn job(self, alloc: Global) -> Result<Job, NoMemory>
        ensures { (project : List File) → AreLoaded project self → IfOk result (λ job. IsJobOf project job) }
    {
        let Files { paths, records, .. } = self;
        let summaries = summaries(alloc, records.as_slice())?;
        let built = build(alloc, summaries.as_slice())?;
        let world = Boxed::new(alloc, built)?;
        let levels = Levels::usual(alloc)?;
        Ok(Job::with(world, levels, paths, records))
    }

    /// The job of these files with the symbol table of `before`, which is shared. It is theirs where the facts are the same.
    pub fn job_as(self, alloc: Global, before: &Job) -> Result<Job, NoMemory>
        ensures { (project old : List File) → AreLoaded project self → IsJobOf old before.now → project_facts project ≡ project_facts old
            → IfOk result (λ job. IsJobOf project job) }
    {
        let world = before.world()?;
        let Files { paths, records, .. } = self;
        let levels = Levels::usual(alloc)?;
        Ok(Job::with(world, levels, paths, records))
    }
}

/// The facts of each file. They are shared.
fn summaries(alloc: Global, records: &[Boxed<FileRec>]) -> Result<Vec<Summary>, NoMemory>
    ensures { IfOk result (λ list. list.items ≡ map summary_of records.now) }
{
    let mut list = Vec::with_capacity(alloc, records.len())?;
    'records: for record in records {
        list.push(record.get().summary.copied()?)?;
    }
    Ok(list)
}
