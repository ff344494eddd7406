//! The core and its calls, each of which makes one step of the machine or tells of its state.

ghost use Rattle.std.specs.Prelude.{◌≡◌, ◌+◌, ◌-◌, ◌^◌, ◌<◌, ◌≤◌, ◌||◌, true, false, not, length, None, is_some, IsTrue, IsFalse, IsNone, IsSome, IfOk, OnOk, OnErr};
ghost use Rattle.std.specs.Option.{option_copied, option_map};
ghost use Rattle.lsp_docs.specs.Documents.{MOST_FILES, applied};
ghost use Rattle.srb_text.specs.Limits.{MOST_BYTES};
ghost use Rattle.lsp_docs.specs.Projects.{total_bytes};
ghost use Rattle.lsp_docs.specs.Rows.{HasRoom, planned};
ghost use Rattle.lsp_docs.specs.Uris.{is_empty};
ghost use Rattle.run_watch.specs.declared.inp.Inp.TheVariants as inp;
ghost use Rattle.run_watch.specs.declared.step.Step.TheVariants.{Take, Look, Build, Idle};
ghost use Rattle.srb_check.specs.Found.{IsFoundIn};
ghost use Rattle.srb_check.specs.Jobs.{IsJobOf};
ghost use Rattle.srb_check.specs.Records.{loaded};
ghost use Rattle.srb_terms.specs.Projects.{bytes_at};
ghost use Rattle.run_core.specs.Cores.{Lands, LandsBy, Makes, IsEdited, IsNextOwn, after_plan, checks_after, end_taken, ended_by, has_own, is_idle, keeps_at};
ghost use Rattle.run_core.specs.Machine.{is_at_rest, looked, opening, project_of};
ghost use Rattle.run_core.specs.Sessions.{Waiting, Serving};

use crate::answers::{closing_answer, log_of, reason_of, serving_answer, waiting_answer};
use crate::builds::{edit_job, is_kept, job_of, stays};
use crate::checks::{fate_of, with_check, work_in};
use crate::fate::Fate;
use crate::landed::Landed;
use crate::phase::Phase;
use crate::rows::{Rows, next_row};
use lsp_docs::{Docs, Plan};
use lsp_msg::{Id, Msg, Out, chosen_encoding};
use run_queues::Item;
use run_watch::{EndCause, Inp, Step};
use srb_check::{FileRec, Job};
use srb_terms::{Boxed, Name, NoMemory, Project, Steps};
use std::alloc::{AllocError, Global};
use std::marker::Model;
use std::sync::ledger::Ledger;

/// The core of a session: its documents, the project as it is now where the symbol table isn't stale, the project as it was at the last
/// build, what is to be worked on, and what was written last of each file. A contract sees its `Account`: the state of the machine, what is
/// known of the project of the last build, a count, and whether it is idle.
#[derive(Drop)]
pub struct Core {
    docs: Docs,
    phase: Phase,
    rows: Rows,
    job: Job,
    last: Boxed<Job>,
    epoch: u64,
    stale: bool,
    seen: bool,
    owing: Option<Id>,
    ended: Option<EndCause>,
    own_checks: u64,
    idle: bool,
}

impl Model for Core {
    ghost use Rattle.std.specs.Coded.{codes};
    ghost use Rattle.srb_check.specs.contracts.job.Job as shared;
    ghost use Rattle.run_core.specs.Cores.{Account, IsWholeCore, state_of};

    ghost Value = { Account };

    ghost coded = { Prim.hlevel (codes, shared.the_row.coded) };

    ghost view = { λ c. record { state = state_of c.docs c.phase c.rows.entries c.epoch c.stale c.seen c.owing c.ended; job = c.last; own_checks = c.own_checks; idle = c.idle } };

    ghost invariant = { λ c. IsWholeCore c.phase c.docs c.stale c.rows.entries c.job c.last };
}

impl Core {
    /// The core of a session over these files, before any step. There are at most 4,096 files, of at most 16,777,216
    /// bytes together.
    pub fn new(alloc: Global, files: Project) -> Result<Core, NoMemory>
        requires count { length files ≤ MOST_FILES }
        requires bytes { total_bytes files ≤ MOST_BYTES }
        ensures state { IfOk result (λ core. core.state ≡ opening files) }
        ensures checks { IfOk result (λ core. core.own_checks ≡ 0) }
        ensures idle { IfOk result (λ core. core.idle ≡ true) }
    {
        let job = Job::empty(alloc)?;
        let last = Boxed::new(alloc, Job::empty(alloc)?)?;
        let rows = Rows::new(alloc, &files)?;
        let docs = Docs::new(alloc, files)?;
        Ok(Core {
            docs,
            phase: Phase::Waiting,
            rows,
            job,
            last,
            epoch: 0,
            stale: false,
            seen: false,
            owing: None,
            ended: None,
            own_checks: 0,
            idle: true,
        })
    }

    /// Takes the next input, and answers the message to be written, if there is one. After an error the core is as it
    /// was. An edit past the greatest `u64` is refused as if memory ran out. Of an edit its own file is loaded at once; where it
    /// declares the same as before, the symbol table stays.
    pub fn take(&mut self, alloc: Global, inp: Inp) -> Result<Option<Out>, NoMemory>
        requires { IsNone self.old.state.ended }
        ensures makes { IfOk result (λ out. Makes self.old.state self.new.state (Take inp) out) }
        ensures ended { OnOk result (self.new.state.ended ≡ ended_by inp) }
        ensures checks { self.new.own_checks ≡ self.old.own_checks }
        ensures job { self.new.job ≡ self.old.job }
        ensures idle { OnOk result (self.new.idle ≡ false) }
        ensures err { OnErr result (self.new ≡ self.old) }
    {
        match inp {
            Inp::Msg(msg) => {
                let out = self.take_message(alloc, msg)?;
                self.idle = false;
                Ok(out)
            }
            Inp::End(cause) => {
                self.ended = Some(cause);
                self.seen = false;
                self.idle = false;
                Ok(None)
            }
        }
    }

    fn take_message(&mut self, alloc: Global, msg: Msg) -> Result<Option<Out>, NoMemory>
        requires { IsNone self.old.state.ended }
        ensures makes { IfOk result (λ out. Makes self.old.state self.new.state (Take (inp.Msg msg)) out) }
        ensures ended { self.new.state.ended ≡ self.old.state.ended }
        ensures checks { self.new.own_checks ≡ self.old.own_checks }
        ensures job { self.new.job ≡ self.old.job }
        ensures err { OnErr result (self.new ≡ self.old) }
    {
        match self.phase {
            Phase::Waiting => self.take_waiting(alloc, msg),
            Phase::Serving => self.take_serving(alloc, msg),
            Phase::Closing => {
                self.seen = false;
                Ok(closing_answer(msg))
            }
        }
    }

    #[tactic(auto, using(crate::proofs::CoreSteps::begun_core))]
    fn take_waiting(&mut self, alloc: Global, msg: Msg) -> Result<Option<Out>, NoMemory>
        requires ended { IsNone self.old.state.ended }
        requires phase { self.old.state.session.phase ≡ Waiting }
        ensures makes { IfOk result (λ out. Makes self.old.state self.new.state (Take (inp.Msg msg)) out) }
        ensures ended { self.new.state.ended ≡ self.old.state.ended }
        ensures checks { self.new.own_checks ≡ self.old.own_checks }
        ensures job { self.new.job ≡ self.old.job }
        ensures err { OnErr result (self.new ≡ self.old) }
    {
        if let Msg::Initialize {
            root,
            encodings,
            ..
        } = &msg
        {
            self.docs.set_root(alloc, root.as_ref())?;
            self.docs
                .set_encoding(chosen_encoding(encodings.as_slice()));
            self.phase = Phase::Serving;
            self.stale = true;
        }
        self.seen = false;
        Ok(waiting_answer(msg))
    }

    #[tactic(auto, using(crate::proofs::CoreSteps::closing_core))]
    fn take_serving(&mut self, alloc: Global, msg: Msg) -> Result<Option<Out>, NoMemory>
        requires ended { IsNone self.old.state.ended }
        requires phase { self.old.state.session.phase ≡ Serving }
        ensures makes { IfOk result (λ out. Makes self.old.state self.new.state (Take (inp.Msg msg)) out) }
        ensures ended { self.new.state.ended ≡ self.old.state.ended }
        ensures checks { self.new.own_checks ≡ self.old.own_checks }
        ensures job { self.new.job ≡ self.old.job }
        ensures err { OnErr result (self.new ≡ self.old) }
    {
        match &msg {
            Msg::Opened { .. } | Msg::Changed { .. } | Msg::Saved { .. } | Msg::Closed { .. } => {
                return self.take_document(alloc, &msg);
            }
            Msg::Shutdown { id } => {
                self.owing = Some(id.copied()?);
                self.phase = Phase::Closing;
            }
            _ => {}
        }
        self.seen = false;
        Ok(serving_answer(msg))
    }

    fn take_document(&mut self, alloc: Global, msg: &Msg) -> Result<Option<Out>, NoMemory>
        requires ended { IsNone self.old.state.ended }
        requires phase { self.old.state.session.phase ≡ Serving }
        requires document { IsSome (applied self.old.state.session.documents msg.now) }
        ensures makes { IfOk result (λ out. Makes self.old.state self.new.state (Take (inp.Msg msg.now)) out) }
        ensures ended { self.new.state.ended ≡ self.old.state.ended }
        ensures checks { self.new.own_checks ≡ self.old.own_checks }
        ensures job { self.new.job ≡ self.old.job }
        ensures err { OnErr result (self.new ≡ self.old) }
    {
        if self.epoch == u64::MAX {
            return Err(AllocError);
        }
        match self.docs.plan(alloc, msg) {
            Ok(plan) => {
                if plan.edit {
                    self.take_edit(alloc, plan)?;
                    return Ok(None);
                }
                self.docs.enact(plan)?;
                self.seen = false;
                Ok(None)
            }
            Err(end) => match reason_of(end) {
                Some(reason) => {
                    let log = log_of(alloc, msg, reason)?;
                    self.seen = false;
                    Ok(Some(log))
                }
                None => Err(AllocError),
            },
        }
    }

    // Takes an edit that was planned: its file is loaded before anything changes.
    fn take_edit(&mut self, alloc: Global, plan: Plan) -> Result<(), NoMemory>
        requires phase { self.old.state.session.phase ≡ Serving }
        requires epoch { self.old.state.epoch < 2 ^ 64 - 1 }
        requires edited { IsEdited self.old.state.session.documents (planned plan self.old.state.session.documents) plan.path }
        requires room { HasRoom plan.path plan.kept self.old.state.session.documents.project }
        ensures state { OnOk result (self.new.state ≡ after_plan self.old.state plan (keeps_at plan.path (project_of self.old.state) (planned plan self.old.state.session.documents).project)) }
        ensures ended { self.new.state.ended ≡ self.old.state.ended }
        ensures checks { self.new.own_checks ≡ self.old.own_checks }
        ensures job { self.new.job ≡ self.old.job }
        ensures err { OnErr result (self.new ≡ self.old) }
    {
        let file = self.job.load_at(alloc, &plan.path, plan.bytes())?;
        let kept = is_kept(alloc, &self.docs, &plan.path, &file, &self.job)?;
        if stays(kept, self.stale) {
            self.take_kept(alloc, plan, &file)
        } else {
            self.take_changed(plan, file.is_some(), kept)
        }
    }

    // Takes an edit where the symbol table is stale after it. Where the edit keeps it, it was stale before.
    fn take_changed(&mut self, plan: Plan, present: bool, kept: bool) -> Result<(), NoMemory>
        requires phase { self.old.state.session.phase ≡ Serving }
        requires epoch { self.old.state.epoch < 2 ^ 64 - 1 }
        requires edited { IsEdited self.old.state.session.documents (planned plan self.old.state.session.documents) plan.path }
        requires room { HasRoom plan.path plan.kept self.old.state.session.documents.project }
        requires present { present ≡ is_some (bytes_at plan.path (planned plan self.old.state.session.documents).project) }
        requires stale { IsTrue (not kept || self.old.state.stale) }
        ensures state { OnOk result (self.new.state ≡ after_plan self.old.state plan kept) }
        ensures ended { self.new.state.ended ≡ self.old.state.ended }
        ensures checks { self.new.own_checks ≡ self.old.own_checks }
        ensures job { self.new.job ≡ self.old.job }
        ensures err { OnErr result (self.new ≡ self.old) }
    {
        let path = plan.path.copied()?;
        self.rows.reserve()?;
        self.docs.enact(plan)?;
        self.rows.edit(path, present, kept);
        self.epoch += 1;
        self.stale = true;
        self.seen = false;
        Ok(())
    }

    // Takes an edit that keeps the symbol table, which isn't stale. This is the record of the file after it.
    fn take_kept(
        &mut self,
        alloc: Global,
        plan: Plan,
        file: &Option<Boxed<FileRec>>,
    ) -> Result<(), NoMemory>
        requires phase { self.old.state.session.phase ≡ Serving }
        requires epoch { self.old.state.epoch < 2 ^ 64 - 1 }
        requires edited { IsEdited self.old.state.session.documents (planned plan self.old.state.session.documents) plan.path }
        requires room { HasRoom plan.path plan.kept self.old.state.session.documents.project }
        requires file { file.now ≡ option_map loaded (bytes_at plan.path (planned plan self.old.state.session.documents).project) }
        requires kept { IsTrue (keeps_at plan.path (project_of self.old.state) (planned plan self.old.state.session.documents).project) }
        requires built { IsFalse self.old.state.stale }
        ensures state { OnOk result (self.new.state ≡ after_plan self.old.state plan true) }
        ensures ended { self.new.state.ended ≡ self.old.state.ended }
        ensures checks { self.new.own_checks ≡ self.old.own_checks }
        ensures job { self.new.job ≡ self.old.job }
        ensures err { OnErr result (self.new ≡ self.old) }
    {
        let path = plan.path.copied()?;
        self.rows.reserve()?;
        edit_job(alloc, &mut self.job, &mut self.docs, plan, file)?;
        self.rows.edit(path, file.is_some(), true);
        self.epoch += 1;
        self.seen = false;
        Ok(())
    }

    /// Notes that the inbox was found empty.
    pub fn looked(&mut self)
        ensures makes { Makes self.old.state self.new.state Look None }
        ensures seen { self.new.state ≡ record self.old.state { seen = true } }
        ensures checks { self.new.own_checks ≡ self.old.own_checks }
        ensures job { self.new.job ≡ self.old.job }
        ensures idle { self.new.idle ≡ self.old.idle }
    {
        self.seen = true;
    }

    /// Loads the files of the project as it is now, and builds its symbol table. What was loaded of a file whose text is the
    /// same is kept. The job of the build, which the core shares, is handed back. After an error the core is as it was.
    pub fn build(&mut self, alloc: Global) -> Result<Boxed<Job>, NoMemory>
        requires looked { IsTrue (looked self.old.state) }
        requires stale { IsTrue self.old.state.stale }
        ensures makes { OnOk result (Makes self.old.state self.new.state Build None) }
        ensures looked { OnOk result (IsTrue (looked self.new.state)) }
        ensures built { OnOk result (IsFalse self.new.state.stale) }
        ensures ended { self.new.state.ended ≡ self.old.state.ended }
        ensures checks { self.new.own_checks ≡ self.old.own_checks }
        ensures job { IfOk result (λ job. (job ≡ self.new.job) × IsJobOf (project_of self.new.state) job) }
        ensures few { IfOk result (λ job. length job.files.paths ≤ MOST_FILES) }
        ensures idle { self.new.idle ≡ self.old.idle }
        ensures err { OnErr result (self.new ≡ self.old) }
    {
        let job = job_of(alloc, &self.docs, &self.job)?;
        let last = Boxed::new(alloc, job.copied(alloc)?)?;
        let handed = last.copied()?;
        self.rows.build();
        self.stale = false;
        self.job = job;
        self.last = last;
        Ok(handed)
    }

    /// The least path in byte order that may be worked on. `None` exactly where there is none.
    pub fn next_own(&self) -> Option<&Name>
        ensures next { IsNextOwn self.now.state (option_copied result) }
        ensures some { is_some result ≡ has_own self.now.state }
    {
        if !self.is_looked() || self.stale {
            return None;
        }
        let index = next_row(&self.rows);
        if index < self.rows.as_slice().len() {
            Some(self.rows.row(index).path())
        } else {
            None
        }
    }

    /// Works on the file that `next_own` gives, and counts one step. The list is written where it was owed or differs from
    /// the one written last. After an error the core is as it was.
    pub fn check_own<L: Ledger>(
        &mut self,
        alloc: Global,
        steps: &mut Steps<L>,
    ) -> Result<Landed, NoMemory>
        requires { IsTrue (has_own self.old.state) }
        ensures lands { IfOk result (Lands self.old.state self.new.state) }
        ensures counted { OnOk result (steps.new ≡ steps.old + 1) }
        ensures checks { OnOk result (self.new.own_checks ≡ checks_after self.old) }
        ensures job { self.new.job ≡ self.old.job }
        ensures fewer { OnOk result (length self.new.state.todo < length self.old.state.todo) }
        ensures idle { self.new.idle ≡ self.old.idle }
        ensures stale { self.new.state.stale ≡ self.old.state.stale }
        ensures ended { self.new.state.ended ≡ self.old.state.ended }
        ensures err { OnErr result (self.new ≡ self.old) }
    {
        let index = next_row(&self.rows);
        let file = self.rows.row(index);
        let owed = file.value().owed;
        let list = self.job.check(alloc, file.path(), steps)?;
        let landed = work_in(alloc, &self.docs, &mut self.rows, index, self.epoch, list)?;
        self.seen = false;
        self.own_checks = with_check(owed, self.own_checks);
        Ok(landed)
    }

    /// Lands errors of a file that were found by the job of the last build. They are thrown away exactly where the machine permits that; else
    /// they are handed back exactly where they must wait; else they are worked in, and the list is written where it was owed or differs from
    /// the one written last. After an error the core is as it was.
    pub fn land(&mut self, alloc: Global, item: Item) -> Result<Landed, NoMemory>
        requires found { IsFoundIn self.old.job item.number item.list }
        ensures lands { IfOk result (LandsBy self.old.job self.old.state self.new.state item) }
        ensures checks { self.new.own_checks ≡ self.old.own_checks }
        ensures job { self.new.job ≡ self.old.job }
        ensures idle { self.new.idle ≡ self.old.idle }
        ensures stale { self.new.state.stale ≡ self.old.state.stale }
        ensures ended { self.new.state.ended ≡ self.old.state.ended }
        ensures err { OnErr result (self.new ≡ self.old) }
    {
        let is_looked = self.is_looked();
        let Some(path) = self.last.get().path_at(item.number as usize) else {
            unreachable!()
        };
        match fate_of(&self.rows, path, is_looked, self.stale) {
            Fate::Drop => Ok(Landed::Dropped(Step::Dropped {
                path: path.copied()?,
            })),
            Fate::Wait => Ok(Landed::Later(item)),
            Fate::Work(index) => {
                let Item { number: _, list } = item;
                let landed = work_in(alloc, &self.docs, &mut self.rows, index, self.epoch, list)?;
                self.seen = false;
                Ok(landed)
            }
        }
    }

    /// Whether nothing is left to work on.
    pub fn rest(&self) -> bool
        ensures { result ≡ is_at_rest self.now.state }
    {
        !self.stale && self.rows.first_todo() == self.rows.as_slice().len()
    }

    /// Whether some path is owed.
    pub fn owes(&self) -> bool
        ensures { result ≡ not (is_empty self.now.state.owed) }
    {
        self.rows.owes()
    }

    /// Whether the inbox counts as looked at.
    pub fn is_looked(&self) -> bool
        ensures { result ≡ looked self.now.state }
    {
        self.seen || self.ended.is_some() || self.owing.is_some()
    }

    /// Whether the symbol table has to be built before any file is worked on.
    pub fn is_stale(&self) -> bool
        ensures { result ≡ self.now.state.stale }
    {
        self.stale
    }

    /// Whether nothing was taken since the last call of `idle`, or ever, and no reply is owed.
    pub fn is_idle(&self) -> bool
        ensures { result ≡ is_idle self.now }
    {
        self.idle && self.owing.is_none()
    }

    /// The number of files that `check_own` worked on and that weren't owed. It stays at the greatest `u64`.
    pub fn own_checks(&self) -> u64
        ensures { result ≡ self.now.own_checks }
    {
        self.own_checks
    }

    /// The cause of the end that was taken, and whether a `shutdown` was accepted before it. `None` exactly where no end
    /// was taken.
    pub fn end(&self) -> Option<(EndCause, bool)>
        ensures end { result ≡ end_taken self.now.state }
        ensures none { is_some result ≡ is_some self.now.state.ended }
    {
        match self.ended {
            Some(cause) => Some((cause, matches!(self.phase, Phase::Closing))),
            None => None,
        }
    }

    /// Notes that nothing is left to do, and answers the reply to `shutdown` if it is owed.
    pub fn idle(&mut self, alloc: Global) -> Result<Option<Out>, NoMemory>
        requires looked { IsTrue (looked self.old.state) }
        requires rest { IsTrue (is_at_rest self.old.state) }
        ensures makes { IfOk result (Makes self.old.state self.new.state Idle) }
        ensures ended { self.new.state.ended ≡ self.old.state.ended }
        ensures checks { self.new.own_checks ≡ self.old.own_checks }
        ensures job { self.new.job ≡ self.old.job }
        ensures idle { OnOk result (IsTrue (is_idle self.new)) }
        ensures err { OnErr result (self.new ≡ self.old) }
    {
        let _alloc = alloc;
        self.idle = true;
        match self.owing.take() {
            Some(id) => Ok(Some(Out::Null { id })),
            None => Ok(None),
        }
    }
}
