//! What holds of every run of the machine. Each law is the contract of a function that does nothing.

ghost use Rattle.std.specs.Prelude.{◌≡◌, ◌↔◌, ℕ, ◌+◌, ◌≤◌, List, ◌∷◌, ◌++◌, length, Bool, ◌||◌, IsTrue, IsFalse};
ghost use Rattle.srb_terms.specs.Projects.{IsProject, bytes_at};
ghost use Rattle.srb_check.specs.Jobs.{facts_in};
ghost use Rattle.srb_terms.specs.declared.diag.Diag.{Diag};
ghost use Rattle.lsp_msg.specs.declared.msg.Msg.{Msg};
ghost use Rattle.lsp_msg.specs.declared.out.Out.{Out};
ghost use Rattle.run_watch.specs.declared.step.Step.{Step};
ghost use Rattle.run_watch.specs.declared.step.Step.TheVariants.{Build, Work};
ghost use Rattle.lsp_docs.specs.Paths.{Path, Bytes, has};
ghost use Rattle.lsp_docs.specs.Projects.{Project, Edit, after_edit};
ghost use Rattle.run_core.specs.Language.{Language, IsLanguage, language_of};
ghost use Rattle.run_core.specs.Histories.{history, no_history, edits_of};
ghost use Rattle.run_core.specs.Legal.{IsBegun, LegalSoFar, Legal};
ghost use Rattle.run_core.specs.Settled.{Settled};
ghost use Rattle.run_core.specs.Runs.{Run, outs, messages_in, last_state, Over, built_last};
ghost use Rattle.run_core.specs.Machine.{State, project_of, looked, is_at_rest, may_work, may_drop, must_wait};
ghost use Rattle.run_core.specs.Cores.{checked_language};
ghost use Rattle.run_core.specs.Counts.{works, builds, files_built, changes_in};
ghost use Rattle.run_core.specs.Order.{IsOwedBy, CountsAsLooked, IsStaleBy, IsOwnStep};

/// Whatever messages come and in whatever order the machine works, what it has written is legal so far.
pub fn every_run_is_legal_so_far()
    ensures { (language : Language) (base : Project) (steps : List Step) → Run language base steps → LegalSoFar language base (messages_in steps) (outs language base steps) }
{}

/// What a run has written that is over is legal.
pub fn every_run_that_is_over_is_legal()
    ensures { (language : Language) (base : Project) (steps : List Step) → Run language base steps → Over language base steps → Legal language base (messages_in steps) (outs language base steps) }
{}

/// In an initialized session that is over, what a client was shown last of each file is what a fresh check finds there.
pub fn every_run_that_is_over_is_settled()
    ensures { (language : Language) (base : Project) (steps : List Step) → IsLanguage language → IsProject base → Run language base steps → Over language base steps → IsBegun (history base (messages_in steps)).session.phase → Settled language base (messages_in steps) (outs language base steps) }
{}

/// What is legal so far is so in each part from its start, and stays so with more messages after.
pub fn legality_lasts()
    ensures parts { (language : Language) (base : Project) (msgs : List Msg) (written more : List Out) → LegalSoFar language base msgs (written ++ more) → LegalSoFar language base msgs written }
    ensures after { (language : Language) (base : Project) (msgs more : List Msg) (written : List Out) → LegalSoFar language base msgs written → LegalSoFar language base (msgs ++ more) written }
{}

/// The steps that work on a file are at most the edits plus, for each build, the files of the project at that build. The
/// builds are at most one plus the edits that don't keep the errors of the other files.
pub fn work_is_bounded()
    ensures works { (language : Language) (base : Project) (steps : List Step) → Run language base steps → works steps ≤ length (edits_of base (messages_in steps)) + files_built (no_history base) steps }
    ensures builds { (language : Language) (base : Project) (steps : List Step) → Run language base steps → builds steps ≤ 1 + changes_in language (no_history base) (messages_in steps) }
{}

/// A file that was edited and not worked on since goes before any other.
pub fn owed_files_go_first()
    ensures { (language : Language) (base : Project) (before after : List Step) (f g : Path) (epoch : ℕ) (list : List Diag) (shown : Bool) → Run language base (before ++ Work g epoch list shown ∷ after) → IsOwedBy (no_history base) f before → IsOwedBy (no_history base) g before }
{}

/// Before each step that works, builds or finds nothing left, the inbox was found empty and nothing was taken or worked
/// on since, or the end of input was taken, or `shutdown` isn't answered yet.
pub fn nothing_comes_without_a_look()
    ensures { (language : Language) (base : Project) (before after : List Step) (step : Step) → Run language base (before ++ step ∷ after) → IsOwnStep step → CountsAsLooked (no_history base) before }
{}

/// The symbol table is built only where `initialize` or an edit that changes it was taken since the last build, and no
/// file is worked on there.
pub fn stale_tables_are_built_first()
    ensures builds { (language : Language) (base : Project) (before after : List Step) → Run language base (before ++ Build ∷ after) → IsStaleBy language (no_history base) before }
    ensures works { (language : Language) (base : Project) (before after : List Step) (f : Path) (epoch : ℕ) (list : List Diag) (shown : Bool) → Run language base (before ++ Work f epoch list shown ∷ after) → IsStaleBy language (no_history base) before → ⊥ }
{}

/// Where the errors of a file are those of its bytes under some facts of the project, and an edit that keeps leaves
/// these facts, all that the laws ask of a language holds.
pub fn facts_make_a_language<F>()
    ensures { (facts : Project → F) (errors_of : F → Bytes → List Diag) (keeps : Project → Edit → Bool) → ((p : Project) (e : Edit) → IsProject p → IsTrue (keeps p e) → facts (after_edit p e) ≡ facts p) → IsLanguage (language_of facts errors_of keeps) }
{}

/// After any steps each owed file is one to be worked on, where nothing is stale. So where the inbox counts as looked at,
/// something is left, and no file may be worked on, the symbol table is stale.
pub fn owed_files_are_asked_for()
    ensures asked { (language : Language) (base : Project) (steps : List Step) (f : Path) → IsFalse (last_state language base steps).stale → IsTrue (has f (last_state language base steps).owed) → IsTrue (has f (last_state language base steps).todo) }
    ensures stale { (language : Language) (base : Project) (steps : List Step) → let s = last_state language base steps in IsTrue (looked s) → IsFalse (is_at_rest s) → ((f : Path) → IsFalse (may_work s f)) → IsTrue s.stale }
{}

/// Errors that land may be thrown away, or must wait, or may be worked in, and those that must wait may not be worked in.
pub fn each_landing_is_one_of_three()
    ensures all { (state : State) (f : Path) → IsTrue (may_drop state f || (must_wait state f || may_work state f)) }
    ensures apart { (state : State) (f : Path) → IsTrue (must_wait state f) → IsFalse (may_work state f) }
{}

/// What was found in the project of the last build, and may not be thrown away, is what a fresh check finds now.
pub fn landed_errors_are_fresh()
    ensures { (language : Language) (base : Project) (steps : List Step) (f : Path) → IsLanguage language → IsProject base → IsFalse (may_drop (last_state language base steps) f) → language.fresh (built_last (no_history base) base steps) f ≡ language.fresh (project_of (last_state language base steps)) f }
{}

/// All that the laws ask of a language holds of what is checked here.
pub fn what_is_checked_is_a_language()
    ensures { IsLanguage checked_language }
{}

/// An edit is taken to keep the errors of the other files exactly where its file declares the same after it as before it. An absent file
/// declares nothing.
pub fn an_edit_keeps_by_its_own_file()
    ensures { (p : Project) (e : Edit) → IsTrue (checked_language.keeps p e) ↔ (facts_in (bytes_at e.path p) ≡ facts_in e.now) }
{}
