//! What holds of the generated session, and of the counts of a session's steps. Each law is the contract of a function that does nothing.

ghost use Rattle.std.specs.Prelude.{◌≡◌, ℕ, List, length, sum_by, IsSome};
ghost use Rattle.srb_terms.specs.Projects.{File, IsProject};
ghost use Rattle.lsp_msg.specs.declared.msg.Msg.{Msg};
ghost use Rattle.lsp_docs.specs.Projects.{Project, after_all};
ghost use Rattle.run_watch.specs.declared.step.Step.{Step};
ghost use Rattle.run_core.specs.Language.{Language, IsLanguage};
ghost use Rattle.run_core.specs.Histories.{history, edits_of};
ghost use Rattle.run_core.specs.Legal.{IsBegun};
ghost use Rattle.run_core.specs.Runs.{Run, Over, messages_in};
ghost use Rattle.srb_gen.specs.Generated.{generated_messages};
ghost use Rattle.srb_gen.specs.Tallies.{edits_in, errors_in};

/// Once a session is over, the edits counted are those that were accepted.
pub fn edits_are_those_accepted()
    ensures { (language : Language) (base : Project) (steps : List Step) → Run language base steps → Over language base steps → edits_in steps ≡ length (edits_of base (messages_in steps)) }
{}

/// Once an initialized session is over, the errors counted are those that a fresh check finds in all files.
pub fn errors_are_those_of_a_fresh_check()
    ensures { (language : Language) (base : Project) (steps : List Step) → IsLanguage language → IsProject base → Run language base steps → Over language base steps → IsBegun (history base (messages_in steps)).session.phase → let last = after_all base (edits_of base (messages_in steps)) in errors_in steps ≡ sum_by (λ (file : File). length (language.fresh last file.0)) last }
{}

/// The `shutdown` of the generated session is accepted.
pub fn the_generated_session_is_shut()
    ensures { (base : Project) (n : ℕ) → IsSome (history base (generated_messages n)).shutdown }
{}

/// A session whose `shutdown` was accepted was initialized.
pub fn a_shut_session_was_initialized()
    ensures { (base : Project) (msgs : List Msg) → IsSome (history base msgs).shutdown → IsBegun (history base msgs).session.phase }
{}
