//! Completeness: where all is within the limits and nothing failed, each command does what it is for, or memory ran out. How much a session
//! checks.

ghost use Rattle.srb_cli.specs.Laws.{FoldersAreChecked, SessionsAreGenerated, SessionsAreServed, TextsAreChecked, WorkIsBounded};

/// `text` checks what it reads.
#[tactic(auto, using(crate::proofs::Complete::texts_are_checked))]
pub fn texts_are_checked()
    ensures { TextsAreChecked }
{}

/// `tc DIR` checks the files of its folder.
#[tactic(auto, using(crate::proofs::Complete::folders_are_checked))]
pub fn folders_are_checked()
    ensures { FoldersAreChecked }
{}

/// `lsp DIR` serves the session of whole frames within the limits.
#[tactic(auto, using(crate::proofs::Complete::sessions_are_served))]
pub fn sessions_are_served()
    ensures { SessionsAreServed }
{}

/// `gen N` writes the summary of its session.
#[tactic(auto, using(crate::proofs::Complete::sessions_are_generated))]
pub fn sessions_are_generated()
    ensures { SessionsAreGenerated }
{}

/// The files that a session checks are bounded by its edits and the files of each build.
#[tactic(auto, using(crate::proofs::Bounded::work_is_bounded))]
pub fn work_is_bounded()
    ensures { WorkIsBounded }
{}
