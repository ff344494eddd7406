//! The laws on the places of the errors of the judgement of types. They rest on the laws of the grammar, without which the program is built.
#![tactic(auto)]

ghost use Rattle.srb_judgement_laws.specs.ErrorPlaces.{JudgementErrsAtTokens, ProjectsErrAtTokens};
ghost use Rattle.srb_judgement_laws.specs.Placed.{JudgementStandsAtTokens};
ghost use Rattle.srb_judgement_laws.specs.Projects.{CallsOfProjectsStand, ProjectsAreJudgedAtTokens};

/// Each error of the judgement begins where a token begins, and ends where that token or a later one ends; or it stands at the first bytes
/// of such a place, at a prefix of a row of suffixes, or at the start. So over each language whose calls have their errors at such places.
#[tactic(auto, using(crate::proofs::Places::judgement_stands))]
pub fn judgement_stands_at_tokens<T, X>()
    ensures { JudgementStandsAtTokens T X }
{}

/// The errors of a call, as a project answers it, stand where the call's name and its arguments do.
#[tactic(auto, using(crate::proofs::CallErrors::calls_of_projects_stand))]
pub fn calls_of_projects_stand()
    ensures { CallsOfProjectsStand }
{}

/// The errors of the judgement of a program stand at its tokens, whatever is known of the project.
#[tactic(auto, using(crate::proofs::CallErrors::projects_are_judged))]
pub fn projects_are_judged_at_tokens()
    ensures { ProjectsAreJudgedAtTokens }
{}

/// Each error of the judgement stands at the tokens of a program, where the places in the tree at which errors can stand do. So over each
/// language whose calls err at such places.
#[tactic(auto, using(crate::proofs::ErrorPlaces::judgement_errs))]
pub fn judgement_errs_at_tokens<T, X>()
    ensures { JudgementErrsAtTokens T X }
{}

/// Each error of the judgement of such a tree stands at the tokens of a program, whatever is known of the project.
#[tactic(auto, using(crate::proofs::ErrorPlaces::projects_err))]
pub fn projects_err_at_tokens()
    ensures { ProjectsErrAtTokens }
{}
