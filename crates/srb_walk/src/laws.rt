//! Laws on what the judgement knows of a tree.

ghost use Rattle.srb_walk.specs.Endings.{EndsAsWritten};
ghost use Rattle.srb_walk.specs.Judging.{TreesAreJudgedByLife};
ghost use Rattle.srb_walk.specs.Rows.{RowsGoFromLeftToRight};
ghost use Rattle.srb_walk.specs.Written.{ToldByTheirWriting};

/// The place of a tree, whether it is an empty body, the place of its last statement, and which statement it is, are told by how it is
/// written.
#[tactic(auto, using(crate::proofs::Writing::told_by_writing))]
pub fn told_by_writing<T, X>()
    ensures { ToldByTheirWriting T X }
{}

/// Rows of suffixes are judged from left to right.
#[tactic(auto, using(crate::proofs::RowProofs::rows_go))]
pub fn rows_go_from_left_to_right<T, X>()
    ensures { RowsGoFromLeftToRight T X }
{}

/// What stands at the end of a tree is told by how it is written, and by what is known of the trees in it.
#[tactic(auto, using(crate::proofs::EndingProofs::ends_as_written))]
pub fn ends_as_written<T, X>()
    ensures { EndsAsWritten T X }
{}

/// Trees are judged by whether they are expressions and are reached.
#[tactic(auto, using(crate::proofs::Judgings::judged_by_life))]
pub fn trees_are_judged_by_life<T, X>()
    ensures { TreesAreJudgedByLife T X }
{}
