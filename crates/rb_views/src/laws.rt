//! Laws on the views.

ghost use Rattle.rb_views.specs.Laws.{CalledByLast, EndsWithLast, FoldStepsOnce, OperandsPlace, SpelledByNames};

/// The fold over the prefixes of a row with one more suffix is one more step.
#[tactic(auto, using(crate::proofs::LawProofs::fold_steps_once))]
pub fn folds_step_once<A>()
    ensures { FoldStepsOnce A }
{}

/// A prefix has the place of its operand where it has no suffix, and else ends where its last suffix does.
#[tactic(auto, using(crate::proofs::LawProofs::operands_place, crate::proofs::LawProofs::ends_with_last))]
pub fn prefixes_end_with_their_last_suffix()
    ensures none { OperandsPlace }
    ensures some { EndsWithLast }
{}

/// The call that a prefix is is told by its last suffix and the prefix before it.
#[tactic(auto, using(crate::proofs::LawProofs::called_by_last))]
pub fn calls_are_told_by_their_last_suffix()
    ensures { CalledByLast }
{}

/// A path is spelled by its names alone.
#[tactic(auto, using(crate::proofs::LawProofs::spelled_by_names))]
pub fn paths_are_spelled_by_their_names()
    ensures { SpelledByNames }
{}
