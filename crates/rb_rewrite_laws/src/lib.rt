//! The law on the places in a rewritten tree. It rests on the laws of the places, without which the program is built.
#![tactic(auto)]

ghost use Rattle.rb_rewrite_laws.specs.RewrittenPlaces.{RewritingKeepsErrorPlaces};

/// In a rewritten tree errors of the judgement can stand at places of the tokens alone, where they can in the tree as it is written.
#[tactic(auto, using(crate::proofs::Rewriting::rewriting_keeps))]
pub fn rewriting_keeps_error_places()
    ensures { RewritingKeepsErrorPlaces }
{}
