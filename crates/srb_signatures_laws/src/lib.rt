//! The laws on the places of the errors of signatures. They rest on the laws of the grammar, without which the program is built.
#![tactic(auto)]

ghost use Rattle.srb_signatures_laws.specs.Examples.{NameIsAPlace};
ghost use Rattle.srb_signatures_laws.specs.Placed.{SignaturesStandAtTokens, SignaturesStandInTrees};

/// Where a tree stands at tokens, so do the errors of its signatures: each begins where a token begins, and ends where that token or a
/// later one ends.
pub fn signatures_stand_at_tokens()
    ensures { SignaturesStandAtTokens }
{}

/// Each error of the signatures of any tree stands at a place that the tree carries: that of a `sig` statement, of a method's name or of an
/// attribute's symbol.
pub fn signatures_stand_in_trees()
    ensures trees { SignaturesStandInTrees }
    ensures name { NameIsAPlace }
{}
