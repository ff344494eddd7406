//! The laws on the places of a program's declarations. They rest on the laws of the grammar, without which the program is built.
#![tactic(auto)]

ghost use Rattle.srb_declarations_laws.specs.Examples.{LabelledIsAPlace};
ghost use Rattle.srb_declarations_laws.specs.Placed.{DeclarationsStandAtTokens, DeclarationsStandInTrees, ProgramsDeclareAtTokens};

/// Where a tree stands at tokens, so do its declarations.
///
/// A constant and a superclass begin where a token begins, and end where that token or a later one ends. A class or module, and a path
/// that is a mixin, begin where a token begins and end where a token ends, and so does an argument that is no such path: where the parts
/// stand doesn't tell that the second token is no earlier than the first. A path without names stands from 0 to 0, and an argument whose
/// value is a body without statements ends at 0.
pub fn declarations_stand_at_tokens()
    ensures { DeclarationsStandAtTokens }
{}

/// Each declaration of a program begins where one of its tokens begins, and ends where that token or a later one ends.
pub fn programs_declare_at_tokens()
    ensures { ProgramsDeclareAtTokens }
{}

/// Each declaration of any tree stands at a place that the tree carries: at the path that a class or module declares, at the constant that is
/// assigned to, at a superclass, and at an argument of `include` or `extend` or the path with which it begins.
pub fn declarations_stand_in_trees()
    ensures trees { DeclarationsStandInTrees }
    ensures labelled { LabelledIsAPlace }
{}
