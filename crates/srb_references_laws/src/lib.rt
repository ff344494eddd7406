//! The laws on the places of a program's references and of its malformed type expressions. They rest on the laws of the grammar, without which
//! the program is built.
#![tactic(auto)]

ghost use Rattle.srb_references_laws.specs.Examples.{FrontIsAPlace, MalformedIsAPlace};
ghost use Rattle.srb_references_laws.specs.Placed.{MalformedTypesStandAtTokens, MalformedTypesStandInTrees, ProgramsReferAtTokens, ReferencesStandInTrees};

/// Each reference of a program begins where one of its tokens begins, and ends where that token or a later one ends.
pub fn programs_refer_at_tokens()
    ensures { ProgramsReferAtTokens }
{}

/// Each error of a malformed type expression begins where a token begins, and ends where that token or a later one ends, or stands at the
/// start.
pub fn malformed_types_stand_at_tokens()
    ensures { MalformedTypesStandAtTokens }
{}

/// Each reference of any tree stands at a place that the tree carries: at the path with which an expression begins, at the names in front of
/// the last one of a declared path, and at a superclass.
pub fn references_stand_in_trees()
    ensures trees { ReferencesStandInTrees }
    ensures front { FrontIsAPlace }
{}

/// Each error of a malformed type expression of any tree stands at the place of a tree in it.
pub fn malformed_types_stand_in_trees()
    ensures trees { MalformedTypesStandInTrees }
    ensures one { MalformedIsAPlace }
{}
