//! The grammar of the language: which trees a list of tokens has, a constructor for each production, and laws on what the
//! parser computes.
//!
//! `Derives` says that a list of tokens is a program and that a tree is its tree, `BadAt` where a list is refused, `EndsEarly`
//! that more tokens are wanted. Nothing of them says how a tree is found. `StandsAt` says that the places in a tree are those of
//! tokens.
#![tactic(auto)]

ghost use Rattle.rb_grammar.specs.Examples.{CallDerives, ClassDerives, GuardedDerives, JumpDerives, LateArgumentStandsNot, LateStandsNot, PowerDerives, ReversedArgumentStandsNot, SumDerives};
ghost use Rattle.rb_grammar.specs.Laws.{BodiesDerive, FormsDerive, StatementsDerive, TermsDerive};
ghost use Rattle.rb_grammar.specs.Places.{TreesStandAtTokens, TreesStandByNodes};

/// The tree that is read of a form is one that the grammar gives to the tokens read. An operation may be asked for also by a number that
/// is no level of operators: then it is one of the nearest level.
pub fn forms_derive()
    ensures { FormsDerive }
{}

/// So is the tree of an expression, of a statement and of the longest body, wherever these stand.
pub fn parts_derive()
    ensures terms { TermsDerive }
    ensures statements { StatementsDerive }
    ensures bodies { BodiesDerive }
{}

/// Each place in the tree of a program begins where one of its tokens begins, and ends where that token or one after it ends. A
/// body without statements alone stands elsewhere: from 0 to 0. Whether a tree stands so is told by its node and the trees in it.
pub fn trees_stand_at_tokens()
    ensures tokens { TreesStandAtTokens }
    ensures nodes { TreesStandByNodes }
{}

/// A few programs with their trees.
pub fn examples_derive()
    ensures sum { SumDerives }
    ensures power { PowerDerives }
    ensures jump { JumpDerives }
    ensures class { ClassDerives }
    ensures guarded { GuardedDerives }
    ensures call { CallDerives }
{}

/// Trees with a place that is none of their tokens.
pub fn misplaced_trees_stand_not()
    ensures operand { LateStandsNot }
    ensures argument { LateArgumentStandsNot }
    ensures reversed { ReversedArgumentStandsNot }
{}
