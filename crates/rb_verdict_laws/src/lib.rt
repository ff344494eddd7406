//! Laws on what a list of tokens is: exactly one of four verdicts holds of it, in the words of the grammar alone, and `rb_decl` answers
//! by it.
//!
//! Tokens are a program that nests too deep nowhere, or bad at a token with which no program goes on, or the beginning of a program, or
//! too deep at a token. Of a bad token and a deep one the earlier tells the verdict, and the bad one where they are the same.
#![tactic(auto)]

ghost use Rattle.rb_verdict_laws.specs.Examples.{BracketIsBad, NameIsWanted, NegationIsDeep, SumIsProgram};
ghost use Rattle.rb_verdict_laws.specs.Laws.{AnswersHold, LesserPlacesAreRefused, NoTwoHold, OneHolds, OneTree, VerdictsAreAnswered};

/// One verdict holds of each list of tokens, and no two do: there is one tree, one bad token or one that is the first to be too deep. No
/// tokens have two trees, however deep they nest.
pub fn one_verdict_holds()
    ensures one { OneHolds }
    ensures only { NoTwoHold }
    ensures tree { OneTree }
{}

/// `parse` of `rb_decl` answers by the verdict that holds: the tree, or the refusal of this kind at this place. What it answers says
/// which verdict that is.
pub fn answers_are_verdicts()
    ensures answered { VerdictsAreAnswered }
    ensures told { AnswersHold }
{}

/// Where tokens stand one after the other, of a bad token and the first deep one that at the lesser place is refused, and the bad one
/// where both are at one place, unless the deep one is empty.
pub fn lesser_places_are_refused()
    ensures { LesserPlacesAreRefused }
{}

/// Tokens for each of the four.
pub fn examples_have_verdicts()
    ensures program { SumIsProgram }
    ensures bad { BracketIsBad }
    ensures short { NameIsWanted }
    ensures deep { NegationIsDeep }
{}
