//! Laws on texts: each is a program with one tree, or is refused at one place for one reason.
//!
//! `Is` says what a text is, by `Lexes`, `OutsideAt` and `BadCharAt` of the rules of tokens, by `Derives`, `BadAt` and `EndsEarly` of the
//! grammar, and by the depth that the grammar's roles of tokens tell. Nothing of it says how tokens or trees are found.
#![tactic(auto)]

ghost use Rattle.rb_text_laws.specs.Examples.{BracketIsNoRuby, CallIsNoRuby, GlobalIsOutside, LastIsTooDeep, LetterIsOutside, MinusIsNoRuby, SumIsAProgram};
ghost use Rattle.rb_text_laws.specs.Laws.{EachTextIsJudged, OneVerdict};

/// Each text has a tree, or is refused at a place for a reason: it is no Ruby there, or outside the profile, or nests too deep. It has only one
/// tree, or only one place and reason.
pub fn texts_have_one_verdict()
    ensures some { EachTextIsJudged }
    ensures one { OneVerdict }
{}

/// A program, three texts that are no Ruby, two that are outside the profile, and one that nests too deep.
pub fn examples_have_verdicts()
    ensures sum { SumIsAProgram }
    ensures bracket { BracketIsNoRuby }
    ensures call { CallIsNoRuby }
    ensures minus { MinusIsNoRuby }
    ensures global { GlobalIsOutside }
    ensures letter { LetterIsOutside }
    ensures deep { LastIsTooDeep }
{}
