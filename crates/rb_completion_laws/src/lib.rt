//! Laws on the parser's refusals: what is read before a refusal begins a program, so that nothing is refused too late.
//!
//! `Begins` of `rb_rules` says that tokens begin a program: with others after them they are one. `Begun` says the same of a form,
//! before any tokens that `Clear` allows after it.
#![tactic(auto)]

ghost use Rattle.rb_completion_laws.specs.Examples.{EndRefused, GuardRefused, LoopRefused, NameRefused, SignRefused};
ghost use Rattle.rb_completion_laws.specs.Laws.{BodiesBegin, RefusalsAreEnds, RefusedFrontsBegin, StatementsBegin, TermsBegin};

/// Where a program is refused, the tokens before the refused one begin a program; where tokens end too early, all of them do.
pub fn refused_fronts_begin()
    ensures fronts { RefusedFrontsBegin }
    ensures ends { RefusalsAreEnds }
{}

/// The tokens before the one at which a term, a statement or a body is refused begin one.
pub fn refused_forms_begin()
    ensures terms { TermsBegin }
    ensures statements { StatementsBegin }
    ensures bodies { BodiesBegin }
{}

/// A few tokens, each with the rest that is refused, computed.
pub fn examples_begin()
    ensures sign { SignRefused }
    ensures name { NameRefused }
    ensures end { EndRefused }
    ensures guard { GuardRefused }
    ensures begin_loop { LoopRefused }
{}
