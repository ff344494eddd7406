//! Laws on the parser's refusals: the refused place is exactly the one that the grammar tells.
//!
//! `BadAt` of `rb_rules` is the place of a token with which no program goes on, though the tokens before it begin one. `EndsEarly`
//! is said of tokens that begin a program and are none.
#![tactic(auto)]

ghost use Rattle.rb_refusal_laws.specs.Examples.{BracketIsBad, LoopIsBad, NameIsAwaited};
ghost use Rattle.rb_refusal_laws.specs.Laws.{BadPlacesAreExact, BadTokensAreRefused, DeepPlacesAreExact, DeepTokensAreRefused, EarlyEndsAreRefused, NoEndIsBad, NoProgramBeginsSo, NoneBadBeforeDeep, OneFront};
ghost use Rattle.rb_refusal_laws.specs.NoneBegins.{NoneIsClosed, NoneIsNameless, NoneLoopsSo, NoneNamesTwice, NoneRescuesSo};

/// No program begins with the tokens up to and with a refused one.
pub fn no_program_begins_so()
    ensures { NoProgramBeginsSo }
{}

/// Where tokens are refused for what they are, it is at the bad token, or at their end if they end too early.
pub fn bad_places_are_exact()
    ensures { BadPlacesAreExact }
{}

/// There is one such token at most, so one such place, and none where tokens end too early.
pub fn one_bad_token()
    ensures front { OneFront }
    ensures ends { NoEndIsBad }
{}

/// Where tokens are refused for their depth, those up to and with the deep one begin a program: so the bad token, if there is one,
/// stands after it.
pub fn deep_places_are_exact()
    ensures deep { DeepPlacesAreExact }
    ensures none { NoneBadBeforeDeep }
{}

/// Tokens are refused at the bad one if none before it is too deep, also where it or one after it is. Tokens that end too early and nest
/// too deep nowhere are refused at their end.
pub fn bad_tokens_are_refused()
    ensures tokens { BadTokensAreRefused }
    ensures ends { EarlyEndsAreRefused }
{}

/// Tokens are refused for their depth where those up to and with the first deep one begin a program.
pub fn deep_tokens_are_refused()
    ensures { DeepTokensAreRefused }
{}

/// Tokens that are bad, and some that end too early.
pub fn examples_are_refused()
    ensures bracket { BracketIsBad }
    ensures name { NameIsAwaited }
    ensures looped { LoopIsBad }
{}

/// A few fronts with which no program goes on.
pub fn examples_begin_no_program()
    ensures closed { NoneIsClosed }
    ensures nameless { NoneIsNameless }
    ensures twice { NoneNamesTwice }
    ensures guarded { NoneRescuesSo }
    ensures looped { NoneLoopsSo }
{}
