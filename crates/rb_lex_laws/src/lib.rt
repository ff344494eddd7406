//! Laws on what `rb_lex` computes: its answers are exactly those of the rules of `rb_rules`, in which `Lexes` says which tokens a
//! text has, `OutsideAt` and `BadCharAt` where it is refused, and `Asks` which level it asks for. Nothing of those rules says
//! how tokens are found.
#![tactic(auto)]

ghost use Rattle.rb_lex_laws.specs.Levels.{GivenLevelsAreFound, LevelIsThatOfTheText};
ghost use Rattle.rb_lex_laws.specs.Longest.{IdentifiersAreLongest, ConstantsAreLongest, DigitsAreLongest};
ghost use Rattle.rb_lex_laws.specs.Numbers.{FitsAreSmall};
ghost use Rattle.rb_lex_laws.specs.Operators.{OperatorsAreFound, MethodOperatorsAreFound, ForeignOperatorsAreFound};
ghost use Rattle.rb_lex_laws.specs.Tokens.{TokensAreThoseOfTheText, OutsideIsThatOfTheText, BadIsThatOfTheText, EachTextIsTold, TokensStandAtCharacters, RefusedPlacesAreStarts};
ghost use Rattle.rb_lex_laws.specs.Words.{KeywordsAreKnown, ForeignWordsAreKnown, KnownKeywordsAreListed, KnownForeignWordsAreListed};

/// The lexer's test of a whole number passes exactly where the number is less than 2 to the 128th.
pub fn fits_are_small()
    ensures { FitsAreSmall }
{}

/// Each keyword and each word outside the profile is known by its spelling.
pub fn words_are_known()
    ensures keywords { KeywordsAreKnown }
    ensures foreign { ForeignWordsAreKnown }
{}

/// No other word is known as one of them.
pub fn known_words_are_listed()
    ensures keywords { KnownKeywordsAreListed }
    ensures foreign { KnownForeignWordsAreListed }
{}

/// Each operator, each that is one as a method's name alone, and each outside the profile is found by its spelling.
pub fn operators_are_found()
    ensures operators { OperatorsAreFound }
    ensures method_operators { MethodOperatorsAreFound }
    ensures foreign { ForeignOperatorsAreFound }
{}

/// The name and the digits that are found at a place are as long as the longest there.
pub fn runs_are_longest()
    ensures identifiers { IdentifiersAreLongest }
    ensures constants { ConstantsAreLongest }
    ensures digits { DigitsAreLongest }
{}

/// A comment that gives a level in the words of the description is found to give it.
pub fn given_levels_are_found()
    ensures { GivenLevelsAreFound }
{}

/// The lexer answers a list of tokens exactly where the text has it, and a refused place of each kind exactly where the text
/// has it. Each text has one of these, and only one, since it has one answer.
pub fn answers_are_those_of_the_text()
    ensures tokens { TokensAreThoseOfTheText }
    ensures outside { OutsideIsThatOfTheText }
    ensures bad { BadIsThatOfTheText }
    ensures some { EachTextIsTold }
{}

/// Tokens stand one after the other, and each begins and ends where a character begins or the text ends. So does each refused
/// place.
pub fn tokens_stand_at_characters()
    ensures tokens { TokensStandAtCharacters }
    ensures places { RefusedPlacesAreStarts }
{}

/// The level that the lexer answers is the one that the text asks for.
pub fn level_is_that_of_the_text()
    ensures { LevelIsThatOfTheText }
{}
