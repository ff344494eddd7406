//! Laws on `expr` and `tern` of `rb_expr`: which form they read that begins at a token, and where they refuse it, in the words of the
//! grammar.
//!
//! `Reaches` says over how many tokens such a form reaches: these begin one, and with the next token none begins. `Says` says of each
//! answer what holds of the tokens.
#![tactic(auto)]

ghost use Rattle.rb_expr_laws.specs.Examples.{BadIsToldFirst, BodyIsRead, ComparisonIsRead, ConstantIsAssigned, JumpIsRead, NegationIsDeep, OperandIsWanted, PartedIsRead, PowerIsRefused, RescueIsRefused, TermIsRead};
ghost use Rattle.rb_expr_laws.specs.Laws.{AnswersSay, DeepFormsAreRefused, FormsAreRead, FormsEndThere, FormsReach, LoneFormsAreRead, NoFormsAreRefused, NoneIsLonger, OneReach, OneStands, StandElsewhere, StandingAreLone, TermsGoOn};

/// A form that begins at a token reaches over one number of tokens. None is longer.
pub fn one_form_is_longest()
    ensures reach { FormsReach }
    ensures one { OneReach }
    ensures longer { NoneIsLonger }
{}

/// What is a form before some tokens is the same one by itself, where `**` isn't next, and before others, where it is next in both places
/// or in neither. Before `**` a term goes on with it, so the longest one stands before none. Where the longest form ends, it has one tree.
pub fn forms_stand_alone()
    ensures lone { StandingAreLone }
    ensures elsewhere { StandElsewhere }
    ensures power { TermsGoOn }
    ensures one { OneStands }
{}

/// What `expr` and `tern` answer: the tree of the longest form and the place after it, where such a form stands; or the place where it
/// goes no further, and none stands there; or that of the first too deep token, if a form begins with the tokens up to it.
pub fn answers_say_what_stands()
    ensures { AnswersSay }
{}

/// Where no token of the longest form is too deep, it is answered or refused where it goes no further: answered, with the tree that the
/// grammar gives, if one stands there before what is next, and refused if none does. A body stands before a `rescue` only where a
/// separator or nothing parts the two. Where neither `**` nor `rescue` is next, it is answered if the tokens are one by themselves. It is
/// refused at the first too deep token, if a form begins with the tokens up to it.
pub fn forms_are_answered()
    ensures either { FormsEndThere }
    ensures read { FormsAreRead }
    ensures lone { LoneFormsAreRead }
    ensures refused { NoFormsAreRefused }
    ensures deep { DeepFormsAreRefused }
{}

/// A few tokens, with what is answered of them.
pub fn examples_are_answered()
    ensures term { TermIsRead }
    ensures body { BodyIsRead }
    ensures constant { ConstantIsAssigned }
    ensures operand { OperandIsWanted }
    ensures deep { NegationIsDeep }
    ensures bad { BadIsToldFirst }
    ensures guarded { RescueIsRefused }
    ensures comparison { ComparisonIsRead }
    ensures power { PowerIsRefused }
    ensures parted { PartedIsRead }
    ensures jump { JumpIsRead }
{}
