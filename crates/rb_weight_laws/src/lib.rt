//! Laws on the weight: the pass that keeps it over tokens alone, and the grammar, which knows what part each token has, say the same.
//!
//! `roles` gives each token of a program its part by the production that reads it: it opens or closes a level, counts as an operator or
//! a modifier, is the `do` of a loop, separates, divides or has none of these. `weight_by` is the weight told by such parts. Neither
//! knows what stands before a token, by which `rb_weight` tells the same.
#![tactic(auto)]

ghost use Rattle.rb_weight_laws.specs.Examples.{BarsCountNot, BlockWeighs, BodyBeginsByIf, LoopOpensOnce, MethodWeighs, ModifierCounts, RescueDivides};
ghost use Rattle.rb_weight_laws.specs.Laws.{FrontsAreDeepByRoles, FrontsHaveTheWeightsOfAnyProgram, RolesAreTold, WeightsAreThoseOfTheGrammar};

/// The derivation of a program gives a role to each token, and what the pass does at the token is what its role says: a modifier counts
/// and opens nothing, the `do` of a loop opens nothing, the bars of a block do nothing, and so on.
pub fn roles_are_told()
    ensures { RolesAreTold }
{}

/// After each of a program's tokens the pass has the weight that their roles have. It has that of the roles in any program that
/// begins with the tokens passed, whichever it is.
pub fn weights_are_those_of_the_grammar()
    ensures programs { WeightsAreThoseOfTheGrammar }
    ensures fronts { FrontsHaveTheWeightsOfAnyProgram }
{}

/// So the first token at which tokens that begin a program, or are one, are too deep is the first after which the weight of the roles is
/// too great.
pub fn depths_are_those_of_the_grammar()
    ensures { FrontsAreDeepByRoles }
{}

/// A few programs with the roles of their tokens: with a modifier, with a loop and its `do`, with a block and its bars, and with an
/// `if` after the parameters of a method, with a `begin` and its `rescue`; and the weights after the tokens of two.
pub fn examples_have_roles()
    ensures modifier { ModifierCounts }
    ensures loop_do { LoopOpensOnce }
    ensures block { BarsCountNot }
    ensures method { BodyBeginsByIf }
    ensures guarded { RescueDivides }
    ensures block_weights { BlockWeighs }
    ensures method_weights { MethodWeighs }
{}
