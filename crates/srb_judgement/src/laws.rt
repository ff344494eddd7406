//! Examples of the judgement: small programs in a small language, whose errors come out by computation alone.

ghost use Rattle.srb_judgement.specs.ExamplesOfEnvironments.{EnvironmentsAreJoined, UnreachableCodeIsReportedOnce};
ghost use Rattle.srb_judgement.specs.ExamplesOfConditions.{SidesAreDead, SidesAreJoined, TestsNarrow, VariablesAreNarrowed};
ghost use Rattle.srb_judgement.specs.ExamplesOfWords.{ConstantsHaveTypes, InstanceVariablesAreDeclared, LiteralsHaveTheirClasses, SelfIsTheOwner};
ghost use Rattle.srb_judgement.specs.ExamplesOfOperators.{BothSidesHaveTypes, OperatorsAreCalls, OperatorsAssign, ReceiversAreJudgedOnce, WritersAreCalls};
ghost use Rattle.srb_judgement.specs.ExamplesOfCalls.{AssertionsHaveTypes, CallsAreJudgedInOrder, SafeNavigation};
ghost use Rattle.srb_judgement.specs.ExamplesOfBranches.{BranchesAreJoined, CasesNarrow, JumpsEndTheirPath};
ghost use Rattle.srb_judgement.specs.ExamplesOfLoops.{BlocksPinVariables, LoopsHaveTypes, LoopsPinVariables};
ghost use Rattle.srb_judgement.specs.ExamplesOfGuards.{ClausesSeeAssignments, EnsureIsJudgedOnce};
ghost use Rattle.srb_judgement.specs.ExamplesOfBodies.{BodiesHaveContexts, DefaultsAreJudged, UsualPrograms};
ghost use Rattle.srb_judgement.specs.Laws.{GoesByNode};
ghost use Rattle.srb_judgement.specs.ExamplesOfLevels.{ShownFromStrict, ShownFromStrong, ShownFromTrue};

/// What is known of a tree goes by its node.
#[tactic(auto, using(crate::proofs::Nodes::goes_by_node))]
pub fn goes_by_node<T, X>()
    ensures { GoesByNode T X }
{}

/// Which errors the levels show.
pub fn levels_show()
    ensures from_true { ShownFromTrue }
    ensures from_strict { ShownFromStrict }
    ensures from_strong { ShownFromStrong }
{}

/// Dead and silent environments.
#[tactic(auto, using(crate::proofs::ExamplesOfEnvironments::unreachable_code_is_reported_once))]
pub fn unreachable_code_is_reported_once()
    ensures { UnreachableCodeIsReportedOnce }
{}

/// Joins and absent variables.
#[tactic(auto, using(crate::proofs::ExamplesOfEnvironments::environments_are_joined))]
pub fn environments_are_joined()
    ensures { EnvironmentsAreJoined }
{}

/// A variable, `!`, `unless`, `until`, brackets and assignments.
#[tactic(auto, using(crate::proofs::ExamplesOfConditions::variables_are_narrowed))]
pub fn variables_are_narrowed()
    ensures { VariablesAreNarrowed }
{}

/// `&&` and `||`.
#[tactic(auto, using(crate::proofs::ExamplesOfConditions::sides_are_joined))]
pub fn sides_are_joined()
    ensures { SidesAreJoined }
{}

/// Tests for `nil` and for classes.
#[tactic(auto, using(crate::proofs::ExamplesOfConditions::tests_narrow))]
pub fn tests_narrow()
    ensures { TestsNarrow }
{}

/// Sides that are dead.
#[tactic(auto, using(crate::proofs::ExamplesOfConditions::sides_are_dead))]
pub fn sides_are_dead()
    ensures { SidesAreDead }
{}

/// Literals.
#[tactic(auto, using(crate::proofs::ExamplesOfWords::literals_have_their_classes))]
pub fn literals_have_their_classes()
    ensures { LiteralsHaveTheirClasses }
{}

/// `self`.
#[tactic(auto, using(crate::proofs::ExamplesOfWords::self_is_the_owner))]
pub fn self_is_the_owner()
    ensures { SelfIsTheOwner }
{}

/// Constants.
#[tactic(auto, using(crate::proofs::ExamplesOfWords::constants_have_types))]
pub fn constants_have_types()
    ensures { ConstantsHaveTypes }
{}

/// Instance variables.
#[tactic(auto, using(crate::proofs::ExamplesOfWords::instance_variables_are_declared))]
pub fn instance_variables_are_declared()
    ensures { InstanceVariablesAreDeclared }
{}

/// Operators that are calls.
#[tactic(auto, using(crate::proofs::ExamplesOfOperators::operators_are_calls))]
pub fn operators_are_calls()
    ensures { OperatorsAreCalls }
{}

/// `&&` and `||` as values.
#[tactic(auto, using(crate::proofs::ExamplesOfOperators::both_sides_have_types))]
pub fn both_sides_have_types()
    ensures { BothSidesHaveTypes }
{}

/// Assignments with an operator.
#[tactic(auto, using(crate::proofs::ExamplesOfOperators::operators_assign))]
pub fn operators_assign()
    ensures { OperatorsAssign }
{}

/// Receivers and indexes of assignments with an operator.
#[tactic(auto, using(crate::proofs::ExamplesOfOperators::receivers_are_judged_once))]
pub fn receivers_are_judged_once()
    ensures { ReceiversAreJudgedOnce }
{}

/// Assignments to attributes and elements.
#[tactic(auto, using(crate::proofs::ExamplesOfOperators::writers_are_calls))]
pub fn writers_are_calls()
    ensures { WritersAreCalls }
{}

/// Calls.
#[tactic(auto, using(crate::proofs::ExamplesOfCalls::calls_are_judged_in_order))]
pub fn calls_are_judged_in_order()
    ensures { CallsAreJudgedInOrder }
{}

/// `&.`.
#[tactic(auto, using(crate::proofs::ExamplesOfCalls::safe_navigation))]
pub fn safe_navigation()
    ensures { SafeNavigation }
{}

/// Forms of `T`.
#[tactic(auto, using(crate::proofs::ExamplesOfCalls::assertions_have_types))]
pub fn assertions_have_types()
    ensures { AssertionsHaveTypes }
{}

/// Branches.
#[tactic(auto, using(crate::proofs::ExamplesOfBranches::branches_are_joined))]
pub fn branches_are_joined()
    ensures { BranchesAreJoined }
{}

/// `case`.
#[tactic(auto, using(crate::proofs::ExamplesOfBranches::cases_narrow))]
pub fn cases_narrow()
    ensures { CasesNarrow }
{}

/// Jumps and results.
#[tactic(auto, using(crate::proofs::ExamplesOfBranches::jumps_end_their_path))]
pub fn jumps_end_their_path()
    ensures { JumpsEndTheirPath }
{}

/// Pins in loops.
#[tactic(auto, using(crate::proofs::ExamplesOfLoops::loops_pin_variables))]
pub fn loops_pin_variables()
    ensures { LoopsPinVariables }
{}

/// Types of loops and what is after them.
#[tactic(auto, using(crate::proofs::ExamplesOfLoops::loops_have_types))]
pub fn loops_have_types()
    ensures { LoopsHaveTypes }
{}

/// Blocks.
#[tactic(auto, using(crate::proofs::ExamplesOfLoops::blocks_pin_variables))]
pub fn blocks_pin_variables()
    ensures { BlocksPinVariables }
{}

/// `rescue`.
#[tactic(auto, using(crate::proofs::ExamplesOfGuards::clauses_see_assignments))]
pub fn clauses_see_assignments()
    ensures { ClausesSeeAssignments }
{}

/// `ensure`.
#[tactic(auto, using(crate::proofs::ExamplesOfGuards::ensure_is_judged_once))]
pub fn ensure_is_judged_once()
    ensures { EnsureIsJudgedOnce }
{}

/// Methods, classes and the program.
#[tactic(auto, using(crate::proofs::ExamplesOfBodies::bodies_have_contexts))]
pub fn bodies_have_contexts()
    ensures { BodiesHaveContexts }
{}

/// Default values.
#[tactic(auto, using(crate::proofs::ExamplesOfBodies::defaults_are_judged))]
pub fn defaults_are_judged()
    ensures { DefaultsAreJudged }
{}

/// Programs as people write them.
#[tactic(auto, using(crate::proofs::ExamplesOfBodies::usual_programs))]
pub fn usual_programs()
    ensures { UsualPrograms }
{}
