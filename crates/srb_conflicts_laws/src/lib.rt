//! The law on the errors of declarations: the error of a declaration has the number that the rules give to the fact of this declaration.
#![tactic(auto)]

ghost use Rattle.srb_conflicts_laws.specs.Numbers.{BodiesAgree, ConstantsAgree, ExtendsAgree, IncludesAgree, SuperclassesAgree};

/// The error of a declaration has the number that the rules give to its fact, and there is none where they give none. A superclass and an
/// `include` are to be among the project's facts: which superclass decides and which references are circular is told of these alone.
pub fn errors_are_those_of_facts()
    ensures bodies { BodiesAgree }
    ensures constants { ConstantsAgree }
    ensures superclasses { SuperclassesAgree }
    ensures includes { IncludesAgree }
    ensures extends { ExtendsAgree }
{}
