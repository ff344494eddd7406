//! Examples of the rules on declarations and constants: small projects, whose kinds, superclasses, linearizations, constants and errors
//! come out by computation alone.
#![tactic(auto)]

ghost use Rattle.srb_rules_laws.specs.Examples.{BodyOfObject, CircleOverTwoFiles, ClassIsNoMixin, ConstantsOfBodies, ConstantsOfPaths, FirstKindCounts, FirstSuperclassDecides, LateSuperclassIsDropped, MixinsAreLinearized, ModuleIsNotInherited, ModulesInACircle, NothingIsAboveBasicObject, TypesOfConstants};

/// A module as a superclass, two superclasses in both orders, a circle over two files, and a superclass of `BasicObject`.
pub fn superclasses_are_decided()
    ensures inherited { ModuleIsNotInherited }
    ensures first { FirstSuperclassDecides }
    ensures circle { CircleOverTwoFiles }
    ensures top { NothingIsAboveBasicObject }
{}

/// Declarations of one name as a class, as a module and as a value constant.
pub fn kinds_are_decided()
    ensures first { FirstKindCounts }
    ensures late { LateSuperclassIsDropped }
{}

/// Modules that a class and its superclass include, mixins that are no modules, and modules that include each other.
pub fn mixins_are_ordered()
    ensures mixed { MixinsAreLinearized }
    ensures wrong { ClassIsNoMixin }
    ensures circle { ModulesInACircle }
{}

/// Constants in nested bodies, as paths, in a body of `Object`, and their types.
pub fn constants_are_found()
    ensures bodies { ConstantsOfBodies }
    ensures paths { ConstantsOfPaths }
    ensures object { BodyOfObject }
    ensures types { TypesOfConstants }
{}
