//! Laws on the places in a tree at which errors can stand.
#![tactic(auto)]

ghost use Rattle.rb_places_laws.specs.Examples.{ColonsAreNoPlace, FrontIsAPlace, PathIsAPlace, SuperclassIsAPlace};
ghost use Rattle.rb_places_laws.specs.TokenPlaces.{ProgramsHaveErrorPlaces};

/// The places in the tree of a program at which errors of the judgement can stand are those of its tokens.
#[tactic(auto, using(crate::proofs::Programs::programs_have_error_places))]
pub fn programs_have_error_places()
    ensures { ProgramsHaveErrorPlaces }
{}

/// A declared path, the part of it in front and a superclass are places of a tree, and what stands between two names isn't.
pub fn examples_are_places()
    ensures front { FrontIsAPlace }
    ensures path { PathIsAPlace }
    ensures superclass { SuperclassIsAPlace }
    ensures colons { ColonsAreNoPlace }
{}
