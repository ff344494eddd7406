//! A few programs and their references.

ghost use Rattle.srb_references.specs.Examples.{CallsRefer, ClassRefers, PathsRefer};

/// A class that is declared by a path of names, with a superclass, a mixin and a signature; an assertion of a type, and calls of `include`
/// and `sig` at the program's level; a path with a call after it.
#[tactic(auto, using(crate::proofs::Examples::classes, crate::proofs::Examples::calls, crate::proofs::Examples::paths))]
pub fn examples_refer()
    ensures classes { ClassRefers }
    ensures calls { CallsRefer }
    ensures paths { PathsRefer }
{}
