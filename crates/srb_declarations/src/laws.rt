//! A few programs and what they declare.

ghost use Rattle.srb_declarations.specs.Examples.{CallsDeclare, LongDeclares, MixinsDeclare, NestedDeclares};

/// A nested class with a superclass and a constant, a class that is declared by a path of names, mixins of each form, and calls of
/// `include` and `extend` that declare nothing.
#[tactic(auto, using(crate::proofs::Examples::nested, crate::proofs::Examples::long, crate::proofs::Examples::mixins, crate::proofs::Examples::calls))]
pub fn examples_declare()
    ensures nested { NestedDeclares }
    ensures long { LongDeclares }
    ensures mixins { MixinsDeclare }
    ensures calls { CallsDeclare }
{}
