//! A few trees and what they are.

ghost use Rattle.srb_sig.specs.Examples.{ChainsAre, FormsAre, PathsAre};

/// The forms of `T.nilable(X)`, `T::Array[X]` and their like and of what is spelled almost so, the names of paths, and what the chains of
/// signatures say.
#[tactic(auto, using(crate::proofs::Examples::forms, crate::proofs::Examples::paths, crate::proofs::Examples::chains))]
pub fn examples_hold()
    ensures forms { FormsAre }
    ensures paths { PathsAre }
    ensures chains { ChainsAre }
{}
