//! Laws on the rewriting.

ghost use Rattle.std.specs.Prelude.{◌≡◌};
ghost use Rattle.rb_tree.specs.declared.syntax.Tree.{Tree as TreeValue};
ghost use Rattle.rb_rewrite.specs.Rewriting as spec;

/// A statement is rewritten by its node: a class or module has its body rewritten, and any other stays.
#[tactic(auto, using(crate::proofs::Equations::inner_is, crate::proofs::Equations::body_is))]
pub fn rewriting_goes_by_the_node()
    ensures inner { (t : TreeValue) → spec.inner_of t ≡ spec.inner_by_node t }
    ensures body { (t : TreeValue) → spec.body_of t ≡ spec.body_by_node t }
{}
