//! The methods of a tree and of its node.

ghost use Rattle.std.specs.Prelude.{◌≡◌, IfOk};
ghost use Rattle.rb_tree.specs.Trees.{span_of, span_of_node};

use crate::syntax::{Node, Tree};
use srb_terms::{Boxed, NoMemory, Span};
use std::alloc::Global;

impl Tree {
    /// The tree of a node. Without memory the node is dropped.
    pub fn new(alloc: Global, node: Node) -> Result<Tree, NoMemory>
        ensures { IfOk result (λ tree. tree.node ≡ node) }
    {
        Ok(Tree {
            node: Boxed::new(alloc, node)?,
        })
    }

    /// What this tree is.
    pub fn get(&self) -> &Node
        ensures { result.now ≡ self.now.node }
    {
        self.node.get()
    }

    /// A copy that shares the tree. It takes no memory, and fails only at 2^63 copies.
    pub fn copied(&self) -> Result<Tree, NoMemory>
        ensures { IfOk result (λ tree. tree ≡ self.now) }
    {
        Ok(Tree {
            node: self.node.copied()?,
        })
    }

    /// The place of this tree.
    #[tactic(auto, unfolding(crate::specs::Trees::span_of))]
    pub fn span(&self) -> Span
        ensures { result ≡ span_of self.now }
    {
        self.get().span()
    }
}

impl Node {
    /// The place of the tree that is this.
    #[tactic(auto, unfolding(crate::specs::Trees::span_of_node))]
    pub fn span(&self) -> Span
        ensures { result ≡ span_of_node self.now }
    {
        match self {
            Node::Body { span, .. }
            | Node::Modified { span, .. }
            | Node::Jump { span, .. }
            | Node::Assign { span, .. }
            | Node::OperatorAssign { span, .. }
            | Node::Command { span, .. }
            | Node::Conditional { span, .. }
            | Node::Binary { span, .. }
            | Node::Unary { span, .. }
            | Node::Post { span, .. }
            | Node::Whole { span, .. }
            | Node::Float { span, .. }
            | Node::Text { span, .. }
            | Node::Symbol { span, .. }
            | Node::InstanceVariable { span, .. }
            | Node::Constant { span, .. }
            | Node::TopConstant { span, .. }
            | Node::SelfWord { span }
            | Node::Nil { span }
            | Node::True { span }
            | Node::False { span }
            | Node::Name { span, .. }
            | Node::Call { span, .. }
            | Node::Yield { span, .. }
            | Node::Super { span, .. }
            | Node::Array { span, .. }
            | Node::Hash { span, .. }
            | Node::Parens { span, .. }
            | Node::If { span, .. }
            | Node::While { span, .. }
            | Node::Case { span, .. }
            | Node::Begin { span, .. }
            | Node::Class { span, .. }
            | Node::Module { span, .. }
            | Node::Def { span, .. } => *span,
        }
    }
}
