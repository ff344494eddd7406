//! What an assignment assigns to, and what a command calls, told by a type.

ghost use Rattle.std.specs.Prelude.{◌≡◌, option_map};
ghost use Rattle.std.specs.Option.{option_copied};
ghost use Rattle.rb_views.specs.Prefixes as prefixes;
ghost use Rattle.rb_views.specs.Targets as spec;

use crate::place::open_bracket;
use crate::prefix::Prefix;
use rb_tree::syntax::{Argument, Dot, Node, Suffix, Tree};
use srb_terms::{Name, Span};

/// What an assignment assigns to.
#[derive(Clone, Copy)]
pub enum Target<'a> {
    /// A variable.
    Variable {
        name: &'a Name,
        span: Span,
    },
    /// An instance variable. The name has no `@`, the place does.
    InstanceVariable {
        name: &'a Name,
        span: Span,
    },
    /// A constant.
    Constant {
        name: &'a Name,
        span: Span,
    },
    /// An attribute of a prefix. The name has no `=`.
    Attribute {
        receiver: Prefix<'a>,
        name: &'a Name,
        /// The place of the name.
        name_span: Span,
    },
    /// An element of a prefix.
    Element {
        receiver: Prefix<'a>,
        arguments: &'a [Argument<Tree>],
        /// The place of the `[`.
        bracket: Span,
    },
}

/// What a command calls.
#[derive(Clone, Copy)]
pub enum Callee<'a> {
    /// A name.
    Name {
        name: &'a Name,
        span: Span,
    },
    /// A call on a prefix.
    Call {
        receiver: Prefix<'a>,
        dot: Dot,
        name: &'a Name,
        /// The place of the name.
        name_span: Span,
    },
    /// `yield`.
    Yield,
    /// `super`.
    Super,
}

impl<'a> Target<'a> {
    /// The target that a prefix with one more suffix is.
    fn by(receiver: Prefix<'a>, last: Option<&'a Suffix<Tree>>) -> Option<Target<'a>>
        ensures { option_map spec.seen_target result ≡ spec.target_by (prefixes.seen_prefix receiver.entry) (option_copied last.entry) }
    {
        match last {
            Some(
                Suffix::Call {
                    dot: Dot::Plain,
                    name,
                    name_span,
                    arguments: None,
                    block: None,
                    ..
                },
            ) => Some(Target::Attribute {
                receiver,
                name,
                name_span: *name_span,
            }),
            Some(Suffix::Index { arguments, span }) => Some(Target::Element {
                receiver,
                arguments: arguments.as_slice(),
                bracket: open_bracket(*span),
            }),
            _ => None,
        }
    }

    /// The target that an operand with these suffixes is.
    fn of_row(row: Prefix<'a>) -> Option<Target<'a>>
        ensures { option_map spec.seen_target result ≡ spec.target_last (prefixes.seen_prefix row.entry) }
    {
        Target::by(row.without_last(), row.last())
    }

    /// What is assigned to by an assignment whose target is this tree. `None` exactly where the tree is no target.
    #[tactic(auto, unfolding(crate::specs::Targets::target_of))]
    pub fn of(tree: &'a Tree) -> Option<Target<'a>>
        ensures { option_map spec.seen_target result ≡ spec.target_of tree.now }
    {
        match tree.get() {
            Node::Name { name, span } => Some(Target::Variable { name, span: *span }),
            Node::InstanceVariable { name, span } => {
                Some(Target::InstanceVariable { name, span: *span })
            }
            Node::Constant { name, span } => Some(Target::Constant { name, span: *span }),
            Node::Post {
                receiver,
                suffixes,
                ..
            } => Target::of_row(Prefix {
                operand: receiver,
                suffixes: suffixes.as_slice(),
            }),
            _ => None,
        }
    }
}

impl<'a> Callee<'a> {
    /// The callee that a prefix with one more suffix is.
    fn by(receiver: Prefix<'a>, last: Option<&'a Suffix<Tree>>) -> Option<Callee<'a>>
        ensures { option_map spec.seen_callee result ≡ spec.callee_by (prefixes.seen_prefix receiver.entry) (option_copied last.entry) }
    {
        match last {
            Some(
                Suffix::Call {
                    dot,
                    name,
                    name_span,
                    arguments: None,
                    block: None,
                    ..
                },
            ) => Some(Callee::Call {
                receiver,
                dot: *dot,
                name,
                name_span: *name_span,
            }),
            _ => None,
        }
    }

    /// The callee that an operand with these suffixes is.
    fn of_row(row: Prefix<'a>) -> Option<Callee<'a>>
        ensures { option_map spec.seen_callee result ≡ spec.callee_last (prefixes.seen_prefix row.entry) }
    {
        Callee::by(row.without_last(), row.last())
    }

    /// What a command calls whose callee is this tree. `None` exactly where the tree is no callee.
    #[tactic(auto, unfolding(crate::specs::Targets::callee_of))]
    pub fn of(tree: &'a Tree) -> Option<Callee<'a>>
        ensures { option_map spec.seen_callee result ≡ spec.callee_of tree.now }
    {
        match tree.get() {
            Node::Name { name, span } => Some(Callee::Name { name, span: *span }),
            Node::Yield {
                arguments: None,
                ..
            } => Some(Callee::Yield),
            Node::Super {
                arguments: None,
                ..
            } => Some(Callee::Super),
            Node::Post {
                receiver,
                suffixes,
                ..
            } => Callee::of_row(Prefix {
                operand: receiver,
                suffixes: suffixes.as_slice(),
            }),
            _ => None,
        }
    }
}
