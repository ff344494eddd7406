//! What stands at the end of an expression: what an assignment assigns to, and what a command calls.

ghost use Rattle.std.specs.Prelude.{◌≡◌};
ghost use Rattle.std.specs.Option.{option_copied};
ghost use Rattle.rb_views.specs.Prefixes.{seen_prefix};
ghost use Rattle.srb_walk.specs.Endings as spec;
ghost use Rattle.srb_walk.specs.Endings.{seen_end};

use rb_tree::syntax::{Argument, Dot, Node, Suffix, Tree};
use rb_views::place::open_bracket;
use rb_views::prefix::Prefix;
use srb_terms::{Name, Span};

/// What stands at the end of an expression.
#[derive(Clone, Copy)]
pub enum Ending<'a> {
    /// A name.
    Name {
        name: &'a Name,
        span: Span,
    },
    /// An instance variable. The name has no `@`.
    InstanceVariable {
        name: &'a Name,
        span: Span,
    },
    Constant,
    /// A call without brackets and block.
    Call {
        receiver: Prefix<'a>,
        dot: Dot,
        name: &'a Name,
        /// The place of the name.
        name_span: Span,
    },
    /// An index.
    Index {
        receiver: Prefix<'a>,
        arguments: &'a [Argument<Tree>],
        /// The place of the `[`.
        bracket: Span,
    },
    Yield,
    Super,
    Other,
}

/// The end of a prefix with one more suffix.
fn end_by<'a>(prefix: Prefix<'a>, suffix: Option<&'a Suffix<Tree>>) -> Ending<'a>
    ensures { seen_end result ≡ spec.end_by (seen_prefix prefix.entry) (option_copied suffix.entry) }
{
    match suffix {
        Some(
            Suffix::Call {
                dot,
                name,
                name_span,
                arguments: None,
                block: None,
                ..
            },
        ) => Ending::Call {
            receiver: prefix,
            dot: *dot,
            name,
            name_span: *name_span,
        },
        Some(Suffix::Index { arguments, span }) => Ending::Index {
            receiver: prefix,
            arguments: arguments.as_slice(),
            bracket: open_bracket(*span),
        },
        _ => Ending::Other,
    }
}

/// The end of an operand with these suffixes.
fn end_last<'a>(row: Prefix<'a>) -> Ending<'a>
    ensures { seen_end result ≡ spec.end_last (seen_prefix row.entry) }
{
    end_by(row.without_last(), row.last())
}

impl<'a> Ending<'a> {
    /// What stands at the end of a tree.
    #[tactic(auto, unfolding(crate::specs::Endings::end_of))]
    pub fn of(tree: &'a Tree) -> Ending<'a>
        ensures { seen_end result ≡ spec.end_of tree.now }
    {
        match tree.get() {
            Node::Name { name, span } => Ending::Name { name, span: *span },
            Node::InstanceVariable { name, span } => Ending::InstanceVariable { name, span: *span },
            Node::Constant { .. } => Ending::Constant,
            Node::Post {
                receiver,
                suffixes,
                ..
            } => end_last(Prefix {
                operand: receiver,
                suffixes: suffixes.as_slice(),
            }),
            Node::Yield {
                arguments: None,
                ..
            } => Ending::Yield,
            Node::Super {
                arguments: None,
                ..
            } => Ending::Super,
            _ => Ending::Other,
        }
    }
}
