//! One view of a call, whatever its spelling: `f`, `f(a) { b }`, `a.f(b)`, `a&.f`, `a[b]` and `a.f b do c end`.

ghost use Rattle.std.specs.Prelude.{◌≡◌, option_map};
ghost use Rattle.std.specs.Option.{option_copied};
ghost use Rattle.rb_views.specs.Calls as spec;
ghost use Rattle.rb_views.specs.Prefixes.{seen_prefix, up_to_suffix};
ghost use Rattle.rb_views.specs.Targets.{seen_callee};

use crate::place::open_bracket;
use crate::prefix::{Prefix, suffix_span};
use crate::target::Callee;
use rb_tree::syntax::{Argument, Block, Dot, Node, Suffix, Tree};
use srb_terms::{Boxed, Items, Span};

/// What a call is called on, and how it is joined. An index is joined plainly.
#[derive(Clone, Copy)]
pub struct Receiver<'a> {
    pub prefix: Prefix<'a>,
    pub dot: Dot,
}

/// A call.
#[derive(Clone, Copy)]
pub struct Call<'a> {
    /// `None` for a call on `self` that does not say so.
    pub receiver: Option<Receiver<'a>>,
    /// The name, `[]` for an index.
    pub name: &'a str,
    /// The place of the name, of an index that of its `[`.
    pub name_span: Span,
    pub arguments: &'a [Argument<Tree>],
    pub block: Option<&'a Block<Tree>>,
    /// From the receiver to the end of what belongs to the call.
    pub span: Span,
    /// Whether it is a name alone, which is a variable where its body has one of this name.
    pub alone: bool,
}

/// Arguments in brackets; none where no brackets stand.
fn arguments_of<'a>(arguments: &'a Option<Items<Argument<Tree>>>) -> &'a [Argument<Tree>]
    ensures { result.now ≡ spec.arguments_of arguments.now }
{
    match arguments {
        Some(items) => items.as_slice(),
        None => &[],
    }
}

/// A block out of its box.
fn block_of<'a>(block: &'a Option<Boxed<Block<Tree>>>) -> Option<&'a Block<Tree>>
    ensures { option_copied result ≡ block.now }
{
    match block {
        Some(block) => Some(block.get()),
        None => None,
    }
}

/// The place of a prefix with one more suffix.
fn span_with<'a>(prefix: Prefix<'a>, suffix: &Suffix<Tree>) -> Span
    ensures { result ≡ spec.span_with (seen_prefix prefix.entry) suffix.now }
{
    Span {
        start: prefix.operand.span().start,
        end: suffix_span(suffix).end,
    }
}

impl<'a> Call<'a> {
    /// The call that a suffix is after a prefix. `None` exactly for a constant.
    pub fn by(prefix: Prefix<'a>, suffix: &'a Suffix<Tree>) -> Option<Call<'a>>
        ensures { option_map spec.seen_call result ≡ spec.call_by (seen_prefix prefix.entry) suffix.now }
    {
        match suffix {
            Suffix::Call {
                dot,
                name,
                name_span,
                arguments,
                block,
                ..
            } => Some(Call {
                receiver: Some(Receiver { prefix, dot: *dot }),
                name: name.as_str(),
                name_span: *name_span,
                arguments: arguments_of(arguments),
                block: block_of(block),
                span: span_with(prefix, suffix),
                alone: false,
            }),
            Suffix::Index { arguments, span } => Some(Call {
                receiver: Some(Receiver {
                    prefix,
                    dot: Dot::Plain,
                }),
                name: "[]",
                name_span: open_bracket(*span),
                arguments: arguments.as_slice(),
                block: None,
                span: span_with(prefix, suffix),
                alone: false,
            }),
            Suffix::Constant { .. } => None,
        }
    }

    /// The call that a prefix is by its last suffix. `None` exactly where that is a constant, or there is none.
    pub fn of_row(row: Prefix<'a>) -> Option<Call<'a>>
        ensures { option_map spec.seen_call result ≡ spec.call_of_row (seen_prefix row.entry) }
    {
        match row.last() {
            Some(last) => Call::by(row.without_last(), last),
            None => None,
        }
    }

    /// The call that a command is. `None` exactly for `yield` and `super`, and where there is no callee.
    fn command(
        callee: Option<Callee<'a>>,
        arguments: &'a [Argument<Tree>],
        block: Option<&'a Block<Tree>>,
        span: Span,
    ) -> Option<Call<'a>>
        ensures { option_map spec.seen_call result ≡ spec.command (option_map seen_callee callee.entry) arguments.now (option_copied block.entry) span }
    {
        match callee {
            Some(
                Callee::Name {
                    name,
                    span: name_span,
                },
            ) => Some(Call {
                receiver: None,
                name: name.as_str(),
                name_span,
                arguments,
                block,
                span,
                alone: false,
            }),
            Some(
                Callee::Call {
                    receiver,
                    dot,
                    name,
                    name_span,
                },
            ) => Some(Call {
                receiver: Some(Receiver {
                    prefix: receiver,
                    dot,
                }),
                name: name.as_str(),
                name_span,
                arguments,
                block,
                span,
                alone: false,
            }),
            _ => None,
        }
    }

    /// The call that a tree is. `None` exactly for any other tree; `yield`, `super` and operators are no calls here.
    #[tactic(auto, unfolding(crate::specs::Calls::call_of))]
    pub fn of(tree: &'a Tree) -> Option<Call<'a>>
        ensures { option_map spec.seen_call result ≡ spec.call_of tree.now }
    {
        match tree.get() {
            Node::Name { name, span } => Some(Call {
                receiver: None,
                name: name.as_str(),
                name_span: *span,
                arguments: &[],
                block: None,
                span: *span,
                alone: true,
            }),
            Node::Call {
                name,
                name_span,
                arguments,
                block,
                span,
            } => Some(Call {
                receiver: None,
                name: name.as_str(),
                name_span: *name_span,
                arguments: arguments_of(arguments),
                block: block_of(block),
                span: *span,
                alone: false,
            }),
            Node::Post {
                receiver,
                suffixes,
                ..
            } => Call::of_row(Prefix {
                operand: receiver,
                suffixes: suffixes.as_slice(),
            }),
            Node::Command {
                callee,
                arguments,
                block,
                span,
            } => Call::command(
                Callee::of(callee),
                arguments.as_slice(),
                block_of(block),
                *span,
            ),
            _ => None,
        }
    }
}
