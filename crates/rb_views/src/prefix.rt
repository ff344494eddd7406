//! Prefixes: an operand with the first of its suffixes. `a.b[c]` has the prefixes `a`, `a.b` and `a.b[c]`.

ghost use Rattle.std.specs.Prelude.{◌≡◌, ◌-◌, length, slice_get};
ghost use Rattle.std.specs.Option.{option_copied};
ghost use Rattle.rb_views.specs.Prefixes as spec;

use rb_tree::syntax::{Node, Suffix, Tree};
use srb_terms::Span;

/// An operand and a row of suffixes after it, perhaps none.
#[derive(Clone, Copy)]
pub struct Prefix<'a> {
    pub operand: &'a Tree,
    pub suffixes: &'a [Suffix<Tree>],
}

/// The place of a suffix.
pub fn suffix_span<T>(suffix: &Suffix<T>) -> Span
    ensures { result ≡ spec.suffix_span suffix.now }
{
    match suffix {
        Suffix::Call { span, .. } | Suffix::Constant { span, .. } | Suffix::Index { span, .. } =>
            *span,
    }
}

/// A place that goes on to the end of the last of these suffixes.
fn up_to_last<T>(span: Span, suffixes: &[Suffix<T>]) -> Span
    ensures { result ≡ spec.up_to_suffix span (spec.last_suffix suffixes.now) }
{
    match suffixes.get(suffixes.len().saturating_sub(1)) {
        Some(last) => Span {
            start: span.start,
            end: suffix_span(last).end,
        },
        None => span,
    }
}

impl<'a> Prefix<'a> {
    /// The prefix of a whole tree: all suffixes of a `Post`, and any other tree with none.
    #[tactic(auto, unfolding(crate::specs::Prefixes::prefix_of))]
    pub fn of(tree: &'a Tree) -> Prefix<'a>
        ensures { spec.seen_prefix result ≡ spec.prefix_of tree.now }
    {
        match tree.get() {
            Node::Post {
                receiver,
                suffixes,
                ..
            } => Prefix {
                operand: receiver,
                suffixes: suffixes.as_slice(),
            },
            _ => Prefix {
                operand: tree,
                suffixes: &[],
            },
        }
    }

    /// The prefix with the first `count` suffixes, or with all where there are fewer.
    pub fn first(self, count: usize) -> Prefix<'a>
        ensures { spec.seen_prefix result ≡ spec.first_suffixes count (spec.seen_prefix self.entry) }
    {
        let suffixes = self.suffixes;
        Prefix {
            operand: self.operand,
            suffixes: &suffixes[..count.min(suffixes.len())],
        }
    }

    /// The last suffix. `None` exactly where there is none.
    pub fn last(self) -> Option<&'a Suffix<Tree>>
        ensures { option_copied result ≡ spec.last_suffix self.entry.suffixes.now }
    {
        let suffixes = self.suffixes;
        suffixes.get(suffixes.len().saturating_sub(1))
    }

    /// The prefix without its last suffix.
    pub fn without_last(self) -> Prefix<'a>
        ensures { spec.seen_prefix result ≡ spec.without_last (spec.seen_prefix self.entry) }
    {
        self.first(self.suffixes.len().saturating_sub(1))
    }

    /// The place: from the start of the operand to the end of the last suffix. It is the operand's own where there is none.
    #[tactic(auto, unfolding(crate::specs::Prefixes::prefix_span))]
    pub fn span(self) -> Span
        ensures { result ≡ spec.prefix_span (spec.seen_prefix self.entry) }
    {
        up_to_last(self.operand.span(), self.suffixes)
    }
}
