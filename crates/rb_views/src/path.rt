//! References to constants: a constant with the constants that follow it by `::`, the superclass of a class, and the path that a class
//! or module declares.

ghost use Rattle.std.specs.Prelude.{◌≡◌, ◌∷◌, [], map, MatchOption, option_map};
ghost use Rattle.rb_views.specs.Paths as spec;
ghost use Rattle.rb_views.specs.Prefixes.{seen_prefix};

use crate::place::names_span;
use crate::prefix::Prefix;
use rb_tree::syntax::{Node, PlacedName, Reference, Suffix, Tree};
use srb_terms::{Name, Span};

/// The names of a path.
#[derive(Clone, Copy)]
pub enum PathNames<'a> {
    /// A name, and the constants with which the suffixes begin.
    Written {
        name: &'a Name,
        span: Span,
        suffixes: &'a [Suffix<Tree>],
    },
    /// The constants with which the suffixes begin, perhaps none.
    Following {
        suffixes: &'a [Suffix<Tree>],
    },
    /// Names of a declaration.
    Placed {
        names: &'a [PlacedName],
    },
}

/// A path of constants, as `A`, `::A` or `A::B::C`.
#[derive(Clone, Copy)]
pub struct Path<'a> {
    /// Whether `::` stands in front.
    pub top: bool,
    /// The names in order, with their places.
    pub names: PathNames<'a>,
    /// From the `::` in front, or the first name, to the end of the last.
    pub span: Span,
    /// The suffixes after the path.
    pub rest: &'a [Suffix<Tree>],
}

impl<'a> PathNames<'a> {
    /// The first name with its place, and the names after it. `None` exactly where there is no name.
    pub fn split(self) -> Option<(&'a Name, Span, PathNames<'a>)>
        ensures { MatchOption result (spec.seen_names self.entry ≡ []) (λ r. spec.seen_names self.entry ≡ record { name = r.0.now; span = r.1 } ∷ spec.seen_names r.2) }
    {
        match self {
            PathNames::Written {
                name,
                span,
                suffixes,
            } => Some((name, span, PathNames::Following { suffixes })),
            PathNames::Following {
                suffixes: [
                    Suffix::Constant {
                        name,
                        name_span,
                        ..
                    },
                    rest @ ..,
                ],
            } => Some((name, *name_span, PathNames::Following { suffixes: rest })),
            PathNames::Following { .. } => None,
            PathNames::Placed {
                names: [first, rest @ ..],
            } => Some((&first.name, first.span, PathNames::Placed { names: rest })),
            PathNames::Placed { .. } => None,
        }
    }

    /// Whether there is no name.
    fn is_empty(self) -> bool
        ensures { result ≡ spec.spelled (spec.seen_names self.entry) [] }
    {
        match self.split() {
            Some(_) => false,
            None => true,
        }
    }

    /// Whether these are the names, in order.
    #[tactic(auto, using(crate::proofs::Spelling::spelled_none, crate::proofs::Spelling::spelled_other, crate::proofs::Spelling::spelled_same))]
    pub fn is_spelled(self, words: &[&str]) -> bool
        ensures { result ≡ spec.spelled (spec.seen_names self.entry) (map (λ w. w.now) words.now) }
    {
        let mut names = self;
        let mut left = words;
        'left: while let [word, rest @ ..] = left {
            match names.split() {
                Some((name, _, after)) => {
                    if name.as_str() == *word {
                        names = after;
                        left = rest;
                    } else {
                        return false;
                    }
                }
                None => return false,
            }
        }
        names.is_empty()
    }
}

/// What a row of suffixes has after the constants with which it begins.
fn after_constants<T>(suffixes: &[Suffix<T>]) -> &[Suffix<T>]
    ensures { result.now ≡ spec.after_constants suffixes.now }
{
    let mut rest = suffixes;
    'rest: while let [Suffix::Constant { .. }, tail @ ..] = rest {
        rest = tail;
    }
    rest
}

/// A place that goes on to the end of the constants with which the suffixes begin.
fn up_to_constants<T>(whole: Span, suffixes: &[Suffix<T>]) -> Span
    ensures { result ≡ spec.up_to_constants whole suffixes.now }
{
    let mut place = whole;
    'suffixes: for suffix in suffixes {
        match suffix {
            Suffix::Constant { span, .. } => {
                place = Span {
                    start: place.start,
                    end: span.end,
                };
            }
            _ => return place,
        }
    }
    place
}

/// The path that begins with this constant at this place and goes on in the suffixes.
fn path_from<'a>(
    top: bool,
    name: &'a Name,
    name_span: Span,
    span: Span,
    suffixes: &'a [Suffix<Tree>],
) -> Path<'a>
    ensures { spec.seen_path result ≡ spec.path_from top name.now name_span span suffixes.now }
{
    Path {
        top,
        names: PathNames::Written {
            name,
            span: name_span,
            suffixes,
        },
        span: up_to_constants(span, suffixes),
        rest: after_constants(suffixes),
    }
}

impl<'a> Path<'a> {
    /// The longest path with which a prefix begins. `None` exactly where it begins with no constant.
    #[tactic(auto, unfolding(crate::specs::Paths::path_of_prefix))]
    pub fn of_prefix(prefix: Prefix<'a>) -> Option<Path<'a>>
        ensures { option_map spec.seen_path result ≡ spec.path_of_prefix (seen_prefix prefix.entry) }
    {
        match prefix.operand.get() {
            Node::Constant { name, span } => {
                Some(path_from(false, name, *span, *span, prefix.suffixes))
            }
            Node::TopConstant {
                name,
                name_span,
                span,
            } => Some(path_from(true, name, *name_span, *span, prefix.suffixes)),
            _ => None,
        }
    }

    /// The longest path with which a tree begins. `None` exactly where it begins with no constant.
    #[tactic(auto, unfolding(crate::specs::Paths::path_of))]
    pub fn of(tree: &'a Tree) -> Option<Path<'a>>
        ensures { option_map spec.seen_path result ≡ spec.path_of tree.now }
    {
        Path::of_prefix(Prefix::of(tree))
    }

    /// The path of a superclass.
    pub fn of_reference(reference: &'a Reference) -> Path<'a>
        ensures { spec.seen_path result ≡ spec.path_of_reference reference.now }
    {
        Path {
            top: reference.top,
            names: PathNames::Placed {
                names: reference.path.as_slice(),
            },
            span: reference.span,
            rest: &[],
        }
    }

    /// The path that a class or module declares.
    pub fn of_names(names: &'a [PlacedName]) -> Path<'a>
        ensures { spec.seen_path result ≡ spec.path_of_names names.now }
    {
        Path {
            top: false,
            names: PathNames::Placed { names },
            span: names_span(names),
            rest: &[],
        }
    }
}
