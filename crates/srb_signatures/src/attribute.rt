//! Signatures of attributes.

ghost use Rattle.std.specs.Prelude.{◌≡◌, option_map};
ghost use Rattle.std.specs.List.{list_all};
ghost use Rattle.rb_rewrite.specs.Signatures as signatures;
ghost use Rattle.srb_signatures.specs.Fitting as spec;

use rb_rewrite::declaring::{Attribute, is_missing};
use rb_rewrite::signature::Signature;
use rb_tree::syntax::{Argument, Node, Tree};

/// Whether one result stands in a signature.
fn has_result<'a>(said: Signature<'a>) -> bool
    ensures { result ≡ signatures.has_result (signatures.seen_signature said.entry) }
{
    !is_missing(said.returned) || said.is_void
}

/// Whether `params` names this alone.
fn names_alone(name: &str, params: Option<&[Argument<Tree>]>) -> bool
    ensures { result ≡ spec.names_alone name.now (option_map (λ a. a.now) params.entry) }
{
    match params {
        Some([Argument::Keyword { name: keyword, .. }]) => keyword.as_str() == name,
        _ => false,
    }
}

/// Whether a signature is one of an attribute of this kind and name.
fn fits_name<'a>(kind: Attribute, said: Signature<'a>, name: &str) -> bool
    ensures { result ≡ spec.fits_name kind (signatures.seen_signature said.entry) name.now }
{
    match kind {
        Attribute::Reader => has_result(said) && is_missing(said.params),
        Attribute::Writer => has_result(said) && names_alone(name, said.params),
        Attribute::Accessor => !is_missing(said.returned) && is_missing(said.params),
    }
}

/// The same of what may be no signature at all.
fn fits_said<'a>(kind: Attribute, said: Option<Signature<'a>>, name: &str) -> bool
    ensures { result ≡ spec.fits_said kind (option_map signatures.seen_signature said.entry) name.now }
{
    match said {
        None => false,
        Some(said) => fits_name(kind, said, name),
    }
}

/// Whether it is one of the attribute that a tree names; any is, of a tree that is no symbol.
#[tactic(auto, unfolding(crate::specs::Fitting::fits_symbol))]
fn fits_symbol<'a>(kind: Attribute, said: Option<Signature<'a>>, tree: &Tree) -> bool
    ensures { result ≡ spec.fits_symbol kind (option_map signatures.seen_signature said.entry) tree.now }
{
    match tree.get() {
        Node::Symbol { words, .. } => fits_said(kind, said, words.as_str()),
        _ => true,
    }
}

/// The same of an argument.
fn fits_argument<'a>(
    kind: Attribute,
    said: Option<Signature<'a>>,
    argument: &Argument<Tree>,
) -> bool
    ensures { result ≡ spec.fits_argument kind (option_map signatures.seen_signature said.entry) argument.now }
{
    match argument {
        Argument::Positional { value } => fits_symbol(kind, said, value),
        Argument::Keyword { .. } | Argument::Block { .. } => true,
    }
}

/// Whether it is a signature with one result.
fn is_formed<'a>(said: Option<Signature<'a>>) -> bool
    ensures { result ≡ spec.is_formed (option_map signatures.seen_signature said.entry) }
{
    match said {
        None => false,
        Some(said) => has_result(said),
    }
}

/// Whether it is one of each attribute that arguments name.
fn fits_each<'a>(kind: Attribute, said: Option<Signature<'a>>, arguments: &[Argument<Tree>]) -> bool
    ensures { result ≡ list_all (spec.fits_argument kind (option_map signatures.seen_signature said.entry)) arguments.now }
{
    'arguments: for argument in arguments {
        if !fits_argument(kind, said, argument) {
            return false;
        }
    }
    true
}

/// Whether it is well-formed, and one of each attribute that the arguments name.
pub fn fits_attributes<'a>(
    kind: Attribute,
    said: Option<Signature<'a>>,
    arguments: &[Argument<Tree>],
) -> bool
    ensures { result ≡ spec.fits_attributes kind (option_map signatures.seen_signature said.entry) arguments.now }
{
    is_formed(said) && fits_each(kind, said, arguments)
}
