//! Statements of a class or module body that declare by a call: `sig`, `attr_reader` and its kin.

ghost use Rattle.std.specs.Prelude.{◌≡◌, option_map};
ghost use Rattle.rb_rewrite.specs.Declaring as spec;
ghost use Rattle.rb_views.specs.Calls.{seen_call};

use rb_tree::syntax::{Argument, Tree};
use rb_views::call::Call;

/// The kinds of attributes.
#[derive(Clone, Copy, PartialEq, Eq, Debug)]
pub enum Attribute {
    /// `attr_reader`.
    Reader,
    /// `attr_writer`.
    Writer,
    /// `attr_accessor`.
    Accessor,
}

/// An attribute statement.
#[derive(Clone, Copy)]
pub struct AttributeCall<'a> {
    pub kind: Attribute,
    pub arguments: &'a [Argument<Tree>],
}

/// Whether something is missing.
pub fn is_missing<T: Copy>(thing: Option<T>) -> bool
    ensures { result ≡ spec.is_missing thing }
{
    match thing {
        None => true,
        Some(_) => false,
    }
}

/// Whether a call is one of `sig`.
pub fn is_sig_call<'a>(call: Option<Call<'a>>) -> bool
    ensures { result ≡ spec.is_sig_call (option_map seen_call call.entry) }
{
    match call {
        None => false,
        Some(call) => is_missing(call.receiver) && call.name == "sig",
    }
}

/// Whether a statement is a `sig` statement.
#[tactic(auto, unfolding(crate::specs::Declaring::is_sig))]
pub fn is_sig(statement: &Tree) -> bool
    ensures { result ≡ spec.is_sig statement.now }
{
    is_sig_call(Call::of(statement))
}

/// The kind of attribute that a method declares.
fn attribute_named(name: &str) -> Option<Attribute>
    ensures { result ≡ spec.attribute_named name.now }
{
    if name == "attr_reader" {
        Some(Attribute::Reader)
    } else if name == "attr_writer" {
        Some(Attribute::Writer)
    } else if name == "attr_accessor" {
        Some(Attribute::Accessor)
    } else {
        None
    }
}

/// An attribute statement of this kind.
fn with_arguments<'a>(
    arguments: &'a [Argument<Tree>],
    kind: Option<Attribute>,
) -> Option<AttributeCall<'a>>
    ensures { option_map spec.seen_attribute result ≡ option_map (spec.with_arguments arguments.now) kind }
{
    match kind {
        None => None,
        Some(kind) => Some(AttributeCall { kind, arguments }),
    }
}

/// The attribute statement that a call is.
fn attribute_call<'a>(call: Option<Call<'a>>) -> Option<AttributeCall<'a>>
    ensures { option_map spec.seen_attribute result ≡ spec.attribute_call (option_map seen_call call.entry) }
{
    match call {
        None => None,
        Some(call) => {
            if is_missing(call.receiver) && is_missing(call.block) {
                with_arguments(call.arguments, attribute_named(call.name))
            } else {
                None
            }
        }
    }
}

/// The attribute statement that a statement is. `None` exactly for any other.
#[tactic(auto, unfolding(crate::specs::Declaring::attribute_of))]
pub fn attribute_of<'a>(statement: &'a Tree) -> Option<AttributeCall<'a>>
    ensures { option_map spec.seen_attribute result ≡ spec.attribute_of statement.now }
{
    attribute_call(Call::of(statement))
}
