//! Methods without signatures.

ghost use Rattle.std.specs.Prelude.{◌≡◌, ◌++◌, IfOk, OnOk, string_bytes};
ghost use Rattle.srb_signatures.specs.Missing as spec;

use rb_rewrite::declaring::{Attribute, attribute_of};
use rb_tree::syntax::{Argument, Node, Tree};
use srb_terms::{Diag, Items, NoMemory, Span, Words};
use std::alloc::Global;

/// The text of the error of a method whose name ends with `mark`.
fn text_of(alloc: Global, name: &str, mark: &str) -> Result<String, NoMemory>
    ensures { IfOk result (λ s. string_bytes s ≡ spec.text_of (name.now ++ mark.now)) }
{
    let mut text = String::from_str(alloc, "method ")?;
    text.push_str(name)?;
    text.push_str(mark)?;
    text.push_str(" has no sig")?;
    Ok(text)
}

/// Adds the error of a method whose name ends with `mark`.
fn add_named(
    alloc: Global,
    name: &str,
    mark: &str,
    span: Span,
    found: &mut Items<Diag>,
) -> Result<(), NoMemory>
    ensures { OnOk result (found.new ≡ found.old ++ spec.named (name.now ++ mark.now) span) }
{
    let text = text_of(alloc, name, mark)?;
    found.push(Diag {
        span,
        number: 7017,
        text: Words::from_string(text)?,
    })
}

/// Adds the error of a method of this name.
fn add_plain(alloc: Global, name: &str, span: Span, found: &mut Items<Diag>) -> Result<(), NoMemory>
    ensures { OnOk result (found.new ≡ found.old ++ spec.named name.now span) }
{
    add_named(alloc, name, "", span, found)
}

/// Adds the error of the writer of an attribute.
fn add_writer(
    alloc: Global,
    name: &str,
    span: Span,
    found: &mut Items<Diag>,
) -> Result<(), NoMemory>
    ensures { OnOk result (found.new ≡ found.old ++ spec.named (spec.writer_name name.now) span) }
{
    add_named(alloc, name, "=", span, found)
}

/// Adds the errors of the methods that an attribute of this kind and name stands for.
fn add_attribute(
    alloc: Global,
    kind: Attribute,
    name: &str,
    span: Span,
    found: &mut Items<Diag>,
) -> Result<(), NoMemory>
    ensures { OnOk result (found.new ≡ found.old ++ spec.missing_name kind name.now span) }
{
    match kind {
        Attribute::Reader => add_plain(alloc, name, span, found),
        Attribute::Writer => add_writer(alloc, name, span, found),
        Attribute::Accessor => {
            add_plain(alloc, name, span, found)?;
            add_writer(alloc, name, span, found)
        }
    }
}

/// Adds those of the attribute that a tree names, if it is a symbol.
#[tactic(auto, unfolding(crate::specs::Missing::missing_symbol))]
fn add_symbol(
    alloc: Global,
    kind: Attribute,
    tree: &Tree,
    found: &mut Items<Diag>,
) -> Result<(), NoMemory>
    ensures { OnOk result (found.new ≡ found.old ++ spec.missing_symbol kind tree.now) }
{
    match tree.get() {
        Node::Symbol { words, span } => add_attribute(alloc, kind, words.as_str(), *span, found),
        _ => Ok(()),
    }
}

/// Adds those of an argument.
fn add_argument(
    alloc: Global,
    kind: Attribute,
    argument: &Argument<Tree>,
    found: &mut Items<Diag>,
) -> Result<(), NoMemory>
    ensures { OnOk result (found.new ≡ found.old ++ spec.missing_argument kind argument.now) }
{
    match argument {
        Argument::Positional { value } => add_symbol(alloc, kind, value, found),
        Argument::Keyword { .. } | Argument::Block { .. } => Ok(()),
    }
}

/// Adds those of each argument of an attribute statement.
fn add_attributes(
    alloc: Global,
    kind: Attribute,
    arguments: &[Argument<Tree>],
    found: &mut Items<Diag>,
) -> Result<(), NoMemory>
    ensures { OnOk result (found.new ≡ found.old ++ spec.missing_attributes kind arguments.now) }
{
    'arguments: for argument in arguments {
        add_argument(alloc, kind, argument, found)?;
    }
    Ok(())
}

/// Adds the error of a statement that is a method.
#[tactic(auto, unfolding(crate::specs::Missing::missing_method))]
pub fn add_missing_method(
    alloc: Global,
    statement: &Tree,
    found: &mut Items<Diag>,
) -> Result<(), NoMemory>
    ensures { OnOk result (found.new ≡ found.old ++ spec.missing_method statement.now) }
{
    match statement.get() {
        Node::Def {
            name,
            name_span,
            ..
        } => add_plain(alloc, name.as_str(), *name_span, found),
        _ => Ok(()),
    }
}

/// Adds the errors of a statement of a class or module body that no `sig` statement stands directly before.
pub fn add_missing(alloc: Global, statement: &Tree, found: &mut Items<Diag>) -> Result<(), NoMemory>
    ensures { OnOk result (found.new ≡ found.old ++ spec.missing statement.now) }
{
    match attribute_of(statement) {
        None => add_missing_method(alloc, statement, found),
        Some(attribute) => add_attributes(alloc, attribute.kind, attribute.arguments, found),
    }
}
