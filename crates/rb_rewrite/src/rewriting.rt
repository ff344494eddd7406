//! The rewriting of a program: attributes and initializers in the bodies of its classes and modules.

ghost use Rattle.std.specs.Prelude.{◌≡◌, map, IfOk};
ghost use Rattle.std.specs.List.{list_all};
ghost use Rattle.std.specs.Option.{option_copied};
ghost use Rattle.rb_rewrite.specs.Rewriting as spec;

use crate::attributes::{with_attributes, with_sig};
use crate::copies::{copied_names, copied_superclass};
use crate::declaring::{attribute_of, is_missing, is_sig};
use crate::initializers::{initialized, is_initializer};
use rb_tree::syntax::{Node, Tree};
use srb_terms::{Items, NoMemory};
use std::alloc::Global;

/// Adds a statement that is no attribute. The answer is the `sig` statement that waits for what follows.
fn with_other<'a>(
    alloc: Global,
    sig: Option<&'a Tree>,
    so_far: &mut Items<Tree>,
    written: &'a Tree,
    inner: &Tree,
) -> Result<Option<&'a Tree>, NoMemory>
    ensures { IfOk result (λ next. spec.row (option_copied next) so_far.new ≡ spec.with_other (spec.row (option_copied sig.entry) so_far.old) written.now inner.now) }
{
    with_sig(so_far, sig)?;
    if is_sig(written) {
        Ok(Some(written))
    } else {
        so_far.push(initialized(alloc, sig, inner)?)?;
        Ok(None)
    }
}

/// Adds a statement of a class or module body: as it is written, and with the classes and modules in it rewritten.
fn with_statement<'a>(
    alloc: Global,
    sig: Option<&'a Tree>,
    so_far: &mut Items<Tree>,
    written: &'a Tree,
    inner: &Tree,
) -> Result<Option<&'a Tree>, NoMemory>
    ensures { IfOk result (λ next. spec.row (option_copied next) so_far.new ≡ spec.with_statement (spec.row (option_copied sig.entry) so_far.old) written.now inner.now) }
{
    match attribute_of(written) {
        None => with_other(alloc, sig, so_far, written, inner),
        Some(attribute) => {
            with_attributes(alloc, attribute.kind, sig, attribute.arguments, so_far)?;
            Ok(None)
        }
    }
}

/// Whether a tree is no class, no module and no initializer.
#[tactic(auto, unfolding(crate::specs::Rewriting::stays_by_node))]
fn stays_by_node(tree: &Tree) -> bool
    ensures { result ≡ spec.stays_by_node tree.now }
{
    match tree.get() {
        Node::Class { .. } | Node::Module { .. } => false,
        Node::Def { own, name, .. } => !is_initializer(*own, name),
        _ => true,
    }
}

/// Whether a statement of a class or module body stays.
fn statement_stays(statement: &Tree) -> bool
    ensures { result ≡ spec.statement_stays statement.now }
{
    is_missing(attribute_of(statement)) && stays_by_node(statement)
}

/// Whether each statement of a class or module body stays.
fn all_stay(statements: &[Tree]) -> bool
    ensures { result ≡ list_all spec.statement_stays statements.now }
{
    'statements: for statement in statements {
        if !statement_stays(statement) {
            return false;
        }
    }
    true
}

/// The rewritten statements of a class or module body.
#[cycle(rewrites)]
fn rewritten(alloc: Global, statements: &[Tree]) -> Result<Items<Tree>, NoMemory>
    ensures { IfOk result (λ ts. ts ≡ spec.rewritten (λ s. s) spec.inner_of statements.now) }
{
    let mut so_far = Items::from_vec(Vec::with_capacity(alloc, statements.len())?);
    let mut sig = None;
    'statements: for statement in statements {
        let inner = inner_of(alloc, statement)?;
        sig = with_statement(alloc, sig, &mut so_far, statement, &inner)?;
    }
    with_sig(&mut so_far, sig)?;
    Ok(so_far)
}

/// The same by the node of the body.
#[cycle(rewrites)]
#[tactic(auto, using(crate::proofs::Stays::body_stays), unfolding(crate::specs::Rewriting::body_by_node))]
fn body_by_node(alloc: Global, body: &Tree) -> Result<Tree, NoMemory>
    ensures { IfOk result (λ t. t ≡ spec.body_by_node body.now) }
{
    match body.get() {
        Node::Body { statements, span } => {
            if all_stay(statements.as_slice()) {
                body.copied()
            } else {
                let statements = rewritten(alloc, statements.as_slice())?;
                let node = Node::Body {
                    statements,
                    span: *span,
                };
                Tree::new(alloc, node)
            }
        }
        _ => body.copied(),
    }
}

/// The body of a class or module, rewritten.
#[cycle(rewrites)]
#[tactic(auto, using(crate::proofs::Equations::body_is))]
fn body_of(alloc: Global, body: &Tree) -> Result<Tree, NoMemory>
    ensures { IfOk result (λ t. t ≡ spec.body_of body.now) }
{
    body_by_node(alloc, body)
}

/// A statement with the classes and modules in it rewritten.
#[cycle(rewrites)]
#[tactic(auto, using(crate::proofs::Equations::inner_is))]
fn inner_of(alloc: Global, statement: &Tree) -> Result<Tree, NoMemory>
    ensures { IfOk result (λ t. t ≡ spec.inner_of statement.now) }
{
    inner_by_node(alloc, statement)
}

/// The same by the node of the statement.
#[cycle(rewrites)]
#[tactic(auto, unfolding(crate::specs::Rewriting::inner_by_node))]
fn inner_by_node(alloc: Global, statement: &Tree) -> Result<Tree, NoMemory>
    ensures { IfOk result (λ t. t ≡ spec.inner_by_node statement.now) }
{
    match statement.get() {
        Node::Class {
            path,
            superclass,
            body,
            span,
        } => {
            let body = body_of(alloc, body)?;
            let node = Node::Class {
                path: copied_names(alloc, path.as_slice())?,
                superclass: copied_superclass(superclass)?,
                body,
                span: *span,
            };
            Tree::new(alloc, node)
        }
        Node::Module { path, body, span } => {
            let body = body_of(alloc, body)?;
            let node = Node::Module {
                path: copied_names(alloc, path.as_slice())?,
                body,
                span: *span,
            };
            Tree::new(alloc, node)
        }
        _ => statement.copied(),
    }
}

/// The statements of a program with the classes and modules among them rewritten.
fn program(alloc: Global, statements: &[Tree]) -> Result<Items<Tree>, NoMemory>
    ensures { IfOk result (λ ts. ts ≡ map spec.inner_of statements.now) }
{
    let mut made = Items::from_vec(Vec::with_capacity(alloc, statements.len())?);
    'statements: for statement in statements {
        made.push(inner_of(alloc, statement)?)?;
    }
    Ok(made)
}

/// A program's tree with its attributes and initializers rewritten. What stays is shared with the tree.
///
/// In the bodies of classes and modules `attr_reader`, `attr_writer` and `attr_accessor` are replaced by the methods that they stand
/// for, at the places of their symbols, each after a copy of the `sig` statement before them. In a method `initialize` with a
/// well-formed signature `@x = p` reads as `@x = T.let(p, P)`, where p is a parameter of the type P.
#[tactic(auto, unfolding(crate::specs::Rewriting::attrs_of))]
pub fn attrs(alloc: Global, tree: &Tree) -> Result<Tree, NoMemory>
    ensures { IfOk result (λ t. t ≡ spec.attrs_of tree.now) }
{
    match tree.get() {
        Node::Body { statements, span } => {
            let statements = program(alloc, statements.as_slice())?;
            let node = Node::Body {
                statements,
                span: *span,
            };
            Tree::new(alloc, node)
        }
        _ => tree.copied(),
    }
}
