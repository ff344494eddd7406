//! The walk over a program's statements.

ghost use Rattle.std.specs.Prelude.{◌≡◌, [], ◌∷◌, IfOk, OnOk};
ghost use Rattle.srb_declarations.specs.Declarations as spec;

use crate::declaration::Declaration;
use crate::mixin::mixed;
use crate::naming::{declared_name, full_name, written};
use rb_tree::syntax::{Node, PlacedName, Reference, Tree};
use rb_views::path::Path;
use rb_views::place::names_span;
use srb_terms::{Boxed, Items, Kind, Name, Names, NoMemory};
use std::alloc::Global;

/// Adds a class or module.
fn with_body(
    name: &Name,
    kind: Kind,
    path: &[PlacedName],
    found: &mut Items<Declaration>,
) -> Result<(), NoMemory>
    ensures { OnOk result (found.new ≡ spec.with_body name.now kind path.now found.old) }
{
    found.push(Declaration::Body {
        name: name.copied()?,
        kind,
        span: names_span(path),
    })
}

/// Adds the superclass, where one is written.
fn with_superclass(
    alloc: Global,
    name: &Name,
    superclass: &Option<Boxed<Reference>>,
    scope: &Names,
    found: &mut Items<Declaration>,
) -> Result<(), NoMemory>
    ensures { OnOk result (found.new ≡ spec.with_superclass name.now superclass.now scope.now found.old) }
{
    match superclass {
        None => Ok(()),
        Some(reference) => {
            let path = Path::of_reference(reference.get());
            found.push(Declaration::Superclass {
                of: name.copied()?,
                scope: scope.copied()?,
                path: written(alloc, path.top, path.names)?,
                span: path.span,
            })
        }
    }
}

/// Adds the constant that an assignment to this target declares, if any.
#[tactic(auto, unfolding(crate::specs::Declarations::with_constant))]
fn with_constant(
    alloc: Global,
    target: &Tree,
    scope: &Names,
    found: &mut Items<Declaration>,
) -> Result<(), NoMemory>
    ensures { OnOk result (found.new ≡ spec.with_constant target.now scope.now found.old) }
{
    match target.get() {
        Node::Constant { name, span } => found.push(Declaration::Constant {
            name: full_name(alloc, scope, name)?,
            span: *span,
        }),
        _ => Ok(()),
    }
}

/// The scope of the body of a class or module of this name.
fn body_scope(alloc: Global, scope: &Names, name: &Name) -> Result<Names, NoMemory>
    ensures { IfOk result (λ names. names ≡ name.now ∷ scope.now) }
{
    scope.copied()?.pushed(alloc, name.copied()?)
}

/// Adds what the statements of the body of this class or module declare.
#[cycle(walks)]
fn inner_statements(
    alloc: Global,
    name: &Name,
    statements: &[Tree],
    scope: &Names,
    found: &mut Items<Declaration>,
) -> Result<(), NoMemory>
    ensures { OnOk result (found.new ≡ spec.inner_statements (λ s. s) spec.statement_of spec.body_of name.now statements.now scope.now found.old) }
{
    'statements: for statement in statements {
        mixed(alloc, name, statement, scope, found)?;
        statement_of(alloc, statement, scope, found)?;
    }
    Ok(())
}

/// The same by the node of the body.
#[cycle(walks)]
#[tactic(auto, unfolding(crate::specs::Declarations::body_by_node))]
fn body_by_node(
    alloc: Global,
    body: &Tree,
    name: &Name,
    scope: &Names,
    found: &mut Items<Declaration>,
) -> Result<(), NoMemory>
    ensures { OnOk result (found.new ≡ spec.body_by_node body.now name.now scope.now found.old) }
{
    match body.get() {
        Node::Body { statements, .. } => {
            inner_statements(alloc, name, statements.as_slice(), scope, found)
        }
        _ => Ok(()),
    }
}

/// Adds what the body of this class or module declares.
#[cycle(walks)]
#[tactic(auto, using(crate::proofs::Equations::body_is))]
fn body_of(
    alloc: Global,
    body: &Tree,
    name: &Name,
    scope: &Names,
    found: &mut Items<Declaration>,
) -> Result<(), NoMemory>
    ensures { OnOk result (found.new ≡ spec.body_of body.now name.now scope.now found.old) }
{
    body_by_node(alloc, body, name, scope, found)
}

/// Adds what a statement declares.
#[cycle(walks)]
#[tactic(auto, using(crate::proofs::Equations::statement_is))]
fn statement_of(
    alloc: Global,
    statement: &Tree,
    scope: &Names,
    found: &mut Items<Declaration>,
) -> Result<(), NoMemory>
    ensures { OnOk result (found.new ≡ spec.statement_of statement.now scope.now found.old) }
{
    statement_by_node(alloc, statement, scope, found)
}

/// The same by the node of the statement.
#[cycle(walks)]
#[tactic(auto, unfolding(crate::specs::Declarations::statement_by_node))]
fn statement_by_node(
    alloc: Global,
    statement: &Tree,
    scope: &Names,
    found: &mut Items<Declaration>,
) -> Result<(), NoMemory>
    ensures { OnOk result (found.new ≡ spec.statement_by_node statement.now scope.now found.old) }
{
    match statement.get() {
        Node::Modified { statement, .. } => statement_of(alloc, statement, scope, found),
        Node::Assign { target, .. } => with_constant(alloc, target, scope, found),
        Node::Class {
            path,
            superclass,
            body,
            ..
        } => {
            let name = declared_name(alloc, scope, path.as_slice())?;
            with_body(&name, Kind::Class, path.as_slice(), found)?;
            with_superclass(alloc, &name, superclass, scope, found)?;
            let inner = body_scope(alloc, scope, &name)?;
            body_of(alloc, body, &name, &inner, found)
        }
        Node::Module { path, body, .. } => {
            let name = declared_name(alloc, scope, path.as_slice())?;
            with_body(&name, Kind::Module, path.as_slice(), found)?;
            let inner = body_scope(alloc, scope, &name)?;
            body_of(alloc, body, &name, &inner, found)
        }
        _ => Ok(()),
    }
}

/// What the statements of the program's level declare.
fn program(alloc: Global, statements: &[Tree]) -> Result<Items<Declaration>, NoMemory>
    ensures { IfOk result (λ ds. ds ≡ spec.program_statements statements.now []) }
{
    let scope = Names::new();
    let mut found = Items::new(alloc);
    'statements: for statement in statements {
        statement_of(alloc, statement, &scope, &mut found)?;
    }
    Ok(found)
}

/// What a program declares, in the order of the text: a class or module comes before its superclass, and that before what is in its
/// body. A class or module stands at its whole path, a superclass and an argument of `include` or `extend` that is a path at that path.
#[tactic(auto, unfolding(crate::specs::Declarations::declarations_of))]
pub fn declarations(alloc: Global, tree: &Tree) -> Result<Items<Declaration>, NoMemory>
    ensures { IfOk result (λ ds. ds ≡ spec.declarations_of tree.now) }
{
    match tree.get() {
        Node::Body { statements, .. } => program(alloc, statements.as_slice()),
        _ => Ok(Items::new(alloc)),
    }
}
