//! The walk over the bodies of classes and modules.

ghost use Rattle.std.specs.Prelude.{◌≡◌, [], None, IfOk, OnOk};
ghost use Rattle.srb_signatures.specs.Errors as spec;

use crate::following::{sig_if, with_followed, with_last};
use crate::missing::add_missing_method;
use rb_tree::syntax::{Node, Tree};
use srb_terms::{Diag, Items, NoMemory};
use std::alloc::Global;

/// Adds the errors of the statements of the body of a class or module.
#[cycle(walks)]
fn inner_statements(
    alloc: Global,
    needed: bool,
    statements: &[Tree],
    found: &mut Items<Diag>,
) -> Result<(), NoMemory>
    ensures { OnOk result (found.new ≡ spec.inner_statements needed (λ s. s) (spec.statement_of needed) (spec.body_of needed) None statements.now found.old) }
{
    let mut sig = None;
    'statements: for statement in statements {
        with_followed(alloc, needed, sig, statement, found)?;
        statement_of(alloc, needed, statement, found)?;
        sig = sig_if(statement);
    }
    with_last(alloc, sig, found)
}

/// The same by the node of the body.
#[cycle(walks)]
#[tactic(auto, unfolding(crate::specs::Errors::body_by_node))]
fn body_by_node(
    alloc: Global,
    needed: bool,
    body: &Tree,
    found: &mut Items<Diag>,
) -> Result<(), NoMemory>
    ensures { OnOk result (found.new ≡ spec.body_by_node needed body.now found.old) }
{
    match body.get() {
        Node::Body { statements, .. } => inner_statements(
            alloc,
            needed,
            statements.as_slice(),
            found,
        ),
        _ => Ok(()),
    }
}

/// Adds the errors of the body of a class or module.
#[cycle(walks)]
#[tactic(auto, using(crate::proofs::Equations::body_is))]
fn body_of(
    alloc: Global,
    needed: bool,
    body: &Tree,
    found: &mut Items<Diag>,
) -> Result<(), NoMemory>
    ensures { OnOk result (found.new ≡ spec.body_of needed body.now found.old) }
{
    body_by_node(alloc, needed, body, found)
}

/// Adds the errors of a statement: those of the bodies in it.
#[cycle(walks)]
#[tactic(auto, using(crate::proofs::Equations::statement_is))]
fn statement_of(
    alloc: Global,
    needed: bool,
    statement: &Tree,
    found: &mut Items<Diag>,
) -> Result<(), NoMemory>
    ensures { OnOk result (found.new ≡ spec.statement_of needed statement.now found.old) }
{
    statement_by_node(alloc, needed, statement, found)
}

/// The same by the node of the statement.
#[cycle(walks)]
#[tactic(auto, unfolding(crate::specs::Errors::statement_by_node))]
fn statement_by_node(
    alloc: Global,
    needed: bool,
    statement: &Tree,
    found: &mut Items<Diag>,
) -> Result<(), NoMemory>
    ensures { OnOk result (found.new ≡ spec.statement_by_node needed statement.now found.old) }
{
    match statement.get() {
        Node::Class { body, .. } | Node::Module { body, .. } => body_of(alloc, needed, body, found),
        _ => Ok(()),
    }
}

/// The errors of the statements of the program's level.
fn program(alloc: Global, needed: bool, statements: &[Tree]) -> Result<Items<Diag>, NoMemory>
    ensures { IfOk result (λ ds. ds ≡ spec.program_statements needed statements.now []) }
{
    let mut found = Items::new(alloc);
    'statements: for statement in statements {
        if needed {
            add_missing_method(alloc, statement, &mut found)?;
        }
        statement_of(alloc, needed, statement, &mut found)?;
    }
    Ok(found)
}

/// The errors of a program's signatures: `malformed signature` at each `sig` statement that is none of a method or attribute that follows
/// it, and, where methods need signatures, `method M has no sig` at the name of each method and the symbol of each attribute without one.
#[tactic(auto, unfolding(crate::specs::Errors::signature_errors))]
pub fn signature_errors(alloc: Global, needed: bool, tree: &Tree) -> Result<Items<Diag>, NoMemory>
    ensures { IfOk result (λ ds. ds ≡ spec.signature_errors needed tree.now) }
{
    match tree.get() {
        Node::Body { statements, .. } => program(alloc, needed, statements.as_slice()),
        _ => Ok(Items::new(alloc)),
    }
}
