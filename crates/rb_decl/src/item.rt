//! The statements of a program and of the body of a class or module: declarations, and the statements of `rb_expr`.

ghost use Rattle.std.specs.Prelude.{◌≡◌, IfOk, false};
ghost use Rattle.std.specs.Option.{option_copied};
ghost use Rattle.rb_expr.specs.Reading.{Gives};
ghost use Rattle.rb_decl.specs.Items as spec;

use crate::method::{method, visibility};
use crate::name::{path, superclass};
use rb_expr::reading::{Read, Stop, expect, peek, sees, skip_separators};
use rb_expr::rules::statement;
use rb_tree::syntax::{Node, PlacedName, Reference, Tree};
use rb_tree::token::{Shape, Token};
use srb_terms::{Boxed, Items, NoMemory, Span};
use std::alloc::Global;

/// What begins at a place.
#[derive(Clone, Copy, PartialEq, Eq, Debug)]
pub enum Opening {
    /// A class or module.
    Namespace,
    /// A method.
    Method,
    /// Another statement.
    Statement,
}

/// What begins here.
pub fn what_opens(tokens: &[Token]) -> Opening
    ensures { result ≡ spec.what_opens tokens.now }
{
    match peek(tokens) {
        Some(Shape::Class | Shape::Module) => Opening::Namespace,
        Some(Shape::Def) => Opening::Method,
        _ => {
            if visibility(tokens).is_some() {
                Opening::Method
            } else {
                Opening::Statement
            }
        }
    }
}

/// What stands before the body of a class or module. `start` is where it begins.
#[derive(Debug, Drop)]
pub enum Head {
    Class {
        start: u32,
        path: Items<PlacedName>,
        superclass: Option<Boxed<Reference>>,
    },
    Module {
        start: u32,
        path: Items<PlacedName>,
    },
}

/// The head of a class. Its path is one name where it is not `long`.
#[tactic(auto, unfolding(crate::specs::Items::class_head))]
fn class_head<'a>(alloc: Global, depth: usize, long: bool, tokens: &'a [Token]) -> Read<'a, Head>
    ensures { Gives (λ x. (x.0, x.1.now)) result (spec.class_head depth long tokens.now) }
{
    let (class, rest) = expect(Shape::Class, tokens)?;
    let (path, rest) = path(alloc, depth, long, rest)?;
    let (superclass, rest) = superclass(alloc, depth, rest)?;
    let start = class.start;
    Ok((
        Head::Class {
            start,
            path,
            superclass,
        },
        rest,
    ))
}

/// The head of a module. Its path is one name where it is not `long`.
#[tactic(auto, unfolding(crate::specs::Items::module_head))]
fn module_head<'a>(alloc: Global, depth: usize, long: bool, tokens: &'a [Token]) -> Read<'a, Head>
    ensures { Gives (λ x. (x.0, x.1.now)) result (spec.module_head depth long tokens.now) }
{
    let (module, rest) = expect(Shape::Module, tokens)?;
    let (path, rest) = path(alloc, depth, long, rest)?;
    let start = module.start;
    Ok((Head::Module { start, path }, rest))
}

/// The head of a class or module, and the separator after it.
#[tactic(auto, unfolding(crate::specs::Items::namespace_head))]
fn namespace_head<'a>(
    alloc: Global,
    depth: usize,
    long: bool,
    tokens: &'a [Token],
) -> Read<'a, Head>
    ensures { Gives (λ x. (x.0, x.1.now)) result (spec.namespace_head depth long tokens.now) }
{
    let (head, rest) = if sees(Shape::Class, tokens) {
        class_head(alloc, depth, long, tokens)?
    } else {
        module_head(alloc, depth, long, tokens)?
    };
    let (_, rest) = expect(Shape::Separator, rest)?;
    Ok((head, rest))
}

/// Where a statement begins.
fn start_at(tree: Option<&Tree>) -> u32
    ensures { result ≡ spec.start_at (option_copied tree.entry) }
{
    match tree {
        Some(tree) => tree.span().start,
        None => 0,
    }
}

/// Where a statement ends.
fn end_at(tree: Option<&Tree>) -> u32
    ensures { result ≡ spec.end_at (option_copied tree.entry) }
{
    match tree {
        Some(tree) => tree.span().end,
        None => 0,
    }
}

/// The body of these statements.
pub fn body_of(alloc: Global, statements: Items<Tree>) -> Result<Tree, NoMemory>
    ensures { IfOk result (λ t. t ≡ spec.body_of statements) }
{
    let span = Span {
        start: start_at(statements.get(0)),
        end: end_at(statements.get(statements.len().saturating_sub(1))),
    };
    Tree::new(alloc, Node::Body { statements, span })
}

fn tree_of(alloc: Global, head: Head, body: Tree, end: u32) -> Result<Tree, NoMemory>
    ensures { IfOk result (λ t. t ≡ spec.tree_of head body end) }
{
    match head {
        Head::Class {
            start,
            path,
            superclass,
        } => Tree::new(
            alloc,
            Node::Class {
                path,
                superclass,
                body,
                span: Span { start, end },
            },
        ),
        Head::Module { start, path } => Tree::new(
            alloc,
            Node::Module {
                path,
                body,
                span: Span { start, end },
            },
        ),
    }
}

/// Whether a list of statements ends here: no token comes, or `end`.
fn ends(tokens: &[Token]) -> bool
    ensures { result ≡ spec.ends tokens.now }
{
    match peek(tokens) {
        Some(shape) => shape.is(Shape::End),
        None => true,
    }
}

/// A class or module.
#[cycle(items)]
#[tactic(auto, unfolding(crate::specs::Items::namespace))]
fn namespace<'a>(alloc: Global, depth: usize, long: bool, tokens: &'a [Token]) -> Read<'a, Tree>
    ensures { Gives (λ x. (x.0, x.1.now)) result (spec.namespace (spec.item depth false) depth long tokens.now) }
{
    let (head, rest) = namespace_head(alloc, depth, long, tokens)?;
    let (statements, rest) = statements(alloc, depth, false, rest)?;
    let (end, rest) = expect(Shape::End, rest)?;
    let body = body_of(alloc, statements)?;
    Ok((tree_of(alloc, head, body, end.end)?, rest))
}

/// A declaration or another statement. A class or module may have a path for its name where `long` says so.
#[cycle(items)]
#[tactic(auto, unfolding(crate::specs::Items::item))]
fn item<'a>(alloc: Global, depth: usize, long: bool, tokens: &'a [Token]) -> Read<'a, Tree>
    ensures { Gives (λ x. (x.0, x.1.now)) result (spec.item depth long tokens.now) }
{
    if depth == 0 {
        return Err(Stop::Refused(tokens));
    }
    match what_opens(tokens) {
        Opening::Namespace => namespace(alloc, depth - 1, long, tokens),
        Opening::Method => method(alloc, depth, tokens),
        Opening::Statement => statement(alloc, depth, true, tokens),
    }
}

/// For how many statements of a body there is room from the start. As the list of them grows it gives back pieces of memory of 6, 12 and 24
/// places, which nodes of trees and their rows mostly fill; pieces of 8 and 16 places leave a hole in more files.
const ROOM: usize = 6;

/// The statements up to the end of a body.
#[cycle(items)]
pub fn statements<'a>(
    alloc: Global,
    depth: usize,
    long: bool,
    tokens: &'a [Token],
) -> Read<'a, Items<Tree>>
    ensures { Gives (λ x. (x.0, x.1.now)) result (spec.statements (spec.item depth long) depth tokens.now) }
{
    let mut found = Items::from_vec(Vec::with_capacity(alloc, ROOM)?);
    let mut rest = skip_separators(tokens);
    for _turn in 0..depth {
        if ends(rest) {
            return Ok((found, rest));
        }
        let (next, left) = item(alloc, depth, long, rest)?;
        found.push(next)?;
        if !sees(Shape::Separator, left) {
            return Ok((found, left));
        }
        rest = skip_separators(left);
    }
    Err(Stop::Refused(rest))
}
