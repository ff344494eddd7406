//! The references of a part itself.

ghost use Rattle.std.specs.Prelude.{◌≡◌, ◌++◌, option_map, OnOk};
ghost use Rattle.rb_tree.specs.declared.syntax.Node.{out-Node};
ghost use Rattle.rb_views.specs.Paths.{seen_path};
ghost use Rattle.srb_references.specs.References as spec;
ghost use Rattle.srb_references.specs.Visits.{seen_visit};

use crate::reading::Reading;
use crate::reference::Reference;
use crate::taken::taken_in_type;
use crate::type_form::type_form;
use crate::visit::Visit;
use rb_tree::syntax::{Node, PlacedName, Reference as Superclass, Suffix, Tree};
use rb_views::path::{Path, PathNames};
use rb_views::place::names_span;
use srb_declarations::naming::written;
use srb_rules::Position;
use srb_terms::{Boxed, Items, Names, NoMemory};
use std::alloc::Global;

/// The position in which a path stands that these suffixes follow.
fn path_position(reading: Reading, rest: &[Suffix<Tree>]) -> Position
    ensures { result ≡ spec.path_position reading rest.now }
{
    match (reading, rest) {
        (Reading::Mixin, []) => Position::Parent,
        _ => Position::Value,
    }
}

/// Adds the path with which a part begins, if with any.
fn with_path<'a>(
    alloc: Global,
    reading: Reading,
    scope: &Names,
    path: Option<Path<'a>>,
    found: &mut Items<Reference>,
) -> Result<(), NoMemory>
    ensures { OnOk result (found.new ≡ found.old ++ spec.path_references reading scope.now (option_map seen_path path.entry)) }
{
    match path {
        None => Ok(()),
        Some(path) => found.push(Reference {
            scope: scope.copied()?,
            path: written(alloc, path.top, path.names)?,
            position: path_position(reading, path.rest),
            wants_body: false,
            span: path.span,
        }),
    }
}

/// Whether a part is read as a type expression of a form like `T::Array[X]`: then its `T::Array` is no reference.
fn is_form_of_type(reading: Reading, tree: &Tree) -> bool
    ensures { result ≡ spec.is_form_of_type reading tree.now }
{
    match reading {
        Reading::TypeExpression => taken_in_type(reading, type_form(tree)).is_some(),
        _ => false,
    }
}

/// Adds the path with which a part begins, if it is a reference.
fn with_named(
    alloc: Global,
    reading: Reading,
    scope: &Names,
    tree: &Tree,
    found: &mut Items<Reference>,
) -> Result<(), NoMemory>
    ensures { OnOk result (found.new ≡ found.old ++ spec.named_references reading scope.now tree.now) }
{
    if is_form_of_type(reading, tree) {
        Ok(())
    } else {
        with_path(alloc, reading, scope, Path::of(tree), found)
    }
}

/// Adds a superclass, where one is written.
fn with_superclass(
    alloc: Global,
    scope: &Names,
    superclass: &Option<Boxed<Superclass>>,
    found: &mut Items<Reference>,
) -> Result<(), NoMemory>
    ensures { OnOk result (found.new ≡ found.old ++ spec.superclass_references scope.now superclass.now) }
{
    match superclass {
        None => Ok(()),
        Some(superclass) => {
            let path = Path::of_reference(superclass.get());
            found.push(Reference {
                scope: scope.copied()?,
                path: written(alloc, path.top, path.names)?,
                position: Position::Parent,
                wants_body: false,
                span: path.span,
            })
        }
    }
}

/// Adds the names in front of the last one of a declared path, if there are any.
fn with_front(
    alloc: Global,
    scope: &Names,
    front: &[PlacedName],
    found: &mut Items<Reference>,
) -> Result<(), NoMemory>
    ensures { OnOk result (found.new ≡ found.old ++ spec.front_references scope.now front.now) }
{
    match front {
        [] => Ok(()),
        _ => found.push(Reference {
            scope: scope.copied()?,
            path: written(alloc, false, PathNames::Placed { names: front })?,
            position: Position::Value,
            wants_body: true,
            span: names_span(front),
        }),
    }
}

/// The names in front of the last one.
fn front_of(path: &[PlacedName]) -> &[PlacedName]
    ensures { result.now ≡ spec.front_of path.now }
{
    &path[..path.len().saturating_sub(1)]
}

/// Adds what a class or module refers to where it is declared.
fn with_declared(
    alloc: Global,
    scope: &Names,
    node: &Node,
    found: &mut Items<Reference>,
) -> Result<(), NoMemory>
    ensures { OnOk result (found.new ≡ found.old ++ spec.declared_references scope.now (out-Node node.now)) }
{
    match node {
        Node::Class {
            path,
            superclass,
            ..
        } => {
            with_front(alloc, scope, front_of(path.as_slice()), found)?;
            with_superclass(alloc, scope, superclass, found)
        }
        Node::Module { path, .. } => with_front(alloc, scope, front_of(path.as_slice()), found),
        _ => Ok(()),
    }
}

/// Adds the references of a part itself, without those below it.
#[tactic(auto, unfolding(crate::specs::References::own_references))]
pub fn with_own<'a>(
    alloc: Global,
    visit: &Visit<'a>,
    found: &mut Items<Reference>,
) -> Result<(), NoMemory>
    ensures { OnOk result (found.new ≡ found.old ++ spec.own_references (seen_visit visit.now)) }
{
    with_named(alloc, visit.reading, &visit.scope, visit.tree, found)?;
    with_declared(alloc, &visit.scope, visit.tree.get(), found)
}
