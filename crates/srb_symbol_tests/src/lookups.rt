//! References written by hand, in a small table.

use rb_tree::syntax::{Node, Tree};
use srb_references::reading::Reading;
use srb_references::visit::Visit;
use srb_references::{Reference, malformed_types, mentions_of, unresolved};
use srb_rules::Position;
use srb_terms::{Diag, Items, Kind, Name, Names, NoMemory, Span, World};
use std::alloc::Global;

const PLACE: Span = Span { start: 3, end: 5 };

// A program that is one constant.
fn constant(alloc: Global, name: &str) -> Result<Tree, NoMemory> {
    let name = Name::from_str(alloc, name)?;
    Tree::new(alloc, Node::Constant { name, span: PLACE })
}

#[test]
fn a_constant_refers(rt: HostRuntime) -> Result<(), NoMemory> {
    let tree = constant(rt.alloc(), "A")?;
    let found = mentions_of(rt.alloc(), &tree)?.references;
    assert!(rt; found.len() == 1);
    assert!(rt; matches!(found.get(0), Some(reference) if reference.span == PLACE));
    Ok(())
}

// A table with a class, a module and a value constant.
fn table(alloc: Global) -> Result<World, NoMemory> {
    let mut world = World::new(alloc);
    for (text, kind) in [("C", Kind::Class), ("M", Kind::Module), ("V", Kind::Value)] {
        world.kinds.insert(Name::from_str(alloc, text)?, kind)?;
    }
    Ok(world)
}

fn path(alloc: Global, names: &[&str]) -> Result<Names, NoMemory> {
    let mut path = Names::new();
    for name in names {
        path = path.pushed(alloc, Name::from_str(alloc, name)?)?;
    }
    Ok(path)
}

// The text of the first error, or `-` where there is none.
fn shown(alloc: Global, found: &[Diag]) -> Result<String, NoMemory> {
    match found {
        [] => String::from_str(alloc, "-"),
        [error, ..] => {
            let number = error.number;
            let text = &error.text;
            format!(in alloc; "{number} {text}")
        }
    }
}

// The error of one reference, whose names are given from the last on.
fn error_of(
    alloc: Global,
    world: &World,
    names: &[&str],
    wants_body: bool,
) -> Result<String, NoMemory> {
    let mut given = Items::new(alloc);
    given.push(Reference {
        scope: Names::new(),
        path: path(alloc, names)?,
        position: Position::Value,
        wants_body,
        span: PLACE,
    })?;
    let mut found = Items::new(alloc);
    unresolved(alloc, world, given.as_slice(), &mut found)?;
    shown(alloc, found.as_slice())
}

#[test]
fn references_are_checked(rt: HostRuntime) -> Result<(), NoMemory> {
    let alloc = rt.alloc();
    let world = table(alloc)?;
    for (names, wants_body, wanted) in [
        (["C", ""].as_slice(), false, "-"),
        (["M"].as_slice(), true, "-"),
        (["V"].as_slice(), false, "-"),
        (["V"].as_slice(), true, "5002 constant V not found"),
        (["X"].as_slice(), false, "5002 constant X not found"),
        (
            ["X", "C", ""].as_slice(),
            false,
            "5002 constant ::C::X not found",
        ),
    ] {
        let error = error_of(alloc, &world, names, wants_body)?;
        assert_eq!(rt; error.as_str(), wanted);
    }
    Ok(())
}

// How many errors a constant has as a type expression.
fn type_errors(alloc: Global, name: &str) -> Result<usize, NoMemory> {
    let world = table(alloc)?;
    let tree = constant(alloc, name)?;
    let part = Visit {
        reading: Reading::TypeExpression,
        scope: Names::new(),
        tree: &tree,
    };
    let mut found = Items::new(alloc);
    malformed_types(alloc, &world, &[part], &mut found)?;
    Ok(found.len())
}

#[test]
fn a_value_constant_is_no_type(rt: HostRuntime) -> Result<(), NoMemory> {
    for (name, count) in [("C", 0), ("M", 0), ("V", 1), ("Missing", 0)] {
        assert_eq!(rt; type_errors(rt.alloc(), name)?, count);
    }
    Ok(())
}
