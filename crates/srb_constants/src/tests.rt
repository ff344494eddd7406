// Constants in a small table, written by hand.
use crate::{Position, resolve};
use indexmap::IndexMap;
use srb_terms::{Kind, Name, Names, NoMemory, World};
use std::alloc::Global;

fn name(alloc: Global, text: &str) -> Result<Name, NoMemory> {
    Name::from_str(alloc, text)
}

// The names in order.
fn names(alloc: Global, texts: &[&str]) -> Result<Names, NoMemory> {
    let mut list = Names::new();
    for index in 0..texts.len() {
        list = list.pushed(alloc, name(alloc, texts[texts.len() - 1 - index])?)?;
    }
    Ok(list)
}

// Adds a name to a table: its kind, and the name in its scope.
fn add(
    alloc: Global,
    world: &mut World,
    scope: &str,
    last: &str,
    full: &str,
    kind: Kind,
) -> Result<(), NoMemory> {
    world.kinds.insert(name(alloc, full)?, kind)?;
    let scope = name(alloc, scope)?;
    let mut inner = match world.inner.swap_remove(&scope) {
        None => IndexMap::new(alloc),
        Some(inner) => inner,
    };
    inner.insert(name(alloc, last)?, name(alloc, full)?)?;
    world.inner.insert(scope, inner)?;
    Ok(())
}

// `class P; Z = 1; end`, `module A; X = 1; class C < P; end; end` and `Y = 1`.
fn zoo(alloc: Global) -> Result<World, NoMemory> {
    let mut world = World::new(alloc);
    for (text, kind) in [
        ("Object", Kind::Class),
        ("P", Kind::Class),
        ("A", Kind::Module),
        ("Y", Kind::Value),
    ] {
        world.kinds.insert(name(alloc, text)?, kind)?;
    }
    add(alloc, &mut world, "P", "Z", "P::Z", Kind::Value)?;
    add(alloc, &mut world, "A", "X", "A::X", Kind::Value)?;
    add(alloc, &mut world, "A", "C", "A::C", Kind::Class)?;
    for (text, lin) in [
        ("Object", ["Object"].as_slice()),
        ("P", ["P", "Object"].as_slice()),
        ("A", ["A"].as_slice()),
        ("A::C", ["A::C", "P", "Object"].as_slice()),
    ] {
        world.lins.insert(name(alloc, text)?, names(alloc, lin)?)?;
    }
    Ok(world)
}

// The text of what a path stands for, or `-`.
fn found(
    alloc: Global,
    world: &World,
    scope: &[&str],
    path: &[&str],
    position: Position,
) -> Result<Name, NoMemory> {
    let scope = names(alloc, scope)?;
    let path = names(alloc, path)?;
    match resolve(world, &scope, &path, position) {
        None => name(alloc, "-"),
        Some(found) => found.copied(),
    }
}

#[test]
fn constants_are_found_by_scope_path_and_position(rt: HostRuntime) -> Result<(), NoMemory> {
    let alloc = rt.alloc();
    let world = zoo(alloc)?;
    let outside = [].as_slice();
    let in_a = ["A"].as_slice();
    let in_c = ["A::C", "A"].as_slice();
    for (scope, path, position, want) in [
        (in_a, ["X"].as_slice(), Position::Value, "A::X"),
        (in_c, ["X"].as_slice(), Position::Parent, "A::X"),
        (in_c, ["Z"].as_slice(), Position::Value, "P::Z"),
        (in_c, ["Z"].as_slice(), Position::Parent, "-"),
        (in_c, ["Y"].as_slice(), Position::Value, "Y"),
        (in_c, ["", "X"].as_slice(), Position::Value, "-"),
        (outside, ["A", "C", "Z"].as_slice(), Position::Value, "P::Z"),
        (outside, ["A", "C", "Y"].as_slice(), Position::Value, "-"),
        (outside, ["Object", "Y"].as_slice(), Position::Value, "Y"),
        (outside, ["Y", "X"].as_slice(), Position::Value, "-"),
        (outside, ["X"].as_slice(), Position::Value, "-"),
    ] {
        let text = found(alloc, &world, scope, path, position)?;
        assert_eq!(rt; text.as_str(), want);
    }
    Ok(())
}
