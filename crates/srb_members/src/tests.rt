// Look-ups in a small table, written by hand: class A, which includes M and is extended by M and then N, class B < A.
use crate::{Found, Member, find, look_up};
use indexmap::IndexMap;
use srb_terms::{Boxed, Items, Kind, Method, Name, Names, NoMemory, Ty, World};
use std::alloc::Global;

fn name(alloc: Global, text: &str) -> Result<Name, NoMemory> {
    Name::from_str(alloc, text)
}

// A name in front of others; an empty one is left out.
fn before(alloc: Global, text: &str, names: Names) -> Result<Names, NoMemory> {
    if text.is_empty() {
        return Ok(names);
    }
    names.pushed(alloc, name(alloc, text)?)
}

// A table of one method.
fn one(alloc: Global, owner: &str, text: &str) -> Result<IndexMap<Name, Method>, NoMemory> {
    let mut table = IndexMap::new(alloc);
    let method = Method {
        owner: name(alloc, owner)?,
        name: name(alloc, text)?,
        params: Items::new(alloc),
        result: Ty::Untyped,
        typed: false,
    };
    table.insert(name(alloc, text)?, method)?;
    Ok(table)
}

// Adds a class or module that inherits from two others, with one method of instances.
fn add(
    alloc: Global,
    world: &mut World,
    kind: Kind,
    c: &str,
    second: &str,
    third: &str,
    method: &str,
) -> Result<(), NoMemory> {
    let names = before(alloc, third, Names::new())?;
    let names = before(alloc, second, names)?;
    let names = before(alloc, c, names)?;
    world.kinds.insert(name(alloc, c)?, kind)?;
    world.lins.insert(name(alloc, c)?, names)?;
    let table = one(alloc, c, method)?;
    world.methods.insert(name(alloc, c)?, table)?;
    Ok(())
}

fn zoo(alloc: Global) -> Result<World, NoMemory> {
    let mut world = World::new(alloc);
    for (kind, c, second, third, method) in [
        (Kind::Class, "Object", "", "", "initialize"),
        (Kind::Class, "A", "M", "Object", "a"),
        (Kind::Class, "B", "A", "Object", "b"),
        (Kind::Module, "M", "", "", "m"),
        (Kind::Module, "N", "", "", "m"),
        (Kind::Class, "Class", "Module", "Object", "superclass"),
        (Kind::Class, "Module", "Object", "", "name"),
        (Kind::Class, "Array", "Object", "", "each"),
    ] {
        add(alloc, &mut world, kind, c, second, third, method)?;
    }
    let own = one(alloc, "A", "make")?;
    world.own_methods.insert(name(alloc, "A")?, own)?;
    let extended = before(alloc, "N", Names::new())?;
    let extended = before(alloc, "M", extended)?;
    world.extended.insert(name(alloc, "A")?, extended)?;
    Ok(world)
}

fn class(alloc: Global, text: &str) -> Result<Ty, NoMemory> {
    Ok(Ty::Class(name(alloc, text)?))
}

fn both(alloc: Global, first: &str, second: &str) -> Result<Ty, NoMemory> {
    let mut members = Items::new(alloc);
    members.push(class(alloc, first)?)?;
    members.push(class(alloc, second)?)?;
    Ok(Ty::All(Boxed::new(alloc, members)?))
}

// The owner of the method that is found.
fn owner<'w>(found: Found<'w>) -> &'w str {
    match found {
        Found::One(method) => method.owner.as_str(),
        Found::Free => "free",
        Found::Missing => "missing",
    }
}

#[test]
fn instances_look_along_their_linearization(rt: HostRuntime) -> Result<(), NoMemory> {
    let alloc = rt.alloc();
    let world = zoo(alloc)?;
    for (of, method, want) in [
        ("B", "a", "A"),
        ("A", "m", "M"),
        ("A", "b", "missing"),
        ("M", "m", "M"),
        ("M", "initialize", "Object"),
    ] {
        let found = find(&world, &class(alloc, of)?, &name(alloc, method)?);
        assert_eq!(rt; owner(found), want);
    }
    Ok(())
}

#[test]
fn class_objects_look_at_the_last_extended_module_first(rt: HostRuntime) -> Result<(), NoMemory> {
    let alloc = rt.alloc();
    let world = zoo(alloc)?;
    for (of, method, want) in [
        ("A", "make", "A"),
        ("B", "make", "A"),
        ("B", "m", "N"),
        ("B", "superclass", "Class"),
        ("B", "a", "missing"),
        ("M", "name", "Module"),
        ("M", "superclass", "missing"),
        ("A", "new", "Object"),
        ("M", "new", "missing"),
    ] {
        let found = find(&world, &Ty::Meta(name(alloc, of)?), &name(alloc, method)?);
        assert_eq!(rt; owner(found), want);
    }
    Ok(())
}

#[test]
fn new_is_told_apart(rt: HostRuntime) -> Result<(), NoMemory> {
    let alloc = rt.alloc();
    let world = zoo(alloc)?;
    let made = match look_up(&world, &Ty::Meta(name(alloc, "B")?), &name(alloc, "new")?) {
        Member::Made(method) => method.name.as_str() == "initialize",
        _ => false,
    };
    assert!(rt; made);
    Ok(())
}

#[test]
fn other_parts(rt: HostRuntime) -> Result<(), NoMemory> {
    let alloc = rt.alloc();
    let world = zoo(alloc)?;
    let m = name(alloc, "m")?;
    assert_eq!(rt; owner(find(&world, &Ty::Untyped, &m)), "free");
    assert_eq!(rt; owner(find(&world, &both(alloc, "M", "N")?, &m)), "M");
    assert_eq!(rt; owner(find(&world, &both(alloc, "B", "N")?, &m)), "N");
    let array = Ty::Arr(Boxed::new(alloc, Ty::Untyped)?);
    assert_eq!(rt; owner(find(&world, &array, &name(alloc, "each")?)), "Array");
    Ok(())
}
