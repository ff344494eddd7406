// Each table of a small world, asked for a name that is there and for one that is not.
use crate::{Items, Kind, Method, Name, Names, NoMemory, Ty, World};
use indexmap::IndexMap;
use std::alloc::Global;

fn name(alloc: Global, text: &str) -> Result<Name, NoMemory> {
    Name::from_str(alloc, text)
}

fn put_name(
    alloc: Global,
    table: &mut IndexMap<Name, Name>,
    key: &str,
    value: &str,
) -> Result<(), NoMemory> {
    table.insert(name(alloc, key)?, name(alloc, value)?)?;
    Ok(())
}

// Puts two names, of which the second may be empty and is left out then.
fn put_names(
    alloc: Global,
    table: &mut IndexMap<Name, Names>,
    key: &str,
    first: &str,
    second: &str,
) -> Result<(), NoMemory> {
    let mut names = Names::new();
    if !second.is_empty() {
        names = names.pushed(alloc, name(alloc, second)?)?;
    }
    names = names.pushed(alloc, name(alloc, first)?)?;
    table.insert(name(alloc, key)?, names)?;
    Ok(())
}

fn put_inner(
    alloc: Global,
    table: &mut IndexMap<Name, IndexMap<Name, Name>>,
    outer: &str,
    key: &str,
    value: &str,
) -> Result<(), NoMemory> {
    let mut inner = IndexMap::new(alloc);
    put_name(alloc, &mut inner, key, value)?;
    table.insert(name(alloc, outer)?, inner)?;
    Ok(())
}

fn put_class(
    alloc: Global,
    table: &mut IndexMap<Name, IndexMap<Name, Ty>>,
    key: &str,
    class: &str,
) -> Result<(), NoMemory> {
    let mut inner = IndexMap::new(alloc);
    inner.insert(name(alloc, key)?, Ty::Class(name(alloc, class)?))?;
    table.insert(name(alloc, "Zoo")?, inner)?;
    Ok(())
}

fn method(alloc: Global, text: &str, answer: &str) -> Result<Method, NoMemory> {
    Ok(Method {
        owner: name(alloc, "Zoo")?,
        name: name(alloc, text)?,
        params: Items::new(alloc),
        result: Ty::Class(name(alloc, answer)?),
        typed: true,
    })
}

fn put_method(
    alloc: Global,
    table: &mut IndexMap<Name, IndexMap<Name, Method>>,
    text: &str,
    answer: &str,
) -> Result<(), NoMemory> {
    let mut inner = IndexMap::new(alloc);
    inner.insert(name(alloc, text)?, method(alloc, text, answer)?)?;
    table.insert(name(alloc, "Zoo")?, inner)?;
    Ok(())
}

fn put_kinds(alloc: Global, table: &mut IndexMap<Name, Kind>) -> Result<(), NoMemory> {
    table.insert(name(alloc, "M")?, Kind::Module)?;
    table.insert(name(alloc, "Zoo")?, Kind::Class)?;
    table.insert(name(alloc, "Zoo::Ape")?, Kind::Class)?;
    table.insert(name(alloc, "Zoo::Ape::AGE")?, Kind::Value)?;
    Ok(())
}

fn put_names_of_zoo(alloc: Global, world: &mut World) -> Result<(), NoMemory> {
    put_kinds(alloc, &mut world.kinds)?;
    put_inner(alloc, &mut world.inner, "Zoo", "Ape", "Zoo::Ape")?;
    put_name(alloc, &mut world.superclasses, "Zoo", "Object")?;
    put_names(alloc, &mut world.lins, "Zoo", "Zoo", "M")?;
    put_names(alloc, &mut world.extended, "Zoo", "M", "")?;
    put_names(alloc, &mut world.circles, "Zoo", "Dog", "Cat")
}

fn put_members_of_zoo(alloc: Global, world: &mut World) -> Result<(), NoMemory> {
    put_method(alloc, &mut world.methods, "feed", "Integer")?;
    put_method(alloc, &mut world.own_methods, "open", "String")?;
    put_class(alloc, &mut world.ivars, "@age", "Integer")?;
    put_class(alloc, &mut world.own_ivars, "@all", "Array")?;
    world
        .values
        .insert(name(alloc, "Zoo::Ape::AGE")?, Ty::Never)?;
    Ok(())
}

// `class Zoo < Object; extend M; end`, `Zoo::Ape`, `Zoo::Ape::AGE`, and a method and a variable of `Zoo` and of its class object each.
fn zoo(alloc: Global) -> Result<World, NoMemory> {
    let mut world = World::new(alloc);
    put_names_of_zoo(alloc, &mut world)?;
    put_members_of_zoo(alloc, &mut world)?;
    Ok(world)
}

fn is(found: Option<&Name>, want: &str) -> bool {
    match found {
        None => false,
        Some(found) => found.as_str() == want,
    }
}

fn begins(found: Option<&Names>, want: &str) -> bool {
    match found {
        None => false,
        Some(found) => match found.split() {
            None => false,
            Some((first, _rest)) => first.as_str() == want,
        },
    }
}

fn is_class(found: Option<&Ty>, want: &str) -> bool {
    match found {
        Some(Ty::Class(name)) => name.as_str() == want,
        _ => false,
    }
}

fn answers(found: Option<&Method>, want: &str) -> bool {
    match found {
        None => false,
        Some(found) => is_class(Some(&found.result), want),
    }
}

#[test]
fn names(rt: HostRuntime) -> Result<(), NoMemory> {
    let alloc = rt.alloc();
    let world = zoo(alloc)?;
    let (zoo, ape) = (name(alloc, "Zoo")?, name(alloc, "Ape")?);
    assert!(rt; world.kind(&zoo) == Some(Kind::Class));
    assert!(rt; world.kind(&name(alloc, "M")?) == Some(Kind::Module));
    assert!(rt; world.kind(&ape) == None);
    assert!(rt; is(world.within(None, &zoo), "Zoo"));
    assert!(rt; is(world.within(None, &name(alloc, "Zoo::Ape")?), "Zoo::Ape"));
    assert!(rt; world.within(None, &ape).is_none());
    assert!(rt; is(world.within(Some(&zoo), &ape), "Zoo::Ape"));
    assert!(rt; world.within(Some(&ape), &zoo).is_none());
    assert!(rt; world.within(Some(&zoo), &zoo).is_none());
    let age = name(alloc, "Ape::AGE")?;
    assert!(rt; is(world.within(Some(&zoo), &age), "Zoo::Ape::AGE"));
    for other in ["Ape::AG", "Ape::AGES", "Ape:", ":", "Ape::"] {
        assert!(rt;
            world.within(Some(&zoo), &name(alloc, other)?).is_none(),
            "{other}"
        );
    }
    Ok(())
}

#[test]
fn ancestors(rt: HostRuntime) -> Result<(), NoMemory> {
    let alloc = rt.alloc();
    let world = zoo(alloc)?;
    let (zoo, ape) = (name(alloc, "Zoo")?, name(alloc, "Ape")?);
    assert!(rt; is(world.superclass(&zoo), "Object") && world.superclass(&ape).is_none());
    assert!(rt; begins(world.lin(&zoo), "Zoo") && world.lin(&ape).is_none());
    assert!(rt; begins(world.extended(&zoo), "M") && world.extended(&ape).is_none());
    let (cat, dog) = (name(alloc, "Cat")?, name(alloc, "Dog")?);
    assert!(rt; world.is_circular(&zoo, &cat) && world.is_circular(&zoo, &dog));
    assert!(rt; !world.is_circular(&zoo, &ape) && !world.is_circular(&cat, &zoo));
    Ok(())
}

#[test]
fn methods(rt: HostRuntime) -> Result<(), NoMemory> {
    let alloc = rt.alloc();
    let world = zoo(alloc)?;
    let (zoo, feed, open) = (
        name(alloc, "Zoo")?,
        name(alloc, "feed")?,
        name(alloc, "open")?,
    );
    assert!(rt; answers(world.method(&zoo, false, &feed), "Integer"));
    assert!(rt; answers(world.method(&zoo, true, &open), "String"));
    assert!(rt; world.method(&zoo, true, &feed).is_none());
    assert!(rt; world.method(&zoo, false, &open).is_none());
    assert!(rt; world.method(&feed, false, &feed).is_none());
    Ok(())
}

#[test]
fn variables_and_constants(rt: HostRuntime) -> Result<(), NoMemory> {
    let alloc = rt.alloc();
    let world = zoo(alloc)?;
    let (zoo, age, all) = (
        name(alloc, "Zoo")?,
        name(alloc, "@age")?,
        name(alloc, "@all")?,
    );
    assert!(rt; is_class(world.ivar(&zoo, false, &age), "Integer"));
    assert!(rt; is_class(world.ivar(&zoo, true, &all), "Array"));
    assert!(rt; world.ivar(&zoo, true, &age).is_none());
    assert!(rt; world.ivar(&zoo, false, &all).is_none());
    assert!(rt; matches!(world.value(&name(alloc, "Zoo::Ape::AGE")?), Some(Ty::Never)));
    assert!(rt; world.value(&zoo).is_none());
    Ok(())
}
