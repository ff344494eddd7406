//! Types over a small table, written by hand.

use srb_terms::{Kind, Name, Names, NoMemory, Ty, World};
use srb_types::{all, any, array, hash, meet, show, without};
use std::alloc::Global;

fn name(alloc: Global, text: &str) -> Result<Name, NoMemory> {
    Name::from_str(alloc, text)
}

// The names in order.
fn names(alloc: Global, texts: &[&str]) -> Result<Names, NoMemory> {
    let mut list = Names::new();
    for index in 0..texts.len() {
        list = list.pushed(alloc, name(alloc, texts[texts.len() - 1 - index])?)?;
    }
    Ok(list)
}

// A part of the built-in table: each name with its kind and what it inherits.
fn table(alloc: Global) -> Result<World, NoMemory> {
    let mut world = World::new(alloc);
    for (text, kind, lin) in [
        ("Object", Kind::Class, ["Object", "Kernel"].as_slice()),
        ("Kernel", Kind::Module, ["Kernel"].as_slice()),
        ("Comparable", Kind::Module, ["Comparable"].as_slice()),
        ("Enumerable", Kind::Module, ["Enumerable"].as_slice()),
        (
            "Numeric",
            Kind::Class,
            ["Numeric", "Comparable", "Object", "Kernel"].as_slice(),
        ),
        (
            "Integer",
            Kind::Class,
            ["Integer", "Numeric", "Comparable", "Object", "Kernel"].as_slice(),
        ),
        (
            "String",
            Kind::Class,
            ["String", "Comparable", "Object", "Kernel"].as_slice(),
        ),
        (
            "Symbol",
            Kind::Class,
            ["Symbol", "Object", "Kernel"].as_slice(),
        ),
        (
            "NilClass",
            Kind::Class,
            ["NilClass", "Object", "Kernel"].as_slice(),
        ),
        (
            "TrueClass",
            Kind::Class,
            ["TrueClass", "Object", "Kernel"].as_slice(),
        ),
        (
            "FalseClass",
            Kind::Class,
            ["FalseClass", "Object", "Kernel"].as_slice(),
        ),
        (
            "Array",
            Kind::Class,
            ["Array", "Enumerable", "Object", "Kernel"].as_slice(),
        ),
    ] {
        world.kinds.insert(name(alloc, text)?, kind)?;
        world.lins.insert(name(alloc, text)?, names(alloc, lin)?)?;
    }
    Ok(world)
}

// `T.any` of these classes and modules, one after the other.
fn union(alloc: Global, world: &World, texts: &[&str]) -> Result<Ty, NoMemory> {
    let mut joined = Ty::Never;
    for text in texts {
        joined = any(alloc, world, &joined, &Ty::Class(name(alloc, text)?))?;
    }
    Ok(joined)
}

#[test]
fn unions_are_sorted_and_shown_as_nilable(rt: HostRuntime) -> Result<(), NoMemory> {
    let alloc = rt.alloc();
    let world = table(alloc)?;
    for (texts, want) in [
        ([].as_slice(), "T.noreturn"),
        (["NilClass", "NilClass"].as_slice(), "NilClass"),
        (
            ["String", "TrueClass", "Symbol", "FalseClass"].as_slice(),
            "T.any(String, Symbol, T::Boolean)",
        ),
        (
            ["TrueClass", "NilClass", "FalseClass", "Symbol"].as_slice(),
            "T.nilable(T.any(Symbol, T::Boolean))",
        ),
        (["TrueClass", "NilClass"].as_slice(), "T.nilable(TrueClass)"),
        (["Integer", "Numeric"].as_slice(), "Numeric"),
        (["String", "Integer", "Comparable"].as_slice(), "Comparable"),
    ] {
        let text = show(alloc, &union(alloc, &world, texts)?)?;
        assert_eq!(rt; text.as_str(), want);
    }
    Ok(())
}

#[test]
fn intersections_are_multiplied_out(rt: HostRuntime) -> Result<(), NoMemory> {
    let alloc = rt.alloc();
    let world = table(alloc)?;
    for (a, b, want) in [
        (
            ["Integer", "String"].as_slice(),
            ["String", "Symbol"].as_slice(),
            "String",
        ),
        (
            ["Integer", "String"].as_slice(),
            ["Comparable"].as_slice(),
            "T.any(Integer, String)",
        ),
        (
            ["Kernel"].as_slice(),
            ["Comparable"].as_slice(),
            "T.all(Comparable, Kernel)",
        ),
        (["Integer"].as_slice(), ["Numeric"].as_slice(), "Integer"),
        (["Integer"].as_slice(), ["String"].as_slice(), "T.noreturn"),
    ] {
        let a = union(alloc, &world, a)?;
        let b = union(alloc, &world, b)?;
        let text = show(alloc, &all(alloc, &world, &a, &b)?)?;
        assert_eq!(rt; text.as_str(), want);
    }
    Ok(())
}

#[test]
fn arrays_and_hashes_are_cut_at_eight_levels(rt: HostRuntime) -> Result<(), NoMemory> {
    let alloc = rt.alloc();
    let world = table(alloc)?;
    let integer = Ty::Class(name(alloc, "Integer")?);
    let mut nested = array(alloc, &world, &integer)?;
    for _level in 0..7 {
        nested = array(alloc, &world, &nested)?;
    }
    let text = show(alloc, &nested)?;
    assert_eq!(rt;
        text.as_str(),
        "T::Array[T::Array[T::Array[T::Array[T::Array[T::Array[T::Array[T::Array[Integer]]]]]]]]"
    );
    let text = show(alloc, &array(alloc, &world, &nested)?)?;
    assert_eq!(rt;
        text.as_str(),
        "T::Array[T::Array[T::Array[T::Array[T::Array[T::Array[T::Array[T::Array[T::Array[T.untyped]]]]]]]]]"
    );
    let text = show(alloc, &hash(alloc, &world, &integer, &Ty::Never)?)?;
    assert_eq!(rt; text.as_str(), "T::Hash[Integer, T.noreturn]");
    Ok(())
}

#[test]
fn arrays_and_class_objects_meet(rt: HostRuntime) -> Result<(), NoMemory> {
    let alloc = rt.alloc();
    let world = table(alloc)?;
    let a = array(
        alloc,
        &world,
        &union(alloc, &world, ["Integer", "String"].as_slice())?,
    )?;
    let b = array(
        alloc,
        &world,
        &union(alloc, &world, ["NilClass", "String"].as_slice())?,
    )?;
    let met = all(alloc, &world, &a, &b)?;
    let text = show(alloc, &met)?;
    assert_eq!(rt; text.as_str(), "T::Array[String]");
    let met = all(
        alloc,
        &world,
        &a,
        &union(alloc, &world, ["Enumerable"].as_slice())?,
    )?;
    let text = show(alloc, &met)?;
    assert_eq!(rt; text.as_str(), "T::Array[T.any(Integer, String)]");
    let object = Ty::Meta(name(alloc, "Integer")?);
    let met = all(alloc, &world, &Ty::Meta(name(alloc, "Numeric")?), &object)?;
    let text = show(alloc, &met)?;
    assert_eq!(rt; text.as_str(), "T.class_of(Integer)");
    Ok(())
}

#[test]
fn narrowing_leaves_what_is_known(rt: HostRuntime) -> Result<(), NoMemory> {
    let alloc = rt.alloc();
    let world = table(alloc)?;
    let nilable = union(alloc, &world, ["String", "NilClass"].as_slice())?;
    let string = Ty::Class(name(alloc, "String")?);
    let text = show(alloc, &without(alloc, &world, &nilable, &string)?)?;
    assert_eq!(rt; text.as_str(), "NilClass");
    let text = show(alloc, &meet(alloc, &world, &Ty::Untyped, &nilable)?)?;
    assert_eq!(rt; text.as_str(), "T.nilable(String)");
    Ok(())
}

#[test]
fn what_is_untyped_stays_so(rt: HostRuntime) -> Result<(), NoMemory> {
    let alloc = rt.alloc();
    let world = table(alloc)?;
    let nilable = union(alloc, &world, ["String", "NilClass"].as_slice())?;
    let text = show(alloc, &all(alloc, &world, &Ty::Untyped, &nilable)?)?;
    assert_eq!(rt; text.as_str(), "T.untyped");
    let text = show(alloc, &any(alloc, &world, &nilable, &Ty::Untyped)?)?;
    assert_eq!(rt; text.as_str(), "T.untyped");
    Ok(())
}
