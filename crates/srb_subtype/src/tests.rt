// Types over a small table, written by hand: class A < Object, class B < A, module M.
use crate::is_sub;
use srb_terms::{Boxed, Items, Kind, Name, Names, NoMemory, Ty, World};
use std::alloc::Global;

fn name(alloc: Global, text: &str) -> Result<Name, NoMemory> {
    Name::from_str(alloc, text)
}

fn one(alloc: Global, text: &str) -> Result<Names, NoMemory> {
    Names::new().pushed(alloc, name(alloc, text)?)
}

fn two(alloc: Global, first: &str, second: &str) -> Result<Names, NoMemory> {
    one(alloc, second)?.pushed(alloc, name(alloc, first)?)
}

fn three(alloc: Global, first: &str, second: &str, third: &str) -> Result<Names, NoMemory> {
    two(alloc, second, third)?.pushed(alloc, name(alloc, first)?)
}

fn zoo(alloc: Global) -> Result<World, NoMemory> {
    let mut world = World::new(alloc);
    for (text, kind) in [
        ("Object", Kind::Class),
        ("A", Kind::Class),
        ("B", Kind::Class),
        ("Class", Kind::Class),
        ("Module", Kind::Class),
        ("Array", Kind::Class),
        ("M", Kind::Module),
    ] {
        world.kinds.insert(name(alloc, text)?, kind)?;
    }
    let of_b = three(alloc, "B", "A", "Object")?;
    let of_class = three(alloc, "Class", "Module", "Object")?;
    let of_object = one(alloc, "Object")?;
    world.lins.insert(name(alloc, "Object")?, of_object)?;
    let of_a = two(alloc, "A", "Object")?;
    world.lins.insert(name(alloc, "A")?, of_a)?;
    let of_array = two(alloc, "Array", "Object")?;
    world.lins.insert(name(alloc, "Array")?, of_array)?;
    let of_module = two(alloc, "Module", "Object")?;
    world.lins.insert(name(alloc, "Module")?, of_module)?;
    let of_m = one(alloc, "M")?;
    world.lins.insert(name(alloc, "M")?, of_m)?;
    world.lins.insert(name(alloc, "B")?, of_b)?;
    world.lins.insert(name(alloc, "Class")?, of_class)?;
    Ok(world)
}

fn class(alloc: Global, text: &str) -> Result<Ty, NoMemory> {
    Ok(Ty::Class(name(alloc, text)?))
}

fn object(alloc: Global, text: &str) -> Result<Ty, NoMemory> {
    Ok(Ty::Meta(name(alloc, text)?))
}

fn array(alloc: Global, element: Ty) -> Result<Ty, NoMemory> {
    Ok(Ty::Arr(Boxed::new(alloc, element)?))
}

fn either(alloc: Global, first: Ty, second: Ty) -> Result<Ty, NoMemory> {
    let mut parts = Items::new(alloc);
    parts.push(first)?;
    parts.push(second)?;
    Ok(Ty::Any(Boxed::new(alloc, parts)?))
}

#[test]
fn arrays_are_covariant(rt: HostRuntime) -> Result<(), NoMemory> {
    let alloc = rt.alloc();
    let world = zoo(alloc)?;
    let of_a = array(alloc, class(alloc, "A")?)?;
    let of_b = array(alloc, class(alloc, "B")?)?;
    assert!(rt; is_sub(&world, &of_b, &of_a));
    assert!(rt; !is_sub(&world, &of_a, &of_b));
    assert!(rt; is_sub(&world, &of_a, &class(alloc, "Object")?));
    Ok(())
}

#[test]
fn an_array_may_mix_what_two_arrays_do_not(rt: HostRuntime) -> Result<(), NoMemory> {
    let alloc = rt.alloc();
    let world = zoo(alloc)?;
    let mixed = array(
        alloc,
        either(alloc, class(alloc, "A")?, class(alloc, "M")?)?,
    )?;
    let of_a = array(alloc, class(alloc, "A")?)?;
    let of_m = array(alloc, class(alloc, "M")?)?;
    let apart = either(alloc, of_a, of_m)?;
    assert!(rt; is_sub(&world, &apart, &mixed));
    assert!(rt; !is_sub(&world, &mixed, &apart));
    Ok(())
}

#[test]
fn a_class_is_below_object_and_a_module_is_not(rt: HostRuntime) -> Result<(), NoMemory> {
    let alloc = rt.alloc();
    let world = zoo(alloc)?;
    let top = class(alloc, "Object")?;
    assert!(rt; is_sub(&world, &class(alloc, "B")?, &top));
    assert!(rt; !is_sub(&world, &class(alloc, "M")?, &top));
    Ok(())
}

#[test]
fn a_class_object_is_a_module_object(rt: HostRuntime) -> Result<(), NoMemory> {
    let alloc = rt.alloc();
    let world = zoo(alloc)?;
    let of_b = object(alloc, "B")?;
    let of_m = object(alloc, "M")?;
    assert!(rt; is_sub(&world, &of_b, &object(alloc, "A")?));
    assert!(rt; is_sub(&world, &of_b, &class(alloc, "Module")?));
    assert!(rt; !is_sub(&world, &of_b, &class(alloc, "A")?));
    assert!(rt; !is_sub(&world, &of_m, &class(alloc, "Class")?));
    Ok(())
}

#[test]
fn nothing_is_known_of_what_is_untyped(rt: HostRuntime) -> Result<(), NoMemory> {
    let alloc = rt.alloc();
    let world = zoo(alloc)?;
    let a = class(alloc, "A")?;
    assert!(rt; is_sub(&world, &Ty::Untyped, &Ty::Never));
    assert!(rt; is_sub(&world, &a, &Ty::Untyped));
    assert!(rt; !is_sub(&world, &a, &Ty::Never));
    let of_any = array(alloc, Ty::Untyped)?;
    let of_a = array(alloc, a)?;
    assert!(rt; is_sub(&world, &of_any, &of_a));
    assert!(rt; is_sub(&world, &of_a, &of_any));
    Ok(())
}
