//! Every pair of names, asked of the table of a project with a few circular references.

use crate::worlds::{add_parent, add_scope, base};
use srb_summary::Summary;
use srb_table::world_of;
use srb_terms::{How, Items, Kind, Name, NoMemory, World};
use std::alloc::Global;

// `class Cat < Dog`, `class Dog < Cat`, `module Pet; include Pal, Pet; end` and `module Pal; include Pet; end`
fn five(alloc: Global) -> Result<Summary, NoMemory> {
    let mut facts = Items::new(alloc);
    add_scope(alloc, &mut facts, "Cat", Kind::Class)?;
    add_parent(alloc, &mut facts, "Cat", &[], &["Dog"], How::Super)?;
    add_scope(alloc, &mut facts, "Dog", Kind::Class)?;
    add_parent(alloc, &mut facts, "Dog", &[], &["Cat"], How::Super)?;
    add_scope(alloc, &mut facts, "Pet", Kind::Module)?;
    add_parent(alloc, &mut facts, "Pet", &["Pet"], &["Pet"], How::Include)?;
    add_parent(alloc, &mut facts, "Pet", &["Pet"], &["Pal"], How::Include)?;
    add_scope(alloc, &mut facts, "Pal", Kind::Module)?;
    add_parent(alloc, &mut facts, "Pal", &["Pal"], &["Pet"], How::Include)?;
    Summary::of(alloc, facts)
}

// `class BasicObject < Cat`
fn below_cat(alloc: Global) -> Result<Summary, NoMemory> {
    let mut facts = Items::new(alloc);
    add_scope(alloc, &mut facts, "BasicObject", Kind::Class)?;
    add_parent(alloc, &mut facts, "BasicObject", &[], &["Cat"], How::Super)?;
    Summary::of(alloc, facts)
}

// The table of the five references. With `basic`, `class BasicObject < Cat` is in a second file.
fn table(alloc: Global, basic: bool) -> Result<World, NoMemory> {
    let first = base(alloc)?;
    let mut files = Items::new(alloc);
    files.push(five(alloc)?)?;
    if basic {
        files.push(below_cat(alloc)?)?;
    }
    world_of(alloc, first.as_slice(), files.as_slice())
}

// The references that are circular. With `basic`, that of `class BasicObject < Cat` is one more.
fn is_wanted(of: &str, to: &str, basic: bool) -> bool {
    match of {
        "Cat" => to == "Dog",
        "Dog" => to == "Cat",
        "Pet" => to == "Pal" || to == "Pet",
        "Pal" => to == "Pet",
        "BasicObject" => basic && to == "Cat",
        _ => false,
    }
}

// Whether the table tells these references, and no other ones between a few names.
fn tells(alloc: Global, world: &World, basic: bool) -> Result<bool, NoMemory> {
    for of in [
        "Cat",
        "Dog",
        "Pet",
        "Pal",
        "BasicObject",
        "Object",
        "Ca",
        "",
    ] {
        for to in [
            "Cat",
            "Dog",
            "Pet",
            "Pal",
            "BasicObject",
            "Object",
            "Ca",
            "",
        ] {
            let told = world.is_circular(&Name::from_str(alloc, of)?, &Name::from_str(alloc, to)?);
            if told != is_wanted(of, to, basic) {
                return Ok(false);
            }
        }
    }
    Ok(true)
}

#[test]
fn every_pair(rt: HostRuntime) -> Result<(), NoMemory> {
    let alloc = rt.alloc();
    let world = table(alloc, true)?;
    assert!(rt; tells(alloc, &world, true)?);
    let world = table(alloc, false)?;
    assert!(rt; tells(alloc, &world, false)?);
    Ok(())
}
