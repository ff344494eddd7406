// Declarations in a small table, written by hand.
use crate::conflicts;
use srb_declarations::Declaration;
use srb_terms::{Diag, How, Items, Kind, Name, Names, NoMemory, Span, World};
use std::alloc::Global;

const PLACE: Span = Span { start: 3, end: 5 };

fn name(alloc: Global, text: &str) -> Result<Name, NoMemory> {
    Name::from_str(alloc, text)
}

fn one(alloc: Global, text: &str) -> Result<Names, NoMemory> {
    Names::new().pushed(alloc, name(alloc, text)?)
}

fn two(alloc: Global, first: &str, second: &str) -> Result<Names, NoMemory> {
    one(alloc, second)?.pushed(alloc, name(alloc, first)?)
}

fn add_kinds(alloc: Global, world: &mut World) -> Result<(), NoMemory> {
    for (text, kind) in [
        ("BasicObject", Kind::Class),
        ("Array", Kind::Class),
        ("C", Kind::Class),
        ("P", Kind::Class),
        ("Q", Kind::Class),
        ("M", Kind::Module),
        ("N", Kind::Module),
        ("V", Kind::Value),
    ] {
        world.kinds.insert(name(alloc, text)?, kind)?;
    }
    Ok(())
}

fn add_superclasses(alloc: Global, world: &mut World) -> Result<(), NoMemory> {
    for (of, to) in [("C", "P"), ("P", "Q"), ("Q", "P")] {
        world
            .superclasses
            .insert(name(alloc, of)?, name(alloc, to)?)?;
    }
    Ok(())
}

fn add_circles(alloc: Global, world: &mut World) -> Result<(), NoMemory> {
    for (of, to) in [("P", "Q"), ("Q", "P"), ("M", "N"), ("N", "M")] {
        world.circles.insert(name(alloc, of)?, one(alloc, to)?)?;
    }
    let of_top = two(alloc, "M", "P")?;
    world.circles.insert(name(alloc, "BasicObject")?, of_top)?;
    Ok(())
}

// `class P < Q; end`, `class Q < P; end`, `class C < P; end`, `module M; include N; end`, `module N; include M; end`, `V = 1` and
// `class BasicObject < P; include M; end`.
fn zoo(alloc: Global) -> Result<World, NoMemory> {
    let mut world = World::new(alloc);
    add_kinds(alloc, &mut world)?;
    add_superclasses(alloc, &mut world)?;
    add_circles(alloc, &mut world)?;
    Ok(world)
}

// The error in one line, or `-` where there is none.
fn shown(alloc: Global, found: &[Diag]) -> Result<String, NoMemory> {
    match found {
        [] => String::from_str(alloc, "-"),
        [error, ..] => {
            let number = error.number;
            let text = &error.text;
            format!(in alloc; "{number} {text}")
        }
    }
}

// The error of one declaration.
fn error_of(alloc: Global, world: &World, declaration: Declaration) -> Result<String, NoMemory> {
    let mut declarations = Items::new(alloc);
    declarations.push(declaration)?;
    let mut found = Items::new(alloc);
    conflicts(alloc, world, declarations.as_slice(), &mut found)?;
    shown(alloc, found.as_slice())
}

fn superclass(alloc: Global, of: &str, parent: &str) -> Result<Declaration, NoMemory> {
    Ok(Declaration::Superclass {
        of: name(alloc, of)?,
        scope: Names::new(),
        path: one(alloc, parent)?,
        span: PLACE,
    })
}

fn mixin(alloc: Global, of: &str, way: How, module: &str) -> Result<Declaration, NoMemory> {
    Ok(Declaration::Mixin {
        of: name(alloc, of)?,
        scope: one(alloc, of)?,
        path: two(alloc, "", module)?,
        how: way,
        span: PLACE,
    })
}

#[test]
fn superclasses_are_checked(rt: HostRuntime) -> Result<(), NoMemory> {
    let alloc = rt.alloc();
    let world = zoo(alloc)?;
    for (of, parent, want) in [
        ("C", "P", "-"),
        ("C", "X", "-"),
        ("C", "Q", "9003 C already has superclass P"),
        ("C", "M", "9007 M cannot be inherited"),
        ("C", "V", "9007 V cannot be inherited"),
        ("C", "Array", "9007 Array cannot be inherited"),
        ("M", "Array", "-"),
        ("P", "Q", "9005 circular parent Q of P"),
        ("P", "C", "9003 P already has superclass Q"),
        ("BasicObject", "P", "9005 circular parent P of BasicObject"),
        (
            "BasicObject",
            "Q",
            "9003 BasicObject already has superclass P",
        ),
    ] {
        let error = error_of(alloc, &world, superclass(alloc, of, parent)?)?;
        assert_eq!(rt; error.as_str(), want);
    }
    Ok(())
}

#[test]
fn mixins_are_checked(rt: HostRuntime) -> Result<(), NoMemory> {
    let alloc = rt.alloc();
    let world = zoo(alloc)?;
    for (of, way, module, want) in [
        ("C", How::Include, "M", "-"),
        ("C", How::Include, "X", "-"),
        ("C", How::Include, "P", "9006 mixin is not a module"),
        ("C", How::Extend, "V", "9006 mixin is not a module"),
        ("M", How::Include, "N", "9005 circular parent N of M"),
        ("M", How::Extend, "N", "-"),
    ] {
        let error = error_of(alloc, &world, mixin(alloc, of, way, module)?)?;
        assert_eq!(rt; error.as_str(), want);
    }
    let other = error_of(alloc, &world, Declaration::OtherMixin { span: PLACE })?;
    assert_eq!(rt; other.as_str(), "9006 mixin is not a module");
    Ok(())
}

fn body(alloc: Global, text: &str, kind: Kind) -> Result<Declaration, NoMemory> {
    Ok(Declaration::Body {
        name: name(alloc, text)?,
        kind,
        span: PLACE,
    })
}

fn constant(alloc: Global, text: &str) -> Result<Declaration, NoMemory> {
    Ok(Declaration::Constant {
        name: name(alloc, text)?,
        span: PLACE,
    })
}

#[test]
fn kinds_are_checked(rt: HostRuntime) -> Result<(), NoMemory> {
    let alloc = rt.alloc();
    let world = zoo(alloc)?;
    for (text, kind, want) in [
        ("C", Kind::Class, "-"),
        ("M", Kind::Class, "9004 M is already a module"),
        ("C", Kind::Module, "9004 C is already a class"),
        ("M", Kind::Module, "-"),
    ] {
        let error = error_of(alloc, &world, body(alloc, text, kind)?)?;
        assert_eq!(rt; error.as_str(), want);
    }
    for (text, want) in [
        ("C", "9004 C is already a class"),
        ("M", "9004 M is already a module"),
        ("V", "-"),
    ] {
        let error = error_of(alloc, &world, constant(alloc, text)?)?;
        assert_eq!(rt; error.as_str(), want);
    }
    Ok(())
}
