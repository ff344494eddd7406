//! The worlds of small projects.

use srb_summary::Summary;
use srb_table::world_of;
use srb_terms::{
    Fact, Given, How, Items, Kind, Label, Name, Names, NoMemory, NodeKind, Outline, ParamKind,
    ParamShape, Shapes, SigText, Ty, TyText, Words, World,
};
use std::alloc::Global;

fn name(alloc: Global, text: &str) -> Result<Name, NoMemory> {
    Name::from_str(alloc, text)
}

fn names(alloc: Global, texts: &[&str]) -> Result<Names, NoMemory> {
    let mut list = Names::new();
    for index in 0..texts.len() {
        list = list.pushed(alloc, name(alloc, texts[texts.len() - 1 - index])?)?;
    }
    Ok(list)
}

pub fn add_scope(
    alloc: Global,
    facts: &mut Items<Fact>,
    text: &str,
    kind: Kind,
) -> Result<(), NoMemory> {
    facts.push(Fact::Scope {
        name: name(alloc, text)?,
        kind,
    })
}

pub fn add_parent(
    alloc: Global,
    facts: &mut Items<Fact>,
    of: &str,
    scope: &[&str],
    to: &[&str],
    how: How,
) -> Result<(), NoMemory> {
    facts.push(Fact::Parent {
        of: name(alloc, of)?,
        scope: names(alloc, scope)?,
        to: names(alloc, to)?,
        how,
    })
}

fn add_value(
    alloc: Global,
    facts: &mut Items<Fact>,
    text: &str,
    scope: &[&str],
    class: &str,
) -> Result<(), NoMemory> {
    facts.push(Fact::Value {
        name: name(alloc, text)?,
        scope: names(alloc, scope)?,
        given: Given::Literal(name(alloc, class)?),
    })
}

/// The classes of the built-in table that the tests name.
pub fn base(alloc: Global) -> Result<Items<Fact>, NoMemory> {
    let mut facts = Items::new(alloc);
    add_scope(alloc, &mut facts, "BasicObject", Kind::Class)?;
    add_scope(alloc, &mut facts, "Object", Kind::Class)?;
    add_parent(
        alloc,
        &mut facts,
        "Object",
        &[],
        &["BasicObject"],
        How::Super,
    )?;
    add_parent(
        alloc,
        &mut facts,
        "Object",
        &["Object"],
        &["Kernel"],
        How::Include,
    )?;
    add_scope(alloc, &mut facts, "Kernel", Kind::Module)?;
    add_scope(alloc, &mut facts, "String", Kind::Class)?;
    add_scope(alloc, &mut facts, "Integer", Kind::Class)?;
    Ok(facts)
}

// The names of a list, with blanks between them.
fn shown(alloc: Global, list: Option<&Names>) -> Result<String, NoMemory> {
    let mut text = String::new(alloc);
    match list {
        None => text.push_str("-")?,
        Some(list) => {
            let mut at = list;
            while let Some((first, rest)) = at.split() {
                text.push_str(first.as_str())?;
                text.push_str(" ")?;
                at = rest;
            }
        }
    }
    Ok(text)
}

fn lin(alloc: Global, world: &World, text: &str) -> Result<String, NoMemory> {
    let c = name(alloc, text)?;
    shown(alloc, world.lin(&c))
}

fn superclass(alloc: Global, world: &World, text: &str) -> Result<Name, NoMemory> {
    match world.superclass(&name(alloc, text)?) {
        None => name(alloc, "-"),
        Some(found) => found.copied(),
    }
}

fn is_circular(alloc: Global, world: &World, c: &str, to: &str) -> Result<bool, NoMemory> {
    Ok(world.is_circular(&name(alloc, c)?, &name(alloc, to)?))
}

// class P includes B; class D < C in module A, which has a constant X
fn first_file(alloc: Global) -> Result<Summary, NoMemory> {
    let mut facts = Items::new(alloc);
    add_scope(alloc, &mut facts, "A", Kind::Module)?;
    add_value(alloc, &mut facts, "A::X", &["A"], "String")?;
    add_scope(alloc, &mut facts, "A::D", Kind::Class)?;
    add_parent(alloc, &mut facts, "A::D", &["A"], &["C"], How::Super)?;
    add_scope(alloc, &mut facts, "B", Kind::Module)?;
    add_scope(alloc, &mut facts, "P", Kind::Class)?;
    add_parent(alloc, &mut facts, "P", &["P"], &["B"], How::Include)?;
    Summary::of(alloc, facts)
}

// class C < P includes A and then B, and extends A, P, which is no module, and B
fn second_file(alloc: Global) -> Result<Summary, NoMemory> {
    let mut facts = Items::new(alloc);
    add_scope(alloc, &mut facts, "C", Kind::Class)?;
    add_parent(alloc, &mut facts, "C", &[], &["P"], How::Super)?;
    add_parent(alloc, &mut facts, "C", &["C"], &["A"], How::Include)?;
    add_parent(alloc, &mut facts, "C", &["C"], &["B"], How::Include)?;
    add_parent(alloc, &mut facts, "C", &["C"], &["A"], How::Extend)?;
    add_parent(alloc, &mut facts, "C", &["C"], &["P"], How::Extend)?;
    add_parent(alloc, &mut facts, "C", &["C"], &["B"], How::Extend)?;
    Summary::of(alloc, facts)
}

fn two_files(alloc: Global) -> Result<World, NoMemory> {
    let first = base(alloc)?;
    let mut files = Items::new(alloc);
    files.push(first_file(alloc)?)?;
    files.push(second_file(alloc)?)?;
    world_of(alloc, first.as_slice(), files.as_slice())
}

fn extended(alloc: Global, world: &World, text: &str) -> Result<String, NoMemory> {
    let c = name(alloc, text)?;
    shown(alloc, world.extended(&c))
}

// The constant X of A, and the class of its type.
fn constant(alloc: Global, world: &World) -> Result<bool, NoMemory> {
    let (scope, last) = (name(alloc, "A")?, name(alloc, "X")?);
    match world.within(Some(&scope), &last) {
        None => Ok(false),
        Some(found) => match world.value(found) {
            Some(Ty::Class(class)) => Ok(found.as_str() == "A::X" && class.as_str() == "String"),
            _ => Ok(false),
        },
    }
}

#[test]
fn linearizations(rt: HostRuntime) -> Result<(), NoMemory> {
    let alloc = rt.alloc();
    let world = two_files(alloc)?;
    let c = lin(alloc, &world, "C")?;
    assert!(rt; c.as_str() == "C A P B Object Kernel BasicObject ");
    let d = lin(alloc, &world, "A::D")?;
    assert!(rt; d.as_str() == "A::D C A P B Object Kernel BasicObject ");
    let x = lin(alloc, &world, "A::X")?;
    assert!(rt; x.as_str() == "-");
    Ok(())
}

#[test]
fn superclasses_and_extended_modules(rt: HostRuntime) -> Result<(), NoMemory> {
    let alloc = rt.alloc();
    let world = two_files(alloc)?;
    let d = superclass(alloc, &world, "A::D")?;
    assert!(rt; d.as_str() == "C");
    let p = superclass(alloc, &world, "P")?;
    assert!(rt; p.as_str() == "Object");
    let a = superclass(alloc, &world, "A")?;
    assert!(rt; a.as_str() == "-");
    let c = extended(alloc, &world, "C")?;
    assert!(rt; c.as_str() == "A B ");
    assert!(rt; constant(alloc, &world)?);
    Ok(())
}

// `class A < B`, `class X < String`
fn circle_begun(alloc: Global) -> Result<Summary, NoMemory> {
    let mut facts = Items::new(alloc);
    add_scope(alloc, &mut facts, "A", Kind::Class)?;
    add_parent(alloc, &mut facts, "A", &[], &["B"], How::Super)?;
    add_scope(alloc, &mut facts, "X", Kind::Class)?;
    add_parent(alloc, &mut facts, "X", &[], &["String"], How::Super)?;
    Summary::of(alloc, facts)
}

// `class B < A`, `class BasicObject < X`, `class X < Integer`
fn circle_closed(alloc: Global) -> Result<Summary, NoMemory> {
    let mut facts = Items::new(alloc);
    add_scope(alloc, &mut facts, "B", Kind::Class)?;
    add_parent(alloc, &mut facts, "B", &[], &["A"], How::Super)?;
    add_parent(alloc, &mut facts, "BasicObject", &[], &["X"], How::Super)?;
    add_scope(alloc, &mut facts, "X", Kind::Class)?;
    add_parent(alloc, &mut facts, "X", &[], &["Integer"], How::Super)?;
    Summary::of(alloc, facts)
}

fn circle(alloc: Global) -> Result<World, NoMemory> {
    let first = base(alloc)?;
    let mut files = Items::new(alloc);
    files.push(circle_begun(alloc)?)?;
    files.push(circle_closed(alloc)?)?;
    world_of(alloc, first.as_slice(), files.as_slice())
}

#[test]
fn circles(rt: HostRuntime) -> Result<(), NoMemory> {
    let alloc = rt.alloc();
    let world = circle(alloc)?;
    assert!(rt; is_circular(alloc, &world, "A", "B")?);
    assert!(rt; is_circular(alloc, &world, "B", "A")?);
    assert!(rt; !is_circular(alloc, &world, "A", "Object")?);
    assert!(rt; !is_circular(alloc, &world, "X", "String")?);
    assert!(rt; is_circular(alloc, &world, "BasicObject", "X")?);
    assert!(rt; !is_circular(alloc, &world, "BasicObject", "A")?);
    Ok(())
}

#[test]
fn the_first_superclass_decides(rt: HostRuntime) -> Result<(), NoMemory> {
    let alloc = rt.alloc();
    let world = circle(alloc)?;
    let a = lin(alloc, &world, "A")?;
    assert!(rt; a.as_str() == "A ");
    let a = superclass(alloc, &world, "A")?;
    assert!(rt; a.as_str() == "B");
    let x = lin(alloc, &world, "X")?;
    assert!(rt; x.as_str() == "X String Object Kernel BasicObject ");
    Ok(())
}

// A node with one part, or with none.
fn node(
    alloc: Global,
    kind: NodeKind,
    words: &str,
    part: Option<Outline>,
) -> Result<Outline, NoMemory> {
    let mut parts = Items::new(alloc);
    match part {
        None => {}
        Some(part) => parts.push(part)?,
    }
    Ok(Outline {
        label: Label {
            kind,
            words: Words::from_str(alloc, words)?,
        },
        parts,
    })
}

fn path(alloc: Global, class: &str) -> Result<Outline, NoMemory> {
    node(alloc, NodeKind::Constant, class, None)
}

// `sig { returns(CLASS) }`
fn sig(alloc: Global, class: &str) -> Result<SigText, NoMemory> {
    let class = path(alloc, class)?;
    let brackets = node(alloc, NodeKind::Brackets, "", Some(class))?;
    let returns = node(alloc, NodeKind::Call, "returns", Some(brackets))?;
    let body = node(alloc, NodeKind::Body, "", Some(returns))?;
    let block = node(alloc, NodeKind::Block, "", Some(body))?;
    Ok(SigText {
        tree: node(alloc, NodeKind::Call, "sig", Some(block))?,
    })
}

// A method of C with this result, of instances or of the class object.
fn add_method(
    alloc: Global,
    facts: &mut Items<Fact>,
    meta: bool,
    text: &str,
    params: Shapes,
    class: &str,
) -> Result<(), NoMemory> {
    facts.push(Fact::Method {
        owner: name(alloc, "C")?,
        scope: names(alloc, &["C"])?,
        meta,
        name: name(alloc, text)?,
        params,
        sig: Some(sig(alloc, class)?),
    })
}

fn add_ivar(
    alloc: Global,
    facts: &mut Items<Fact>,
    text: &str,
    class: &str,
) -> Result<(), NoMemory> {
    facts.push(Fact::Ivar {
        owner: name(alloc, "C")?,
        scope: names(alloc, &["C"])?,
        meta: false,
        name: name(alloc, text)?,
        given: TyText {
            tree: path(alloc, class)?,
        },
    })
}

fn one_parameter(alloc: Global) -> Result<Shapes, NoMemory> {
    let mut shapes = Items::new(alloc);
    shapes.push(ParamShape {
        name: name(alloc, "a")?,
        kind: ParamKind::Required,
    })?;
    Ok(shapes)
}

// class C has a method m twice, one of the class object, and one whose signature leaves its parameter out; it has a variable x twice
fn members_file(alloc: Global) -> Result<Summary, NoMemory> {
    let mut facts = Items::new(alloc);
    add_scope(alloc, &mut facts, "C", Kind::Class)?;
    add_method(alloc, &mut facts, false, "m", Items::new(alloc), "Integer")?;
    add_method(alloc, &mut facts, false, "m", Items::new(alloc), "String")?;
    add_method(alloc, &mut facts, true, "m", Items::new(alloc), "Integer")?;
    add_method(
        alloc,
        &mut facts,
        false,
        "n",
        one_parameter(alloc)?,
        "String",
    )?;
    add_ivar(alloc, &mut facts, "x", "String")?;
    add_ivar(alloc, &mut facts, "x", "Integer")?;
    add_ivar(alloc, &mut facts, "y", "Other")?;
    Summary::of(alloc, facts)
}

// The class of a type, where it is one.
fn told(ty: Option<&Ty>) -> &str {
    match ty {
        Some(Ty::Class(class)) => class.as_str(),
        Some(Ty::Untyped) => "T.untyped",
        Some(_) => "?",
        None => "-",
    }
}

// The result of a method of C, where its types are those of a signature.
fn result<'w>(
    alloc: Global,
    world: &'w World,
    meta: bool,
    text: &str,
) -> Result<&'w str, NoMemory> {
    match world.method(&name(alloc, "C")?, meta, &name(alloc, text)?) {
        None => Ok("-"),
        Some(method) => Ok(if method.typed {
            told(Some(&method.result))
        } else {
            "no types"
        }),
    }
}

fn ivar<'w>(alloc: Global, world: &'w World, meta: bool, text: &str) -> Result<&'w str, NoMemory> {
    Ok(told(world.ivar(&name(alloc, "C")?, meta, &name(alloc, text)?)))
}

#[test]
fn the_last_declared_member_counts(rt: HostRuntime) -> Result<(), NoMemory> {
    let alloc = rt.alloc();
    let first = base(alloc)?;
    let world = world_of(alloc, first.as_slice(), &[members_file(alloc)?])?;
    for (meta, text, want) in [
        (false, "m", "String"),
        (true, "m", "Integer"),
        (false, "n", "no types"),
        (true, "n", "-"),
    ] {
        assert!(rt; result(alloc, &world, meta, text)? == want);
    }
    for (meta, text, want) in [
        (false, "x", "Integer"),
        (true, "x", "-"),
        (false, "y", "T.untyped"),
    ] {
        assert!(rt; ivar(alloc, &world, meta, text)? == want);
    }
    Ok(())
}
