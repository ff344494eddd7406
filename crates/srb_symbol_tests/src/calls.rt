//! Calls in small tables, written by hand.

use indexmap::IndexMap;
use srb_calls::{Arg, Args, GivenBlock, KeyArg, Recv, call};
use srb_terms::{
    Boxed, Items, Kind, Method, Name, Names, NoMemory, Param, ParamKind, Span, Ty, World,
};
use srb_types::show;
use std::alloc::Global;

fn name(alloc: Global, text: &str) -> Result<Name, NoMemory> {
    Name::from_str(alloc, text)
}

fn class(alloc: Global, text: &str) -> Result<Ty, NoMemory> {
    Ok(Ty::Class(name(alloc, text)?))
}

// An empty place.
fn at(start: u32) -> Span {
    Span { start, end: start }
}

// Adds a class that inherits from no other.
fn add(alloc: Global, world: &mut World, c: &str) -> Result<(), NoMemory> {
    let names = Names::new().pushed(alloc, name(alloc, c)?)?;
    world.kinds.insert(name(alloc, c)?, Kind::Class)?;
    world.lins.insert(name(alloc, c)?, names)?;
    Ok(())
}

// Adds a method with these parameters.
fn declare(
    alloc: Global,
    world: &mut World,
    owner: &str,
    text: &str,
    params: Items<Param>,
    answer: Ty,
) -> Result<(), NoMemory> {
    let mut table = IndexMap::new(alloc);
    let method = Method {
        owner: name(alloc, owner)?,
        name: name(alloc, text)?,
        params,
        result: answer,
        typed: true,
    };
    table.insert(name(alloc, text)?, method)?;
    world.methods.insert(name(alloc, owner)?, table)?;
    Ok(())
}

// A table of some classes, of which one has a method.
fn world_of(
    alloc: Global,
    owner: &str,
    text: &str,
    params: Items<Param>,
    answer: Ty,
) -> Result<World, NoMemory> {
    let mut world = World::new(alloc);
    for c in ["A", "Integer", "String"] {
        add(alloc, &mut world, c)?;
    }
    declare(alloc, &mut world, owner, text, params, answer)?;
    Ok(world)
}

fn push_param(
    alloc: Global,
    params: &mut Items<Param>,
    text: &str,
    kind: ParamKind,
    ty: &str,
) -> Result<(), NoMemory> {
    params.push(Param {
        name: name(alloc, text)?,
        kind,
        ty: class(alloc, ty)?,
    })
}

fn recv(alloc: Global, ty: Ty, text: &str) -> Result<Recv, NoMemory> {
    Ok(Recv {
        ty,
        name: name(alloc, text)?,
        span: at(7),
    })
}

fn args(alloc: Global) -> Args {
    Args {
        positional: Items::new(alloc),
        keys: Items::new(alloc),
        block: None,
    }
}

fn push_place(alloc: Global, args: &mut Args, text: &str) -> Result<(), NoMemory> {
    let ty = class(alloc, text)?;
    args.positional.push(Arg { ty, span: at(20) })
}

fn push_key(alloc: Global, args: &mut Args, key: &str, text: &str) -> Result<(), NoMemory> {
    let ty = class(alloc, text)?;
    args.keys.push(KeyArg {
        name: name(alloc, key)?,
        ty,
        span: at(30),
    })
}

// The texts of a call's errors, each ended by `;`, and then the result as it is shown.
fn told(alloc: Global, world: &World, on: &Recv, given: &Args) -> Result<String, NoMemory> {
    let end = call(alloc, world, on, given)?;
    let mut text = String::new(alloc);
    for error in end.errors.as_slice() {
        text.push_str(error.text.as_str())?;
        text.push_str(";")?;
    }
    text.push_str(show(alloc, &end.result)?.as_str())?;
    Ok(text)
}

// The parameters of `m(a, k:)`, an Integer and a String.
fn place_and_key(alloc: Global) -> Result<Items<Param>, NoMemory> {
    let mut params = Items::new(alloc);
    push_param(alloc, &mut params, "a", ParamKind::Required, "Integer")?;
    push_param(alloc, &mut params, "k", ParamKind::Key, "String")?;
    Ok(params)
}

// So many arguments by place, all of one class, and one by name, if it has a name.
fn given(alloc: Global, places: usize, place: &str, key: &str, ty: &str) -> Result<Args, NoMemory> {
    let mut given = args(alloc);
    for _place in 0..places {
        push_place(alloc, &mut given, place)?;
    }
    if !key.is_empty() {
        push_key(alloc, &mut given, key, ty)?;
    }
    Ok(given)
}

// What a call of `m(a, k:)` is told.
fn told_of_m(alloc: Global, given: &Args) -> Result<String, NoMemory> {
    let world = world_of(alloc, "A", "m", place_and_key(alloc)?, class(alloc, "A")?)?;
    told(alloc, &world, &recv(alloc, class(alloc, "A")?, "m")?, given)
}

#[test]
fn arguments_are_counted_and_then_compared(rt: HostRuntime) -> Result<(), NoMemory> {
    let alloc = rt.alloc();
    for (places, place, key, ty, want) in [
        (1, "Integer", "k", "String", "A"),
        (0, "", "k", "String", "too few arguments for m;A"),
        (2, "String", "k", "String", "too many arguments for m;A"),
        (1, "String", "z", "String", "unknown keyword z for m;A"),
        (1, "String", "", "", "missing keyword k for m;A"),
        (
            1,
            "String",
            "k",
            "Integer",
            "argument a of m expects Integer, found String;argument k of m expects String, found Integer;A",
        ),
    ] {
        let text = told_of_m(alloc, &given(alloc, places, place, key, ty)?)?;
        assert_eq!(rt; text.as_str(), want);
    }
    Ok(())
}

// What a call of `x` without arguments is told, on a receiver of this type; no class has the method.
fn told_of_x(alloc: Global, ty: Ty) -> Result<String, NoMemory> {
    let world = World::new(alloc);
    told(alloc, &world, &recv(alloc, ty, "x")?, &args(alloc))
}

// The union of four classes in the order of their texts.
fn four(alloc: Global) -> Result<Ty, NoMemory> {
    let mut parts = Items::new(alloc);
    for text in ["FalseClass", "String", "T::Sig", "TrueClass"] {
        parts.push(class(alloc, text)?)?;
    }
    Ok(Ty::Any(Boxed::new(alloc, parts)?))
}

#[test]
fn each_part_answers_by_itself(rt: HostRuntime) -> Result<(), NoMemory> {
    let alloc = rt.alloc();
    let text = told_of_x(alloc, four(alloc)?)?;
    assert_eq!(rt;
        text.as_str(),
        "method x does not exist on String;method x does not exist on FalseClass;method x does not exist on TrueClass;method x does not exist on T::Sig;T.untyped"
    );
    let text = told_of_x(alloc, Ty::Untyped)?;
    assert_eq!(rt; text.as_str(), "call of x on an untyped receiver;T.untyped");
    let text = told_of_x(alloc, Ty::Never)?;
    assert_eq!(rt; text.as_str(), "T.noreturn");
    Ok(())
}

// A table in which `m`, a method of a class with this name, takes one argument of any type and answers this.
fn world_with(alloc: Global, owner: &str, answer: Ty) -> Result<World, NoMemory> {
    let params = any_param(alloc)?;
    let mut world = world_of(alloc, owner, "m", params, answer)?;
    for c in MORE_CLASSES {
        add(alloc, &mut world, c)?;
    }
    Ok(world)
}

const MORE_CLASSES: &[&str] = &["Array", "Hash", "Float", "NilClass", "Numeric"];

fn any_param(alloc: Global) -> Result<Items<Param>, NoMemory> {
    let mut params = Items::new(alloc);
    params.push(Param {
        name: name(alloc, "a")?,
        kind: ParamKind::Required,
        ty: Ty::Untyped,
    })?;
    Ok(params)
}

fn array(alloc: Global, element: Ty) -> Result<Ty, NoMemory> {
    Ok(Ty::Arr(Boxed::new(alloc, element)?))
}

fn hash(alloc: Global, key: Ty, value: Ty) -> Result<Ty, NoMemory> {
    let key = Boxed::new(alloc, key)?;
    Ok(Ty::Hsh(key, Boxed::new(alloc, value)?))
}

fn nilable_integer(alloc: Global) -> Result<Ty, NoMemory> {
    let mut parts = Items::new(alloc);
    parts.push(class(alloc, "Integer")?)?;
    parts.push(class(alloc, "NilClass")?)?;
    Ok(Ty::Any(Boxed::new(alloc, parts)?))
}

// A receiver of the class: an array of `T.nilable(Integer)`, a hash from `String` to `Integer`, or an instance.
fn receiver(alloc: Global, owner: &str) -> Result<Ty, NoMemory> {
    match owner {
        "Array" => array(alloc, nilable_integer(alloc)?),
        "Hash" => hash(alloc, class(alloc, "String")?, class(alloc, "Integer")?),
        _ => class(alloc, owner),
    }
}

// What a call of `m` with one argument is told, in such a table.
fn told_by(alloc: Global, world: &World, owner: &str, given: &Args) -> Result<String, NoMemory> {
    let on = recv(alloc, receiver(alloc, owner)?, "m")?;
    told(alloc, world, &on, given)
}

// What it is told where the method answers this, and the block, if there is one, this.
fn told_of_answer(
    alloc: Global,
    owner: &str,
    answer: Ty,
    argument: &str,
    block: Option<GivenBlock>,
) -> Result<String, NoMemory> {
    let world = world_with(alloc, owner, answer)?;
    let mut given = given(alloc, 1, argument, "", "")?;
    given.block = block;
    told_by(alloc, &world, owner, &given)
}

fn told_of_letter(
    alloc: Global,
    owner: &str,
    letter: &str,
    argument: &str,
) -> Result<String, NoMemory> {
    told_of_answer(alloc, owner, class(alloc, letter)?, argument, None)
}

const LETTERS: &[(&str, &str, &str, &str)] = &[
    ("Array", "%E", "String", "T.nilable(Integer)"),
    ("Array", "%C", "String", "Integer"),
    ("Array", "%self", "String", "T::Array[T.nilable(Integer)]"),
    ("Hash", "%K", "String", "String"),
    ("Hash", "%V", "String", "Integer"),
    ("Integer", "%N", "Integer", "Integer"),
    ("Integer", "%N", "Float", "Float"),
    ("Integer", "%N", "String", "Numeric"),
    ("Float", "%N", "Integer", "Integer"),
    ("String", "%self", "String", "String"),
    ("String", "%B", "String", "T.untyped"),
    ("String", "Float", "String", "Float"),
];

#[test]
fn letters_stand_for_types(rt: HostRuntime) -> Result<(), NoMemory> {
    for (owner, letter, argument, want) in LETTERS {
        let text = told_of_letter(rt.alloc(), owner, letter, argument)?;
        assert_eq!(rt; text.as_str(), *want);
    }
    Ok(())
}

// `T::Hash[K, T::Array[V]]`
fn inside(alloc: Global) -> Result<Ty, NoMemory> {
    hash(
        alloc,
        class(alloc, "%K")?,
        array(alloc, class(alloc, "%V")?)?,
    )
}

// A block that answers a `String`.
fn text_block(alloc: Global) -> Result<GivenBlock, NoMemory> {
    Ok(GivenBlock {
        names: 1,
        ty: class(alloc, "String")?,
    })
}

#[test]
fn letters_stand_for_types_inside_others(rt: HostRuntime) -> Result<(), NoMemory> {
    let alloc = rt.alloc();
    let text = told_of_answer(alloc, "Hash", inside(alloc)?, "Float", None)?;
    assert_eq!(rt; text.as_str(), "T::Hash[String, T::Array[Integer]]");
    Ok(())
}

#[test]
fn a_block_answers_for_its_letter(rt: HostRuntime) -> Result<(), NoMemory> {
    let alloc = rt.alloc();
    let answer = array(alloc, class(alloc, "%B")?)?;
    let text = told_of_answer(alloc, "Array", answer, "Float", Some(text_block(alloc)?))?;
    assert_eq!(rt; text.as_str(), "T::Array[String]");
    Ok(())
}

// The texts of types, each ended by `;`.
fn shown_types(alloc: Global, types: &[Ty]) -> Result<String, NoMemory> {
    let mut text = String::new(alloc);
    for ty in types {
        text.push_str(show(alloc, ty)?.as_str())?;
        text.push_str(";")?;
    }
    Ok(text)
}

// A table in which `m` of an array gives an element and an `Integer` to its block.
fn giving_world(alloc: Global) -> Result<World, NoMemory> {
    let mut params = Items::new(alloc);
    push_param(alloc, &mut params, "%1", ParamKind::Block, "%E")?;
    push_param(alloc, &mut params, "%2", ParamKind::Block, "Integer")?;
    world_of(alloc, "Array", "m", params, Ty::Untyped)
}

// What a block with so many names is given by it, as it is shown.
fn given_to_block(alloc: Global, names: u32) -> Result<String, NoMemory> {
    let mut world = giving_world(alloc)?;
    add(alloc, &mut world, "Array")?;
    let on = recv(alloc, array(alloc, class(alloc, "String")?)?, "m")?;
    let mut given = args(alloc);
    given.block = Some(GivenBlock {
        names,
        ty: Ty::Untyped,
    });
    shown_types(alloc, call(alloc, &world, &on, &given)?.block.as_slice())
}

const BLOCKS: &[(u32, &str)] = &[
    (0, ""),
    (1, "String;"),
    (2, "String;Integer;"),
    (3, "T.untyped;T.untyped;T.untyped;"),
];

#[test]
fn blocks_are_given_types(rt: HostRuntime) -> Result<(), NoMemory> {
    for (names, want) in BLOCKS {
        assert_eq!(rt; given_to_block(rt.alloc(), *names)?.as_str(), *want);
    }
    Ok(())
}

// What `A.new` is told with so many arguments, where `initialize` takes an `Integer`.
fn told_of_new(alloc: Global, places: usize, place: &str) -> Result<String, NoMemory> {
    let mut params = Items::new(alloc);
    push_param(alloc, &mut params, "a", ParamKind::Required, "Integer")?;
    let world = world_of(alloc, "A", "initialize", params, Ty::Untyped)?;
    let on = recv(alloc, Ty::Meta(name(alloc, "A")?), "new")?;
    told(alloc, &world, &on, &given(alloc, places, place, "", "")?)
}

const MADE: &[(usize, &str, &str)] = &[
    (1, "Integer", "A"),
    (
        1,
        "String",
        "argument a of new expects Integer, found String;A",
    ),
    (0, "", "too few arguments for new;A"),
];

#[test]
fn new_takes_what_initialize_takes(rt: HostRuntime) -> Result<(), NoMemory> {
    for (places, place, want) in MADE {
        let text = told_of_new(rt.alloc(), *places, place)?;
        assert_eq!(rt; text.as_str(), *want);
    }
    Ok(())
}
