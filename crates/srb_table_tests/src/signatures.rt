//! Type expressions and signatures in a small table, written by hand.

use srb_sig::{SigEnd, TyEnd, read_sig, read_type, wrong_parts};
use srb_terms::{
    Items, Kind, Label, Name, Names, NoMemory, NodeKind, Outline, ParamKind, ParamShape, SigText,
    TyText, Words, World,
};
use srb_types::show;
use std::alloc::Global;

// A node with these parts.
fn node(
    alloc: Global,
    kind: NodeKind,
    words: &str,
    parts: Items<Outline>,
) -> Result<Outline, NoMemory> {
    Ok(Outline {
        label: Label {
            kind,
            words: Words::from_str(alloc, words)?,
        },
        parts,
    })
}

fn leaf(alloc: Global, kind: NodeKind, words: &str) -> Result<Outline, NoMemory> {
    node(alloc, kind, words, Items::new(alloc))
}

fn one(alloc: Global, part: Outline) -> Result<Items<Outline>, NoMemory> {
    let mut parts = Items::new(alloc);
    parts.push(part)?;
    Ok(parts)
}

fn two(alloc: Global, first: Outline, second: Outline) -> Result<Items<Outline>, NoMemory> {
    let mut parts = one(alloc, first)?;
    parts.push(second)?;
    Ok(parts)
}

fn constant(alloc: Global, name: &str) -> Result<Outline, NoMemory> {
    leaf(alloc, NodeKind::Constant, name)
}

// `name(..)` or `.name(..)`.
fn call(
    alloc: Global,
    kind: NodeKind,
    name: &str,
    arguments: Items<Outline>,
) -> Result<Outline, NoMemory> {
    let brackets = node(alloc, NodeKind::Brackets, "", arguments)?;
    node(alloc, kind, name, one(alloc, brackets)?)
}

// `T.name(..)`.
fn t_call(alloc: Global, name: &str, arguments: Items<Outline>) -> Result<Outline, NoMemory> {
    let suffix = call(alloc, NodeKind::SuffixCall, name, arguments)?;
    node(
        alloc,
        NodeKind::Post,
        "",
        two(alloc, constant(alloc, "T")?, suffix)?,
    )
}

// `T::Array[..]`.
fn array(alloc: Global, element: Outline) -> Result<Outline, NoMemory> {
    let mut parts = one(alloc, constant(alloc, "T")?)?;
    parts.push(leaf(alloc, NodeKind::SuffixConstant, "Array")?)?;
    parts.push(node(alloc, NodeKind::Index, "", one(alloc, element)?)?)?;
    node(alloc, NodeKind::Post, "", parts)
}

// The classes `String` and `Array`, and the value constant `LIMIT`.
fn zoo(alloc: Global) -> Result<World, NoMemory> {
    let mut w = World::new(alloc);
    for (text, kind) in [
        ("String", Kind::Class),
        ("Array", Kind::Class),
        ("LIMIT", Kind::Value),
    ] {
        w.kinds.insert(Name::from_str(alloc, text)?, kind)?;
    }
    Ok(w)
}

// The type of an expression as it is shown, or why it has none and the number of its first wrong part.
fn told(alloc: Global, tree: Outline) -> Result<Words, NoMemory> {
    let w = zoo(alloc)?;
    match read_type(alloc, &w, &Names::new(), &TyText { tree }) {
        Ok(ty) => show(alloc, &ty),
        Err(TyEnd::Unresolved { part: 0 }) => Words::from_str(alloc, "unresolved at 0"),
        Err(TyEnd::Unresolved { part: 1 }) => Words::from_str(alloc, "unresolved at 1"),
        Err(TyEnd::Malformed { part: 0 }) => Words::from_str(alloc, "malformed at 0"),
        Err(TyEnd::Malformed { part: 1 }) => Words::from_str(alloc, "malformed at 1"),
        Err(_) => Words::from_str(alloc, "another end"),
    }
}

#[test]
fn an_array_has_its_elements(rt: HostRuntime) -> Result<(), NoMemory> {
    let alloc = rt.alloc();
    let text = told(alloc, array(alloc, constant(alloc, "String")?)?)?;
    assert_eq!(rt; text.as_str(), "T::Array[String]");
    Ok(())
}

#[test]
fn an_array_alone_is_untyped_inside(rt: HostRuntime) -> Result<(), NoMemory> {
    let alloc = rt.alloc();
    let text = told(alloc, constant(alloc, "Array")?)?;
    assert_eq!(rt; text.as_str(), "T::Array[T.untyped]");
    Ok(())
}

#[test]
fn a_value_constant_is_no_type(rt: HostRuntime) -> Result<(), NoMemory> {
    let alloc = rt.alloc();
    let text = told(alloc, constant(alloc, "LIMIT")?)?;
    assert_eq!(rt; text.as_str(), "malformed at 0");
    Ok(())
}

#[test]
fn the_constant_of_a_class_object_is_a_part(rt: HostRuntime) -> Result<(), NoMemory> {
    let alloc = rt.alloc();
    let tree = t_call(alloc, "class_of", one(alloc, constant(alloc, "Other")?)?)?;
    let text = told(alloc, tree)?;
    assert_eq!(rt; text.as_str(), "unresolved at 1");
    Ok(())
}

#[test]
fn each_wrong_part_has_its_number(rt: HostRuntime) -> Result<(), NoMemory> {
    let alloc = rt.alloc();
    let w = zoo(alloc)?;
    let inner = array(alloc, constant(alloc, "Other")?)?;
    let tree = t_call(
        alloc,
        "any",
        two(alloc, inner, leaf(alloc, NodeKind::Whole, "1")?)?,
    )?;
    let wrong = wrong_parts(alloc, &w, &Names::new(), &TyText { tree })?;
    match wrong.as_slice() {
        [first, second] => assert_eq!(rt; (first.part, second.part), (2, 3)),
        _ => assert!(rt; false),
    }
    Ok(())
}

// `sig { returns(Other).params(a: String) }`.
fn sig(alloc: Global) -> Result<SigText, NoMemory> {
    let returns = call(
        alloc,
        NodeKind::Call,
        "returns",
        one(alloc, constant(alloc, "Other")?)?,
    )?;
    let keyword = node(
        alloc,
        NodeKind::Keyword,
        "a",
        one(alloc, constant(alloc, "String")?)?,
    )?;
    let params = call(alloc, NodeKind::SuffixCall, "params", one(alloc, keyword)?)?;
    let chain = node(alloc, NodeKind::Post, "", two(alloc, returns, params)?)?;
    let body = node(alloc, NodeKind::Body, "", one(alloc, chain)?)?;
    let block = node(alloc, NodeKind::Block, "", one(alloc, body)?)?;
    Ok(SigText {
        tree: node(alloc, NodeKind::Call, "sig", one(alloc, block)?)?,
    })
}

#[test]
fn a_signature_with_an_unknown_result_has_its_parameter(rt: HostRuntime) -> Result<(), NoMemory> {
    let alloc = rt.alloc();
    let mut shapes = Items::new(alloc);
    shapes.push(ParamShape {
        name: Name::from_str(alloc, "a")?,
        kind: ParamKind::Required,
    })?;
    let read = read_sig(alloc, &zoo(alloc)?, &Names::new(), &shapes, &sig(alloc)?);
    match read {
        Err(_) => assert!(rt; false),
        Ok(read) => match (read.params.as_slice(), read.bad.as_slice()) {
            ([a], [0]) => {
                let text = show(alloc, &a.ty)?;
                assert_eq!(rt; text.as_str(), "String");
            }
            _ => assert!(rt; false),
        },
    }
    Ok(())
}

#[test]
fn a_signature_without_its_parameter_is_malformed(rt: HostRuntime) -> Result<(), NoMemory> {
    let alloc = rt.alloc();
    let shapes = Items::new(alloc);
    let read = read_sig(alloc, &zoo(alloc)?, &Names::new(), &shapes, &sig(alloc)?);
    match read {
        Err(SigEnd::Malformed) => {}
        _ => assert!(rt; false),
    }
    Ok(())
}
