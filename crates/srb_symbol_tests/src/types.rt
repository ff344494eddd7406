//! The types of type expressions and signatures in short programs, as they are shown, and the wrong parts.

use crate::facts::facts_of;
use srb_builtin::table;
use srb_sig::{SigEnd, TyEnd, read_sig, read_type};
use srb_summary::summary;
use srb_table::build;
use srb_terms::{Fact, Given, Items, Words, World};
use srb_types::show;
use std::alloc::{AllocError, Global};

/// The symbol table of the built-in table and these facts.
fn table_of(alloc: Global, facts: &Items<Fact>) -> Result<World, AllocError> {
    build(alloc, &[summary(alloc, facts.as_slice())?])
}

/// The type that a fact has as it is shown, or why it has none; nothing where it is no typed constant.
fn shown(alloc: Global, w: &World, fact: &Fact) -> Result<Words, AllocError> {
    match fact {
        Fact::Value {
            scope,
            given: Given::Typed(text),
            ..
        } => match read_type(alloc, w, scope, text) {
            Ok(ty) => show(alloc, &ty),
            Err(TyEnd::Unresolved { .. }) => Words::from_str(alloc, "unresolved"),
            Err(TyEnd::Malformed { .. }) => Words::from_str(alloc, "malformed"),
            Err(TyEnd::NoMemory) => Err(AllocError),
        },
        _ => Words::from_str(alloc, ""),
    }
}

/// The type of the last constant of a program.
fn last_type(alloc: Global, text: &str) -> Result<Words, AllocError> {
    let facts = facts_of(alloc, text)?;
    let w = table_of(alloc, &facts)?;
    match facts.as_slice() {
        [.., last] => shown(alloc, &w, last),
        [] => Words::from_str(alloc, "no facts"),
    }
}

#[test]
fn type_expressions_have_their_types(rt: HostRuntime) -> Result<(), AllocError> {
    let alloc = rt.alloc();
    for (text, want) in [
        ("X = T.let(y, String)\n", "String"),
        ("X = T.let(y, ::T::Sig)\n", "T::Sig"),
        ("X = T.let(y, Array)\n", "T::Array[T.untyped]"),
        ("X = T.let(y, T::Boolean)\n", "T::Boolean"),
        (
            "X = T.let(y, T.nilable(T::Boolean))\n",
            "T.nilable(T::Boolean)",
        ),
        ("X = T.let(y, T.any(String, NilClass, Object))\n", "Object"),
        ("X = T.let(y, T.any(String, T.untyped))\n", "T.untyped"),
        ("X = T.let(y, T.all(Comparable, String))\n", "String"),
        ("X = T.let(y, T.all(Integer, String))\n", "T.noreturn"),
        (
            "X = T.let(y, T::Hash[Symbol, T.class_of(Hash)])\n",
            "T::Hash[Symbol, T.class_of(Hash)]",
        ),
        ("X = T.let(y, T.proc.params(a: Integer).void)\n", "Proc"),
        ("X = T.let(y, T.proc.params(a: Other).void)\n", "unresolved"),
        ("X = T.let(y, T.any(String))\n", "malformed"),
        ("X = T.let(y, T.any(1, Other))\n", "malformed"),
        ("X = T.let(y, T.any(Other, 1))\n", "unresolved"),
        ("Y = 1\nX = T.let(y, Y)\n", "malformed"),
        ("X = T.let(y, T::Array)\n", "unresolved"),
    ] {
        let shown = last_type(alloc, text)?;
        assert_eq!(rt; shown.as_str(), want);
    }
    Ok(())
}

/// The result of the signature of a method as it is shown, where so many parts of it are wrong; else what else it is.
fn result(alloc: Global, w: &World, fact: &Fact, wrong: usize) -> Result<Words, AllocError> {
    match fact {
        Fact::Method {
            scope,
            params,
            sig: Some(sig),
            ..
        } => match read_sig(alloc, w, scope, params, sig) {
            Ok(read) => {
                if read.bad.len() == wrong {
                    show(alloc, &read.result)
                } else {
                    Words::from_str(alloc, "another number")
                }
            }
            Err(SigEnd::Malformed) => Words::from_str(alloc, "malformed"),
            Err(SigEnd::NoMemory) => Err(AllocError),
        },
        _ => Words::from_str(alloc, "no method"),
    }
}

/// That of the last method of a program.
fn last_result(alloc: Global, text: &str, wrong: usize) -> Result<Words, AllocError> {
    let facts = facts_of(alloc, text)?;
    let w = table_of(alloc, &facts)?;
    match facts.as_slice() {
        [.., last] => result(alloc, &w, last, wrong),
        [] => Words::from_str(alloc, "no facts"),
    }
}

#[test]
fn signatures_have_their_results(rt: HostRuntime) -> Result<(), AllocError> {
    let alloc = rt.alloc();
    for (text, wrong, want) in [
        (
            "class A\n  sig { params(a: Other, b: Integer).returns(String) }\n  def m(a, b)\n  end\nend\n",
            1,
            "String",
        ),
        (
            "class A\n  sig { returns(T::Array[1]).params(a: Other) }\n  def m(a)\n  end\nend\n",
            2,
            "T.untyped",
        ),
        (
            "class A\n  sig { abstract.void }\n  def m\n  end\nend\n",
            0,
            "T.untyped",
        ),
        (
            "class A\n  sig { override.returns A }\n  def m\n  end\nend\n",
            0,
            "A",
        ),
        (
            "class A\n  sig { returns(A) }\n  attr_accessor :x\nend\n",
            0,
            "A",
        ),
        (
            "class A\n  sig { params(b: Integer).void }\n  def m(a)\n  end\nend\n",
            0,
            "malformed",
        ),
        (
            "class A\n  sig { returns(A).void }\n  def m\n  end\nend\n",
            0,
            "malformed",
        ),
    ] {
        let shown = last_result(alloc, text, wrong)?;
        assert_eq!(rt; shown.as_str(), want);
    }
    Ok(())
}

/// Whether a fact is no method, or has a well-formed signature whose parts are right.
fn is_read(alloc: Global, w: &World, fact: &Fact) -> Result<bool, AllocError> {
    match fact {
        Fact::Method {
            scope,
            params,
            sig: Some(sig),
            ..
        } => match read_sig(alloc, w, scope, params, sig) {
            Ok(read) => Ok(read.bad.is_empty()),
            Err(SigEnd::Malformed) => Ok(false),
            Err(SigEnd::NoMemory) => Err(AllocError),
        },
        Fact::Method { .. } => Ok(false),
        _ => Ok(true),
    }
}

/// Whether all are.
fn are_read(alloc: Global, w: &World, facts: &[Fact]) -> Result<bool, AllocError> {
    for fact in facts {
        if !is_read(alloc, w, fact)? {
            return Ok(false);
        }
    }
    Ok(true)
}

#[test]
fn the_signatures_of_the_built_in_table_are_read(rt: HostRuntime) -> Result<(), AllocError> {
    let alloc = rt.alloc();
    let facts = table(alloc)?;
    let w = build(alloc, &[])?;
    assert!(rt; are_read(alloc, &w, facts.as_slice())?);
    Ok(())
}
