//! The malformed type expressions of short programs.

use crate::facts::facts_of;
use rb_decl::parse;
use rb_lex::lex;
use rb_tree::syntax::Tree;
use srb_references::mention_errors;
use srb_summary::summary;
use srb_table::build;
use srb_terms::Items;
use srb_text::Text;
use std::alloc::{AllocError, Global};

/// How many errors of this number what a tree mentions has, by the facts of a program.
fn count_in(alloc: Global, text: &str, tree: &Tree, number: u16) -> Result<usize, AllocError> {
    let facts = facts_of(alloc, text)?;
    let world = build(alloc, &[summary(alloc, facts.as_slice())?])?;
    let mut found = Items::new(alloc);
    mention_errors(alloc, &world, tree, &mut found)?;
    let mut errors = found.into_vec();
    errors.retain(|error| error.number == number);
    Ok(errors.len())
}

/// The same of a program; none where it can't be read.
fn count(alloc: Global, text: &str, number: u16) -> Result<usize, AllocError> {
    if text.len() > 10_000 {
        return Ok(0);
    }
    let Ok(read) = Text::from_bytes(alloc, text.as_bytes()) else {
        return Ok(0);
    };
    let Ok(tokens) = lex(alloc, &read) else {
        return Ok(0);
    };
    let Ok(tree) = parse(alloc, tokens.as_slice()) else {
        return Ok(0);
    };
    count_in(alloc, text, &tree, number)
}

#[test]
fn wrong_parts_are_malformed(rt: HostRuntime) -> Result<(), AllocError> {
    for (text, want) in [
        ("T.let(1, 2)\n", 1),
        ("T.cast(x, T.any(String, :a, y))\n", 2),
        ("T.let(x, T::Hash[1, T.nilable(2)])\n", 2),
        ("T.let(x, T.any(String))\n", 1),
        ("T.let(x, T.proc.params(a: 1).void)\n", 1),
        ("T.let(x, T.class_of(1))\n", 1),
        ("X = 1\nT.let(x, X)\nT.let(x, T.class_of(X))\n", 2),
        ("class A\n  sig { params(a: 1).returns(nil) }\nend\n", 2),
        ("class A\n  sig { void; returns(nil) }\nend\n", 0),
        ("T.let(x, T.any(String, Missing))\nT.let(1)\nlet(1, 2)\n", 0),
        ("T.let(x, T.all(Comparable, Kernel))\n", 0),
    ] {
        assert_eq!(rt; count(rt.alloc(), text, 5004)?, want);
    }
    Ok(())
}

#[test]
fn missing_constants_stand_beside_malformed_types(rt: HostRuntime) -> Result<(), AllocError> {
    for (text, missing, malformed) in [
        ("T.let(x, T.any(String, Missing))\nOther::Thing\n", 2, 0),
        ("T.let(Missing, 1)\n", 1, 1),
        ("class A < B\n  include C\n  D = 1\n  D\nend\nA\n", 2, 0),
        ("class A::B\nend\n", 1, 0),
        ("x = 1\n", 0, 0),
    ] {
        assert_eq!(rt; count(rt.alloc(), text, 5002)?, missing);
        assert_eq!(rt; count(rt.alloc(), text, 5004)?, malformed);
    }
    Ok(())
}
