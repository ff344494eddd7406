//! The constant references of short programs.

use rb_decl::parse;
use rb_lex::lex;
use srb_references::{Reference, mentions_of};
use srb_rules::Position;
use srb_terms::{Items, Names};
use srb_text::Text;
use std::alloc::{AllocError, Global};

/// The references of a program; none where it can't be read.
fn references_of(alloc: Global, text: &str) -> Result<Items<Reference>, AllocError> {
    if text.len() > 10_000 {
        return Ok(Items::new(alloc));
    }
    let Ok(text) = Text::from_bytes(alloc, text.as_bytes()) else {
        return Ok(Items::new(alloc));
    };
    let Ok(tokens) = lex(alloc, &text) else {
        return Ok(Items::new(alloc));
    };
    let Ok(tree) = parse(alloc, tokens.as_slice()) else {
        return Ok(Items::new(alloc));
    };
    Ok(mentions_of(alloc, &tree)?.references)
}

/// Adds names, each after a mark.
fn push_names(text: &mut String, mark: &str, names: &Names) -> Result<(), AllocError> {
    let mut left = names;
    while let Some((name, rest)) = left.split() {
        text.push_str(mark)?;
        text.push_str(name.as_str())?;
        left = rest;
    }
    Ok(())
}

/// The mark of a reference: `^` where no ancestors are looked at, `!` where a class or module is wanted.
fn mark(reference: &Reference) -> &'static str {
    match (reference.position, reference.wants_body) {
        (Position::Parent, _) => "^",
        (Position::Value, true) => "!",
        (Position::Value, false) => "=",
    }
}

/// Adds a reference: its mark, its names each after a blank, the scope's each after an `@`, and its place.
fn push_reference(text: &mut String, reference: &Reference) -> Result<(), AllocError> {
    text.push_str(mark(reference))?;
    push_names(text, " ", &reference.path)?;
    push_names(text, " @", &reference.scope)
}

/// All references, the last first, each ended by a `;`.
fn shown(alloc: Global, text: &str) -> Result<String, AllocError> {
    let found = references_of(alloc, text)?;
    let count = found.len();
    let mut all = String::new(alloc);
    'found: for index in 0..count {
        if let Some(reference) = found.get(count - 1 - index) {
            push_reference(&mut all, reference)?;
            all.push_str(";")?;
        }
    }
    Ok(all)
}

#[test]
fn classes_and_modules_refer(rt: HostRuntime) -> Result<(), AllocError> {
    for (text, wanted) in [
        ("class A\nend\n", ""),
        ("class A < B\nend\n", "^ B;"),
        ("class A < ::B::C\nend\n", "^  B C;"),
        ("class A::B::C\n  X\nend\n", "= X @A::B::C;! A B;"),
        ("module A::B\nend\n", "! A;"),
        ("class A::B < C\nend\n", "^ C;! A;"),
        (
            "module A\n  class B < C\n    X\n  end\nend\n",
            "= X @A::B @A;^ C @A;",
        ),
        (
            "class A\n  include B, C::D, e\n  extend(::F)\nend\n",
            "^ B @A;^ C D @A;^  F @A;",
        ),
        (
            "class A\n  include(B)\n  include B.c\n  include x: C\nend\n",
            "^ B @A;= B @A;= C @A;",
        ),
        (
            "class A\n  include B if C\n  def m\n    extend D\n  end\nend\n",
            "= B @A;= C @A;= D @A;",
        ),
        ("include A\n", "= A;"),
    ] {
        let all = shown(rt.alloc(), text)?;
        assert_eq!(rt; all.as_str(), wanted);
    }
    Ok(())
}

#[test]
fn types_refer(rt: HostRuntime) -> Result<(), AllocError> {
    for (text, wanted) in [
        ("T.let(a, A)\n", "= A;= T;"),
        ("T.let(A, B)\n", "= A;= B;= T;"),
        ("x = T.cast(a, A).b(B)\n", "= A;= B;= T;"),
        ("T.let a, A\n", "= T;= A;"),
        ("T.let(a, T::Array[A])\n", "= A;= T;"),
        ("T.let(a, T::Array[A, B])\n", "= A;= B;= T Array;= T;"),
        ("T.let(a, T.class_of(T::Boolean))\n", "= T Boolean;= T;"),
        (
            "T.let(a, T::Boolean)\nT.let(a, T::Boolean) { }\n",
            "= T;= T Boolean;= T;",
        ),
        (
            "T.let(a, T.proc.params(b: A, c: T.untyped).returns(T.any(B, ::C)))\n",
            "= A;= B;=  C;= T;",
        ),
        (
            "T.let(a, A, B)\nT.let(a, b: B)\nT.must(A, B)\n",
            "= A;= B;= T;= B;= T;= A;= B;= T;",
        ),
        (
            "T.a.let(a, A)\n::T.let(a, B)\nT&.let(a, C)\n",
            "= A;= T;= B;=  T;= C;= T;",
        ),
        (
            "class A\n  sig { params(a: B).returns(C) }\n  sig { void }\nend\n",
            "= B @A;= C @A;",
        ),
        (
            "class A\n  sig { returns(b: B, c: C).params(D, e: E) }\nend\n",
            "= B @A;= C @A;= D @A;= E @A;",
        ),
        (
            "class A\n  sig { override.returns(B) }\n  sig do\n    returns C\n  end\nend\n",
            "= B @A;= C @A;",
        ),
        (
            "class A\n  sig(B) { returns(C) { D } }\nend\n",
            "= B @A;= C @A;= D @A;",
        ),
        (
            "class A\n  sig { returns(B); returns(C) }\nend\n",
            "= B @A;= C @A;",
        ),
        (
            "class A\n  sig { void.params(b: T::Boolean)[0] }\nend\n",
            "= T Boolean @A;",
        ),
        (
            "class A\n  sig { [returns(B)] }\n  sig { checked(C) }\nend\n",
            "= B @A;= C @A;",
        ),
        (
            "class A\n  sig { B.returns(C) }\n  sig { T.let(D, E) }\nend\n",
            "= C @A;= B @A;= D @A;= E @A;= T @A;",
        ),
        (
            "sig { returns(B) }\nclass A\n  f { sig { returns(C) } }\nend\n",
            "= B;= C @A;",
        ),
    ] {
        let all = shown(rt.alloc(), text)?;
        assert_eq!(rt; all.as_str(), wanted);
    }
    Ok(())
}

#[test]
fn expressions_refer(rt: HostRuntime) -> Result<(), AllocError> {
    for (text, wanted) in [
        ("A = B\n", "= B;"),
        (
            "A::B.c = D\nA.e += F\nG[H] = I\n",
            "= A B;= D;= A;= F;= H;= G;= I;",
        ),
        ("a::B\nA.b::C\n::A::B[C]\n", "= A;= C;=  A B;"),
        (
            "a(A, b: B, &C)\nd E do |x|\n  F\nend\n",
            "= A;= B;= C;= E;= F;",
        ),
        ("A.new(B) { C }.d(E)\n", "= B;= C;= E;= A;"),
        (
            "\"a#{A}b\"\n[B, C]\nx = { D => E, f: G }\n",
            "= A;= B;= C;= D;= E;= G;",
        ),
        (
            "if A\n  B\nelsif C\n  D\nelse\n  E\nend\n",
            "= A;= B;= C;= D;= E;",
        ),
        (
            "case A\nwhen B, C\n  D\nelse\n  E\nend\n",
            "= A;= B;= C;= D;= E;",
        ),
        ("while A\n  B\nend\nC while D\n", "= A;= B;= C;= D;"),
        ("def a(b = A, c: B)\n  return C\nend\n", "= A;= B;= C;"),
        (
            "def a\n  A\nrescue B, C => d\n  D\nelse\n  E\nensure\n  F\nend\n",
            "= A;= B;= C;= D;= E;= F;",
        ),
        (
            "A ? B : !C\n(D + E)\nyield(F)\nsuper(G)\n",
            "= A;= B;= C;= D;= E;= F;= G;",
        ),
    ] {
        let all = shown(rt.alloc(), text)?;
        assert_eq!(rt; all.as_str(), wanted);
    }
    Ok(())
}
