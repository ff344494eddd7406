//! The facts of short programs, after the rewriting.

use rb_decl::parse;
use rb_lex::lex;
use rb_rewrite::attrs;
use srb_namer::facts;
use srb_summary::{Summary, same, summary};
use srb_terms::{Fact, Given, How, Items, Kind, Names};
use srb_text::Text;
use std::alloc::{AllocError, Global};

/// The facts of a program; none where it can't be read.
pub fn facts_of(alloc: Global, text: &str) -> Result<Items<Fact>, AllocError> {
    if text.len() > 10_000 {
        return Ok(Items::new(alloc));
    }
    let Ok(text) = Text::from_bytes(alloc, text.as_bytes()) else {
        return Ok(Items::new(alloc));
    };
    let Ok(tokens) = lex(alloc, &text) else {
        return Ok(Items::new(alloc));
    };
    let Ok(tree) = parse(alloc, tokens.as_slice()) else {
        return Ok(Items::new(alloc));
    };
    let tree = attrs(alloc, &tree)?;
    facts(alloc, &tree)
}

/// Whether the list has these names.
fn are(names: &Names, words: &[&str]) -> bool {
    let mut left = names;
    for word in words {
        match left.split() {
            Some((name, rest)) => {
                if name.as_str() != *word {
                    return false;
                }
                left = rest;
            }
            None => return false,
        }
    }
    left.is_empty()
}

fn is_scope(fact: Option<&Fact>, wanted: &str, wanted_kind: Kind) -> bool {
    match fact {
        Some(Fact::Scope { name, kind }) => name.as_str() == wanted && *kind == wanted_kind,
        _ => false,
    }
}

fn is_parent(fact: Option<&Fact>, child: &str, around: &[&str], path: &[&str], way: How) -> bool {
    match fact {
        Some(Fact::Parent { of, scope, to, how }) => of.as_str() == child
            && are(scope, around)
            && are(to, path)
            && *how == way,
        _ => false,
    }
}

fn is_method(
    fact: Option<&Fact>,
    of: &str,
    own: bool,
    named: &str,
    count: usize,
    signed: bool,
) -> bool {
    match fact {
        Some(
            Fact::Method {
                owner,
                meta,
                name,
                params,
                sig,
                ..
            },
        ) => {
            owner.as_str() == of
                && *meta == own
                && name.as_str() == named
                && params.len() == count
                && sig.is_some() == signed
        }
        _ => false,
    }
}

fn is_ivar(fact: Option<&Fact>, of: &str, own: bool, named: &str, typed: &str) -> bool {
    match fact {
        Some(
            Fact::Ivar {
                owner,
                meta,
                name,
                given,
                ..
            },
        ) => {
            owner.as_str() == of
                && *meta == own
                && name.as_str() == named
                && given.tree.label.words.as_str() == typed
        }
        _ => false,
    }
}

fn is_literal(fact: Option<&Fact>, named: &str, class: &str) -> bool {
    match fact {
        Some(
            Fact::Value {
                name,
                given: Given::Literal(literal),
                ..
            },
        ) => name.as_str() == named && literal.as_str() == class,
        _ => false,
    }
}

#[test]
fn a_class_its_superclass_and_its_mixins_from_last_to_first(
    rt: HostRuntime,
) -> Result<(), AllocError> {
    let found = facts_of(
        rt.alloc(),
        "module M\n  class C < ::A::B\n    include X, Y\n    extend Z\n  end\nend\n",
    )?;
    assert!(rt; found.len() == 6);
    assert!(rt; is_scope(found.get(0), "M", Kind::Module));
    assert!(rt; is_scope(found.get(1), "M::C", Kind::Class));
    assert!(rt; is_parent(found.get(2), "M::C", &["M"], &["", "A", "B"], How::Super));
    assert!(rt; is_parent(found.get(3), "M::C", &["M::C", "M"], &["Y"], How::Include));
    assert!(rt; is_parent(found.get(4), "M::C", &["M::C", "M"], &["X"], How::Include));
    assert!(rt; is_parent(found.get(5), "M::C", &["M::C", "M"], &["Z"], How::Extend));
    Ok(())
}

#[test]
fn an_accessor_is_a_reader_and_a_writer_with_a_signature_each(
    rt: HostRuntime,
) -> Result<(), AllocError> {
    let found = facts_of(
        rt.alloc(),
        "class C\n  sig { returns(String) }\n  attr_accessor :a, :b\n  attr_reader :c\nend\n",
    )?;
    assert!(rt; found.len() == 6);
    assert!(rt; is_method(found.get(1), "C", false, "a", 0, true));
    assert!(rt; is_method(found.get(2), "C", false, "a=", 1, true));
    assert!(rt; is_method(found.get(3), "C", false, "b", 0, true));
    assert!(rt; is_method(found.get(4), "C", false, "b=", 1, true));
    assert!(rt; is_method(found.get(5), "C", false, "c", 0, false));
    Ok(())
}

#[test]
fn an_initializer_declares_what_it_is_given(rt: HostRuntime) -> Result<(), AllocError> {
    let text =
        "class Stock\n  sig { params(name: String, items: Array).void }\n  def initialize(name, items)\n    @name = name\n    @items = T.let(items, Array)\n    @other = other\n    @name = name if name\n  end\nend\n";
    let found = facts_of(rt.alloc(), text)?;
    assert!(rt; found.len() == 4);
    assert!(rt; is_method(found.get(1), "Stock", false, "initialize", 2, true));
    assert!(rt; is_ivar(found.get(2), "Stock", false, "name", "String"));
    assert!(rt; is_ivar(found.get(3), "Stock", false, "items", "Array"));
    Ok(())
}

#[test]
fn a_malformed_signature_gives_an_initializer_no_types(rt: HostRuntime) -> Result<(), AllocError> {
    let found = facts_of(
        rt.alloc(),
        "class C\n  sig { params(x: String) }\n  def initialize(x)\n    @x = x\n  end\nend\n",
    )?;
    assert!(rt; found.len() == 2);
    let found = facts_of(
        rt.alloc(),
        "class C\n  sig { params(y: String).void }\n  def initialize(x)\n    @x = x\n  end\nend\n",
    )?;
    assert!(rt; found.len() == 2);
    let found = facts_of(
        rt.alloc(),
        "class C\n  sig { void.params(x: String) }\n  def initialize(x)\n    @x = x\n  end\nend\n",
    )?;
    assert!(rt; found.len() == 3);
    Ok(())
}

#[test]
fn the_block_of_an_initializer_gives_no_type(rt: HostRuntime) -> Result<(), AllocError> {
    let found = facts_of(
        rt.alloc(),
        "class C\n  sig { params(b: T.proc.void).void }\n  def initialize(&b)\n    @b = b\n  end\nend\n",
    )?;
    assert!(rt; found.len() == 2);
    Ok(())
}

#[test]
fn constants_and_variables_of_the_program(rt: HostRuntime) -> Result<(), AllocError> {
    let text =
        "X = 1\nY = T.let(nil, Z)\nclass A::B\n  K = \"k\"\n  @a = T.let(1, Integer)\n  def self.m\n    if x\n      @b = T.let(2, Float)\n    end\n  end\nend\n@c = T.let(3, Symbol)\nsig { void }\ndef m(a, b = 1, k:, &c)\nend\n";
    let found = facts_of(rt.alloc(), text)?;
    assert!(rt; found.len() == 9);
    assert!(rt; is_literal(found.get(0), "X", "Integer"));
    assert!(rt;
        matches!(
            found.get(1),
            Some(Fact::Value {
                given: Given::Typed(_),
                ..
            })
        )
    );
    assert!(rt; is_scope(found.get(2), "A::B", Kind::Class));
    assert!(rt; is_literal(found.get(3), "A::B::K", "String"));
    assert!(rt; is_ivar(found.get(4), "A::B", true, "a", "Integer"));
    assert!(rt; is_method(found.get(5), "A::B", true, "m", 0, false));
    assert!(rt; is_ivar(found.get(6), "A::B", true, "b", "Float"));
    assert!(rt; is_ivar(found.get(7), "Object", false, "c", "Symbol"));
    assert!(rt; is_method(found.get(8), "Object", false, "m", 4, false));
    Ok(())
}

#[test]
fn calls_elsewhere_declare_nothing(rt: HostRuntime) -> Result<(), AllocError> {
    let text =
        "include M\nattr_reader :x\nclass C\n  include(M) { 1 }\n  attr_reader :x if true\n  self.include M\n  f { include M }\n  include m\nend\n";
    let found = facts_of(rt.alloc(), text)?;
    assert!(rt; found.len() == 1);
    Ok(())
}

fn summary_of(alloc: Global, text: &str) -> Result<Summary, AllocError> {
    let found = facts_of(alloc, text)?;
    summary(alloc, found.as_slice())
}

#[test]
fn summaries_are_equal_where_places_and_bodies_alone_differ(
    rt: HostRuntime,
) -> Result<(), AllocError> {
    let text = "class C < D\n  sig { params(x: A).returns(B) }\n  def m(x)\n    1\n  end\nend\n";
    let first = summary_of(rt.alloc(), text)?;
    let again =
        "# moved\n\nclass C < D\n  sig { params(x: A).returns(B) }\n  def m(x) 2 end\nend\n";
    assert!(rt; same(&first, &summary_of(rt.alloc(), again)?));
    assert!(rt; same(&first, &first.copied()?));
    let other = "class C < D\n  sig { params(x: A).returns(C) }\n  def m(x)\n    1\n  end\nend\n";
    assert!(rt; !same(&first, &summary_of(rt.alloc(), other)?));
    let other = "class C < D\n  sig { params(x: A).returns(B) }\n  def m(y)\n    1\n  end\nend\n";
    assert!(rt; !same(&first, &summary_of(rt.alloc(), other)?));
    assert!(rt; !same(&first, &Summary::empty(rt.alloc())?));
    Ok(())
}
