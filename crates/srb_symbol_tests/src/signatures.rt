//! The errors of signatures in short programs.

use rb_decl::parse;
use rb_lex::lex;
use srb_signatures::signature_errors;
use srb_terms::{Diag, Items};
use srb_text::Text;
use std::alloc::{AllocError, Global};

/// The errors of a program, where methods need signatures or not; none where it can't be read.
fn errors_of(alloc: Global, needed: bool, text: &str) -> Result<Items<Diag>, AllocError> {
    if text.len() > 10_000 {
        return Ok(Items::new(alloc));
    }
    let Ok(text) = Text::from_bytes(alloc, text.as_bytes()) else {
        return Ok(Items::new(alloc));
    };
    let Ok(tokens) = lex(alloc, &text) else {
        return Ok(Items::new(alloc));
    };
    let Ok(tree) = parse(alloc, tokens.as_slice()) else {
        return Ok(Items::new(alloc));
    };
    signature_errors(alloc, needed, &tree)
}

/// How many signatures are malformed.
fn count(alloc: Global, text: &str) -> Result<usize, AllocError> {
    Ok(errors_of(alloc, false, text)?.len())
}

#[test]
fn well_formed_signatures_have_no_error(rt: HostRuntime) -> Result<(), AllocError> {
    for text in [
        "class A\n  sig { void }\n  def f\n  end\nend\n",
        "class A\n  sig { returns(A) }\n  private def f\n  end\nend\n",
        "class A\n  sig { returns(A).params(a: A, b: A) }\n  def f(b, a)\n  end\nend\n",
        "class A\n  sig { abstract.override.overridable.checked(:x).params(a: A).void }\n  def f(a)\n  end\nend\n",
        "module A\n  sig { params(a: A).returns A }\n  def self.f(a)\n  end\nend\n",
        "class A\n  sig { void }\n  attr_reader :x\n  sig { returns(A) }\n  attr_accessor :y, :z\nend\n",
        "class A\n  sig { params(x: A).returns(A) }\n  attr_writer :x\nend\n",
        "class A\n  sig { params(x: A).void }\n  attr_reader x\nend\n",
        "class A\n  sig { returns(1) }\n  def f\n  end\nend\n",
        "sig { void.void }\ndef f\nend\n",
        "class A\n  sig { void } if a\nend\n",
    ] {
        assert_eq!(rt; count(rt.alloc(), text)?, 0);
    }
    Ok(())
}

#[test]
fn malformed_signatures_have_one_error_each(rt: HostRuntime) -> Result<(), AllocError> {
    for text in [
        "class A\n  sig { void.void }\n  def f\n  end\nend\n",
        "class A\n  sig { params(a: A) }\n  def f(a)\n  end\nend\n",
        "class A\n  sig { void }\n  def f(a)\n  end\nend\n",
        "class A\n  sig { params(a: A, b: A).void }\n  def f(a)\n  end\nend\n",
        "class A\n  sig { params(a: A, a: A).void }\n  def f(a)\n  end\nend\n",
        "class A\n  sig { params(A).void }\n  def f(a)\n  end\nend\n",
        "class A\n  sig { returns(A, A) }\n  def f\n  end\nend\n",
        "class A\n  sig { abstract.abstract.void }\n  def f\n  end\nend\n",
        "class A\n  sig { final.void }\n  def f\n  end\nend\n",
        "class A\n  sig { void; void }\n  def f\n  end\nend\n",
        "class A\n  sig\n  def f\n  end\nend\n",
        "class A\n  sig { x }\n  attr_reader x\nend\n",
        "class A\n  sig { void.void }\n  attr_accessor\nend\n",
    ] {
        assert_eq!(rt; count(rt.alloc(), text)?, 1);
    }
    Ok(())
}

#[test]
fn what_follows_a_signature_counts(rt: HostRuntime) -> Result<(), AllocError> {
    for text in [
        "class A\n  sig { void }\nend\n",
        "class A\n  sig { void }\n  X = 1\n  def f\n  end\nend\n",
        "class A\n  sig { void }\n  sig { void }\n  def f\n  end\nend\n",
        "class A\n  sig { void }\n  include B\n  def f\n  end\nend\n",
        "module A\n  class B\n    sig { void }\n  end\n  def f\n  end\nend\n",
        "class A\n  sig { params().returns(A) }\n  attr_reader :x\nend\n",
        "class A\n  sig { returns(A) }\n  attr_writer :x\nend\n",
        "class A\n  sig { params(x: A).void }\n  attr_writer :x, :y\nend\n",
        "class A\n  sig { void }\n  attr_accessor :x\nend\n",
        "class A\n  sig { params(x: A).returns(A) }\n  attr_accessor :x\nend\n",
    ] {
        assert_eq!(rt; count(rt.alloc(), text)?, 1);
    }
    Ok(())
}

#[test]
fn an_error_stands_at_the_whole_statement(rt: HostRuntime) -> Result<(), AllocError> {
    let errors = errors_of(rt.alloc(), false, "class A\n  sig { void }\nend\n")?;
    let Some(error) = errors.get(0) else {
        assert!(rt; false);
        return Ok(());
    };
    assert!(rt; error.span.start == 10 && error.span.end == 22 && error.number == 5003);
    assert_eq!(rt; error.text.as_str(), "malformed signature");
    Ok(())
}

/// The texts of a program's errors where methods need signatures, each ended by a `;`.
fn shown(alloc: Global, text: &str) -> Result<String, AllocError> {
    let errors = errors_of(alloc, true, text)?;
    let mut all = String::new(alloc);
    for error in errors.as_slice() {
        all.push_str(error.text.as_str())?;
        all.push_str(";")?;
    }
    Ok(all)
}

#[test]
fn methods_need_signatures(rt: HostRuntime) -> Result<(), AllocError> {
    for (text, wanted) in [
        ("def a\nend\n", "method a has no sig;"),
        (
            "class A\n  def self.c\n  end\nend\n",
            "method c has no sig;",
        ),
        (
            "class A\n  private def +(o)\n  end\nend\n",
            "method + has no sig;",
        ),
        ("class A\n  sig { void }\n  def f\n  end\nend\n", ""),
        (
            "class A\n  sig { void.void }\n  def f\n  end\nend\n",
            "malformed signature;",
        ),
        (
            "class A\n  attr_reader :a, :b\n  attr_writer :c\nend\n",
            "method a has no sig;method b has no sig;method c= has no sig;",
        ),
        (
            "module A\n  attr_accessor :d\nend\n",
            "method d has no sig;method d= has no sig;",
        ),
        ("attr_reader :a\n", ""),
    ] {
        let all = shown(rt.alloc(), text)?;
        assert_eq!(rt; all.as_str(), wanted);
    }
    Ok(())
}
