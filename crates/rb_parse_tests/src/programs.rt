//! Whole programs: which have a tree, and where the others are refused.

use crate::guards::{PROGRAMS, REFUSED_PROGRAMS};
use rb_decl::parse;
use rb_expr::ParseEnd;
use rb_lex::{LexEnd, lex};
use rb_tree::syntax::{Node, Tree, Visibility};
use srb_terms::ParamKind;
use srb_text::Text;
use std::alloc::Global;
use std::process::Abort;
use std::test::Fail;

// The tree of a source, or why there is none.
fn parsed(alloc: Global, source: &str) -> Result<Result<Tree, ParseEnd>, Fail> {
    if source.len() > 10_000 {
        return Err(Fail::from("long"));
    }
    match Text::from_bytes(alloc, source.as_bytes()) {
        Err(_) => Err(Fail::from("no text")),
        Ok(text) => match lex(alloc, &text) {
            Err(LexEnd::NoMemory) => Err(Fail::from("no memory")),
            Err(_) => Err(Fail::from("no tokens")),
            Ok(tokens) => Ok(parse(alloc, tokens.as_slice())),
        },
    }
}

fn told(alloc: Global, source: &str) -> Result<String, Fail> {
    match parsed(alloc, source)? {
        Ok(_) => Ok(String::from_str(alloc, "ok")?),
        Err(ParseEnd::Bad { at }) => Ok(format!(in alloc; "bad {at}")?),
        Err(ParseEnd::TooDeep { at }) => Ok(format!(in alloc; "deep {at}")?),
        Err(ParseEnd::NoMemory) => Err(Fail::from("no memory")),
    }
}

fn all_told<R: Abort + AllocGlobal>(rt: &R, cases: &[(&str, &str)]) -> Result<(), Fail> {
    for (source, expected) in cases {
        let answer = told(rt.alloc(), source)?;
        assert!(rt;
            answer.as_str() == *expected,
            "{source}: {}",
            answer.as_str()
        );
    }
    Ok(())
}

// `first`, then `middle` so often, then `last`.
fn repeated(
    alloc: Global,
    first: &str,
    middle: &str,
    count: usize,
    last: &str,
) -> Result<String, Fail> {
    let mut text = String::from_str(alloc, first)?;
    for _ in 0..count {
        text.push_str(middle)?;
    }
    text.push_str(last)?;
    Ok(text)
}

#[test]
fn classes_and_modules(rt: HostRuntime) -> Result<(), Fail> {
    all_told(
        &rt,
        &[
            ("", "ok"),
            (";", "ok"),
            ("\n\n# a comment\n", "ok"),
            ("nil", "ok"),
            ("class A", "bad 7"),
            ("class A\nend", "ok"),
            ("class A; end\nA = 2; x", "ok"),
            ("class A end", "bad 8"),
            ("class a; end", "bad 6"),
            ("class ::A; end", "bad 6"),
            ("class\nA; end", "bad 5"),
            ("class A.b; end", "bad 7"),
            ("class A::B; end", "ok"),
            ("class A::b; end", "bad 9"),
            ("class A; class B::C; end; end", "bad 16"),
            ("class A; class C < A::B; end; end", "ok"),
            ("class A < ::B; end", "ok"),
            ("class A < B::C::D; end", "ok"),
            ("class A <\nB; end", "ok"),
            ("class A < b; end", "bad 10"),
            ("class A < B C; end", "bad 12"),
            ("class A; end if x", "bad 13"),
            ("class A; end; end", "bad 14"),
            ("class A; def m; end", "bad 19"),
            ("class A; x = 1; def m; end; y; end", "ok"),
            ("class A\n  private\n  def m; end\nend", "ok"),
            ("module M; end", "ok"),
            ("module; end", "bad 6"),
            ("module M < A; end", "bad 9"),
            ("module A::B; end", "ok"),
            ("module M; module N::O; end; end", "bad 18"),
            ("module M; class A; X = 1; end; end", "ok"),
            ("end", "bad 0"),
            (")", "bad 0"),
        ],
    )
}

#[test]
fn methods(rt: HostRuntime) -> Result<(), Fail> {
    all_told(
        &rt,
        &[
            ("def m; end", "ok"),
            ("def m() end", "ok"),
            ("def m end", "bad 6"),
            ("def m(a) x if y end", "ok"),
            ("def m() if x then y end end", "ok"),
            ("def self.m(a)\nend", "ok"),
            ("def self\nend", "bad 8"),
            ("def self.m.n; end", "bad 10"),
            ("def a.b; end", "bad 5"),
            ("def if\nend", "bad 4"),
            ("def self.if\nend", "ok"),
            ("def m=(v)\nend", "ok"),
            ("def M v\nend", "ok"),
            ("def M=(v)\nend", "bad 5"),
            ("def ==(o)\nend", "ok"),
            ("def !=(o)\nend", "bad 4"),
            ("def [](i)\nend\ndef []=(i, v)\nend", "ok"),
            ("def -@\nend\ndef +@()\nend\ndef !\nend", "ok"),
            ("def <<(x)\nend\ndef <=>(x)\nend", "ok"),
            ("private def m; end", "ok"),
            ("private_class_method def self.m; end", "ok"),
            ("public def m; end\nprotected def n; end", "ok"),
            ("private\ndef m; end", "ok"),
            ("private :m", "ok"),
            ("private = 1", "ok"),
            ("private def", "bad 11"),
            ("foo def m; end", "bad 4"),
            ("private class A; end", "bad 8"),
            ("x = private def m; end", "bad 12"),
            ("private def m; end if x", "bad 19"),
            ("def m; end.foo", "bad 10"),
        ],
    )
}

#[test]
fn parameters(rt: HostRuntime) -> Result<(), Fail> {
    all_told(
        &rt,
        &[
            ("def m a, b\nend", "ok"),
            ("def m a\nend", "ok"),
            ("def m a,; b\nend", "bad 8"),
            ("def m a: 1\nend", "ok"),
            ("def m a:, b: 2\nend", "ok"),
            ("def m a:\nend", "bad 9"),
            ("def m a:;end", "ok"),
            ("def m(a, b = 1, c:, d: 2, &e)\nend", "ok"),
            ("def m(a = 1, b)\nend", "bad 14"),
            ("def m(a = 1, b\nend", "bad 14"),
            ("def m(a, a)\nend", "bad 9"),
            ("def m(a, a:)\nend", "bad 9"),
            ("def m(a, b = a, c: b, &c)\nend", "bad 23"),
            ("def m(k:, a)\nend", "bad 10"),
            ("def m(k:, a = 1)\nend", "bad 10"),
            ("def m(&b, a)\nend", "bad 8"),
            ("def m(&1)\nend", "bad 7"),
            ("def m(a,)\nend", "bad 8"),
            ("def m(\n a,\n b\n)\nend", "ok"),
            ("def m(a\n, b)\nend", "bad 8"),
            ("def m(a; b)\nend", "bad 9"),
            ("def m(; a ;)\nend", "ok"),
            ("def m(;)\nend", "ok"),
            ("def m(a b)\nend", "bad 8"),
            ("def m(a = )\nend", "bad 10"),
            ("def m(a = 1 2)\nend", "bad 12"),
            ("def m(a: 1, b:\n 2)\nend", "ok"),
            ("def m(if:)\nend", "ok"),
            ("def m(a = if x then 1 end)\nend", "ok"),
            ("def m(a, b = a + 1, c: b)\n  a\nend", "ok"),
            ("def m(a = [1, 2], b: {c: 3})\nend", "ok"),
            ("def m(@a)\nend", "bad 6"),
        ],
    )
}

#[test]
fn guards_of_programs(rt: HostRuntime) -> Result<(), Fail> {
    all_told(&rt, PROGRAMS)
}

#[test]
fn refused_guards_of_programs(rt: HostRuntime) -> Result<(), Fail> {
    all_told(&rt, REFUSED_PROGRAMS)
}

#[test]
fn declarations_stand_in_their_places(rt: HostRuntime) -> Result<(), Fail> {
    all_told(
        &rt,
        &[
            ("def m; def n; end; end", "bad 7"),
            ("def m; class A; end; end", "bad 7"),
            ("def m; A = 1; end", "bad 9"),
            ("if x\nclass A; end\nend", "bad 5"),
            ("f { class A; end }", "bad 4"),
            ("(def m; end)", "bad 1"),
            ("A = 1", "ok"),
            ("A = 1 if x", "ok"),
            ("class B; A = 1; end", "ok"),
            ("x = A = 1", "bad 6"),
            ("(A = 1)", "bad 3"),
            ("A += 1", "bad 2"),
            ("A::B = 1", "bad 5"),
            ("if x then A = 1 end", "bad 12"),
            ("x if A = 1", "bad 7"),
        ],
    )
}

#[test]
fn programs_nest_two_hundred_deep(rt: HostRuntime) -> Result<(), Fail> {
    let alloc = rt.alloc();
    let brackets = repeated(alloc, "", "[", 201, "")?;
    let open = brackets.as_str();
    let classes = repeated(alloc, "", "class A;", 201, "")?;
    let sums = repeated(alloc, "1", "+1", 201, "")?;
    let closed = repeated(alloc, "", "[", 200, "")?;
    let closed = repeated(alloc, closed.as_str(), "]", 200, "")?;
    let most = repeated(alloc, "1", "+1", 200, "")?;
    let mismatched = repeated(alloc, "", "[", 200, "class A")?;
    let refused = repeated(alloc, ") ", "[", 201, "")?;
    let after = repeated(alloc, "", "[", 201, " )")?;
    all_told(
        &rt,
        &[
            (open, "deep 200"),
            (closed.as_str(), "ok"),
            (classes.as_str(), "deep 1600"),
            (sums.as_str(), "deep 401"),
            (most.as_str(), "ok"),
            (mismatched.as_str(), "bad 200"),
            (refused.as_str(), "bad 0"),
            (after.as_str(), "deep 200"),
        ],
    )
}

const STOCK: &str = "# typed: strict
# A stock of named items.
class Stock
  extend T::Sig

  sig { returns(String) }
  attr_reader :name

  sig { params(name: String, items: T::Array[String]).void }
  def initialize(name, items)
    @name = name
    @items = T.let(items, T::Array[String])
    @count = T.let(0, Integer)
  end

  sig { params(item: String).returns(Integer) }
  def add(item)
    @items << item
    @count += 1
    @count
  end

  sig { params(min: Integer).returns(T::Array[String]) }
  def long(min)
    @items.select { |s| s.length >= min }.map { |s| \"#{@name}: #{s}\" }
  end

  sig { params(item: T.nilable(String)).returns(String) }
  def label(item)
    return \"none\" if item.nil?
    item.upcase
  end

  sig { void }
  def self.demo
    stock = Stock.new(\"a\", [\"x\"])
    stock.add \"yy\"
    puts stock.long(1)
  end
end
";

#[test]
fn usual_class(rt: HostRuntime) -> Result<(), Fail> {
    all_told(&rt, &[(STOCK, "ok")])
}

#[test]
fn trees_hold_what_is_written(rt: HostRuntime) -> Result<(), Fail> {
    let source = "class A::B < ::C\n  x\n  private def y=(v, w: 1)\n  end\nend";
    let Ok(program) = parsed(rt.alloc(), source)? else {
        return Err(Fail::from("no tree"));
    };
    let Node::Body { statements, span } = program.get() else {
        return Err(Fail::from("no body"));
    };
    assert!(&rt;
        span.start == 0 && span.end as usize == source.len(),
        "span of the body"
    );
    let Some(class) = statements.get(0) else {
        return Err(Fail::from("no statement"));
    };
    let Node::Class {
        path,
        superclass: Some(superclass),
        body,
        span,
    } = class.get()
    else {
        return Err(Fail::from("no class"));
    };
    let superclass = superclass.get();
    assert!(&rt;
        path.len() == 2 && superclass.top && superclass.path.len() == 1,
        "names"
    );
    assert!(&rt;
        superclass.span.start == 13 && superclass.span.end == 16,
        "superclass"
    );
    assert!(&rt;
        span.start == 0 && span.end as usize == source.len(),
        "span of the class"
    );
    let Node::Body { statements, span } = body.get() else {
        return Err(Fail::from("no body of the class"));
    };
    assert!(&rt;
        statements.len() == 2 && span.start == 19 && span.end == 52,
        "body"
    );
    let Some(method) = statements.get(1) else {
        return Err(Fail::from("no method"));
    };
    let Node::Def {
        visibility,
        own,
        name,
        name_span,
        parameters,
        span,
        ..
    } = method.get()
    else {
        return Err(Fail::from("no def"));
    };
    assert!(&rt; *visibility == Some(Visibility::Private) && !*own, "head");
    assert!(&rt;
        name.as_str() == "y=" && name_span.start == 35 && name_span.end == 37,
        "name"
    );
    assert!(&rt; span.start == 23 && span.end == 52, "span of the method");
    assert!(&rt; parameters.len() == 2, "parameters");
    let Some(keyword) = parameters.get(1) else {
        return Err(Fail::from("no keyword"));
    };
    assert!(&rt;
        keyword.kind == ParamKind::KeyOptional && keyword.name.as_str() == "w",
        "keyword"
    );
    assert!(&rt;
        keyword.span.start == 41 && keyword.span.end == 43 && keyword.default.is_some(),
        "place and default of the keyword"
    );
    Ok(())
}

#[test]
fn methods_hold_their_guards(rt: HostRuntime) -> Result<(), Fail> {
    let source = "def m; 1; rescue A, B => e; 2; else; 3; ensure; 4; end";
    let Ok(program) = parsed(rt.alloc(), source)? else {
        return Err(Fail::from("no tree"));
    };
    let Node::Body { statements, .. } = program.get() else {
        return Err(Fail::from("no body"));
    };
    let Some(method) = statements.get(0) else {
        return Err(Fail::from("no statement"));
    };
    let Node::Def { guarded, span, .. } = method.get() else {
        return Err(Fail::from("no def"));
    };
    assert!(&rt; span.start == 0 && span.end == 54, "span of the method");
    let guarded = guarded.get();
    let body = guarded.body.span();
    assert!(&rt; body.start == 7 && body.end == 8, "body");
    assert!(&rt;
        guarded.otherwise.is_some() && guarded.ensure.is_some() && guarded.rescues.len() == 1,
        "parts"
    );
    let Some(clause) = guarded.rescues.get(0) else {
        return Err(Fail::from("no clause"));
    };
    let Some(variable) = &clause.variable else {
        return Err(Fail::from("no variable"));
    };
    assert!(&rt;
        clause.patterns.len() == 2 && variable.name.as_str() == "e",
        "patterns and variable"
    );
    assert!(&rt;
        variable.span.start == 25 && variable.span.end == 26,
        "place of the variable"
    );
    Ok(())
}
