//! Expressions and statements: their trees, and where they are refused.

use crate::guards::{EXPRESSIONS, REFUSED_EXPRESSIONS, USES};
use rb_expr::{ParseEnd, expr, tern};
use rb_lex::lex;
use rb_tree::syntax::Tree;
use rb_tree::token::Token;
use srb_terms::NoMemory;
use srb_text::Text;
use std::alloc::Global;
use std::process::Abort;
use std::test::Fail;

// Adds a word of a printed value: without the names of boxes and lists, in round brackets.
fn add(out: &mut String, word: &str) -> Result<(), NoMemory> {
    let unboxed = word.strip_suffix("Boxed").unwrap_or(word);
    for c in unboxed.strip_suffix("Items").unwrap_or(unboxed).chars() {
        match c {
            '{' => out.push('(')?,
            '}' => {
                if out.as_str().ends_with(',') {
                    out.pop();
                }
                out.push(')')?;
            }
            _ => out.push(c)?,
        }
    }
    Ok(())
}

// A printed value without places, the names of fields and blanks.
fn plain(alloc: Global, printed: &str) -> Result<String, NoMemory> {
    let mut out = String::new(alloc);
    let mut in_span = false;
    for word in printed.split(' ') {
        if in_span {
            in_span = !word.starts_with('}');
        } else if word == "Span" {
            in_span = true;
        } else if !word.ends_with(':') {
            add(&mut out, word)?;
        }
    }
    Ok(out)
}

fn tokens_of(alloc: Global, source: &str) -> Result<Vec<Token>, Fail> {
    if source.len() > 10_000 {
        return Err(Fail::from("long"));
    }
    let Ok(text) = Text::from_bytes(alloc, source.as_bytes()) else {
        return Err(Fail::from("no text"));
    };
    match lex(alloc, &text) {
        Ok(tokens) => Ok(tokens),
        Err(_) => Err(Fail::from("no tokens")),
    }
}

// A printed tree, or, where tokens are left, the place of the next.
fn shown(alloc: Global, tokens: &[Token], tree: &Tree, place: usize) -> Result<String, Fail> {
    match tokens.get(place) {
        Some(token) => Ok(format!(in alloc; "left {}", token.span.start)?),
        None => {
            let printed = format!(in alloc; "{tree:?}")?;
            Ok(plain(alloc, printed.as_str())?)
        }
    }
}

fn refused(alloc: Global, end: ParseEnd) -> Result<String, Fail> {
    match end {
        ParseEnd::Bad { at } => Ok(format!(in alloc; "bad {at}")?),
        ParseEnd::TooDeep { at } => Ok(format!(in alloc; "deep {at}")?),
        ParseEnd::NoMemory => Err(Fail::from("no memory")),
    }
}

// The tree of the one statement that these tokens are, or of the body, or where they are refused.
fn told(alloc: Global, source: &str) -> Result<String, Fail> {
    let tokens = tokens_of(alloc, source)?;
    match expr(alloc, tokens.as_slice(), 0, 0, 0, true) {
        Ok((tree, place)) => shown(alloc, tokens.as_slice(), &tree, place),
        Err(end) => refused(alloc, end),
    }
}

fn all_told<R: Abort + AllocGlobal>(rt: &R, rows: &[(&str, &str)]) -> Result<(), Fail> {
    for (source, expected) in rows {
        let answer = told(rt.alloc(), source)?;
        let answer = answer.as_str();
        let one = answer
            .strip_prefix("(Body(([(")
            .unwrap_or(answer)
            .strip_suffix(")])))")
            .unwrap_or(answer);
        assert!(rt; one == *expected, "{source}: {one}");
    }
    Ok(())
}

const OPERATORS: &[(&str, &str)] = &[
    (
        "a + b * c",
        "Binary(Plus,(Name(a)),(Binary(Star,(Name(b)),(Name(c)))))",
    ),
    (
        "a - b - c",
        "Binary(Minus,(Binary(Minus,(Name(a)),(Name(b)))),(Name(c)))",
    ),
    // `ay` and `bZ` have one slot among the words that the lexer keeps
    (
        "ay - bZ - ay - bZ",
        "Binary(Minus,(Binary(Minus,(Binary(Minus,(Name(ay)),(Name(bZ)))),(Name(ay)))),(Name(bZ)))",
    ),
    (
        "a ** b ** c",
        "Binary(Power,(Name(a)),(Binary(Power,(Name(b)),(Name(c)))))",
    ),
    (
        "-2 ** 2",
        "Unary(Minus,(Binary(Power,(Whole(None,2)),(Whole(None,2)))))",
    ),
    (
        "-2.abs",
        "Post((Whole(Some(Minus),2)),([Call(Plain,abs,None,None)]))",
    ),
    (
        "2 ** -1 ** 2",
        "Binary(Power,(Whole(None,2)),(Unary(Minus,(Binary(Power,(Whole(None,1)),(Whole(None,2)))))))",
    ),
    (
        "+2.5 ** 2",
        "Binary(Power,(Float(Some(Plus),2.5)),(Whole(None,2)))",
    ),
    ("! -2", "Unary(Not,(Whole(Some(Minus),2)))"),
    ("- - 2", "Unary(Minus,(Unary(Minus,(Whole(None,2)))))"),
    (
        "a < b < c",
        "Binary(Less,(Binary(Less,(Name(a)),(Name(b)))),(Name(c)))",
    ),
    (
        "a == b && c != d || e",
        "Binary(Or,(Binary(And,(Binary(Equal,(Name(a)),(Name(b)))),(Binary(NotEqual,(Name(c)),(Name(d)))))),(Name(e)))",
    ),
    (
        "a | b & c << d ^ e",
        "Binary(Caret,(Binary(Pipe,(Name(a)),(Binary(Ampersand,(Name(b)),(Binary(ShiftLeft,(Name(c)),(Name(d)))))))),(Name(e)))",
    ),
    (
        "a ? b : c ? d : e",
        "Conditional((Name(a)),(Name(b)),(Conditional((Name(c)),(Name(d)),(Name(e)))))",
    ),
    ("!a == b", "Binary(Equal,(Unary(Not,(Name(a)))),(Name(b)))"),
    ("!a if b", "Modified((Unary(Not,(Name(a)))),If,(Name(b)))"),
    ("f - x", "Binary(Minus,(Name(f)),(Name(x)))"),
];

const ASSIGNMENTS: &[(&str, &str)] = &[
    (
        "x = y = 1",
        "Assign((Name(x)),(Assign((Name(y)),(Whole(None,1)))))",
    ),
    (
        "x += y ||= 2",
        "OperatorAssign((Name(x)),Plus,(OperatorAssign((Name(y)),Or,(Whole(None,2)))))",
    ),
    (
        "X = 1 if a",
        "Modified((Assign((Constant(X)),(Whole(None,1)))),If,(Name(a)))",
    ),
    (
        "@a = f x",
        "Assign((InstanceVariable(a)),(Command((Name(f)),([Positional((Name(x)))]),None)))",
    ),
    (
        "a.b = c",
        "Assign((Post((Name(a)),([Call(Plain,b,None,None)]))),(Name(c)))",
    ),
    (
        "a[1] += 2",
        "OperatorAssign((Post((Name(a)),([Index(([Positional((Whole(None,1)))]))]))),Plus,(Whole(None,2)))",
    ),
    (
        "self.x = 1",
        "Assign((Post((SelfWord()),([Call(Plain,x,None,None)]))),(Whole(None,1)))",
    ),
    (
        "a = b if c while d",
        "Modified((Modified((Assign((Name(a)),(Name(b)))),If,(Name(c)))),While,(Name(d)))",
    ),
];

const CALLS: &[(&str, &str)] = &[
    (
        "f x, y: 1, &z",
        "Command((Name(f)),([Positional((Name(x))),Keyword(y,(Whole(None,1))),Block((Name(z)))]),None)",
    ),
    (
        "a&.b c",
        "Command((Post((Name(a)),([Call(Safe,b,None,None)]))),([Positional((Name(c)))]),None)",
    ),
    (
        "yield x",
        "Command((Yield(None)),([Positional((Name(x)))]),None)",
    ),
    ("super(x)", "Super(Some(([Positional((Name(x)))])))"),
    ("f(;a;)", "Call(f,Some(([Positional((Name(a)))])),None)"),
    (
        "f !x",
        "Command((Name(f)),([Positional((Unary(Not,(Name(x)))))]),None)",
    ),
    (
        "x[1,]",
        "Post((Name(x)),([Index(([Positional((Whole(None,1)))]))]))",
    ),
    ("x[&b,]", "Post((Name(x)),([Index(([Block((Name(b)))]))]))"),
    (
        "f() [1]",
        "Post((Call(f,Some(([])),None)),([Index(([Positional((Whole(None,1)))]))]))",
    ),
    (
        "::A::B.c",
        "Post((TopConstant(A)),([Constant(B),Call(Plain,c,None,None)]))",
    ),
    (
        "a.class.if",
        "Post((Name(a)),([Call(Plain,class,None,None),Call(Plain,if,None,None)]))",
    ),
    ("f {}", "Call(f,None,Some((Block(([]),(Body(([])))))))"),
    (
        "f { |a, b| c }",
        "Call(f,None,Some((Block(([PlacedName(a),PlacedName(b)]),(Body(([(Name(c))])))))))",
    ),
    (
        "f(1) do |x| y end",
        "Call(f,Some(([Positional((Whole(None,1)))])),Some((Block(([PlacedName(x)]),(Body(([(Name(y))])))))))",
    ),
    (
        "f g do y end",
        "Command((Name(f)),([Positional((Name(g)))]),Some((Block(([]),(Body(([(Name(y))])))))))",
    ),
    (
        "a.b(1)&.d { e }",
        "Post((Name(a)),([Call(Plain,b,Some(([Positional((Whole(None,1)))])),None),Call(Safe,d,None,Some((Block(([]),(Body(([(Name(e))])))))))]))",
    ),
    (
        "while f do y end",
        "While(Positive,(Name(f)),(Body(([(Name(y))]))))",
    ),
    (
        "until (f do y end) do z end",
        "While(Negative,(Parens((Body(([(Call(f,None,Some((Block(([]),(Body(([(Name(y))]))))))))]))))),(Body(([(Name(z))]))))",
    ),
    (
        "while a b do end",
        "While(Positive,(Command((Name(a)),([Positional((Name(b)))]),None)),(Body(([]))))",
    ),
    (
        "x while f do y end",
        "Modified((Name(x)),While,(Call(f,None,Some((Block(([]),(Body(([(Name(y))])))))))))",
    ),
];

const LITERALS_AND_BRANCHES: &[(&str, &str)] = &[
    ("[1, 2,]", "Array(([(Whole(None,1)),(Whole(None,2))]))"),
    (
        "{a: 1, \"b\" => :c,}",
        "Hash(([Label(a,(Whole(None,1))),Arrow((Text(([Words(b)]))),(Symbol(c)))]))",
    ),
    (
        "\"a#{b; c}d#{}e\"",
        "Text(([Words(a),Code((Body(([(Name(b)),(Name(c))])))),Words(d),Code((Body(([])))),Words(e)]))",
    ),
    ("nil; true; false", "Nil()),(True()),(False()"),
    (
        "if a; then b end",
        "If(Positive,(Name(a)),(Body(([(Name(b))]))),([]),None)",
    ),
    (
        "if a\nb\nelsif c\nd\nelse\ne\nend",
        "If(Positive,(Name(a)),(Body(([(Name(b))]))),([Arm((Name(c)),(Body(([(Name(d))]))))]),Some((Body(([(Name(e))])))))",
    ),
    (
        "unless a then b else c end",
        "If(Negative,(Name(a)),(Body(([(Name(b))]))),([]),Some((Body(([(Name(c))])))))",
    ),
    (
        "case a when 1, 2 then b else c end",
        "Case(Some((Name(a))),([When(([(Whole(None,1)),(Whole(None,2))]),(Body(([(Name(b))]))))]),Some((Body(([(Name(c))])))))",
    ),
    (
        "case\nwhen a\nb\nend",
        "Case(None,([When(([(Name(a))]),(Body(([(Name(b))]))))]),None)",
    ),
    ("return if x", "Modified((Jump(Return,None)),If,(Name(x)))"),
    (
        "break x = 1",
        "Jump(Break,Some((Assign((Name(x)),(Whole(None,1))))))",
    ),
    ("next -x", "Jump(Next,Some((Unary(Minus,(Name(x))))))"),
    ("()", "Parens((Body(([]))))"),
];

const REFUSED_PLACES: &[(&str, &str)] = &[
    ("! -2 ** 2", "bad 5"),
    ("+ - 2", "bad 4"),
    ("+ -x", "bad 3"),
    ("a == b == c", "left 7"),
    ("a <=> b != c", "left 8"),
    ("a ? b", "bad 5"),
    ("a ? b c", "bad 6"),
    ("a +", "bad 3"),
    ("a + )", "bad 4"),
    ("a.", "bad 2"),
    ("a.B", "bad 2"),
    ("a::b", "bad 3"),
    ("(X = 1)", "bad 3"),
    ("x = X = 1", "left 6"),
    ("X += 1", "left 2"),
    ("A::B = 1", "left 5"),
    ("a&.b = c", "left 5"),
    ("a + b = c", "left 6"),
    ("!a = b", "left 3"),
    ("f X = 1", "left 4"),
    ("f(x = 1)", "bad 4"),
    ("x = return", "bad 4"),
    ("f x y", "left 4"),
    ("f x, &z, y", "left 7"),
    ("f y: 1, x", "bad 8"),
    ("f(y: 1, x)", "bad 8"),
    ("f(&z, x)", "bad 4"),
    ("f(x,)", "bad 4"),
    ("f(,)", "bad 2"),
    ("f(a b)", "bad 4"),
    ("f(a;b)", "bad 4"),
    ("f a:", "bad 4"),
    ("f(", "bad 2"),
    ("x[]", "bad 2"),
    ("x[&b,c]", "bad 5"),
    ("1 [2]", "left 2"),
    ("self [2]", "left 5"),
    ("[,]", "bad 1"),
    ("[1", "bad 2"),
    ("[a: 1]", "bad 1"),
    ("{a: 1, b}", "bad 8"),
    ("{a, b}", "bad 2"),
    ("f { |a, a| c }", "bad 8"),
    ("f { |1| c }", "bad 5"),
    ("f {", "bad 3"),
    ("f(&b) {}", "left 6"),
    ("f x, &b do end", "left 8"),
    ("x = f(&b) do end", "left 10"),
    ("yield {}", "left 6"),
    ("super(x) do end", "left 9"),
    ("f a do end.b", "left 10"),
    ("while f do y end do z end", "left 17"),
    ("while a", "bad 7"),
    ("while a b do", "bad 12"),
    ("if a b c end", "bad 7"),
    ("if a then b", "bad 11"),
    ("if x if y", "bad 5"),
    ("unless a then b elsif c end", "bad 16"),
    ("case a end", "bad 7"),
    ("case a\nelse b end", "bad 7"),
    ("case a when then b end", "bad 12"),
    ("a )", "left 2"),
    ("a; b; class A", "left 6"),
    ("private def m", "left 8"),
    (")", "left 0"),
    ("a if", "bad 4"),
];

#[test]
fn operators(rt: HostRuntime) -> Result<(), Fail> {
    all_told(&rt, OPERATORS)
}

#[test]
fn assignments(rt: HostRuntime) -> Result<(), Fail> {
    all_told(&rt, ASSIGNMENTS)
}

#[test]
fn calls(rt: HostRuntime) -> Result<(), Fail> {
    all_told(&rt, CALLS)
}

#[test]
fn literals_and_branches(rt: HostRuntime) -> Result<(), Fail> {
    all_told(&rt, LITERALS_AND_BRANCHES)
}

#[test]
fn refused_places(rt: HostRuntime) -> Result<(), Fail> {
    all_told(&rt, REFUSED_PLACES)
}

#[test]
fn guards(rt: HostRuntime) -> Result<(), Fail> {
    all_told(&rt, EXPRESSIONS)
}

#[test]
fn uses_of_guards(rt: HostRuntime) -> Result<(), Fail> {
    all_told(&rt, USES)
}

#[test]
fn refused_guards(rt: HostRuntime) -> Result<(), Fail> {
    all_told(&rt, REFUSED_EXPRESSIONS)
}

fn repeated(
    alloc: Global,
    count: usize,
    first: &str,
    middle: &str,
    last: &str,
) -> Result<String, Fail> {
    let mut source = String::new(alloc);
    for _ in 0..count {
        source.push_str(first)?;
    }
    source.push_str(middle)?;
    for _ in 0..count {
        source.push_str(last)?;
    }
    Ok(source)
}

const NESTED: &[(&str, &str, &str)] = &[
    ("(", "1", ")"),
    ("[", "1", "]"),
    ("f {", "1", "}"),
    ("if a then ", "1", " end"),
    ("case when a then ", "1", " end"),
    ("begin ", "1", " end"),
    ("begin;", "1", ";rescue;end"),
    ("!", "a", ""),
    ("- ", "a", ""),
    ("a = ", "1", ""),
    ("a ** ", "1", ""),
];

// 200 forms in one another have a tree, and the 201st is too deep.
#[test]
fn two_hundred_levels(rt: HostRuntime) -> Result<(), Fail> {
    for (first, middle, last) in NESTED {
        let source = repeated(rt.alloc(), 200, first, middle, last)?;
        let answer = told(rt.alloc(), source.as_str())?;
        assert!(rt; answer.as_str().starts_with("(Body("), "{source}");
        let source = repeated(rt.alloc(), 201, first, middle, last)?;
        let answer = told(rt.alloc(), source.as_str())?;
        assert!(rt; answer.as_str().starts_with("deep "), "{source}");
    }
    Ok(())
}

// After how many tokens an expression ends that begins at the token `from`.
fn ends_after(alloc: Global, tokens: &[Token], from: usize) -> Result<usize, ParseEnd> {
    if from > tokens.len() {
        return Err(ParseEnd::NoMemory);
    }
    match tern(alloc, tokens, from, 0, 0) {
        Ok((_tree, place)) => Ok(place),
        Err(end) => Err(end),
    }
}

#[test]
fn an_expression_ends_before_a_modifier(rt: HostRuntime) -> Result<(), Fail> {
    let tokens = tokens_of(rt.alloc(), "a; b + c if d")?;
    assert!(rt; ends_after(rt.alloc(), tokens.as_slice(), 2) == Ok(5));
    assert!(rt; ends_after(rt.alloc(), tokens.as_slice(), 1) == Err(ParseEnd::Bad { at: 1 }));
    Ok(())
}
