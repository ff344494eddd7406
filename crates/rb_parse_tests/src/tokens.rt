//! Tokens: which a short text has, with their places, where others are refused, and the levels that texts ask for.

use rb_lex::{LexEnd, Lexer, level, lex};
use rb_tree::token::{Token, TokenKind};
use srb_terms::Level;
use srb_text::Text;
use std::alloc::Global;
use std::process::Abort;
use std::test::Fail;

fn words_of(kind: &TokenKind) -> &str {
    match kind {
        TokenKind::Identifier { words } => words.as_str(),
        TokenKind::Constant { words } => words.as_str(),
        TokenKind::InstanceVariable { words } => words.as_str(),
        TokenKind::Label { words } => words.as_str(),
        TokenKind::Symbol { words } => words.as_str(),
        TokenKind::Whole { words } => words.as_str(),
        TokenKind::Float { words } => words.as_str(),
        TokenKind::Text { words } => words.as_str(),
        _ => "",
    }
}

// The shapes and words of tokens, each with a `;` after it.
fn spelled(alloc: Global, tokens: &[Token]) -> Result<String, Fail> {
    let mut out = String::new(alloc);
    for token in tokens {
        let words = words_of(&token.kind);
        out.push_str(format!(in alloc; "{:?} {words}; ", token.kind.shape())?.as_str())?;
    }
    Ok(out)
}

fn refused(alloc: Global, end: LexEnd) -> Result<String, Fail> {
    match end {
        LexEnd::Bad { at } => Ok(format!(in alloc; "bad {at}")?),
        LexEnd::Outside { at } => Ok(format!(in alloc; "outside {at}")?),
        LexEnd::NoMemory => Err(Fail::from("no memory")),
    }
}

fn text_of(alloc: Global, source: &str) -> Result<Text, Fail> {
    if source.len() > 1000 {
        return Err(Fail::from("long"));
    }
    match Text::from_bytes(alloc, source.as_bytes()) {
        Err(_) => Err(Fail::from("no text")),
        Ok(text) => Ok(text),
    }
}

// What `lex` answers: the tokens, or the refusal.
fn told(alloc: Global, source: &str) -> Result<String, Fail> {
    match lex(alloc, &text_of(alloc, source)?) {
        Err(end) => refused(alloc, end),
        Ok(tokens) => spelled(alloc, tokens.as_slice()),
    }
}

// What a lexer answers that read other texts before.
fn told_by(alloc: Global, lexer: &mut Lexer, source: &str) -> Result<String, Fail> {
    match lexer.lex(alloc, &text_of(alloc, source)?) {
        Err(end) => refused(alloc, end),
        Ok(()) => spelled(alloc, lexer.tokens()),
    }
}

fn all_told<R: Abort + AllocGlobal>(rt: &R, cases: &[(&str, &str)]) -> Result<(), Fail> {
    let mut lexer = Lexer::new(rt.alloc());
    for (source, expected) in cases {
        let again = told_by(rt.alloc(), &mut lexer, source)?;
        assert!(rt;
            again.as_str() == *expected,
            "{source}, with a lexer that was used: {}",
            again.as_str()
        );
        let answer = told(rt.alloc(), source)?;
        assert!(rt;
            answer.as_str() == *expected,
            "{source}: {}",
            answer.as_str()
        );
    }
    Ok(())
}

#[test]
fn names_and_numbers(rt: HostRuntime) -> Result<(), Fail> {
    all_told(
        &rt,
        &[
            (
                "foo bar? baz! _x1",
                "Identifier foo; Identifier bar?; Identifier baz!; Identifier _x1; ",
            ),
            ("a!=b", "Identifier a; NotEqual ; Identifier b; "),
            ("a?=1", "outside 1"),
            ("Foo::Bar", "Constant Foo; Scope ; Constant Bar; "),
            (
                "@x=@y1",
                "InstanceVariable x; Assign ; InstanceVariable y1; ",
            ),
            ("a:1", "Label a; Whole 1; "),
            (
                "if: Foo: a?: b",
                "Label if; Label Foo; Label a?; Identifier b; ",
            ),
            ("a::B", "Identifier a; Scope ; Constant B; "),
            (
                "x ? a : b",
                "Identifier x; Question ; Identifier a; Colon ; Identifier b; ",
            ),
            (
                ":a; :B; :c?; :d=; :class; @end",
                "Symbol a; Separator ; Symbol B; Separator ; Symbol c?; Separator ; Symbol d=; Separator ; Symbol class; Separator ; InstanceVariable end; ",
            ),
            (":a==b", "Symbol a; Equal ; Identifier b; "),
            (":a=>1", "Symbol a; Arrow ; Whole 1; "),
            (":a=1", "Symbol a=; Whole 1; "),
            (
                "0 17 1_000 0x1F 0b10 0o17",
                "Whole 0; Whole 17; Whole 1_000; Whole 0x1F; Whole 0b10; Whole 0o17; ",
            ),
            (
                "1.5 0.25 1.5e3 1.5e-3 1_0.5_0",
                "Float 1.5; Float 0.25; Float 1.5e3; Float 1.5e-3; Float 1_0.5_0; ",
            ),
            ("1.to_s", "Whole 1; Dot ; Identifier to_s; "),
            (
                "1_a 0_1",
                "Whole 1; Identifier _a; Whole 0; Identifier _1; ",
            ),
            (
                "340282366920938463463374607431768211455",
                "Whole 340282366920938463463374607431768211455; ",
            ),
            ("340282366920938463463374607431768211456", "outside 0"),
            (
                "0xffffffffffffffffffffffffffffffff",
                "Whole 0xffffffffffffffffffffffffffffffff; ",
            ),
            ("0x1_00000000000000000000000000000000", "outside 0"),
            ("01", "outside 0"),
            ("1a", "outside 0"),
            ("0x", "outside 0"),
            ("0b12", "Whole 0b1; Whole 2; "),
            ("1.5e", "outside 0"),
            ("1e5", "outside 0"),
        ],
    )
}

#[test]
fn operators(rt: HostRuntime) -> Result<(), Fail> {
    all_told(
        &rt,
        &[
            (
                "1+1-1*1/1%1**1==1!=1===1<=>1<1>1<=1>=1&&1||1&1|1^1<<1>>1=1=>1+=1-=1*=1/=1%=1**=1||=1&&=1|=1&=1^=1<<=1>>=1",
                "Whole 1; Plus ; Whole 1; Minus ; Whole 1; Star ; Whole 1; Slash ; Whole 1; Percent ; Whole 1; Power ; Whole 1; Equal ; Whole 1; NotEqual ; Whole 1; CaseEqual ; Whole 1; Compare ; Whole 1; Less ; Whole 1; Greater ; Whole 1; LessEqual ; Whole 1; GreaterEqual ; Whole 1; AndAnd ; Whole 1; OrOr ; Whole 1; Ampersand ; Whole 1; Pipe ; Whole 1; Caret ; Whole 1; ShiftLeft ; Whole 1; ShiftRight ; Whole 1; Assign ; Whole 1; Arrow ; Whole 1; PlusAssign ; Whole 1; MinusAssign ; Whole 1; StarAssign ; Whole 1; SlashAssign ; Whole 1; PercentAssign ; Whole 1; PowerAssign ; Whole 1; OrAssign ; Whole 1; AndAssign ; Whole 1; PipeAssign ; Whole 1; AmpersandAssign ; Whole 1; CaretAssign ; Whole 1; ShiftLeftAssign ; Whole 1; ShiftRightAssign ; Whole 1; ",
            ),
            (
                "! ~a&.b.c,[1](){}",
                "Not ; Tilde ; Identifier a; SafeDot ; Identifier b; Dot ; Identifier c; Comma ; OpenBracket ; Whole 1; CloseBracket ; OpenParen ; CloseParen ; OpenBrace ; CloseBrace ; ",
            ),
            (
                "def -@; def +@; def []; def []=; def <=>",
                "Def ; UnaryMinus ; Separator ; Def ; UnaryPlus ; Separator ; Def ; Index ; Separator ; Def ; IndexAssign ; Separator ; Def ; Compare ; ",
            ),
            (
                "-@x; a[]",
                "Minus ; InstanceVariable x; Separator ; Identifier a; OpenBracket ; CloseBracket ; ",
            ),
            (
                "def self.[]=(a)",
                "Def ; SelfWord ; Dot ; IndexAssign ; OpenParen ; Identifier a; CloseParen ; ",
            ),
            (
                "def /(a)",
                "Def ; Slash ; OpenParen ; Identifier a; CloseParen ; ",
            ),
        ],
    )
}

#[test]
fn words(rt: HostRuntime) -> Result<(), Fail> {
    all_told(
        &rt,
        &[
            (
                "class module def end if elsif else unless while until do case when then return break next self nil true false yield super begin rescue ensure",
                "Class ; Module ; Def ; End ; If ; Elsif ; Else ; Unless ; While ; Until ; Do ; Case ; When ; Then ; Return ; Break ; Next ; SelfWord ; Nil ; True ; False ; Yield ; Super ; Begin ; Rescue ; Ensure ; ",
            ),
            (
                "a.class; a&.end; a.and; a.BEGIN",
                "Identifier a; Dot ; Identifier class; Separator ; Identifier a; SafeDot ; Identifier end; Separator ; Identifier a; Dot ; Identifier and; Separator ; Identifier a; Dot ; Constant BEGIN; ",
            ),
            ("a.\n if", "Identifier a; Dot ; Identifier if; "),
            ("and: 1", "Label and; Whole 1; "),
            (
                "begin: rescue: ensure: 1",
                "Label begin; Label rescue; Label ensure; Whole 1; ",
            ),
            (
                "a.begin; a&.rescue; a.ensure; def self.rescue",
                "Identifier a; Dot ; Identifier begin; Separator ; Identifier a; SafeDot ; Identifier rescue; Separator ; Identifier a; Dot ; Identifier ensure; Separator ; Def ; SelfWord ; Dot ; Identifier rescue; ",
            ),
            (
                ":begin :rescue @ensure",
                "Symbol begin; Symbol rescue; InstanceVariable ensure; ",
            ),
            (
                "begins rescue! ensure_",
                "Identifier begins; Identifier rescue!; Identifier ensure_; ",
            ),
            (
                "def begin; def rescue; def ensure",
                "Def ; Begin ; Separator ; Def ; Rescue ; Separator ; Def ; Ensure ; ",
            ),
            (
                "begin -1; rescue [A] => e",
                "Begin ; Minus ; Whole 1; Separator ; Rescue ; OpenBracket ; Constant A; CloseBracket ; Arrow ; Identifier e; ",
            ),
            ("begin /a/", "outside 6"),
            (
                "a.retry; retry: 1",
                "Identifier a; Dot ; Identifier retry; Separator ; Label retry; Whole 1; ",
            ),
            ("ands defined", "Identifier ands; Identifier defined; "),
            ("and", "outside 0"),
            ("or", "outside 0"),
            ("not", "outside 0"),
            ("retry", "outside 0"),
            ("redo", "outside 0"),
            ("alias", "outside 0"),
            ("undef", "outside 0"),
            ("defined?", "outside 0"),
            ("for", "outside 0"),
            ("in", "outside 0"),
            ("BEGIN", "outside 0"),
            ("END", "outside 0"),
            ("__FILE__", "outside 0"),
            ("__LINE__", "outside 0"),
            ("__ENCODING__", "outside 0"),
        ],
    )
}

#[test]
fn line_ends(rt: HostRuntime) -> Result<(), Fail> {
    all_told(
        &rt,
        &[
            (
                "\n\na\nb;c",
                "Identifier a; Separator ; Identifier b; Separator ; Identifier c; ",
            ),
            ("a +\nb", "Identifier a; Plus ; Identifier b; "),
            (
                "(a)\n[b]\n{c}\nd",
                "OpenParen ; Identifier a; CloseParen ; Separator ; OpenBracket ; Identifier b; CloseBracket ; Separator ; OpenBrace ; Identifier c; CloseBrace ; Separator ; Identifier d; ",
            ),
            ("a:\nb", "Label a; Identifier b; "),
            (
                "begin\na\nrescue\nensure\nend",
                "Begin ; Separator ; Identifier a; Separator ; Rescue ; Separator ; Ensure ; Separator ; End ; ",
            ),
            ("def +\nb", "Def ; Plus ; Separator ; Identifier b; "),
            (
                "def self.*\nb",
                "Def ; SelfWord ; Dot ; Star ; Separator ; Identifier b; ",
            ),
            (
                "x { |a|\nb |\nc }",
                "Identifier x; OpenBrace ; Pipe ; Identifier a; Pipe ; Separator ; Identifier b; Pipe ; Identifier c; CloseBrace ; ",
            ),
            (
                "do |a|\nb",
                "Do ; Pipe ; Identifier a; Pipe ; Separator ; Identifier b; ",
            ),
            ("a\n.b", "Identifier a; Dot ; Identifier b; "),
            (
                "a # x\n# y\n\n  .b\n&.c",
                "Identifier a; Dot ; Identifier b; SafeDot ; Identifier c; ",
            ),
            ("a\n.5", "Identifier a; Separator ; Dot ; Whole 5; "),
            ("a\n..b", "outside 2"),
            ("a;\n.b", "Identifier a; Separator ; Dot ; Identifier b; "),
            ("def\n&.\nb", "Def ; SafeDot ; Separator ; Identifier b; "),
            (
                "a\\\nb\\\r\nc",
                "Identifier a; Identifier b; Identifier c; ",
            ),
            ("a\r\nb", "Identifier a; Separator ; Identifier b; "),
            ("a\rb", "bad 1"),
            ("a \\b", "bad 2"),
            ("a \\\n-1", "bad 4"),
        ],
    )
}

#[test]
fn outside(rt: HostRuntime) -> Result<(), Fail> {
    all_told(
        &rt,
        &[
            ("a\n=begin", "outside 2"),
            (" =beginx", "Assign ; Identifier beginx; "),
            ("__END__", "outside 0"),
            ("a\n__END__\r\nx", "outside 2"),
            (
                "__END__ x; __END__",
                "Identifier __END__; Identifier x; Separator ; Identifier __END__; ",
            ),
            ("@@a", "outside 0"),
            ("a;$b", "outside 2"),
            ("`a`", "outside 0"),
            ("->{}", "outside 0"),
            ("1..2", "outside 1"),
            ("a...b", "outside 1"),
            ("a=~b", "outside 1"),
            ("1!~b", "outside 1"),
            ("a!~b", "Identifier a!; Tilde ; Identifier b; "),
            ("a é", "outside 2"),
            ("x = /a/", "outside 4"),
            ("%w(a)", "outside 0"),
            ("f(*a)", "outside 2"),
            ("f(**a)", "outside 2"),
            ("x = <<A", "outside 4"),
            (
                "a << ~b",
                "Identifier a; ShiftLeft ; Tilde ; Identifier b; ",
            ),
            ("a <<~b", "outside 2"),
            ("() <<-a", "outside 3"),
            ("A <<\"a\"", "outside 2"),
            ("()<<'a'", "OpenParen ; CloseParen ; ShiftLeft ; Text a; "),
            ("?a", "outside 0"),
            ("x ?a : b", "outside 2"),
            ("x ?", "Identifier x; Question ; "),
            (":\"a\"", "outside 0"),
            (":+", "outside 0"),
            (":1", "outside 0"),
            ("Foo(1)", "outside 3"),
            (
                "Foo (1)",
                "Constant Foo; OpenParen ; Whole 1; CloseParen ; ",
            ),
        ],
    )
}

#[test]
fn bad(rt: HostRuntime) -> Result<(), Fail> {
    all_told(
        &rt,
        &[
            ("f -1", "bad 2"),
            ("f +1", "bad 2"),
            ("f *a", "bad 2"),
            ("f **a", "bad 2"),
            ("f &a", "bad 2"),
            ("f /x/", "bad 2"),
            ("f %w", "bad 2"),
            ("f [1]", "bad 2"),
            ("f ::A", "bad 2"),
            ("f <<a", "bad 2"),
            ("f (1)", "bad 2"),
            ("yield -1", "bad 6"),
            ("super\t[1]", "bad 6"),
            ("a.b -1", "bad 4"),
            ("a.class -1", "bad 8"),
            ("f - 1", "Identifier f; Minus ; Whole 1; "),
            ("f -\n1", "Identifier f; Minus ; Whole 1; "),
            ("f -=1", "Identifier f; MinusAssign ; Whole 1; "),
            ("f &.b", "Identifier f; SafeDot ; Identifier b; "),
            ("X -1", "Constant X; Minus ; Whole 1; "),
            ("f-1", "Identifier f; Minus ; Whole 1; "),
            ("f <<~a", "outside 2"),
            ("f -1; $a", "bad 2"),
            ("$a; f -1", "outside 0"),
            ("@1", "bad 0"),
            ("@X", "bad 0"),
            ("a\x0c", "bad 1"),
            ("\\", "bad 0"),
            ("f -\0", "bad 2"),
            ("\"a", "bad 2"),
            ("'a\\'", "bad 4"),
            ("\"#{", "bad 3"),
            ("\"#{a", "bad 4"),
            ("\"#{{}\"", "bad 6"),
        ],
    )
}

#[test]
fn strings(rt: HostRuntime) -> Result<(), Fail> {
    all_told(
        &rt,
        &[
            (
                "'a\\'b#{' \"c\\\"d\\\\\"",
                "Text a\\'b#{; Text c\\\"d\\\\; ",
            ),
            ("'é' # é\n\"#\"", "Text é; Separator ; Text #; "),
            (
                "\"a#{b}c\"",
                "Text a; Interpolation ; Identifier b; CloseBrace ; Text c; ",
            ),
            (
                "\"#{a}#{}\"",
                "Text ; Interpolation ; Identifier a; CloseBrace ; Text ; Interpolation ; CloseBrace ; Text ; ",
            ),
            (
                "\"#{ {a: \"#{b}\"} }\"",
                "Text ; Interpolation ; OpenBrace ; Label a; Text ; Interpolation ; Identifier b; CloseBrace ; Text ; CloseBrace ; CloseBrace ; Text ; ",
            ),
            ("\"#@a\"", "outside 1"),
            ("\"##$a\"", "outside 2"),
            ("\"\\#@a\"", "Text \\#@a; "),
            ("x \"a#{b}\": 1", "outside 2"),
            ("'a'::B", "Text a; Scope ; Constant B; "),
            ("\"a#{'b':}\"", "outside 4"),
        ],
    )
}

// The places of the tokens, each `START-END;`.
fn places(alloc: Global, source: &str) -> Result<String, Fail> {
    if source.len() > 1000 {
        return Err(Fail::from("long"));
    }
    match Text::from_bytes(alloc, source.as_bytes()) {
        Err(_) => Err(Fail::from("no text")),
        Ok(text) => match lex(alloc, &text) {
            Err(_) => Err(Fail::from("refused")),
            Ok(tokens) => {
                let mut out = String::new(alloc);
                for token in tokens.as_slice() {
                    let (start, end) = (token.span.start, token.span.end);
                    out.push_str(format!(in alloc; "{start}-{end};")?.as_str())?;
                }
                Ok(out)
            }
        },
    }
}

#[test]
fn spans_count_bytes(rt: HostRuntime) -> Result<(), Fail> {
    for (source, expected) in [
        (
            "'é' + a\r\n\r\nb: :c",
            "0-4;5-6;7-8;9-10;11-12;12-14;15-17;",
        ),
        ("\"é#{b}c\"", "0-3;3-5;5-6;6-7;7-9;"),
        ("# é\n  @ab", "7-10;"),
    ] {
        let answer = places(rt.alloc(), source)?;
        assert!(rt;
            answer.as_str() == expected,
            "{source}: {}",
            answer.as_str()
        );
    }
    Ok(())
}

#[test]
fn levels(rt: HostRuntime) -> Result<(), Fail> {
    for (source, expected) in [
        ("", Level::False),
        ("# typed: true", Level::True),
        ("\n  # x\n#typed:strict\t \nx", Level::Strict),
        ("x\n# typed: true", Level::False),
        (
            "# typed: wrong\n\\\n# typed: strong\n# typed: true",
            Level::Strong,
        ),
        ("# typed: true x", Level::False),
        ("# typed: ignore\r\n", Level::Ignore),
        ("# typed: true\r", Level::False),
        ("# typed: true\\\n", Level::False),
        ("# typed: false\n# typed: true", Level::False),
    ] {
        if let Ok(text) = Text::from_bytes(rt.alloc(), source.as_bytes()) {
            assert!(rt; level(&text) == expected, "{source}");
        }
    }
    Ok(())
}
