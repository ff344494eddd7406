use super::*;
use rb_tree::token::{Shape, TokenKind};
use srb_terms::{Span, Words};
use std::process::Abort;
use std::test::Fail;

fn kind_of(alloc: Global, shape: Shape) -> Result<TokenKind, NoMemory> {
    match shape.plain() {
        Some(kind) => Ok(kind),
        None => Ok(TokenKind::Identifier {
            words: Words::from_str(alloc, "")?,
        }),
    }
}

fn tokens_of(alloc: Global, shapes: &[Shape]) -> Result<Vec<Token>, Fail> {
    let mut tokens = Vec::new(alloc);
    for shape in shapes {
        tokens.push(Token {
            kind: kind_of(alloc, *shape)?,
            span: Span { start: 0, end: 0 },
        })?;
    }
    Ok(tokens)
}

// The place that is found in these tokens from this weight on, of which nothing goes at the next separator.
fn place_from<R: Abort + AllocGlobal>(
    rt: &R,
    weight: u32,
    shapes: &[Shape],
) -> Result<Option<usize>, Fail> {
    assert!(rt; weight <= MOST, "heavy");
    let tokens = tokens_of(rt.alloc(), shapes)?;
    Ok(first_too_deep(rt.alloc(), tokens.as_slice(), 0, weight, 0)?)
}

#[test]
fn levels_and_operators_weigh(rt: HostRuntime) -> Result<(), Fail> {
    use Shape::{
        Assign, Begin, Class, CloseParen, Constant, Def, Do, End, Ensure, Identifier as X, If,
        OpenBrace, OpenBracket, OpenParen, Pipe, Plus, Rescue, Return, Scope, Separator, Then,
        While,
    };
    let cases: &[(u32, &[Shape], Option<usize>)] = &[
        (200, &[X, Separator, X], None),
        (200, &[X, OpenBracket], Some(1)),
        (199, &[X, Plus, X, Plus], Some(3)),
        (199, &[X, Plus, X, Separator, X, Plus, X], None),
        (199, &[OpenParen, X, CloseParen, Plus, X], None),
        (200, &[Class, Constant, Scope, Constant], Some(0)),
        (200, &[Constant, Scope, Constant], None),
        (199, &[X, If, X, Separator, OpenBracket], None),
        (199, &[Return, If, X, If], Some(3)),
        (199, &[While, X, Do, X, End, X, Assign, X], None),
        (199, &[X, Do, X, X, Do], Some(4)),
        (199, &[X, OpenBrace, Pipe, X, Pipe, X, Pipe], Some(6)),
        (
            198,
            &[Def, X, OpenParen, CloseParen, If, X, Then, OpenBracket],
            Some(7),
        ),
        (200, &[X, End, OpenBracket], None),
        (200, &[X, Begin], Some(1)),
        (199, &[Begin, End, Begin, X], None),
        (199, &[Begin, If], Some(1)),
        (199, &[Begin, End, If, X, If], Some(4)),
        (
            198,
            &[
                Begin, X, Plus, X, Rescue, X, Plus, X, Ensure, X, Plus, X, Plus,
            ],
            Some(12),
        ),
    ];
    for (weight, shapes, expected) in cases {
        assert!(&rt;
            place_from(&rt, *weight, *shapes)? == *expected,
            "{weight} {:?}",
            *shapes
        );
    }
    Ok(())
}

#[test]
fn brackets_nest_two_hundred_deep(rt: HostRuntime) -> Result<(), Fail> {
    let open = [Shape::OpenBracket; 201];
    assert!(&rt; place_from(&rt, 0, &open)? == Some(200), "201 brackets");
    assert!(&rt; place_from(&rt, 0, &open[1..])?.is_none(), "200 brackets");
    Ok(())
}
