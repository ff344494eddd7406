//! Methods.

ghost use Rattle.std.specs.Prelude.{◌≡◌, IfOk};
ghost use Rattle.rb_expr.specs.Reading.{Gives};
ghost use Rattle.rb_decl.specs.Methods as spec;

use crate::parameter::parameters;
use rb_expr::reading::{Read, Stop, after, expect, sees};
use rb_expr::rules::guarded;
use rb_tree::syntax::{Guarded, Node, Parameter, PlacedName, Tree, Visibility};
use rb_tree::token::{Shape, Token, TokenKind};
use srb_terms::{Boxed, Items, Name, NoMemory, Span, Words};
use std::alloc::Global;

/// The visibility that the word gives to the method after it.
fn visibility_of(words: &[u8]) -> Option<Visibility>
    ensures { result ≡ spec.visibility_of words.now }
{
    if words == b"private".as_slice() {
        Some(Visibility::Private)
    } else if words == b"protected".as_slice() {
        Some(Visibility::Protected)
    } else if words == b"public".as_slice() {
        Some(Visibility::Public)
    } else if words == b"private_class_method".as_slice() {
        Some(Visibility::PrivateClassMethod)
    } else {
        None
    }
}

/// The visibility that stands in front of a `def`.
#[tactic(auto, unfolding(crate::specs::Methods::visibility))]
pub fn visibility(tokens: &[Token]) -> Option<Visibility>
    ensures { result ≡ spec.visibility tokens.now }
{
    match tokens {
        [
            Token {
                kind: TokenKind::Identifier { words },
                ..
            },
            rest @ ..,
        ] if sees(Shape::Def, rest) => visibility_of(words.as_bytes()),
        _ => None,
    }
}

/// The spelling of an operator that may be a method's name, nothing for another token.
#[tactic(auto, unfolding(crate::specs::Methods::operator_text))]
fn operator_text(shape: Shape) -> &'static str
    ensures { result.now ≡ spec.operator_text shape }
{
    match shape {
        Shape::Plus => "+",
        Shape::Minus => "-",
        Shape::Star => "*",
        Shape::Slash => "/",
        Shape::Percent => "%",
        Shape::Power => "**",
        Shape::Equal => "==",
        Shape::CaseEqual => "===",
        Shape::Compare => "<=>",
        Shape::Less => "<",
        Shape::Greater => ">",
        Shape::LessEqual => "<=",
        Shape::GreaterEqual => ">=",
        Shape::ShiftLeft => "<<",
        Shape::ShiftRight => ">>",
        Shape::Ampersand => "&",
        Shape::Pipe => "|",
        Shape::Caret => "^",
        Shape::Not => "!",
        Shape::Tilde => "~",
        Shape::Index => "[]",
        Shape::IndexAssign => "[]=",
        Shape::UnaryMinus => "-@",
        Shape::UnaryPlus => "+@",
        _ => "",
    }
}

fn operator_name<'a>(
    alloc: Global,
    shape: Shape,
    span: Span,
    tokens: &'a [Token],
    rest: &'a [Token],
) -> Read<'a, PlacedName>
    ensures { Gives (λ x. (x.0, x.1.now)) result (spec.operator_name shape span tokens.now rest.now) }
{
    let text = operator_text(shape);
    if text.is_empty() {
        return Err(Stop::Refused(tokens));
    }
    let name = Name::from_str(alloc, text)?;
    Ok((PlacedName { name, span }, rest))
}

/// The name of the method that sets what `words` names.
fn setter(alloc: Global, words: &Words) -> Result<Name, NoMemory>
    ensures { IfOk result (λ name. name ≡ spec.setter words.now) }
{
    let mut text = String::from_str(alloc, words.as_str())?;
    text.push_str("=")?;
    Name::from_string(text)
}

/// A name, perhaps with `=` after it.
#[tactic(auto, unfolding(crate::specs::Methods::plain_name))]
fn plain_name<'a>(
    alloc: Global,
    words: &Words,
    span: Span,
    tokens: &'a [Token],
) -> Read<'a, PlacedName>
    ensures { Gives (λ x. (x.0, x.1.now)) result (spec.plain_name words.now span tokens.now) }
{
    if !sees(Shape::Assign, tokens) {
        let name = Name::from_words(words)?;
        return Ok((PlacedName { name, span }, tokens));
    }
    let (equals, rest) = expect(Shape::Assign, tokens)?;
    let name = setter(alloc, words)?;
    let span = Span {
        start: span.start,
        end: equals.end,
    };
    Ok((PlacedName { name, span }, rest))
}

/// The name of a method.
#[tactic(auto, unfolding(crate::specs::Methods::method_name))]
fn method_name<'a>(alloc: Global, tokens: &'a [Token]) -> Read<'a, PlacedName>
    ensures { Gives (λ x. (x.0, x.1.now)) result (spec.method_name tokens.now) }
{
    match tokens {
        [
            Token {
                kind: TokenKind::Identifier { words },
                span,
            },
            rest @ ..,
        ] => plain_name(alloc, words, *span, rest),
        [
            Token {
                kind: TokenKind::Constant { words },
                span,
            },
            rest @ ..,
        ] => {
            let name = Name::from_words(words)?;
            Ok((PlacedName { name, span: *span }, rest))
        }
        [first, rest @ ..] => operator_name(alloc, first.kind.shape(), first.span, tokens, rest),
        [] => Err(Stop::Refused(tokens)),
    }
}

/// Whether `self.` comes next, which it passes over.
#[tactic(auto, unfolding(crate::specs::Methods::own))]
fn own<'a>(tokens: &'a [Token]) -> Read<'a, bool>
    ensures { Gives (λ x. (x.0, x.1.now)) result (spec.own tokens.now) }
{
    if !sees(Shape::SelfWord, tokens) {
        return Ok((false, tokens));
    }
    let (_, rest) = expect(Shape::Dot, after(tokens))?;
    Ok((true, rest))
}

/// What stands before the body of a method.
#[derive(Debug, Drop)]
pub struct Head {
    pub visibility: Option<Visibility>,
    /// Where the method begins.
    pub start: u32,
    pub own: bool,
    pub name: PlacedName,
    pub parameters: Items<Parameter<Tree>>,
}

/// The head of a method from its `def` on.
#[tactic(auto, unfolding(crate::specs::Methods::method_head))]
fn method_head<'a>(
    alloc: Global,
    depth: usize,
    visibility: Option<Visibility>,
    start: u32,
    tokens: &'a [Token],
) -> Read<'a, Head>
    ensures { Gives (λ x. (x.0, x.1.now)) result (spec.method_head depth visibility start tokens.now) }
{
    let (_, rest) = expect(Shape::Def, tokens)?;
    let (own, rest) = own(rest)?;
    let (name, rest) = method_name(alloc, rest)?;
    let (parameters, rest) = parameters(alloc, depth, rest)?;
    let head = Head {
        visibility,
        start,
        own,
        name,
        parameters,
    };
    Ok((head, rest))
}

fn tree_of(
    alloc: Global,
    head: Head,
    guarded: Boxed<Guarded<Tree>>,
    end: u32,
) -> Result<Tree, NoMemory>
    ensures { IfOk result (λ t. t ≡ spec.tree_of head guarded end) }
{
    let span = Span {
        start: head.start,
        end,
    };
    Tree::new(
        alloc,
        Node::Def {
            visibility: head.visibility,
            own: head.own,
            name: head.name.name,
            name_span: head.name.span,
            parameters: head.parameters,
            guarded,
            span,
        },
    )
}

/// A method from its `def` on.
#[tactic(auto, unfolding(crate::specs::Methods::defined))]
fn defined<'a>(
    alloc: Global,
    depth: usize,
    visibility: Option<Visibility>,
    start: u32,
    tokens: &'a [Token],
) -> Read<'a, Tree>
    ensures { Gives (λ x. (x.0, x.1.now)) result (spec.defined depth visibility start tokens.now) }
{
    let (head, rest) = method_head(alloc, depth, visibility, start, tokens)?;
    let (found, rest) = guarded(alloc, depth, rest)?;
    let (end, rest) = expect(Shape::End, rest)?;
    Ok((tree_of(alloc, head, found, end.end)?, rest))
}

/// Where the next token begins.
fn start_of(tokens: &[Token]) -> u32
    ensures { result ≡ spec.start_of tokens.now }
{
    match tokens {
        [first, ..] => first.span.start,
        [] => 0,
    }
}

/// A method, perhaps with a visibility in front.
#[tactic(auto, unfolding(crate::specs::Methods::method))]
pub fn method<'a>(alloc: Global, depth: usize, tokens: &'a [Token]) -> Read<'a, Tree>
    ensures { Gives (λ x. (x.0, x.1.now)) result (spec.method depth tokens.now) }
{
    let visibility = visibility(tokens);
    let start = start_of(tokens);
    if visibility.is_some() {
        defined(alloc, depth, visibility, start, after(tokens))
    } else {
        defined(alloc, depth, visibility, start, tokens)
    }
}
