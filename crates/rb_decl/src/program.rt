//! Whole programs.

ghost use Rattle.std.specs.Prelude.{◌≡◌, ◌<◌, ◌≤◌, ◌+◌, ◌^◌, length, Ok};
ghost use Rattle.rb_expr.specs.Reading.{Gives};
ghost use Rattle.rb_decl.specs.Programs as spec;

use crate::item::{body_of, statements};
use rb_expr::ParseEnd;
use rb_expr::reading::Stop;
use rb_tree::syntax::Tree;
use rb_tree::token::Token;
use rb_weight::first_too_deep;
use std::alloc::Global;

/// A program that takes all of the tokens.
#[tactic(auto, unfolding(crate::specs::Programs::program))]
fn program<'a>(alloc: Global, depth: usize, tokens: &'a [Token]) -> Result<Tree, Stop<'a>>
    ensures { spec.Reads result (spec.program depth tokens.now) }
{
    let (statements, rest) = statements(alloc, depth, true, tokens)?;
    if !rest.is_empty() {
        return Err(Stop::Refused(rest));
    }
    Ok(body_of(alloc, statements)?)
}

/// Where the last token ends.
fn end_of(tokens: &[Token]) -> u32
    ensures { result ≡ spec.end_of tokens.now }
{
    match tokens {
        [.., last] => last.span.end,
        [] => 0,
    }
}

/// Where the next of the tokens `rest` begins, with which `tokens` end, or where those end.
fn place_of(tokens: &[Token], rest: &[Token]) -> u32
    ensures { result ≡ spec.place_of tokens.now rest.now }
{
    match rest {
        [first, ..] => first.span.start,
        [] => end_of(tokens),
    }
}

/// The tree of tokens that nowhere nest too deep.
#[tactic(auto, unfolding(crate::specs::Programs::whole))]
fn whole(alloc: Global, tokens: &[Token]) -> Result<Tree, ParseEnd>
    ensures { spec.Parses result (spec.whole tokens.now) }
{
    match program(alloc, tokens.len() + 2, tokens) {
        Ok(tree) => Ok(tree),
        Err(Stop::Refused(rest)) => Err(ParseEnd::Bad {
            at: place_of(tokens, rest),
        }),
        Err(Stop::Memory) => Err(ParseEnd::NoMemory),
    }
}

/// Why tokens have no tree that nest too deep at the last.
#[tactic(auto, unfolding(crate::specs::Programs::cut))]
fn cut(alloc: Global, last: u32, tokens: &[Token]) -> ParseEnd
    ensures { spec.Ends result (spec.cut last tokens.now) }
{
    match program(alloc, tokens.len() + 2, tokens) {
        Err(Stop::Refused([first, ..])) => ParseEnd::Bad {
            at: first.span.start,
        },
        Err(Stop::Memory) => ParseEnd::NoMemory,
        _ => ParseEnd::TooDeep { at: last },
    }
}

/// The tree of a program, or why there is none.
pub fn parse(alloc: Global, tokens: &[Token]) -> Result<Tree, ParseEnd>
    ensures { spec.Parses result (spec.parsed tokens.now) }
{
    match first_too_deep(alloc, tokens, 0, 0, 0) {
        Ok(None) => whole(alloc, tokens),
        Ok(Some(at)) => Err(cut(alloc, tokens[at].span.start, &tokens[..at + 1])),
        Err(_) => Err(ParseEnd::NoMemory),
    }
}
