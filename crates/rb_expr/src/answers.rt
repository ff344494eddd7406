//! What is answered of a form that begins at a place of a list of tokens.

ghost use Rattle.std.specs.Prelude.{◌≡◌, ◌+◌, ◌<◌, ◌≤◌, length, slice_range, drop, IfOk, Ok};
ghost use Rattle.rb_expr.specs.Answers as spec;
ghost use Rattle.rb_expr.specs.Answers.{Answers, LiesWithin};
ghost use Rattle.rb_expr.specs.Reading.{Gives};
ghost use Rattle.rb_weight.specs.Scans.{first_too_deep};

use crate::ParseEnd;
use crate::reading::{Read, Stop};
use crate::rules::{longest_body, tern};
use rb_tree::syntax::Tree;
use rb_tree::token::Token;
use rb_weight::first_too_deep;
use srb_terms::NoMemory;
use std::alloc::Global;

/// The form that is read.
#[derive(Clone, Copy)]
pub enum Rule {
    /// The longest body without declarations.
    Body { constants: bool },
    /// An expression with operators, at most `? :`.
    Tern,
}

/// Reads the form at the first of these tokens.
#[tactic(auto, unfolding(crate::specs::Answers::ruled))]
fn ruled<'a>(alloc: Global, rule: Rule, tokens: &'a [Token]) -> Read<'a, Tree>
    ensures { Gives (λ x. (x.0, x.1.now)) result (spec.ruled rule tokens.now) }
{
    let depth = tokens.len() + 2;
    match rule {
        Rule::Body { constants } => longest_body(alloc, depth, constants, tokens),
        Rule::Tern => tern(alloc, depth, tokens),
    }
}

/// The first too deep token.
fn deep_place(
    alloc: Global,
    tokens: &[Token],
    from: usize,
    weight: u32,
    here: u32,
) -> Result<Option<usize>, NoMemory>
    requires within { from ≤ length tokens.now }
    requires part { here ≤ weight }
    requires light { weight ≤ 200 }
    ensures value { IfOk result (λ place. place ≡ first_too_deep tokens.now from weight here) }
    ensures within { IfOk result (λ place. LiesWithin from (length tokens.now) place) }
{
    first_too_deep(alloc, tokens, from, weight, here)
}

/// Where the last of these tokens ends. 0 where there is none.
fn last_end(tokens: &[Token]) -> u32
    ensures { result ≡ spec.last_end tokens.now }
{
    match tokens.get(tokens.len().saturating_sub(1)) {
        Some(last) => last.span.end,
        None => 0,
    }
}

/// Where the token at this place begins.
fn start_at(tokens: &[Token], place: usize) -> u32
    ensures { result ≡ spec.start_at tokens.now place }
{
    match tokens.get(place) {
        Some(token) => token.span.start,
        None => 0,
    }
}

/// Where a form is refused of which these tokens are left.
fn bad_at(tokens: &[Token], rest: &[Token]) -> u32
    ensures { result ≡ spec.bad_at tokens.now rest.now }
{
    match rest {
        [first, ..] => first.span.start,
        [] => last_end(tokens),
    }
}

/// The answer where no token is too deep.
#[tactic(auto, unfolding(crate::specs::Answers::whole))]
fn whole(
    alloc: Global,
    rule: Rule,
    tokens: &[Token],
    from: usize,
) -> Result<(Tree, usize), ParseEnd>
    requires within { from ≤ length tokens.now }
    ensures { Answers result (spec.whole rule tokens.now from) }
{
    match ruled(alloc, rule, &tokens[from..]) {
        Ok((tree, rest)) => Ok((tree, tokens.len().saturating_sub(rest.len()))),
        Err(Stop::Memory) => Err(ParseEnd::NoMemory),
        Err(Stop::Refused(rest)) => Err(ParseEnd::Bad {
            at: bad_at(tokens, rest),
        }),
    }
}

/// The answer where the token at this place is the first too deep one.
#[tactic(auto, unfolding(crate::specs::Answers::cut))]
fn cut(
    alloc: Global,
    rule: Rule,
    tokens: &[Token],
    from: usize,
    deep: usize,
) -> Result<(Tree, usize), ParseEnd>
    requires start { from ≤ deep }
    requires within { deep < length tokens.now }
    ensures { Answers result (spec.cut rule tokens.now from deep) }
{
    let too_deep = ParseEnd::TooDeep {
        at: start_at(tokens, deep),
    };
    match ruled(alloc, rule, &tokens[from..deep + 1]) {
        Ok((_, [])) => Err(too_deep),
        Ok((tree, rest)) => Ok((tree, (deep + 1).saturating_sub(rest.len()))),
        Err(Stop::Memory) => Err(ParseEnd::NoMemory),
        Err(Stop::Refused([])) => Err(too_deep),
        Err(Stop::Refused([first, ..])) => Err(ParseEnd::Bad {
            at: first.span.start,
        }),
    }
}

/// The form at the token `from`, or why there is none.
#[tactic(auto, unfolding(crate::specs::Answers::answered))]
pub fn answered(
    alloc: Global,
    rule: Rule,
    tokens: &[Token],
    from: usize,
    weight: u32,
    here: u32,
) -> Result<(Tree, usize), ParseEnd>
    requires within { from ≤ length tokens.now }
    requires part { here ≤ weight }
    requires light { weight ≤ 200 }
    ensures { Answers result (spec.answered rule tokens.now from weight here) }
{
    match deep_place(alloc, tokens, from, weight, here) {
        Ok(None) => whole(alloc, rule, tokens, from),
        Ok(Some(deep)) => cut(alloc, rule, tokens, from, deep),
        Err(_) => Err(ParseEnd::NoMemory),
    }
}
