//! The parameters of a method.

ghost use Rattle.std.specs.Prelude.{◌≡◌, IfOk, OnOk};
ghost use Rattle.rb_expr.specs.Reading.{Gives};
ghost use Rattle.rb_decl.specs.Parameters as spec;

use indexmap::IndexSet;
use rb_expr::reading::{Read, Stop, after, expect, sees, skip_separators};
use rb_expr::rules::tern;
use rb_tree::syntax::{Parameter, Tree};
use rb_tree::token::{Shape, Token, TokenKind};
use srb_terms::{Items, Name, NoMemory, ParamKind, Span, Words};
use std::alloc::Global;

/// Which parameters may still come.
#[derive(Clone, Copy, PartialEq, Eq, Debug)]
pub enum Stage {
    /// All.
    Required,
    /// Optional ones, keywords and a block.
    Optional,
    /// Keywords and a block.
    Keyword,
    /// None.
    Block,
}

/// Which parameters may come after one of this kind.
fn stage_after(kind: ParamKind) -> Stage
    ensures { result ≡ spec.stage_after kind }
{
    match kind {
        ParamKind::Required => Stage::Required,
        ParamKind::Optional => Stage::Optional,
        ParamKind::Key | ParamKind::KeyOptional | ParamKind::Rest => Stage::Keyword,
        ParamKind::Block => Stage::Block,
    }
}

/// Whether the name is one of these.
fn is_among(names: &IndexSet<Name>, name: &Name) -> bool
    ensures { result ≡ spec.is_among names.now.keys name.now }
{
    names.contains(name)
}

/// The name of these words, if it is none of these.
#[tactic(auto, unfolding(crate::specs::Parameters::fresh))]
fn fresh(names: &IndexSet<Name>, words: &Words) -> Result<Option<Name>, NoMemory>
    ensures { IfOk result (λ name. name ≡ spec.fresh names.now.keys words.now) }
{
    let name = Name::from_words(words)?;
    if is_among(names, &name) {
        return Ok(None);
    }
    Ok(Some(name))
}

/// Adds a name, if it is none of these.
fn note(names: &mut IndexSet<Name>, name: &Name) -> Result<(), NoMemory>
    ensures { OnOk result (names.new.keys ≡ spec.noted names.old.keys name.now) }
{
    names.insert(name.copied()?)?;
    Ok(())
}

fn is_plain(stage: Stage) -> bool
    ensures { result ≡ spec.is_plain stage }
{
    match stage {
        Stage::Required | Stage::Optional => true,
        _ => false,
    }
}

fn is_first(stage: Stage) -> bool
    ensures { result ≡ spec.is_first stage }
{
    match stage {
        Stage::Required => true,
        _ => false,
    }
}

fn is_last(stage: Stage) -> bool
    ensures { result ≡ spec.is_last stage }
{
    match stage {
        Stage::Block => true,
        _ => false,
    }
}

fn parameter_of(kind: ParamKind, name: Name, span: Span, default: Option<Tree>) -> Parameter<Tree>
    ensures { result ≡ spec.parameter_of kind name span default }
{
    Parameter {
        kind,
        name,
        span,
        default,
    }
}

/// After the name of a parameter that is no keyword.
#[tactic(auto, unfolding(crate::specs::Parameters::plain))]
fn plain<'a>(
    alloc: Global,
    depth: usize,
    stage: Stage,
    name: Name,
    span: Span,
    tokens: &'a [Token],
) -> Read<'a, Parameter<Tree>>
    ensures { Gives (λ x. (x.0, x.1.now)) result (spec.plain depth stage name span tokens.now) }
{
    if sees(Shape::Assign, tokens) {
        let (default, rest) = tern(alloc, depth, after(tokens))?;
        return Ok((
            parameter_of(ParamKind::Optional, name, span, Some(default)),
            rest,
        ));
    }
    if !is_first(stage) {
        return Err(Stop::Refused(tokens));
    }
    Ok((parameter_of(ParamKind::Required, name, span, None), tokens))
}

/// Whether no default stands after the label of a keyword.
fn has_no_default(tokens: &[Token]) -> bool
    ensures { result ≡ spec.has_no_default tokens.now }
{
    sees(Shape::Comma, tokens) || sees(Shape::CloseParen, tokens) || sees(Shape::Separator, tokens)
}

/// After the label of a keyword.
#[tactic(auto, unfolding(crate::specs::Parameters::keyword))]
fn keyword<'a>(
    alloc: Global,
    depth: usize,
    name: Name,
    span: Span,
    tokens: &'a [Token],
) -> Read<'a, Parameter<Tree>>
    ensures { Gives (λ x. (x.0, x.1.now)) result (spec.keyword depth name span tokens.now) }
{
    if has_no_default(tokens) {
        return Ok((parameter_of(ParamKind::Key, name, span, None), tokens));
    }
    let (default, rest) = tern(alloc, depth, tokens)?;
    Ok((
        parameter_of(ParamKind::KeyOptional, name, span, Some(default)),
        rest,
    ))
}

/// After the `&` of a block.
#[tactic(auto, unfolding(crate::specs::Parameters::block))]
fn block<'a>(names: &IndexSet<Name>, tokens: &'a [Token]) -> Read<'a, Parameter<Tree>>
    ensures { Gives (λ x. (x.0, x.1.now)) result (spec.block names.now.keys tokens.now) }
{
    match tokens {
        [
            Token {
                kind: TokenKind::Identifier { words },
                span,
            },
            rest @ ..,
        ] => match fresh(names, words)? {
            Some(name) => Ok((parameter_of(ParamKind::Block, name, *span, None), rest)),
            None => Err(Stop::Refused(tokens)),
        },
        _ => Err(Stop::Refused(tokens)),
    }
}

/// A parameter after others that have these names and leave this stage.
#[tactic(auto, unfolding(crate::specs::Parameters::parameter))]
fn parameter<'a>(
    alloc: Global,
    depth: usize,
    stage: Stage,
    names: &IndexSet<Name>,
    tokens: &'a [Token],
) -> Read<'a, Parameter<Tree>>
    ensures { Gives (λ x. (x.0, x.1.now)) result (spec.parameter depth stage names.now.keys tokens.now) }
{
    match tokens {
        [
            Token {
                kind: TokenKind::Identifier { words },
                span,
            },
            rest @ ..,
        ] if is_plain(stage) => match fresh(names, words)? {
            Some(name) => plain(alloc, depth, stage, name, *span, rest),
            None => Err(Stop::Refused(tokens)),
        },
        [
            Token {
                kind: TokenKind::Label { words },
                span,
            },
            rest @ ..,
        ] => match fresh(names, words)? {
            Some(name) => keyword(alloc, depth, name, *span, rest),
            None => Err(Stop::Refused(tokens)),
        },
        [
            Token {
                kind: TokenKind::Ampersand,
                ..
            },
            rest @ ..,
        ] => block(names, rest),
        _ => Err(Stop::Refused(tokens)),
    }
}

/// The separators after a comma, which may stand there in brackets alone.
fn after_comma(in_brackets: bool, tokens: &[Token]) -> &[Token]
    ensures { result.now ≡ spec.after_comma in_brackets tokens.now }
{
    if in_brackets {
        skip_separators(after(tokens))
    } else {
        after(tokens)
    }
}

/// Whether a row is over after a parameter that leaves this stage.
fn is_over(stage: Stage, tokens: &[Token]) -> bool
    ensures { result ≡ spec.is_over stage tokens.now }
{
    is_last(stage) || !sees(Shape::Comma, tokens)
}

/// One or more parameters with commas between.
pub fn row<'a>(
    alloc: Global,
    depth: usize,
    in_brackets: bool,
    tokens: &'a [Token],
) -> Read<'a, Items<Parameter<Tree>>>
    ensures { Gives (λ x. (x.0, x.1.now)) result (spec.row depth in_brackets tokens.now) }
{
    let mut found = Items::new(alloc);
    let mut names = IndexSet::new(alloc);
    let mut stage = Stage::Required;
    let mut rest = tokens;
    for _turn in 0..depth {
        let (next, left) = parameter(alloc, depth, stage, &names, rest)?;
        stage = stage_after(next.kind);
        if is_over(stage, left) {
            found.push(next)?;
            return Ok((found, left));
        }
        note(&mut names, &next.name)?;
        found.push(next)?;
        rest = after_comma(in_brackets, left);
    }
    Err(Stop::Refused(rest))
}

/// Parameters in brackets, after the opening one.
#[tactic(auto, unfolding(crate::specs::Parameters::bracketed))]
fn bracketed<'a>(
    alloc: Global,
    depth: usize,
    tokens: &'a [Token],
) -> Read<'a, Items<Parameter<Tree>>>
    ensures { Gives (λ x. (x.0, x.1.now)) result (spec.bracketed depth tokens.now) }
{
    if sees(Shape::CloseParen, tokens) {
        return Ok((Items::new(alloc), after(tokens)));
    }
    let (found, rest) = row(alloc, depth, true, tokens)?;
    let (_, rest) = expect(Shape::CloseParen, skip_separators(rest))?;
    Ok((found, rest))
}

/// Parameters without brackets.
#[tactic(auto, unfolding(crate::specs::Parameters::bare))]
fn bare<'a>(alloc: Global, depth: usize, tokens: &'a [Token]) -> Read<'a, Items<Parameter<Tree>>>
    ensures { Gives (λ x. (x.0, x.1.now)) result (spec.bare depth tokens.now) }
{
    if sees(Shape::Separator, tokens) {
        return Ok((Items::new(alloc), tokens));
    }
    let (found, rest) = row(alloc, depth, false, tokens)?;
    if !sees(Shape::Separator, rest) {
        return Err(Stop::Refused(rest));
    }
    Ok((found, rest))
}

/// The parameters of a method, after its name.
#[tactic(auto, unfolding(crate::specs::Parameters::parameters_of))]
pub fn parameters<'a>(
    alloc: Global,
    depth: usize,
    tokens: &'a [Token],
) -> Read<'a, Items<Parameter<Tree>>>
    ensures { Gives (λ x. (x.0, x.1.now)) result (spec.parameters_of depth tokens.now) }
{
    if sees(Shape::OpenParen, tokens) {
        bracketed(alloc, depth, skip_separators(after(tokens)))
    } else {
        bare(alloc, depth, tokens)
    }
}
