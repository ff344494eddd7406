//! The parser of expressions, and of statements that are no declarations.
//!
//! `expr` reads the longest body without declarations that begins at a place of a list of tokens, `tern` an expression. Both
//! are the definitions `expr_of` and `tern_of`, and read no further than the first token at which the weight passes its limit,
//! so that they recurse no deeper than that. `rules` has the rules that declarations are made of, and `reading` the steps that
//! every rule is made of. A rule takes the tokens from where it begins on, and answers what it read and the tokens after it,
//! or the tokens from the refused one on.
#![tactic(auto)]

ghost use Rattle.std.specs.Prelude.{◌≤◌, length};
ghost use Rattle.rb_expr.specs.Answers.{Answers, expr_of, tern_of};

mod answers;
mod branches;
mod calls;
mod ending;
mod form;
mod grammar;
mod lists;
mod literals;
mod operands;
mod operators;
pub mod reading;
pub mod rules;
mod shapes;
mod statements;

use answers::{Rule, answered};
use rb_tree::syntax::Tree;
use rb_tree::token::Token;
use std::alloc::Global;

/// Why tokens have no tree. The places are in bytes.
#[derive(Clone, Copy, Debug, PartialEq, Eq)]
pub enum ParseEnd {
    /// The form goes on neither with the token at `at` nor, where `at` is the end of the last token, with the end.
    Bad { at: u32 },
    /// The weight passes its limit at the token at `at`.
    TooDeep { at: u32 },
    NoMemory,
}

/// Reads the longest body without declarations that begins at the token `from`, counted from 0. Answers its tree and the place
/// after it, counted in tokens. A `rescue` directly after the last statement is refused.
///
/// `weight` is the weight after the tokens before `from`, at most 200, and `here` the part of it that the next separator takes
/// away. `constants` says whether a constant may be assigned to in the body's own statements. Of two refusals the one at the
/// lesser place is given, and `Bad` where both are at one.
pub fn expr(
    alloc: Global,
    tokens: &[Token],
    from: usize,
    weight: u32,
    here: u32,
    constants: bool,
) -> Result<(Tree, usize), ParseEnd>
    requires within { from ≤ length tokens.now }
    requires part { here ≤ weight }
    requires light { weight ≤ 200 }
    ensures { Answers result (expr_of tokens.now from weight here constants) }
{
    answered(alloc, Rule::Body { constants }, tokens, from, weight, here)
}

/// Reads the longest expression with operators, at most `? :`, that begins at the token `from`. The rest is as for `expr`.
pub fn tern(
    alloc: Global,
    tokens: &[Token],
    from: usize,
    weight: u32,
    here: u32,
) -> Result<(Tree, usize), ParseEnd>
    requires within { from ≤ length tokens.now }
    requires part { here ≤ weight }
    requires light { weight ≤ 200 }
    ensures { Answers result (tern_of tokens.now from weight here) }
{
    answered(alloc, Rule::Tern, tokens, from, weight, here)
}
