//! The weight of Ruby tokens: how deep what is open after a token nests. A parser that reads no further than the first token
//! at which the weight passes 200 recurses no deeper than that, whatever the input.
//!
//! A level opens at `(`, `[`, `{`, `#{`, `class`, `module`, `def`, `do`, `case`, `begin` and at an `if`, `unless`, `while` or
//! `until` that is no modifier, and closes at its end; the `do` of a `while` or `until` opens none. The weight after a token is the
//! number of open levels and of the operators that stand directly in them after their last separator. `first_too_deep` is the
//! definition `first_too_deep`, and `DeepAt` says what place that is.
#![tactic(auto)]

ghost use Rattle.std.specs.Prelude.{◌≡◌, ◌≤◌, IfOk, drop, length};
ghost use Rattle.rb_weight.specs.Limits as limits;
ghost use Rattle.rb_weight.specs.Scans as spec;
ghost use Rattle.rb_weight.specs.Weights.{IsFirstDeep};

mod effect;
mod scan;
mod sort;
#[cfg(test)]
mod tests;

use rb_tree::token::Token;
use scan::{Scan, deep_from};
use srb_terms::NoMemory;
use std::alloc::Global;

/// The greatest weight that a program may have, the number `limits.MOST` of the contracts.
pub const MOST: u32 = 200;

/// The tokens from the place `from` on.
fn after(tokens: &[Token], from: usize) -> &[Token]
    requires { from ≤ length tokens.now }
    ensures { result.now ≡ drop from tokens.now }
{
    &tokens[from..]
}

/// The place, counted in tokens from 0, of the first token from `from` on after which the weight is over `MOST`. `None` exactly
/// where there is no such token, or where the level that stands open at `from` closes before it.
///
/// `weight` is the weight after the tokens before `from`, and `here` the part of it that the next separator takes away. An
/// operand is expected at `from`, as where a program, a body or an expression begins.
pub fn first_too_deep(
    alloc: Global,
    tokens: &[Token],
    from: usize,
    weight: u32,
    here: u32,
) -> Result<Option<usize>, NoMemory>
    requires within { from ≤ length tokens.now }
    requires part { here ≤ weight }
    requires light { weight ≤ limits.MOST }
    ensures value { IfOk result (λ place. place ≡ spec.first_too_deep tokens.now from weight here) }
    ensures first { IfOk result (λ place. IsFirstDeep tokens.now from weight here place) }
{
    deep_from(Scan::new(alloc, weight, here), from, after(tokens, from))
}
