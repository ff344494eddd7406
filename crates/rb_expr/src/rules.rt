//! The rules that declarations are made of. `depth` says how deep forms may nest and how many turns each loop may take: with
//! two more than the number of tokens it decides nothing.

ghost use Rattle.std.specs.Prelude.{◌≡◌};
ghost use Rattle.rb_expr.specs.Reading.{Gives};
ghost use Rattle.rb_expr.specs.Rules as spec;

use crate::grammar::{Grammar, nested};
use crate::reading::Read;
use rb_tree::syntax::{Guarded, Tree};
use rb_tree::token::Token;
use srb_terms::Boxed;
use std::alloc::Global;

/// A statement that is no declaration, with its modifiers. `constants` says whether a constant may be assigned to in it.
#[tactic(auto, unfolding(crate::specs::Rules::statement))]
pub fn statement<'a>(
    alloc: Global,
    depth: usize,
    constants: bool,
    tokens: &'a [Token],
) -> Read<'a, Tree>
    ensures { Gives (λ x. (x.0, x.1.now)) result (spec.statement depth constants tokens.now) }
{
    Grammar {
        alloc,
        depth,
        takes_do: true,
        nested,
    }
    .statement(constants, tokens)
}

/// The longest body without declarations. `constants` says whether a constant may be assigned to in its own statements.
#[tactic(auto, unfolding(crate::specs::Rules::longest_body))]
pub fn longest_body<'a>(
    alloc: Global,
    depth: usize,
    constants: bool,
    tokens: &'a [Token],
) -> Read<'a, Tree>
    ensures { Gives (λ x. (x.0, x.1.now)) result (spec.longest_body depth constants tokens.now) }
{
    Grammar {
        alloc,
        depth,
        takes_do: true,
        nested,
    }
    .body(constants, tokens)
}

/// A body without declarations and what guards it. No constant is assigned to in it.
#[tactic(auto, unfolding(crate::specs::Rules::guarded))]
pub fn guarded<'a>(
    alloc: Global,
    depth: usize,
    tokens: &'a [Token],
) -> Read<'a, Boxed<Guarded<Tree>>>
    ensures { Gives (λ x. (x.0, x.1.now)) result (spec.guarded depth tokens.now) }
{
    Grammar {
        alloc,
        depth,
        takes_do: true,
        nested,
    }
    .guarded(tokens)
}

/// An expression with operators, at most `? :`.
#[tactic(auto, unfolding(crate::specs::Rules::tern))]
pub fn tern<'a>(alloc: Global, depth: usize, tokens: &'a [Token]) -> Read<'a, Tree>
    ensures { Gives (λ x. (x.0, x.1.now)) result (spec.tern depth tokens.now) }
{
    Grammar {
        alloc,
        depth,
        takes_do: true,
        nested,
    }
    .tern(tokens)
}
