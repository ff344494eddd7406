//! The parser of whole programs: classes, modules, methods and their parameters around the expressions of `rb_expr`.
//!
//! `parse` is the definition `parsed`. It reads no further than the first token at which the program nests too deep, so
//! how deep it recurses is bounded whatever the input.
#![tactic(auto)]

ghost use Rattle.rb_decl.specs.Programs.{MeetsWeight, Parses, parsed};

mod item;
mod method;
mod name;
mod parameter;
mod program;

use rb_expr::ParseEnd;
use rb_tree::syntax::Tree;
use rb_tree::token::Token;
use std::alloc::Global;

/// The tree of a program, a `Body`.
///
/// `Bad` gives the start of the token with which the rules of `parsed` go no further; where the tokens end too early, the end of
/// the last token, or 0 if there is none. `TooDeep` gives the start of the token at which the weight first passes 200. Of the two
/// the lesser place is given, and `Bad` where both are at one. Places are in bytes.
pub fn parse(alloc: Global, tokens: &[Token]) -> Result<Tree, ParseEnd>
    ensures value { Parses result (parsed tokens.now) }
    ensures weight { MeetsWeight tokens.now result }
{
    program::parse(alloc, tokens)
}
