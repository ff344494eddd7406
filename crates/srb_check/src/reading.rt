//! Reading of a text: its tree, or its one error.

ghost use Rattle.std.specs.Prelude.{◌≡◌, IfOk};
ghost use Rattle.srb_check.specs.Readings as spec;

use crate::characters::character_at;
use crate::errors::{outside, syntax_error, too_deep};
use rb_decl::parse;
use rb_expr::ParseEnd;
use rb_lex::{LexEnd, Lexer};
use rb_tree::syntax::Tree;
use rb_tree::token::Token;
use srb_terms::{Diag, Span};
use srb_text::Text;
use std::alloc::{AllocError, Global};

/// What a text is read to.
#[derive(Drop)]
pub enum Reading {
    /// The tree of the program that it is.
    Program { tree: Tree },
    /// The error of a text that is no program.
    Refused { error: Diag },
}

/// Whether a token begins at an offset; an empty piece of a string doesn't count.
fn begins_at(at: u32, span: Span) -> bool
    ensures { result ≡ spec.begins_at at span }
{
    span.start == at && at < span.end
}

/// The place of the token that begins at an offset, and the end of a text of `size` bytes where there is none.
fn token_place(tokens: &[Token], size: u32, at: u32) -> Span
    ensures { result ≡ spec.token_place tokens.now size at }
{
    for token in tokens {
        if begins_at(at, token.span) {
            return token.span;
        }
    }
    Span {
        start: size,
        end: size,
    }
}

/// What a text of `size` bytes with these tokens is read to.
fn read_tokens(alloc: Global, tokens: &[Token], size: u32) -> Result<Reading, AllocError>
    ensures { IfOk result (λ r. r ≡ spec.tokens_reading tokens.now size) }
{
    match parse(alloc, tokens) {
        Ok(tree) => Ok(Reading::Program { tree }),
        Err(ParseEnd::Bad { at }) => Ok(Reading::Refused {
            error: syntax_error(alloc, token_place(tokens, size, at))?,
        }),
        Err(ParseEnd::TooDeep { at }) => Ok(Reading::Refused {
            error: too_deep(alloc, token_place(tokens, size, at))?,
        }),
        Err(ParseEnd::NoMemory) => Err(AllocError),
    }
}

/// What a text is read to. The lexer's room is used.
#[tactic(auto, unfolding(crate::specs::Readings::read))]
pub fn read(alloc: Global, lexer: &mut Lexer, text: &Text) -> Result<Reading, AllocError>
    ensures { IfOk result (λ r. r ≡ spec.read text.now) }
{
    let bytes = text.as_str().as_bytes();
    match lexer.lex(alloc, text) {
        Ok(()) => read_tokens(alloc, lexer.tokens(), bytes.len() as u32),
        Err(LexEnd::Bad { at }) => Ok(Reading::Refused {
            error: syntax_error(alloc, character_at(bytes, at))?,
        }),
        Err(LexEnd::Outside { at }) => Ok(Reading::Refused {
            error: outside(alloc, character_at(bytes, at))?,
        }),
        Err(LexEnd::NoMemory) => Err(AllocError),
    }
}
