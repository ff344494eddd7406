//! A lexer for many texts, one after the other.

ghost use Rattle.std.specs.Prelude.{◌≡◌, ◌≤◌, [], length, IfOk};
ghost use Rattle.std.specs.Str.{IsUtf8};
ghost use Rattle.rb_lex.specs.Lexed.{Gives, lexed, lexed_text};
ghost use Rattle.srb_text.specs.Limits.{MOST_BYTES};

use crate::LexEnd;
use crate::met::Met;
use crate::running::lex_bytes;
use crate::state::State;
use rb_tree::token::Token;
use srb_text::Text;
use std::alloc::Global;
use std::marker::Model;

/// How many bytes a token has at least, in most texts: so many tokens have room from the start.
const BYTES_OF_A_TOKEN: usize = 4;

/// A lexer. The room that the tokens of a text took serves those of the next, and long words that were met lately share their bytes.
#[derive(Drop)]
pub struct Lexer {
    tokens: Vec<Token>,
    met: Met,
}

impl Model for Lexer {
    ghost use Rattle.std.specs.Coded.{codes};
    ghost use Rattle.std.specs.Prelude.{List};
    ghost use Rattle.rb_tree.specs.declared.token.Token.{Token};
    ghost use Rattle.rb_tree.specs.contracts.token.Token as token;

    ghost Value = { List Token };

    ghost coded = { Prim.hlevel (codes, token.the_row.coded) };

    ghost view = { λ l. l.tokens.items };
}

impl Lexer {
    /// A lexer that has read nothing. It takes no memory.
    pub fn new(alloc: Global) -> Lexer
        ensures { result ≡ [] }
    {
        Lexer {
            tokens: Vec::new(alloc),
            met: Met::new(alloc),
        }
    }

    /// The list, empty, with room for the tokens of a text of so many bytes.
    fn room(&mut self, alloc: Global, size: usize) -> Result<Vec<Token>, LexEnd>
        ensures { Gives (λ v. v.items) result (Ok []) }
    {
        let mut tokens = std::mem::replace(&mut self.tokens, Vec::new(alloc));
        tokens.clear();
        tokens.reserve(size / BYTES_OF_A_TOKEN)?;
        Ok(tokens)
    }

    /// Reads the bytes of a text. After it the lexer has the text's tokens.
    fn lex_bytes(&mut self, alloc: Global, text: &[u8]) -> Result<(), LexEnd>
        requires small { length text.now ≤ MOST_BYTES }
        requires text { IsUtf8 text.now }
        ensures { Gives (λ _. self.new) result (lexed text.now) }
    {
        let mut state = State::new(alloc, self.room(alloc, text.len())?);
        let result = lex_bytes(alloc, &mut state, &mut self.met, text);
        self.tokens = state.into_tokens();
        result
    }

    /// Reads a text. After it the lexer has the text's tokens. `Bad` and `Outside` carry the least place at which a rule of the tokens is
    /// broken; where both kinds are broken at one place it is `Outside`.
    pub fn lex(&mut self, alloc: Global, text: &Text) -> Result<(), LexEnd>
        ensures { Gives (λ _. self.new) result (lexed_text text.now) }
    {
        self.lex_bytes(alloc, text.as_str().as_bytes())
    }

    /// The tokens of the text that was read last, where it wasn't refused.
    pub fn tokens(&self) -> &[Token]
        ensures { result.now ≡ self.now }
    {
        self.tokens.as_slice()
    }

    /// The tokens of the text that was read last, where it wasn't refused.
    pub fn into_tokens(self) -> Vec<Token>
        ensures { result.items ≡ self }
    {
        let Lexer { tokens, .. } = self;
        tokens
    }
}
