//! The lexer: the tokens of a Ruby text, or the first place at which the text is refused, and the level that the text asks
//! for in its first comments.
//!
//! A text is seen as the list of its characters, and places count the bytes of its UTF-8. `lex` and `level` are the
//! definitions `lexed_text` and `level_of_text`.
#![tactic(auto)]

ghost use Rattle.std.specs.Prelude.{◌≡◌};
ghost use Rattle.rb_lex.specs.Lexed.{Gives, lexed_text};
ghost use Rattle.rb_lex.specs.Levels.{level_of_text};

mod chars;
mod cut;
mod heading;
mod lexer;
mod met;
mod number;
mod operator;
mod piece;
mod running;
mod state;
mod word;

pub use lexer::Lexer;
use rb_tree::token::Token;
use srb_terms::Level;
use srb_text::Text;
use std::alloc::Global;

/// Why a text has no tokens. The places are in bytes.
#[derive(Clone, Copy, Debug, PartialEq, Eq)]
pub enum LexEnd {
    /// The text is no Ruby from `at` on.
    Bad { at: u32 },
    /// At `at` begins a form of Ruby that is outside the profile.
    Outside { at: u32 },
    NoMemory,
}

/// The level that the text asks for: that of the first comment before the first token that holds `typed:` and a level alone,
/// with blanks around each. Without one it is `False`. It takes no memory.
pub fn level(text: &Text) -> Level
    ensures { result ≡ level_of_text text.now }
{
    heading::level_of(text.as_str().as_bytes())
}

/// The tokens of the text. `Bad` and `Outside` carry the least place at which a rule of the tokens is broken; where both kinds
/// are broken at one place it is `Outside`.
pub fn lex(alloc: Global, text: &Text) -> Result<Vec<Token>, LexEnd>
    ensures { Gives (λ v. v.items) result (lexed_text text.now) }
{
    let mut lexer = Lexer::new(alloc);
    lexer.lex(alloc, text)?;
    Ok(lexer.into_tokens())
}
