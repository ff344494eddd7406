//! The loop over a text.

ghost use Rattle.std.specs.Prelude.{◌≡◌, ◌≤◌, length};
ghost use Rattle.std.specs.Str.{IsUtf8};
ghost use Rattle.rb_lex.specs.Lexed.{Gives, START, lexed};
ghost use Rattle.srb_text.specs.Limits.{MOST_BYTES};

use crate::LexEnd;
use crate::chars::after;
use crate::met::Met;
use crate::state::State;
use std::alloc::Global;

/// Takes the bytes of a text in steps, from the state at the start of one. After it the state has the text's tokens.
pub fn lex_bytes(alloc: Global, state: &mut State, met: &mut Met, text: &[u8]) -> Result<(), LexEnd>
    requires small { length text.now ≤ MOST_BYTES }
    requires text { IsUtf8 text.now }
    requires start { state.old ≡ START }
    ensures { Gives (λ _. state.new.tokens) result (lexed text.now) }
{
    let mut at: u32 = 0;
    let mut rest = text;
    while !rest.is_empty() {
        match state.step(alloc, met, at, rest) {
            Ok(len) => {
                at += len as u32;
                rest = after(rest, len);
            }
            Err(end) => return Err(end),
        }
    }
    state.finish(at)
}
