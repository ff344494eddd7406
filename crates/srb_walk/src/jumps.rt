//! Jumps.

ghost use Rattle.std.specs.Prelude.{◌≡◌, IfOk};
ghost use Rattle.srb_judgement.specs.Jumps as jumps_spec;
ghost use Rattle.srb_judgement.specs.Kept.{seen_context};
ghost use Rattle.srb_judgement.specs.States.{judged};
ghost use Rattle.srb_judgement.specs.Views.{seen_state};
ghost use Rattle.srb_walk.specs.Known as known;

use crate::walking::Walk;
use rb_tree::syntax::Tree;
use rb_views::place::jump_word;
use srb_judgement::contexts::Context;
use srb_judgement::jumps::jump;
use srb_judgement::language::Language;
use srb_judgement::states::State;
use srb_judgement::types::nil_type;
use srb_terms::{NoMemory, Span, Ty};
use std::alloc::Global;

/// Judges a jump.
pub fn jump_value<W: Walk, L: Language>(
    alloc: Global,
    walk: &W,
    language: &L,
    context: &Context,
    state: &mut State,
    word: rb_tree::syntax::Jump,
    value: &Option<Tree>,
    span: Span,
) -> Result<Ty, NoMemory>
    ensures { IfOk result (λ ty. judged ty (seen_state state.new) ≡ jumps_spec.jump_judged (L.the language.now) word (known.known_option (L.the language.now) value.now) span (seen_context context.now) (seen_state state.old)) }
{
    match value {
        None => {
            let ty = nil_type(language)?;
            jump(
                alloc,
                language,
                context,
                word,
                jump_word(word, span),
                ty,
                state,
            )
        }
        Some(value) => {
            let ty = walk.judge(alloc, language, context, state, value)?;
            jump(alloc, language, context, word, value.span(), ty, state)
        }
    }
}
