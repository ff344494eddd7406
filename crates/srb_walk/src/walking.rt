//! What judges the trees in a tree.
//!
//! Each function that judges a kind of tree is given what judges the trees in it, and calls itself nowhere.

ghost use Rattle.std.specs.Prelude.{◌≡◌, IfOk};
ghost use Rattle.srb_judgement.specs.Kept.{seen_context};
ghost use Rattle.srb_judgement.specs.States.{judged};
ghost use Rattle.srb_judgement.specs.Views.{seen_state, seen_tested, settled};
ghost use Rattle.srb_walk.specs.Judging as spec;

use rb_tree::syntax::Tree;
use srb_judgement::contexts::Context;
use srb_judgement::language::Language;
use srb_judgement::states::State;
use srb_judgement::tested::Tested;
use srb_terms::{NoMemory, Ty};
use std::alloc::Global;

/// What judges trees.
pub trait Walk {
    /// Judges a tree, and answers its type.
    fn judge<L: Language>(
        &self,
        alloc: Global,
        language: &L,
        context: &Context,
        state: &mut State,
        tree: &Tree,
    ) -> Result<Ty, NoMemory>
        ensures { IfOk result (λ ty. judged ty (seen_state state.new) ≡ spec.judge_of (L.the language.now) tree.now (seen_context context.now) (seen_state state.old)) };

    /// Judges a tree as a condition.
    fn test<L: Language>(
        &self,
        alloc: Global,
        language: &L,
        context: &Context,
        state: &mut State,
        tree: &Tree,
    ) -> Result<Tested, NoMemory>
        ensures { IfOk result (λ t. settled (seen_tested t (seen_state state.new)) ≡ settled (spec.test_of (L.the language.now) tree.now (seen_context context.now) (seen_state state.old))) };
}
