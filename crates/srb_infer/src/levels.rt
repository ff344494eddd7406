//! Levels of judgement: a tree is judged by what judges the trees in it, which nest one level less.
//!
//! Each function of the walk is given what judges the parts of a tree, and calls itself nowhere. `Levels` ties them: its first level judges a
//! tree by the level below. So trees are judged to the depth of the levels that are made. Each level takes its part of the stack. They are made
//! once for many programs: their boxes, made anew for each, would lie wherever small pieces of memory are free.

use crate::conditions::test_node;
use crate::walk::judge_node;
use rb_tree::syntax::Tree;
use srb_judgement::contexts::Context;
use srb_judgement::language::Language;
use srb_judgement::states::State;
use srb_judgement::tested::Tested;
use srb_terms::{NoMemory, Ty};
use srb_walk::walking::Walk;
use std::alloc::{AllocError, Global};

/// Levels on levels: each judges the parts of a tree by those below it. Where no level is left, it answers that memory ran out.
#[derive(Drop)]
pub enum Levels {
    /// No level is left.
    Bottom,
    /// A level above others.
    More(Box<Levels>),
}

impl Levels {
    /// Enough levels for most programs.
    pub fn usual(alloc: Global) -> Result<Levels, NoMemory> {
        Levels::new(alloc, USUAL)
    }

    /// As many levels as are tried at most.
    pub(crate) fn most(alloc: Global) -> Result<Levels, NoMemory> {
        Levels::new(alloc, MOST)
    }

    /// So many levels.
    fn new(alloc: Global, count: u32) -> Result<Levels, NoMemory> {
        let mut levels = Levels::Bottom;
        for _ in 0..count {
            levels = Levels::More(Box::new(alloc, levels)?);
        }
        Ok(levels)
    }
}

/// How deep the nodes of most programs nest.
const USUAL: u32 = 64;

/// How many levels are tried at most. The parser refuses what nests deeper than 200, and what nests once is a few nodes in one another; that
/// this is enough for every program isn't proved.
const MOST: u32 = 2048;

impl Walk for Levels {
    #[cycle(levels)]
    fn judge<L: Language>(
        &self,
        alloc: Global,
        language: &L,
        context: &Context,
        state: &mut State,
        tree: &Tree,
    ) -> Result<Ty, NoMemory> {
        match self {
            Levels::Bottom => Err(AllocError),
            Levels::More(below) => judge_node(alloc, &**below, language, context, state, tree),
        }
    }

    #[cycle(levels)]
    fn test<L: Language>(
        &self,
        alloc: Global,
        language: &L,
        context: &Context,
        state: &mut State,
        tree: &Tree,
    ) -> Result<Tested, NoMemory> {
        match self {
            Levels::Bottom => Err(AllocError),
            Levels::More(below) => test_node(alloc, &**below, language, context, state, tree),
        }
    }
}
