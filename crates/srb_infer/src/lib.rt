//! The errors of the judgement of a program.
//!
//! `infer` judges each body of a program: `bodies` goes through classes, modules and methods, `walk` judges a tree by what its node is,
//! `conditions` judges it as a condition, and `levels` ties them: a tree is judged by what judges the trees in it, which nest one level less.
//! Each level holds the frames of what judges it, so what judges no tree below, as the type of a name, is never inlined.
#![tactic(auto)]

mod bodies;
mod conditions;
mod levels;
mod walk;

pub use bodies::infer;
pub use levels::Levels;
