//! The order in which trees are judged: statements, literals of several trees, branches, loops, cases and guards.
//!
//! Each function judges one kind of tree, and is given what judges the trees in it (`srb_walk::walking::Walk`). `sequences` judges
//! statements, arrays, hashes and strings with code, `branches` conditionals, `loops` `while` and `until`, `cases` `case`, and `guards`
//! `begin` with `rescue`, `else` and `ensure`.
//!
//! Each level of a nested tree holds the frames of what judges it. So what a level does before or after it judges the tree below, as the
//! join of what `rescue` may have caught, is never inlined; nor is what judges the patterns of a `case`, in which another `case` is rare.
#![tactic(auto)]

pub mod branches;
pub mod cases;
pub mod ends;
pub mod guards;
pub mod loops;
pub mod sequences;
