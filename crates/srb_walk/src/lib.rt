//! What judges the trees in a tree, and what the judgement asks of them.
//!
//! The judgement is one recursion on the tree, `part_of` of `srb_judgement`. Its code stands in `srb_infer` and the crates `srb_walk_calls`,
//! `srb_walk_assignments` and `srb_walk_control` below it. Each of their functions judges one kind of tree, is given what judges the trees in
//! it, a `walking::Walk`, and calls itself nowhere. `around` keeps what is around a tree. `operators` and `jumps` are judged here.
//!
//! What judges nothing stands apart: `assigned` the variables that a tree assigns, `names` those of rows of trees, `written` how a tree is
//! spelled, which statement it is and where its last one stands, `ending` what stands at its end, and `says` what a condition says of a
//! variable. `laws` holds what is proved of them.
#![tactic(auto)]

pub mod around;
pub mod assigned;
pub mod ending;
pub mod jumps;
pub mod laws;
pub mod names;
pub mod operators;
pub mod says;
pub mod walking;
pub mod written;
