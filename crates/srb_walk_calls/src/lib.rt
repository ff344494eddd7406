//! Calls and rows of suffixes: `a.b(1)[2]`, `foo 1`, `A::B`, forms of `T`, arguments and blocks.
//!
//! Each function judges one kind of call, and is given what judges the trees in it (`srb_walk::walking::Walk`). `calls` judges arguments,
//! blocks and calls, `rows` an operand with its suffixes, and `steps` takes the steps of `srb_judgement` with the context around.
#![tactic(auto)]

pub mod calls;
pub mod rows;
pub mod steps;
