//! Assignments: to variables, instance variables, attributes and indexes, also with an operator (`a += 1`, `@a ||= 1`, `a.b &&= 1`).
//!
//! Each function judges one kind of assignment, and is given what judges the trees in it (`srb_walk::walking::Walk`).
#![tactic(auto)]

pub mod assignments;
