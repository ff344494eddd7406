//! Calls: what a call answers, what it gives to its block, and its errors, by the receiver and the arguments.
//!
//! `call` answers part by part of the receiver, in shown order, and joins the answers, as the definition `call_of` says. The judgement of
//! expressions rests on it: it judges receiver and arguments first, then calls `call`, and then judges the block.
#![tactic(auto)]

mod args;
mod blocks;
mod calls;
mod counts;
mod keywords;
mod letters;
mod matching;
mod messages;
mod order;

pub use args::{Arg, Args, CallEnd, GivenBlock, KeyArg, Recv};
pub use calls::call;
