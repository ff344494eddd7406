//! Type expressions and signatures, read from trees without places, by the names that the symbol table holds.
//!
//! `read_type` answers the type of an expression, or its first wrong part; `type_or_untyped` the type as a declaration has it; `wrong_parts`
//! all wrong parts. `read_sig` answers what a signature says of a method, and `read_sig_of` the same of parameters in a slice. Where the
//! table stands for some facts, each answer is what the rules say of these facts.
#![tactic(auto)]

mod chain;
mod expressions;
mod fitting;
mod forming;
mod forms;
pub mod laws;
mod leaves;
mod named;
mod paths;
mod reading;
mod signature;
mod types;
mod typing;
mod wrong;

pub use forms::{TypeForm, type_form};
pub use signature::{SigEnd, SigRead, read_sig, read_sig_of};
pub use types::{read_type, type_or_untyped, wrong_parts};
pub use wrong::{Cause, TyEnd, WrongPart};
