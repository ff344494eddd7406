//! What the judgement of types asks of a project, answered by its symbol table: types and their comparison, what constants stand for, type
//! expressions and signatures, and calls.
//!
//! `ProjectLanguage` answers what `language_of` says of what the symbol table holds. The definitions speak of a record of what is known of a
//! project, `Knowledge`, so that the same is said of facts.
#![tactic(auto)]

mod calls;
mod language;
mod names;
mod ready;
mod same;
mod signatures;
mod types;

pub use language::ProjectLanguage;
