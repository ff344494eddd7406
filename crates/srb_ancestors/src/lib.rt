//! Circular references between classes and modules, and their linearizations.
//!
//! `circular` lists the references that are circular, exactly by `circular_links`. `linearize` gives each name that stands in a link its
//! linearization, exactly by `lin_of`, or names the first class or module that reaches itself. Both take the links of the deciding
//! superclasses and of the includes that count, at most one superclass for a name. They take time and memory in the size of the links
//! where no link is circular and no class has both a long list of ancestors and modules of its own: lists share their ends.
//!
//! `laws` says what `is_circular` and `lin_of` mean in plain words: ways along links, and the equation of the linearization.
#![tactic(auto)]

mod circles;
pub mod laws;
mod lin_end;
mod linearization;
mod lins;
mod order;
mod rows;
mod search;
mod settled;
mod step;

pub use circles::circular;
pub use lin_end::LinEnd;
pub use linearization::linearize;
pub use lins::Lins;
pub use srb_rules::Link;
use srb_terms::Items;

/// References between classes and modules, in the order of the facts.
pub type Parents = Items<Link>;
