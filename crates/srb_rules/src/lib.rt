//! The rules of the language over plain types: what a list of facts says of the names that it declares, and what a list of links between
//! classes and modules says.
//!
//! Of facts: `kind_of` and `within_of` say what a name is and which names stand in a scope, `superclass_of`, `extended_of` and `links` what
//! superclasses and mixins say, `lin_in` in which order a class or module and its ancestors are looked at, `resolves` for which name a
//! constant stands, `value_type` which type a value constant has by a reading of types, and `conflicts_of` which declarations are errors.
//!
//! Of links: `HasLink` and `Reaches` say what a list of links connects, `IsCircular` which links are circular, `counted` which ones count,
//! and `lin_of` gives the linearization. They know nothing of how any of this is found.
#![tactic(auto)]

mod link;
mod position;

pub use link::Link;
pub use position::Position;
