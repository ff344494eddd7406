//! Types in normal form: unions, intersections, arrays and hashes of types, and the text that a type is shown as.
#![tactic(auto)]

mod depth;
mod joins;
mod meets;
mod names;
mod order;
mod parts;
mod showing;
mod unions;

pub use depth::{array, hash};
pub use joins::any_after;
pub use meets::{all, meet};
pub use showing::show;
pub use unions::{any, without};
