//! The plain types that the whole program carries: texts, spans and diagnostics, lists and boxes for trees, the
//! project, the causes by which a command ends, and a counter of steps.
//!
//! A contract sees a `Words` and a `Name` as the list of their bytes, an `Items` as the list of its elements, a `Boxed`
//! as its value, and the other types as the records and variants that they are. So two values are equal in a contract
//! exactly where they hold the same content, also inside a tree of such types.
#![tactic(auto)]

mod boxed;
mod cause;
mod diag;
mod ended;
mod entry;
mod fact;
mod items;
mod level;
mod name;
mod names;
mod outline;
mod param_kind;
mod path_map;
mod project;
mod span;
mod spelling;
mod steps;
#[cfg(test)]
mod tests;
mod ty;
mod words;
mod world;

pub use boxed::Boxed;
pub use cause::Cause;
pub use diag::Diag;
pub use ended::Ended;
pub use entry::Entry;
pub use fact::{Fact, Given, How, Kind, ParamShape, Path, Shapes};
pub use items::Items;
pub use level::Level;
pub use name::Name;
pub use names::Names;
pub use outline::{Label, NodeKind, Outline, SigText, TyText};
pub use param_kind::ParamKind;
pub use path_map::PathMap;
pub use project::{Project, ProjectFile};
pub use span::Span;
pub use steps::Steps;
pub use ty::{Method, Param, Ty, Tys};
pub use words::Words;
pub use world::World;

/// Out of memory, the one answer that no contract rules out.
pub type NoMemory = std::alloc::AllocError;
