//! The documents of a session: the files of the project, the open ones among them, and what each message about a
//! document does to them.
//!
//! What a message does, and why it is refused, is the definition `applied`, over `Documents`: the project, the texts
//! that were saved, the open paths, and what the client and the server agreed on, the root's URI and the encoding of
//! positions. A path and its URI are tied by `uri_below` and `path_below`, and the module `law` says that one is read
//! back from the other.
#![tactic(auto)]

mod applied;
mod apply;
mod changes;
mod doc;
mod doc_end;
mod docs;
pub mod law;
mod places;
mod plan;
mod rows;
mod texts;
mod uris;

pub use applied::Applied;
pub use apply::FILES_LIMIT;
pub use doc::Doc;
pub use doc_end::DocEnd;
pub use docs::Docs;
pub use plan::Plan;
