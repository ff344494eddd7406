//! The messages of a session: what the client says (`Msg`), what the server says (`Out`), and the JSON bodies of both
//! (JSON-RPC 2.0; LSP 3.17).
//!
//! A contract sees a text as the list of its bytes and a list as the list of its elements, so two messages are equal
//! in a contract exactly where they say the same.
//!
//! `decode` answers, for every body, what the definition `decoded` says of it: the first case that fits. `encode` writes
//! exactly the body `body_of` of a message, the compact text of its object `object_of`, and what it writes is read back
//! as that object. A list of errors is written token by token, and of each other message the object is built first. Both
//! may want memory, and have no other refusal.
#![tactic(auto)]

mod change;
mod encodings;
mod error_code;
mod id;
mod lists;
mod msg;
mod out;
mod params;
mod placed;
mod reading;
mod reason;
mod writing;

pub use change::Change;
pub use encodings::{chosen_encoding, encoding_name};
pub use error_code::{
    INVALID_PARAMS, INVALID_REQUEST, METHOD_NOT_FOUND, PARSE_ERROR, SERVER_NOT_INITIALIZED,
};
pub use id::Id;
pub use msg::Msg;
pub use out::Out;
pub use placed::Placed;
pub use reading::decode;
pub use reason::Reason;
pub use writing::encode;
