//! A session: one thread reads messages, and the other makes the core's steps and writes what they say.
//!
//! The reader takes the frames of the source, decodes their bodies, and puts the messages and then the end of input into the inbox
//! (`reading`). The coordinator makes one step of the core after the other: it takes an input, or finds that there is none, builds the
//! symbol table, works on one file, or replies to `shutdown`; the inbox is looked at before each file, so that a message that comes while a
//! project is checked is taken between two files (`turn` and `coordinate`). Where nothing is left to do it waits. `serve` runs the two and
//! says how the session ends. It needs a second thread: where none can be made, neither of the two is called (`run_pair`), and the session ends
//! as one that is out of memory.
//!
//! What is promised of a session says nothing of threads: `specs/Served.antt` and `specs/Recorded.antt` are over the bytes that were read
//! and written and over the steps that a trace was told. `specs/Deeds.antt` and `specs/Hearing.antt` have the words of the functions inside.
#![tactic(auto)]

mod leading;
mod reading;
mod say;
mod serve_end;
mod serving;
mod turning;

pub use reading::read;
pub use serve_end::ServeEnd;
pub use serving::serve;
pub use turning::{coordinate, turn};
