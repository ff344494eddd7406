//! The core of a session: the machine whose steps take messages, build, work on files and write their errors, and the
//! laws that it keeps whatever messages come.
//!
//! The machine is a definition: `Permits` says which step it may make in a state, `next` what the step leaves, and
//! `written` what it writes. A list of steps that it may make from the start is a `Run`. The module `law` has what holds
//! of every run: what it writes is legal, and once it is over, what a client was shown last of each file is what a fresh
//! check finds there.
//!
//! `Core` is that machine as code, over the errors that `srb_check` finds. A contract sees its state, and each of its calls
//! that changes it makes one step: the word `Makes` says that the step is permitted, which state it leaves and what it
//! writes. So the calls of a whole session are a `Run`, and the laws hold of what they wrote. After memory ran out a core
//! is as it was.
#![tactic(auto)]

mod answers;
mod builds;
mod checks;
mod core_calls;
mod fate;
mod landed;
pub mod law;
mod mark;
mod phase;
mod row;
mod rows;

pub use core_calls::Core;
pub use landed::Landed;
