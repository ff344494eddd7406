//! Rounds of the coordinator, the reader, and whole sessions: tests alone, above the crates that they try, so that these aren't proved once more
//! with their tests.
#![tactic(auto)]

#[cfg(test)]
mod serving;
