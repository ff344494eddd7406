//! What a core makes of messages and edits: tests alone, above the crate that they try, so that it isn't proved once more with its tests.
#![tactic(auto)]

#[cfg(test)]
mod cores;
