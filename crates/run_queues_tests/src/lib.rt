//! What the inbox and the results hand over between threads: tests alone, above the crate that they try, so that it isn't proved once more with
//! its tests.
#![tactic(auto)]

#[cfg(test)]
mod inbox;
#[cfg(test)]
mod results;
