//! What the bodies of messages say, how replies are written, and what copies of messages say: tests alone, above the crate that they try, so
//! that it isn't proved once more with its tests.
#![tactic(auto)]

#[cfg(test)]
mod bodies;
#[cfg(test)]
mod copies;
