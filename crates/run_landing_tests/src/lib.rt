//! What a core makes of errors that were found by the job of a build: tests alone, above the crate that they try, so that it isn't proved once
//! more with its tests.
#![tactic(auto)]

#[cfg(test)]
mod landing;
