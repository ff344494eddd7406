//! Where the bytes of names and texts lie: tests alone, above the crate that they try, so that it isn't proved once more with them.
#![tactic(auto)]

#[cfg(test)]
mod spellings;
