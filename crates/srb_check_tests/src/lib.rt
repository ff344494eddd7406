//! What the check reports of files and projects: tests alone, above the crates that they try, so that these aren't proved once more with their
//! tests.
#![tactic(auto)]

#[cfg(test)]
mod files;
#[cfg(test)]
mod projects;
