//! What the crates below the symbol table and the table itself answer over small lists of facts, written by hand: tests alone, above the crates
//! that they try, so that these aren't proved once more with their tests.
#![tactic(auto)]

#[cfg(test)]
mod ancestors;
#[cfg(test)]
mod built_in;
#[cfg(test)]
mod circles;
#[cfg(test)]
mod signatures;
#[cfg(test)]
mod types;
#[cfg(test)]
mod worlds;
