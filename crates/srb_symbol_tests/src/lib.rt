//! What the symbol crates make of short programs, by way of the lexer and the parser, what calls and references answer in small tables, and
//! the outlines of trees written by hand: tests alone, above the crates that they try.
#![tactic(auto)]

#[cfg(test)]
mod calls;
#[cfg(test)]
mod facts;
#[cfg(test)]
mod lookups;
#[cfg(test)]
mod malformed;
#[cfg(test)]
mod outlines;
#[cfg(test)]
mod references;
#[cfg(test)]
mod signatures;
#[cfg(test)]
mod types;
