//! What the lexer makes of short texts, and the parser by way of it: tests alone, above the crates that they try, so that these aren't proved
//! once more with their tests, and none but the lexer stands on it.
#![tactic(auto)]

#[cfg(test)]
mod expressions;
#[cfg(test)]
mod guards;
#[cfg(test)]
mod programs;
#[cfg(test)]
mod tokens;
