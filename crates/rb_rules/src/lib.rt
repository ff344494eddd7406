//! The rules of the language, in its own words: which tokens a text has, by a constructor for each spelling, which trees a list
//! of tokens has, by a constructor for each production of the grammar, and where a text or a list of tokens is refused. They
//! know nothing of how tokens and trees are found.
//!
//! `Lexes` says which tokens a text has, `OutsideAt` and `BadCharAt` where it is refused, and `Asks` which level it asks for.
//! `Derives` says that a list of tokens is a program and that a tree is its tree, `BadAt` where a list is refused, `EndsEarly`
//! that more tokens are wanted.
#![tactic(auto)]
