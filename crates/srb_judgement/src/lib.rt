//! The judgement of types: which type an expression has, in which environment it leaves what follows, where its jumps go, and which errors
//! it has. `specs/` holds it as definitions, and the modules hold the code that goes by them as far as it asks no tree.
//!
//! The judgement is one structural recursion on the tree, `part_of` in `Judgements`: each kind of node has a step that knows of the trees in
//! it only what `Parts` lists, and no tree. What it asks of types, names, type expressions and calls is the record of `Languages`, which
//! the trait `language::Language` answers in code.
//!
//! The code takes what was judged as types, and the state as `&mut State`. A contract sees each of its values by a `seen` function of
//! `Views`, as the record of the definitions, and a context by `SameContext` of `Kept`. A condition leaves the environment of the state
//! open: its two sides are in its answer.
//!
//! Where to look, in `specs/` and for most in a module of the same name: `Environments`, `States` and `Reaching` for what a variable is
//! known to be and what can be reached; `Narrowing` for tests of variables; `Words`, `Operators`, `Chains`, `Calls`, `Blocks` and
//! `Assertions` for expressions; `Assignments` and `Pins` for variables; `Branches`, `Cases`, `Loops`, `Jumps`, `Guards` and `Sequences` for
//! control; `Bodies` for methods, classes and the program; `Errors` for the errors and the levels that show them.
//!
//! `ExampleTypes`, `ExampleCalls` and `ExampleLanguage` are a small language, and the other example files hold small programs in it with the
//! errors that they have. `laws` holds what is proved of them.
#![tactic(auto)]

pub mod assertions;
pub mod assignments;
pub mod blocks;
pub mod bodies;
pub mod built_in;
pub mod calls;
pub mod contexts;
pub mod ends;
pub mod environments;
pub mod errors;
pub mod guards;
pub mod jumps;
pub mod language;
pub mod laws;
pub mod loops;
pub mod meaning;
pub mod narrowing;
pub mod operators;
pub mod pins;
pub mod reaching;
pub mod says;
pub mod sent;
pub mod signature;
pub mod spelling;
pub mod states;
pub mod tested;
pub mod types;
pub mod visible;
pub mod words;
