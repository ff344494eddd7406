//! The built-in table: what Ruby and Sorbet declare themselves, as the facts of a file that counts before all others.
//!
//! `table` gives the facts of the definition `built_in`: the classes with their superclasses and the modules that they include, then the
//! modules, and then the methods of both with their signatures, which are read from lines of text.
#![tactic(auto)]

ghost use Rattle.std.specs.Prelude.{◌≡◌, IfOk};
ghost use Rattle.srb_builtin.specs.Table.{built_in};

mod marks;
mod methods;
mod outlines;
mod row;
mod rows;
mod takes;
mod types;

use crate::rows::{ROWS, add_rows};
use srb_terms::{Fact, Items, NoMemory};
use std::alloc::Global;

/// The facts of the built-in table, in its order.
pub fn table(alloc: Global) -> Result<Items<Fact>, NoMemory>
    ensures { IfOk result (λ facts. facts ≡ built_in) }
{
    let mut facts = Items::new(alloc);
    add_rows(alloc, &mut facts, &ROWS)?;
    Ok(facts)
}
