//! The methods of the table's texts.

ghost use Rattle.std.specs.Prelude.{◌≡◌, [], ◌∷◌, ◌++◌, map, IfOk, OnOk};
ghost use Rattle.srb_builtin.specs.Marks.{words};
ghost use Rattle.srb_builtin.specs.Methods as spec;

use crate::marks::{after, before, cut, outside, unblanked};
use crate::outlines::{chain, sig};
use crate::takes::{Takes, takes_in};
use crate::types::type_in;
use srb_terms::{Fact, Items, Name, Names, NoMemory, Outline, SigText};
use std::alloc::Global;

// What the methods of an entry give, by what follows their names.
#[tactic(auto, unfolding(crate::specs::Methods::result_in))]
fn result_in(alloc: Global, text: &str) -> Result<Outline, NoMemory>
    ensures { IfOk result (λ o. o ≡ spec.result_in text.now) }
{
    type_in(alloc, outside(outside(text, '(', ')'), '{', '}'))
}

// The method of an owner, by its name and by what follows the names.
fn method(alloc: Global, owner: &str, text: &str, name: &str) -> Result<Fact, NoMemory>
    ensures { IfOk result (λ fact. fact ≡ spec.method owner.now text.now name.now) }
{
    let Takes { shapes, keywords } = takes_in(alloc, text)?;
    let statement = chain(alloc, keywords, result_in(alloc, text)?)?;
    let tree = sig(alloc, statement)?;
    Ok(Fact::Method {
        owner: Name::from_str(alloc, owner)?,
        scope: Names::new(),
        meta: false,
        name: Name::from_str(alloc, name)?,
        params: shapes,
        sig: Some(SigText { tree }),
    })
}

// Adds the methods of an owner that have these names, with blanks between them.
fn add_methods(
    alloc: Global,
    facts: &mut Items<Fact>,
    owner: &str,
    text: &str,
    names: &str,
) -> Result<(), NoMemory>
    ensures { OnOk result (facts.new ≡ facts.old ++ map (spec.method owner.now text.now) (words names.now)) }
{
    if names.is_empty() {
        return Ok(());
    }
    let mut rest = names;
    'names: while let Some((name, more)) = cut(rest, ' ') {
        facts.push(method(alloc, owner, text, name)?)?;
        rest = more;
    }
    facts.push(method(alloc, owner, text, rest)?)
}

// Adds the methods of an entry.
fn add_entry(
    alloc: Global,
    facts: &mut Items<Fact>,
    owner: &str,
    entry: &str,
) -> Result<(), NoMemory>
    ensures { OnOk result (facts.new ≡ facts.old ++ spec.methods_of_entry owner.now entry.now) }
{
    let names = after(entry, '`');
    let text = unblanked(after(names, '`'));
    add_methods(alloc, facts, owner, text, before(names, '`'))
}

/// Adds the methods of a line.
#[tactic(auto, unfolding(crate::specs::Methods::methods_in))]
pub fn add_line(
    alloc: Global,
    facts: &mut Items<Fact>,
    owner: &str,
    line: &str,
) -> Result<(), NoMemory>
    ensures { OnOk result (facts.new ≡ facts.old ++ spec.methods_in owner.now line.now) }
{
    let mut rest = line;
    'entries: while let Some((entry, more)) = cut(rest, ';') {
        add_entry(alloc, facts, owner, entry)?;
        rest = more;
    }
    add_entry(alloc, facts, owner, rest)
}
