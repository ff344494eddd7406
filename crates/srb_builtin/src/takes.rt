//! The parameters of the table's methods.

ghost use Rattle.std.specs.Prelude.{◌≡◌, ◌≤◌, IfOk, OnOk};
ghost use Rattle.srb_builtin.specs.Methods as spec;
ghost use Rattle.srb_builtin.specs.Marks as marks;

use crate::marks::{cut, inside, outside, past};
use crate::outlines::keyword;
use crate::types::type_in;
use srb_terms::{Items, Name, NoMemory, Outline, ParamKind, ParamShape};
use std::alloc::Global;

/// What a method takes.
#[derive(Drop)]
pub struct Takes {
    /// Its parameters, and then those of its block, each as a parameter of kind `Block`.
    pub shapes: Items<ParamShape>,
    /// The same parameters as the keywords of `params`, each with its type.
    pub keywords: Items<Outline>,
}

impl Takes {
    // Adds a parameter of this name and kind, and of the type with which a text begins.
    fn add(
        &mut self,
        alloc: Global,
        name: &str,
        kind: ParamKind,
        text: &str,
    ) -> Result<(), NoMemory>
        ensures { OnOk result (self.new ≡ spec.with_parameter self.old name.now kind text.now) }
    {
        let given = type_in(alloc, text)?;
        self.keywords.push(keyword(alloc, name, given)?)?;
        let name = Name::from_str(alloc, name)?;
        self.shapes.push(ParamShape { name, kind })
    }

    // Adds the parameters by place whose texts stand between blanks.
    fn add_places(&mut self, alloc: Global, text: &str) -> Result<(), NoMemory>
        ensures { OnOk result (self.new ≡ spec.with_places 0 self.old (marks.words text.now)) }
    {
        if text.is_empty() {
            return Ok(());
        }
        let mut index: usize = 0;
        let mut rest = text;
        'places: while let Some((place, more)) = cut(rest, ' ') {
            self.add(
                alloc,
                place_name(index),
                place_kind(place),
                place_type(place),
            )?;
            index += 1;
            rest = more;
        }
        self.add(alloc, place_name(index), place_kind(rest), place_type(rest))
    }

    // Adds the parameters of a block whose types stand between blanks.
    fn add_block(&mut self, alloc: Global, text: &str) -> Result<(), NoMemory>
        ensures { OnOk result (self.new ≡ spec.with_block 0 self.old (marks.words text.now)) }
    {
        if text.is_empty() {
            return Ok(());
        }
        let mut index: usize = 0;
        let mut rest = text;
        'parameters: while let Some((given, more)) = cut(rest, ' ') {
            self.add(alloc, block_name(index), ParamKind::Block, given)?;
            index += 1;
            rest = more;
        }
        self.add(alloc, block_name(index), ParamKind::Block, rest)
    }
}

// The name of a parameter by place, by its number from 0.
fn place_name(index: usize) -> &'static str
    ensures { result.now ≡ spec.place_name index }
{
    match index {
        0 => "arg0",
        1 => "arg1",
        _ => "arg2",
    }
}

// The name of a block's parameter, by its number from 0.
fn block_name(index: usize) -> &'static str
    ensures { result.now ≡ spec.block_name index }
{
    match index {
        0 => "%0",
        1 => "%1",
        _ => "%2",
    }
}

// The kind of a parameter by place.
fn place_kind(text: &str) -> ParamKind
    ensures { result ≡ spec.place_kind text.now }
{
    match past(text, '?') {
        Some(_) => ParamKind::Optional,
        None => match past(text, '*') {
            Some(_) => ParamKind::Rest,
            None => ParamKind::Required,
        },
    }
}

// The text of the type of a parameter by place.
fn place_type(text: &str) -> &str
    ensures { result.now ≡ spec.place_type text.now }
{
    match past(text, '?') {
        Some(rest) => rest,
        None => match past(text, '*') {
            Some(rest) => rest,
            None => text,
        },
    }
}

/// What the methods of an entry take, by what follows their names.
#[tactic(auto, unfolding(crate::specs::Methods::takes_in))]
pub fn takes_in(alloc: Global, text: &str) -> Result<Takes, NoMemory>
    ensures { IfOk result (λ takes. takes ≡ spec.takes_in text.now) }
{
    let mut takes = Takes {
        shapes: Items::new(alloc),
        keywords: Items::new(alloc),
    };
    takes.add_places(alloc, inside(text, '(', ')'))?;
    let block = outside(text, '(', ')');
    takes.add_block(alloc, inside(block, '{', '}'))?;
    Ok(takes)
}
