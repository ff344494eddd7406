//! Blocks of calls.

ghost use Rattle.std.specs.Prelude.{◌≡◌, [], ◌∷◌, ◌++◌, map, IfOk, OnOk};
ghost use Rattle.srb_terms.specs.NameSets.{has_name};
ghost use Rattle.srb_judgement.specs.Blocks as spec;
ghost use Rattle.srb_judgement.specs.Kept.{AtEach};
ghost use Rattle.srb_judgement.specs.States.{judged};
ghost use Rattle.srb_judgement.specs.Steps.{added_if, begun_kept, entry_kept, first_type, is_outer, left_kept, other_types, outer_after, parameters_after, put_back};
ghost use Rattle.srb_judgement.specs.Views.{seen_aside, seen_block_judged, seen_environment, seen_left, seen_row, seen_state};

use crate::built_in::BuiltIn;
use crate::contexts::Context;
use crate::environments::Environment;
use crate::language::Language;
use crate::loops::{any_left, with_unseen};
use crate::states::{Jumps, Left, Row, State, no_jumps};
use crate::types::any_if;
use srb_terms::{Items, Name, NoMemory, Ty};
use std::alloc::Global;

/// What is set aside while a block or a guard is judged: the environment at its entry, and the jumps and assignments before it.
#[derive(Drop)]
pub struct Aside {
    pub environment: Environment,
    pub jumps: Jumps,
    pub assigned: Items<Row>,
}

/// A block that was judged.
#[derive(Drop)]
pub struct BlockJudged {
    /// The `T.any` of its last type and its `next` types.
    pub ty: Ty,
    /// The types of its `break`s.
    pub breaks: Items<Ty>,
}

/// Whether a name is one of these.
fn is_among(names: &[Name], name: &Name) -> bool
    ensures { result ≡ has_name name.now names.now }
{
    'names: for one in names {
        if one.as_str() == name.as_str() {
            return true;
        }
    }
    false
}

/// Sets the jumps and assignments aside, with a copy of the environment.
pub fn set_aside(alloc: Global, state: &mut State) -> Result<Aside, NoMemory>
    ensures aside { IfOk result (λ a. seen_aside a ≡ record (seen_state state.old) { errors = [] }) }
    ensures state { OnOk result (seen_state state.new ≡ record (seen_state state.old) { breaks = []; nexts = []; assigned = [] }) }
{
    let environment = state.environment.copied(alloc)?;
    Ok(Aside {
        environment,
        jumps: std::mem::replace(&mut state.jumps, no_jumps(alloc)),
        assigned: std::mem::replace(&mut state.assigned, Items::new(alloc)),
    })
}

/// The first of these types, `T.untyped` where there is none.
fn first_type<L: Language>(language: &L, types: &[Ty]) -> Result<Ty, NoMemory>
    ensures { IfOk result (λ t. t ≡ first_type (L.the language.now).untyped types.now) }
{
    match types {
        [] => Ok(language.untyped()),
        [ty, ..] => ty.copied(),
    }
}

/// The types after the first.
fn other_types<'a>(types: &'a [Ty]) -> &'a [Ty]
    ensures { result.now ≡ other_types types.now }
{
    match types {
        [] => types,
        [_, rest @ ..] => rest,
    }
}

/// The environment in which the parameters have these types, and those past the types `T.untyped`.
fn with_parameters<L: Language>(
    language: &L,
    parameters: &[Name],
    types: &[Ty],
    e: Environment,
) -> Result<Environment, NoMemory>
    ensures { IfOk result (λ r. seen_environment r ≡ parameters_after (L.the language.now) parameters.now types.now (seen_environment e)) }
{
    let mut all = e;
    let mut left = types;
    'parameters: for name in parameters {
        all = all.assigned(name.copied()?, first_type(language, left)?)?;
        left = other_types(left);
    }
    Ok(all)
}

/// The type of a variable that a block assigns and that isn't visible outside.
fn new_type<L: Language>(language: &L, looping: bool) -> Result<Ty, NoMemory>
    ensures { IfOk result (λ r. r ≡ spec.new_type (L.the language.now) looping) }
{
    if looping {
        Ok(language.untyped())
    } else {
        language.built_in(BuiltIn::NilClass).copied()
    }
}

/// The environment in which a block begins, by that at its entry. The context is that outside of the block.
fn entry_with<L: Language>(
    language: &L,
    context: &Context,
    parameters: &[Name],
    assigns: &[Name],
    types: &[Ty],
    e: Environment,
) -> Result<Environment, NoMemory>
    ensures { IfOk result (λ r. seen_environment r ≡ entry_kept (L.the language.now) context.now parameters.now assigns.now types.now (seen_environment e)) }
{
    let new = new_type(language, context.looping)?;
    let begun = with_unseen(context, &new, assigns, e)?;
    with_parameters(language, parameters, types, begun)
}

/// Begins a block in its environment.
fn begin_with<L: Language>(
    alloc: Global,
    language: &L,
    context: &Context,
    parameters: &[Name],
    assigns: &[Name],
    types: &[Ty],
    state: &mut State,
) -> Result<Aside, NoMemory>
    ensures aside { IfOk result (λ a. seen_aside a ≡ record (seen_state state.old) { errors = [] }) }
    ensures state { OnOk result (seen_state state.new ≡ begun_kept (L.the language.now) context.now parameters.now assigns.now types.now (seen_state state.old)) }
{
    let aside = set_aside(alloc, state)?;
    let before = state.take_environment();
    state.environment = entry_with(language, context, parameters, assigns, types, before)?;
    Ok(aside)
}

/// Begins a block with these parameters and the types that the call gives them, which assigns these variables. The context is that outside
/// of the block.
pub fn begin_block<L: Language>(
    alloc: Global,
    language: &L,
    context: &Context,
    parameters: &[Name],
    assigns: &[Name],
    types: &[Ty],
    state: &mut State,
) -> Result<Aside, NoMemory>
    ensures aside { IfOk result (λ a. seen_aside a ≡ record (seen_state state.old) { errors = [] }) }
    ensures state { OnOk result (AtEach context.now (λ c. seen_state state.new ≡ spec.state_with (L.the language.now) parameters.now assigns.now types.now c (seen_state state.old))) }
{
    begin_with(alloc, language, context, parameters, assigns, types, state)
}

/// Whether an assignment of a block is one to an outer variable.
fn is_outer(context: &Context, parameters: &[Name], row: &Row) -> bool
    ensures { result ≡ is_outer context.now parameters.now (seen_row row.now) }
{
    context.is_visible(&row.name) && !is_among(parameters, &row.name)
}

/// Adds a copy of an assignment.
fn add_copy(row: &Row, all: &mut Items<Row>) -> Result<(), NoMemory>
    ensures { OnOk result (all.new ≡ all.old ++ row.now ∷ []) }
{
    all.push(Row {
        name: row.name.copied()?,
        ty: row.ty.copied()?,
    })
}

/// Adds an assignment of a block, where it is one to an outer variable.
fn add_outer(
    context: &Context,
    parameters: &[Name],
    row: &Row,
    all: &mut Items<Row>,
) -> Result<(), NoMemory>
    ensures { OnOk result (all.new ≡ added_if (is_outer context.now parameters.now (seen_row row.now)) all.old row.now) }
{
    if is_outer(context, parameters, row) {
        add_copy(row, all)
    } else {
        Ok(())
    }
}

/// What a block gave to outer variables, after what was assigned before it.
fn with_outer(
    context: &Context,
    parameters: &[Name],
    before: Items<Row>,
    rows: &[Row],
) -> Result<Items<Row>, NoMemory>
    ensures { IfOk result (λ all. all ≡ outer_after context.now parameters.now before rows.now) }
{
    let mut all = before;
    'rows: for row in rows {
        add_outer(context, parameters, row, &mut all)?;
    }
    Ok(all)
}

/// The types that jumps carry.
fn left_types(alloc: Global, lefts: &[Left]) -> Result<Items<Ty>, NoMemory>
    ensures { IfOk result (λ types. types ≡ map spec.left_type (map seen_left lefts.now)) }
{
    let mut types = Items::new(alloc);
    'lefts: for left in lefts {
        types.push(left.ty.copied()?)?;
    }
    Ok(types)
}

/// The environment after a block call: that at the block's entry, or that at its end where the entry isn't live.
fn after_block(entry: Environment, end: Environment) -> Environment
    ensures { seen_environment result ≡ spec.after_block (seen_environment entry) (seen_environment end) }
{
    match entry {
        Environment::Live(rows) => Environment::Live(rows),
        Environment::Dead => end,
        Environment::Silent => end,
    }
}

/// Puts back what was set aside, with what the block gave to outer variables. The answer is the block's own jumps.
#[tactic(auto, using(crate::proofs::Steps::outer_passed))]
fn put_back(
    context: &Context,
    parameters: &[Name],
    aside: Aside,
    state: &mut State,
) -> Result<Jumps, NoMemory>
    ensures jumps { IfOk result (λ own. own ≡ state.old.jumps) }
    ensures state { OnOk result (seen_state state.new ≡ put_back context.now parameters.now (seen_aside aside) (seen_state state.old)) }
{
    let Aside {
        environment,
        jumps,
        assigned,
    } = aside;
    let end = state.take_environment();
    state.environment = after_block(environment, end);
    state.assigned = with_outer(context, parameters, assigned, state.assigned.as_slice())?;
    Ok(std::mem::replace(&mut state.jumps, jumps))
}

/// Ends a block.
fn end_with<L: Language>(
    alloc: Global,
    language: &L,
    context: &Context,
    parameters: &[Name],
    aside: Aside,
    ty: Ty,
    state: &mut State,
) -> Result<BlockJudged, NoMemory>
    ensures { IfOk result (λ b. seen_block_judged b (seen_state state.new) ≡ left_kept (L.the language.now) context.now parameters.now (seen_aside aside) (judged ty (seen_state state.old))) }
{
    let is_live = state.environment.is_live();
    let first = any_if(alloc, language, &language.never(), is_live, ty)?;
    let own = put_back(context, parameters, aside, state)?;
    Ok(BlockJudged {
        ty: any_left(alloc, language, first, own.nexts.as_slice())?,
        breaks: left_types(alloc, own.breaks.as_slice())?,
    })
}

/// Ends a block with these parameters, whose body has this type. The context is that outside of the block.
pub fn end_block<L: Language>(
    alloc: Global,
    language: &L,
    context: &Context,
    parameters: &[Name],
    aside: Aside,
    ty: Ty,
    state: &mut State,
) -> Result<BlockJudged, NoMemory>
    ensures { IfOk result (λ b. AtEach context.now (λ c. seen_block_judged b (seen_state state.new) ≡ spec.left_with (L.the language.now) parameters.now c (seen_aside aside) (judged ty (seen_state state.old)))) }
{
    end_with(alloc, language, context, parameters, aside, ty, state)
}
