//! Bodies with `rescue` clauses, `else` and `ensure`.

ghost use Rattle.std.specs.Prelude.{◌≡◌, [], ◌++◌, map, Some, IfOk, OnOk};
ghost use Rattle.std.specs.Option.{option_copied};
ghost use Rattle.srb_judgement.specs.Ends as ends_spec;
ghost use Rattle.srb_judgement.specs.Environments.{Silent};
ghost use Rattle.srb_judgement.specs.Guards as spec;
ghost use Rattle.srb_judgement.specs.Kept.{AtEach, sees};
ghost use Rattle.srb_judgement.specs.States.{judged};
ghost use Rattle.srb_judgement.specs.Steps.{added_if, passed};
ghost use Rattle.srb_judgement.specs.Views.{seen_aside, seen_before, seen_ends, seen_environment, seen_left, seen_meaning, seen_row, seen_rows, seen_spelling, seen_state};

use crate::blocks::Aside;
use crate::built_in::BuiltIn;
use crate::contexts::Context;
use crate::ends::{Ends, all_ends, no_ends, with_first_end};
use crate::environments::{Environment, Rows, copied_rows, variable_type, with_type};
use crate::language::Language;
use crate::meaning::Meaning;
use crate::pins::assign;
use crate::spelling::Spelling;
use crate::states::{Jumps, Left, Row, State, no_jumps};
use rb_tree::syntax::PlacedName;
use srb_terms::{Items, Name, Names, NoMemory, Ty};
use std::alloc::Global;

/// The jumps and assignments before a guard.
#[derive(Drop)]
pub struct Before {
    pub jumps: Jumps,
    pub assigned: Items<Row>,
}

// ---- the environment in which a clause begins

/// The map in which each variable also has the type that an assignment gave it.
fn with_assigned<L: Language>(
    alloc: Global,
    language: &L,
    rows: Rows,
    assigned: &[Row],
) -> Result<Rows, NoMemory>
    ensures { IfOk result (λ r. seen_rows r.entries ≡ spec.with_assigned (L.the language.now) (seen_rows rows.entries) (map seen_row assigned.now)) }
{
    let mut all = rows;
    'assigned: for row in assigned {
        let ty = language.any(alloc, variable_type(language, &all, &row.name), &row.ty)?;
        all = with_type(all, row.name.copied()?, ty)?;
    }
    Ok(all)
}

/// The environment in which clauses begin, by that at the entry of the guard and the assignments in its body.
pub fn handled<L: Language>(
    alloc: Global,
    language: &L,
    entry: &Environment,
    assigned: &[Row],
) -> Result<Environment, NoMemory>
    ensures { IfOk result (λ e. seen_environment e ≡ spec.handled (L.the language.now) (seen_environment entry.now) (map seen_row assigned.now)) }
{
    match entry {
        Environment::Live(rows) => {
            let rows = copied_rows(alloc, rows)?;
            Ok(Environment::Live(with_assigned(alloc, language, rows, assigned)?))
        }
        Environment::Dead => Ok(Environment::Dead),
        Environment::Silent => Ok(Environment::Silent),
    }
}

// ---- what a clause catches

/// The instances of the exception that a path means.
fn exception_meant<L: Language>(
    alloc: Global,
    language: &L,
    meaning: &Meaning,
) -> Result<Option<Ty>, NoMemory>
    ensures { IfOk result (λ t. t ≡ spec.exception_meant (L.the language.now) (seen_meaning meaning.now)) }
{
    match meaning {
        Meaning::Class(name) => {
            if language.is_exception(name) {
                Ok(Some(language.instance(alloc, name)?))
            } else {
                Ok(None)
            }
        }
        Meaning::Module(_) => Ok(None),
        Meaning::Value(_) => Ok(None),
        Meaning::Unresolved => Ok(None),
    }
}

/// The instances of the exception that a pattern with this spelling is.
fn exception_in<L: Language>(
    alloc: Global,
    language: &L,
    scope: &Names,
    spelling: &Spelling,
) -> Result<Option<Ty>, NoMemory>
    ensures { IfOk result (λ t. t ≡ spec.exception_in (L.the language.now) scope.now (seen_spelling spelling.now)) }
{
    match spelling {
        Spelling::NameAlone(_) => Ok(None),
        Spelling::NilWord => Ok(None),
        Spelling::ConstantPath(path) => {
            let meaning = language.meaning(alloc, scope, path)?;
            exception_meant(alloc, language, &meaning)
        }
        Spelling::Other => Ok(None),
    }
}

/// With one more exception, where all patterns are exceptions.
fn with_exception<L: Language>(
    alloc: Global,
    language: &L,
    so_far: Option<Ty>,
    found: Option<Ty>,
) -> Result<Option<Ty>, NoMemory>
    ensures { IfOk result (λ t. t ≡ spec.with_exception (L.the language.now) so_far found) }
{
    match so_far {
        None => Ok(None),
        Some(all) => match found {
            None => Ok(None),
            Some(ty) => Ok(Some(language.any(alloc, &all, &ty)?)),
        },
    }
}

/// The `T.any` of a type and the exceptions that patterns with these spellings are. `None` where one is none.
fn exceptions<L: Language>(
    alloc: Global,
    language: &L,
    scope: &Names,
    so_far: Option<Ty>,
    patterns: &[Spelling],
) -> Result<Option<Ty>, NoMemory>
    ensures { IfOk result (λ t. t ≡ spec.exceptions_in (L.the language.now) scope.now so_far (map seen_spelling patterns.now)) }
{
    let mut all = so_far;
    'patterns: for pattern in patterns {
        let found = exception_in(alloc, language, scope, pattern)?;
        all = with_exception(alloc, language, all, found)?;
    }
    Ok(all)
}

/// The `T.any` of the exceptions that patterns with these spellings are, or `T.untyped` where one is none.
fn any_exception<L: Language>(
    alloc: Global,
    language: &L,
    scope: &Names,
    patterns: &[Spelling],
) -> Result<Ty, NoMemory>
    ensures { IfOk result (λ t. t ≡ spec.or_untyped (L.the language.now) (spec.exceptions_in (L.the language.now) scope.now (Some (L.the language.now).never) (map seen_spelling patterns.now))) }
{
    match exceptions(alloc, language, scope, Some(language.never()), patterns)? {
        None => Ok(language.untyped()),
        Some(ty) => Ok(ty),
    }
}

/// The type of what a clause with these patterns catches, in the bodies `scope`.
pub fn caught_type<L: Language>(
    alloc: Global,
    language: &L,
    scope: &Names,
    patterns: &[Spelling],
) -> Result<Ty, NoMemory>
    ensures { IfOk result (λ t. t ≡ spec.caught_in (L.the language.now) scope.now (map seen_spelling patterns.now)) }
{
    match patterns {
        [] => language.built_in(BuiltIn::StandardError).copied(),
        [_, ..] => any_exception(alloc, language, scope, patterns),
    }
}

/// Assigns what a clause catches to its variable, if it has one.
pub fn catch<L: Language>(
    alloc: Global,
    language: &L,
    context: &Context,
    variable: Option<&PlacedName>,
    ty: &Ty,
    state: &mut State,
) -> Result<(), NoMemory>
    ensures { OnOk result (AtEach context.now (λ c. seen_state state.new ≡ spec.caught (L.the language.now) (option_copied variable.entry) ty.now c (seen_state state.old))) }
{
    match variable {
        None => Ok(()),
        Some(x) => assign(alloc, language, context, &x.name, ty, x.span, state),
    }
}

// ---- `ensure`

/// Begins an `ensure`, with the environment at the entry of the guard. The answer is the jumps of all parts before it.
pub fn begin_ensure<L: Language>(
    alloc: Global,
    language: &L,
    entry: &Environment,
    state: &mut State,
) -> Result<Jumps, NoMemory>
    ensures state { OnOk result (seen_state state.new ≡ record (seen_state state.old) { environment = spec.handled (L.the language.now) (seen_environment entry.now) (seen_state state.old).assigned; breaks = []; nexts = [] }) }
    ensures jumps { IfOk result (λ jumps. jumps ≡ state.old.jumps) }
{
    state.environment = handled(alloc, language, entry, state.assigned.as_slice())?;
    Ok(std::mem::replace(&mut state.jumps, no_jumps(alloc)))
}

/// Copies of names, in order.
fn copied_names(alloc: Global, names: &[Name]) -> Result<Items<Name>, NoMemory>
    ensures { IfOk result (λ copies. copies ≡ names.now) }
{
    let mut copies = Items::new(alloc);
    'names: for name in names {
        copies.push(name.copied()?)?;
    }
    Ok(copies)
}

/// Adds a variable, where it is visible.
fn add_seen(context: &Context, name: &Name, all: &mut Items<Name>) -> Result<(), NoMemory>
    ensures { OnOk result (all.new ≡ added_if (sees context.now name.now) all.old name.now) }
{
    if context.is_visible(name) {
        all.push(name.copied()?)
    } else {
        Ok(())
    }
}

/// The variables so far, and those of these that are visible.
fn with_seen(
    context: &Context,
    so_far: Items<Name>,
    names: &[Name],
) -> Result<Items<Name>, NoMemory>
    ensures { IfOk result (λ all. all ≡ passed (sees context.now) so_far names.now) }
{
    let mut all = so_far;
    'names: for name in names {
        add_seen(context, name, &mut all)?;
    }
    Ok(all)
}

/// The outer variables that an `ensure` assigns, by those that it declares and all that are assigned in it.
pub fn names_ensured(
    alloc: Global,
    context: &Context,
    declares: &[Name],
    assigns: &[Name],
) -> Result<Items<Name>, NoMemory>
    ensures { IfOk result (λ names. AtEach context.now (λ c. names ≡ spec.names_ensured c declares.now assigns.now)) }
{
    let own = copied_names(alloc, declares)?;
    with_seen(context, own, assigns)
}

/// The map in which these variables have the types that they have after an `ensure`.
fn ensured_rows<L: Language>(
    language: &L,
    names: &[Name],
    ensured: &Rows,
    rows: Rows,
) -> Result<Rows, NoMemory>
    ensures { IfOk result (λ r. seen_rows r.entries ≡ spec.ensured_rows (L.the language.now) names.now (seen_rows ensured.now.entries) (seen_rows rows.entries)) }
{
    let mut all = rows;
    'names: for name in names {
        let ty = variable_type(language, ensured, name).copied()?;
        all = with_type(all, name.copied()?, ty)?;
    }
    Ok(all)
}

/// The environment in which these variables have the types that they have after an `ensure`.
fn ensured_environment<L: Language>(
    language: &L,
    names: &[Name],
    ensured: &Rows,
    e: Environment,
) -> Result<Environment, NoMemory>
    ensures { IfOk result (λ r. seen_environment r ≡ spec.ensured_environment (L.the language.now) names.now (seen_rows ensured.now.entries) (seen_environment e)) }
{
    match e {
        Environment::Live(rows) => Ok(Environment::Live(ensured_rows(
            language, names, ensured, rows,
        )?)),
        Environment::Dead => Ok(Environment::Dead),
        Environment::Silent => Ok(Environment::Silent),
    }
}

/// The jump environments in which these variables have the types that they have after an `ensure`.
fn ensured_lefts<L: Language>(
    alloc: Global,
    language: &L,
    names: &[Name],
    ensured: &Rows,
    lefts: &[Left],
) -> Result<Items<Left>, NoMemory>
    ensures { IfOk result (λ r. map seen_left r ≡ map (spec.ensured_left (L.the language.now) names.now (seen_rows ensured.now.entries)) (map seen_left lefts.now)) }
{
    let mut all = Items::new(alloc);
    'lefts: for left in lefts {
        let rows = copied_rows(alloc, &left.rows)?;
        all.push(Left {
            ty: left.ty.copied()?,
            rows: ensured_rows(language, names, ensured, rows)?,
        })?;
    }
    Ok(all)
}

/// The jumps that leave a guard whose `ensure` ends live: those of all parts before it, and its own.
fn ensured_jumps<L: Language>(
    alloc: Global,
    language: &L,
    names: &[Name],
    ensured: &Rows,
    before: &Jumps,
    own: Jumps,
) -> Result<Jumps, NoMemory>
    ensures breaks { IfOk result (λ r. map seen_left r.breaks ≡ map (spec.ensured_left (L.the language.now) names.now (seen_rows ensured.now.entries)) (map seen_left before.now.breaks) ++ map seen_left own.breaks) }
    ensures nexts { IfOk result (λ r. map seen_left r.nexts ≡ map (spec.ensured_left (L.the language.now) names.now (seen_rows ensured.now.entries)) (map seen_left before.now.nexts) ++ map seen_left own.nexts) }
{
    let mut breaks = ensured_lefts(alloc, language, names, ensured, before.breaks.as_slice())?;
    let mut nexts = ensured_lefts(alloc, language, names, ensured, before.nexts.as_slice())?;
    breaks.append(own.breaks)?;
    nexts.append(own.nexts)?;
    Ok(Jumps { breaks, nexts })
}

/// Ends an `ensure` that assigns these variables, with the ends and the jumps of all parts before it. The answer is the type of the whole.
pub fn end_ensure<L: Language>(
    alloc: Global,
    language: &L,
    names: &[Name],
    ends: Ends,
    jumps: Jumps,
    state: &mut State,
) -> Result<Ty, NoMemory>
    ensures { IfOk result (λ r. judged r (seen_state state.new) ≡ spec.ensured_whole (L.the language.now) (seen_state state.old).environment names.now (seen_ends ends).ty (seen_ends ends).environment (map seen_left jumps.breaks) (map seen_left jumps.nexts) (seen_state state.old)) }
{
    let Ends { ty, environment } = ends;
    let after = state.take_environment();
    let own = std::mem::replace(&mut state.jumps, no_jumps(alloc));
    match after {
        Environment::Live(rows) => {
            state.jumps = ensured_jumps(alloc, language, names, &rows, &jumps, own)?;
            state.environment = ensured_environment(language, names, &rows, environment)?;
            Ok(ty)
        }
        Environment::Dead => {
            state.environment = Environment::Dead;
            Ok(language.never())
        }
        Environment::Silent => Ok(language.never()),
    }
}

// ---- the whole

/// Puts items after others.
fn put_after<T: Drop>(front: Items<T>, items: &mut Items<T>) -> Result<(), NoMemory>
    ensures { OnOk result (items.new ≡ front ++ items.old) }
{
    let own = std::mem::replace(items, front);
    items.append(own)
}

/// Puts the jumps and assignments of a guard after those before it.
fn put_back(before: Before, state: &mut State) -> Result<(), NoMemory>
    ensures { OnOk result (seen_state state.new ≡ record (seen_state state.old) { breaks = map seen_left before.jumps.breaks ++ (seen_state state.old).breaks; nexts = map seen_left before.jumps.nexts ++ (seen_state state.old).nexts; assigned = map seen_row before.assigned ++ (seen_state state.old).assigned }) }
{
    let Before {
        jumps: Jumps { breaks, nexts },
        assigned,
    } = before;
    put_after(breaks, &mut state.jumps.breaks)?;
    put_after(nexts, &mut state.jumps.nexts)?;
    put_after(assigned, &mut state.assigned)
}

/// Leaves a guard: its jumps and assignments stand after those before it.
pub fn leave_guard<L: Language>(
    language: &L,
    aside: Aside,
    ty: &Ty,
    state: &mut State,
) -> Result<(), NoMemory>
    ensures { OnOk result (judged ty.now (seen_state state.new) ≡ spec.left_guard (L.the language.now) (seen_aside aside) (judged ty.now (seen_state state.old))) }
{
    let Aside {
        environment: _,
        jumps,
        assigned,
    } = aside;
    put_back(Before { jumps, assigned }, state)
}

/// Begins a guard without `rescue` clauses, `else` and `ensure`. The answer is the jumps and assignments before it.
pub fn begin_bare(alloc: Global, state: &mut State) -> Before
    ensures before { seen_before result ≡ record (seen_state state.old) { environment = Silent; errors = [] } }
    ensures state { seen_state state.new ≡ record (seen_state state.old) { breaks = []; nexts = []; assigned = [] } }
{
    Before {
        jumps: std::mem::replace(&mut state.jumps, no_jumps(alloc)),
        assigned: std::mem::replace(&mut state.assigned, Items::new(alloc)),
    }
}

/// The type of a guard whose body has this type and is its only end.
fn only_end<L: Language>(
    alloc: Global,
    language: &L,
    first: Ty,
    state: &mut State,
) -> Result<Ty, NoMemory>
    ensures { IfOk result (λ ty. judged ty (seen_state state.new) ≡ ends_spec.all_ends (L.the language.now) (ends_spec.with_first_end (L.the language.now) (ends_spec.no_ends (L.the language.now)) (seen_state state.old).environment first) (seen_state state.old)) }
{
    let after = state.take_environment();
    let ends = with_first_end(alloc, language, no_ends(language), after, first)?;
    Ok(all_ends(language, ends, state))
}

/// Leaves a guard without `rescue` clauses, `else` and `ensure`, whose body has this type. The answer is the type of the whole.
pub fn leave_bare<L: Language>(
    alloc: Global,
    language: &L,
    before: Before,
    first: Ty,
    state: &mut State,
) -> Result<Ty, NoMemory>
    ensures { IfOk result (λ ty. judged ty (seen_state state.new) ≡ ends_spec.left_bare (L.the language.now) (seen_before before) (judged first (seen_state state.old))) }
{
    let ty = only_end(alloc, language, first, state)?;
    put_back(before, state)?;
    Ok(ty)
}
