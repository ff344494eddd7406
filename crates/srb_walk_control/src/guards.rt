//! `begin`, `rescue`, `else` and `ensure`.

ghost use Rattle.std.specs.Prelude.{◌≡◌, [], ◌∷◌, ◌++◌, map, false, Some, IfOk, OnOk};
ghost use Rattle.srb_judgement.specs.Ends as ends_spec;
ghost use Rattle.srb_judgement.specs.Guards as guards_spec;
ghost use Rattle.srb_judgement.specs.Kept.{seen_context};
ghost use Rattle.srb_judgement.specs.Sequences.{all_declared};
ghost use Rattle.srb_judgement.specs.States.{judged, moved, seeing};
ghost use Rattle.srb_judgement.specs.Variables.{part_operand};
ghost use Rattle.srb_judgement.specs.Views.{seen_aside, seen_before, seen_ends, seen_environment, seen_left, seen_state};
ghost use Rattle.srb_walk_control.specs.Bare as bare_spec;
ghost use Rattle.srb_walk_control.specs.Passed as passed;
ghost use Rattle.srb_walk.specs.Assigned.{names_of};
ghost use Rattle.srb_walk.specs.Judging as spec;
ghost use Rattle.srb_walk.specs.Known as known;

use crate::ends::{add_end, add_first_end, whole};
use crate::sequences::operands;
use rb_tree::syntax::{Guarded, PlacedName, Rescue, Tree};
use srb_judgement::blocks::{Aside, set_aside};
use srb_judgement::contexts::Context;
use srb_judgement::ends::{Ends, no_ends};
use srb_judgement::environments::Environment;
use srb_judgement::guards::{
    Before, begin_bare, begin_ensure, catch, caught_type, end_ensure, handled, leave_bare,
    leave_guard, names_ensured,
};
use srb_judgement::language::Language;
use srb_judgement::states::{Jumps, State, no_jumps};
use srb_terms::{Items, Name, NoMemory, Ty};
use srb_walk::around::with_names;
use srb_walk::assigned::assigned;
use srb_walk::names::{declare_all, spellings};
use srb_walk::walking::Walk;
use std::alloc::Global;

/// The clauses of a guard so far: their ends, the environment in which the next patterns are judged, and the variables that became
/// visible.
#[derive(Drop)]
pub struct Rescuing {
    pub ends: Ends,
    pub patterns: Environment,
    pub visible: Items<Name>,
}

/// Judges a tree where these variables are visible too.
fn judge_seeing<W: Walk, L: Language>(
    alloc: Global,
    walk: &W,
    language: &L,
    context: &Context,
    state: &mut State,
    visible: &[Name],
    body: &Tree,
) -> Result<Ty, NoMemory>
    ensures { IfOk result (λ ty. judged ty (seen_state state.new) ≡ spec.judge_of (L.the language.now) body.now (seeing visible.now (seen_context context.now)) (seen_state state.old)) }
{
    let inner = with_names(alloc, context, visible)?;
    walk.judge(alloc, language, inner.of(context), state, body)
}

/// The type of what a clause catches.
#[inline(never)]
fn type_caught<L: Language>(
    alloc: Global,
    language: &L,
    context: &Context,
    clause: &Rescue<Tree>,
) -> Result<Ty, NoMemory>
    ensures { IfOk result (λ ty. ty ≡ guards_spec.caught_type (L.the language.now) (seen_context context.now) (known.known_trees (L.the language.now) clause.now.patterns)) }
{
    let spelled = spellings(alloc, language, clause.patterns.as_slice())?;
    caught_type(alloc, language, &context.scope, spelled.as_slice())
}

/// Adds the variable after the `=>` of a clause, if it has one.
fn add_variable(variable: &Option<PlacedName>, visible: &mut Items<Name>) -> Result<(), NoMemory>
    ensures { OnOk result (visible.new ≡ visible.old ++ guards_spec.caught_names variable.now) }
{
    match variable {
        Some(variable) => visible.push(variable.name.copied()?),
        None => Ok(()),
    }
}

/// Adds the variables that are visible in the body of a clause.
fn add_caught<L: Language>(
    alloc: Global,
    language: &L,
    clause: &Rescue<Tree>,
    visible: &mut Items<Name>,
) -> Result<(), NoMemory>
    ensures { OnOk result (visible.new ≡ (visible.old ++ all_declared (map part_operand (known.known_trees (L.the language.now) clause.now.patterns))) ++ guards_spec.caught_names clause.now.variable) }
{
    declare_all(alloc, language, clause.patterns.as_slice(), visible)?;
    add_variable(&clause.variable, visible)
}

/// Assigns this type to the variable of a clause, if it has one.
fn catch_type<L: Language>(
    alloc: Global,
    language: &L,
    context: &Context,
    variable: &Option<PlacedName>,
    ty: &Ty,
    state: &mut State,
) -> Result<(), NoMemory>
    ensures { OnOk result (seen_state state.new ≡ guards_spec.caught (L.the language.now) variable.now ty.now (seen_context context.now) (seen_state state.old)) }
{
    match variable {
        None => Ok(()),
        Some(x) => catch(alloc, language, context, Some(x), ty, state),
    }
}

/// Assigns what a clause catches to its variable.
fn catch_all<L: Language>(
    alloc: Global,
    language: &L,
    context: &Context,
    state: &mut State,
    clause: &Rescue<Tree>,
) -> Result<(), NoMemory>
    ensures { OnOk result (seen_state state.new ≡ guards_spec.caught (L.the language.now) clause.now.variable (guards_spec.caught_type (L.the language.now) (seen_context context.now) (known.known_trees (L.the language.now) clause.now.patterns)) (seen_context context.now) (seen_state state.old)) }
{
    let ty = type_caught(alloc, language, context, clause)?;
    catch_type(alloc, language, context, &clause.variable, &ty, state)
}

/// Assigns what a clause catches to its variable, after its patterns. The context is that of the guard.
#[inline(never)]
fn after_patterns<L: Language>(
    alloc: Global,
    language: &L,
    context: &Context,
    state: &mut State,
    so_far: &mut Rescuing,
    clause: &Rescue<Tree>,
) -> Result<(), NoMemory>
    ensures { OnOk result (passed.seen_rescuing so_far.new (seen_state state.new) ≡ passed.caught_after (L.the language.now) (known.known_rescue (L.the language.now) clause.now) (seen_context context.now) (passed.seen_rescuing so_far.old (seen_state state.old)) (seen_state state.old)) }
{
    add_caught(alloc, language, clause, &mut so_far.visible)?;
    so_far.patterns = state.environment.copied(alloc)?;
    catch_all(alloc, language, context, state, clause)?;
    Ok(())
}

/// Takes out the environment in which the next patterns are judged.
fn take_patterns(so_far: &mut Rescuing) -> Environment
    ensures taken { seen_environment result ≡ seen_environment so_far.old.patterns }
    ensures ends { so_far.new.ends ≡ so_far.old.ends }
    ensures visible { so_far.new.visible ≡ so_far.old.visible }
{
    std::mem::replace(&mut so_far.patterns, Environment::Silent)
}

/// Judges the patterns of a `rescue` clause and assigns its variable. The context is that of the guard.
#[inline(never)]
pub fn caught<W: Walk, L: Language>(
    alloc: Global,
    walk: &W,
    language: &L,
    context: &Context,
    state: &mut State,
    so_far: &mut Rescuing,
    clause: &Rescue<Tree>,
) -> Result<(), NoMemory>
    ensures { OnOk result (passed.seen_rescuing so_far.new (seen_state state.new) ≡ passed.caught_by (L.the language.now) (known.known_rescue (L.the language.now) clause.now) (seen_context context.now) (passed.seen_rescuing so_far.old (seen_state state.old))) }
{
    let inner = with_names(alloc, context, so_far.visible.as_slice())?;
    state.environment = take_patterns(so_far);
    operands(
        alloc,
        walk,
        language,
        inner.of(context),
        state,
        clause.patterns.as_slice(),
    )?;
    after_patterns(alloc, language, context, state, so_far, clause)?;
    Ok(())
}

/// Adds the end of the body of a clause, which has this type, and makes what it assigns visible.
#[inline(never)]
fn end_clause<L: Language>(
    alloc: Global,
    language: &L,
    state: &mut State,
    so_far: &mut Rescuing,
    body: &Tree,
    ty: Ty,
) -> Result<(), NoMemory>
    ensures { OnOk result (passed.settled_rescuing (passed.seen_rescuing so_far.new (seen_state state.new)) ≡ passed.settled_rescuing (guards_spec.with_clause_end (L.the language.now) (passed.seen_rescuing so_far.old (seen_state state.old)) (seen_environment so_far.old.patterns) (so_far.old.visible ++ names_of (L.the language.now) false body.now)
        (judged ty (seen_state state.old)))) }
{
    assigned(alloc, language, false, body, &mut so_far.visible)?;
    add_end(alloc, language, &mut so_far.ends, ty, state)?;
    Ok(())
}

/// Judges the body of a clause, whose patterns are judged.
fn clause_body<W: Walk, L: Language>(
    alloc: Global,
    walk: &W,
    language: &L,
    context: &Context,
    state: &mut State,
    so_far: &mut Rescuing,
    body: &Tree,
) -> Result<(), NoMemory>
    ensures { OnOk result (passed.settled_rescuing (passed.seen_rescuing so_far.new (seen_state state.new)) ≡ passed.settled_rescuing (guards_spec.with_clause_end (L.the language.now) (passed.seen_rescuing so_far.old (seen_state state.old)) (seen_environment so_far.old.patterns) (so_far.old.visible ++ names_of (L.the language.now) false body.now)
        (spec.judge_of (L.the language.now) body.now (seeing so_far.old.visible (seen_context context.now)) (seen_state state.old)))) }
{
    let ty = judge_seeing(
        alloc,
        walk,
        language,
        context,
        state,
        so_far.visible.as_slice(),
        body,
    )?;
    end_clause(alloc, language, state, so_far, body, ty)?;
    Ok(())
}

/// Judges a `rescue` clause.
pub fn clause<W: Walk, L: Language>(
    alloc: Global,
    walk: &W,
    language: &L,
    context: &Context,
    state: &mut State,
    so_far: &mut Rescuing,
    clause: &Rescue<Tree>,
) -> Result<(), NoMemory>
    ensures { OnOk result (passed.settled_rescuing (passed.seen_rescuing so_far.new (seen_state state.new)) ≡ passed.settled_rescuing (guards_spec.with_clauses (L.the language.now) (known.known_rescue (L.the language.now) clause.now ∷ []) (seen_context context.now) (passed.seen_rescuing so_far.old (seen_state state.old)))) }
{
    caught(alloc, walk, language, context, state, so_far, clause)?;
    clause_body(alloc, walk, language, context, state, so_far, &clause.body)?;
    Ok(())
}

/// Judges `rescue` clauses.
pub fn clauses<W: Walk, L: Language>(
    alloc: Global,
    walk: &W,
    language: &L,
    context: &Context,
    state: &mut State,
    so_far: &mut Rescuing,
    row: &[Rescue<Tree>],
) -> Result<(), NoMemory>
    ensures { OnOk result (passed.settled_rescuing (passed.seen_rescuing so_far.new (seen_state state.new)) ≡ passed.settled_rescuing (guards_spec.with_clauses (L.the language.now) (known.known_rescues (L.the language.now) row.now) (seen_context context.now) (passed.seen_rescuing so_far.old (seen_state state.old)))) }
{
    'row: for each in row {
        clause(alloc, walk, language, context, state, so_far, each)?;
    }
    Ok(())
}

/// Adds the end of the first body of a guard, which has no `else`, in front.
fn without_else<L: Language>(
    alloc: Global,
    language: &L,
    state: &State,
    so_far: &mut Rescuing,
    entry: Environment,
    first: Ty,
) -> Result<(), NoMemory>
    ensures { OnOk result (passed.seen_rescuing so_far.new (seen_state state.now) ≡ guards_spec.with_first (L.the language.now) (passed.seen_rescuing so_far.old (seen_state state.now)) (seen_environment entry) first) }
{
    add_first_end(alloc, language, &mut so_far.ends, entry, first)
}

/// Adds the end of the `else` of a guard, which has this type, in front, and makes what it assigns visible.
#[inline(never)]
fn end_else<L: Language>(
    alloc: Global,
    language: &L,
    state: &mut State,
    so_far: &mut Rescuing,
    body: &Tree,
    ty: Ty,
) -> Result<(), NoMemory>
    ensures { OnOk result (passed.settled_rescuing (passed.seen_rescuing so_far.new (seen_state state.new)) ≡ passed.settled_rescuing (guards_spec.with_else_end (L.the language.now) (passed.seen_rescuing so_far.old (seen_state state.old)) (so_far.old.visible ++ names_of (L.the language.now) false body.now)
        (judged ty (seen_state state.old)))) }
{
    assigned(alloc, language, false, body, &mut so_far.visible)?;
    let after = state.take_environment();
    add_first_end(alloc, language, &mut so_far.ends, after, ty)?;
    Ok(())
}

/// Judges the `else` of a guard in this environment.
fn else_body<W: Walk, L: Language>(
    alloc: Global,
    walk: &W,
    language: &L,
    context: &Context,
    state: &mut State,
    so_far: &mut Rescuing,
    entry: Environment,
    body: &Tree,
) -> Result<(), NoMemory>
    ensures { OnOk result (passed.settled_rescuing (passed.seen_rescuing so_far.new (seen_state state.new)) ≡ passed.settled_rescuing (guards_spec.with_else_end (L.the language.now) (passed.seen_rescuing so_far.old (seen_state state.old)) (so_far.old.visible ++ names_of (L.the language.now) false body.now)
        (spec.judge_of (L.the language.now) body.now (seeing so_far.old.visible (seen_context context.now)) (moved (seen_environment entry) (seen_state state.old))))) }
{
    state.environment = entry;
    let ty = judge_seeing(
        alloc,
        walk,
        language,
        context,
        state,
        so_far.visible.as_slice(),
        body,
    )?;
    end_else(alloc, language, state, so_far, body, ty)?;
    Ok(())
}

/// Judges the `else` of a guard, perhaps a missing one, in the environment after its first body, which has this type.
pub fn guard_else<W: Walk, L: Language>(
    alloc: Global,
    walk: &W,
    language: &L,
    context: &Context,
    state: &mut State,
    so_far: &mut Rescuing,
    entry: Environment,
    first: Ty,
    otherwise: &Option<Tree>,
) -> Result<(), NoMemory>
    ensures { OnOk result (passed.settled_rescuing (passed.seen_rescuing so_far.new (seen_state state.new)) ≡ passed.settled_rescuing (guards_spec.with_else (L.the language.now) (known.known_option (L.the language.now) otherwise.now) (seen_context context.now) (judged first (moved (seen_environment entry) (seen_state state.old))) (passed.seen_rescuing so_far.old (seen_state state.old)))) }
{
    match otherwise {
        None => without_else(alloc, language, state, so_far, entry, first),
        Some(body) => else_body(alloc, walk, language, context, state, so_far, entry, body),
    }
}

/// The variables that an `ensure` assigns and that outlive it.
#[inline(never)]
pub fn ensure_names<L: Language>(
    alloc: Global,
    language: &L,
    context: &Context,
    body: &Tree,
) -> Result<Items<Name>, NoMemory>
    ensures { IfOk result (λ names. names ≡ guards_spec.ensured_names (L.the language.now) (seen_context context.now) (known.part_in (L.the language.now) body.now).it) }
{
    let mut declares = Items::new(alloc);
    assigned(alloc, language, false, body, &mut declares)?;
    let mut assigns = Items::new(alloc);
    assigned(alloc, language, true, body, &mut assigns)?;
    names_ensured(alloc, context, declares.as_slice(), assigns.as_slice())
}

/// Ends an `ensure` whose body is judged, with these ends and jumps of all parts before it, and answers the type of the whole. The context is
/// that of the body.
#[inline(never)]
fn leave_ensure<L: Language>(
    alloc: Global,
    language: &L,
    context: &Context,
    state: &mut State,
    ends: &mut Ends,
    jumps: &mut Jumps,
    body: &Tree,
) -> Result<Ty, NoMemory>
    ensures { IfOk result (λ ty. judged ty (seen_state state.new) ≡ guards_spec.ensured_whole (L.the language.now) (seen_state state.old).environment (guards_spec.ensured_names (L.the language.now) (seen_context context.now) (known.part_in (L.the language.now) body.now).it) (seen_ends ends.old).ty (seen_ends ends.old).environment (map seen_left jumps.old.breaks) (map seen_left jumps.old.nexts) (seen_state state.old)) }
{
    let names = ensure_names(alloc, language, context, body)?;
    let all = std::mem::replace(ends, no_ends(language));
    let before = std::mem::replace(jumps, no_jumps(alloc));
    end_ensure(alloc, language, names.as_slice(), all, before, state)
}

/// Judges the body of an `ensure`, by the environment at the guard's entry, and answers the type of the whole, which has these ends. The
/// context is that after all parts before it.
pub fn ensure_body<W: Walk, L: Language>(
    alloc: Global,
    walk: &W,
    language: &L,
    context: &Context,
    state: &mut State,
    ends: &mut Ends,
    entry: &Environment,
    body: &Tree,
) -> Result<Ty, NoMemory>
    ensures { IfOk result (λ ty. (r : guards_spec.Rescuing Ty) → r ≡ record r { ty = ends.old.ty; ends = seen_environment ends.old.environment; state = seen_state state.old }
        → judged ty (seen_state state.new) ≡ guards_spec.after_ensure (L.the language.now) (known.part_in (L.the language.now) body.now) (seen_context context.now) r
        (spec.judge_of (L.the language.now) body.now (seen_context context.now)
        (record (seen_state state.old) { environment = guards_spec.handled (L.the language.now) (seen_environment entry.now) (seen_state state.old).assigned; breaks = []; nexts = [] }))) }
{
    let mut jumps = begin_ensure(alloc, language, entry, state)?;
    walk.judge(alloc, language, context, state, body)?;
    leave_ensure(alloc, language, context, state, ends, &mut jumps, body)
}

/// Judges an `ensure` by the environment at the guard's entry, and answers the type of the whole. The context is that of the guard.
fn with_ensure<W: Walk, L: Language>(
    alloc: Global,
    walk: &W,
    language: &L,
    context: &Context,
    state: &mut State,
    so_far: &mut Rescuing,
    entry: &Environment,
    body: &Tree,
) -> Result<Ty, NoMemory>
    ensures { IfOk result (λ ty. judged ty (seen_state state.new) ≡ guards_spec.with_ensure (L.the language.now) (Some (known.part_in (L.the language.now) body.now)) (seen_context context.now) (seen_environment entry.now) (passed.seen_rescuing so_far.old (seen_state state.old))) }
{
    let inner = with_names(alloc, context, so_far.visible.as_slice())?;
    ensure_body(
        alloc,
        walk,
        language,
        inner.of(context),
        state,
        &mut so_far.ends,
        entry,
        body,
    )
}

/// Judges the `ensure` of a guard, perhaps a missing one, by the environment at the guard's entry, and answers the type of the whole.
pub fn ensured<W: Walk, L: Language>(
    alloc: Global,
    walk: &W,
    language: &L,
    context: &Context,
    state: &mut State,
    so_far: &mut Rescuing,
    entry: &Environment,
    ensure: &Option<Tree>,
) -> Result<Ty, NoMemory>
    ensures { IfOk result (λ ty. judged ty (seen_state state.new) ≡ guards_spec.with_ensure (L.the language.now) (known.known_option (L.the language.now) ensure.now) (seen_context context.now) (seen_environment entry.now) (passed.seen_rescuing so_far.old (seen_state state.old))) }
{
    match ensure {
        None => Ok(whole(language, &mut so_far.ends, state)),
        Some(body) => with_ensure(alloc, walk, language, context, state, so_far, entry, body),
    }
}

/// Judges what stands after the first body of a guard, by the environment at the guard's entry and that after the body, which has this
/// type.
fn after_first<W: Walk, L: Language>(
    alloc: Global,
    walk: &W,
    language: &L,
    context: &Context,
    state: &mut State,
    so_far: &mut Rescuing,
    entry: &Environment,
    after: Environment,
    first: Ty,
    guarded: &Guarded<Tree>,
) -> Result<Ty, NoMemory>
    ensures { IfOk result (λ ty. judged ty (seen_state state.new) ≡ guards_spec.with_ensure (L.the language.now) (known.known_guarded (L.the language.now) guarded.now).ensure (seen_context context.now) (seen_environment entry.now)
        (guards_spec.with_else (L.the language.now) (known.known_guarded (L.the language.now) guarded.now).otherwise (seen_context context.now) (judged first (moved (seen_environment after) (seen_state state.old)))
        (guards_spec.with_clauses (L.the language.now) (known.known_guarded (L.the language.now) guarded.now).rescues (seen_context context.now) (passed.seen_rescuing so_far.old (seen_state state.old))))) }
{
    clauses(
        alloc,
        walk,
        language,
        context,
        state,
        so_far,
        guarded.rescues.as_slice(),
    )?;
    guard_else(
        alloc,
        walk,
        language,
        context,
        state,
        so_far,
        after,
        first,
        &guarded.otherwise,
    )?;
    ensured(
        alloc,
        walk,
        language,
        context,
        state,
        so_far,
        entry,
        &guarded.ensure,
    )
}

/// No clause yet, by the environment at the guard's entry and the state after its first body.
#[inline(never)]
fn no_clauses<L: Language>(
    alloc: Global,
    language: &L,
    entry: &Environment,
    state: &State,
    body: &Tree,
) -> Result<Rescuing, NoMemory>
    ensures ends { IfOk result (λ r. seen_ends r.ends ≡ ends_spec.no_ends (L.the language.now)) }
    ensures patterns { IfOk result (λ r. seen_environment r.patterns ≡ guards_spec.handled (L.the language.now) (seen_environment entry.now) (seen_state state.now).assigned) }
    ensures visible { IfOk result (λ r. r.visible ≡ names_of (L.the language.now) false body.now) }
{
    let mut visible = Items::new(alloc);
    assigned(alloc, language, false, body, &mut visible)?;
    let patterns = handled(alloc, language, entry, state.assigned.as_slice())?;
    Ok(Rescuing {
        ends: no_ends(language),
        patterns,
        visible,
    })
}

/// Leaves a guard: its jumps and assignments stand after those before it.
#[inline(never)]
fn leave<L: Language>(
    language: &L,
    aside: Aside,
    ty: &Ty,
    state: &mut State,
) -> Result<(), NoMemory>
    ensures { OnOk result (judged ty.now (seen_state state.new) ≡ guards_spec.left_guard (L.the language.now) (seen_aside aside) (judged ty.now (seen_state state.old))) }
{
    leave_guard(language, aside, ty, state)
}

/// Judges a body with `rescue` clauses, an `else` or an `ensure`. It is never inlined: what it holds would stand in the frame of each guard.
#[inline(never)]
fn with_parts<W: Walk, L: Language>(
    alloc: Global,
    walk: &W,
    language: &L,
    context: &Context,
    state: &mut State,
    guarded: &Guarded<Tree>,
) -> Result<Ty, NoMemory>
    ensures { IfOk result (λ ty. judged ty (seen_state state.new) ≡ guards_spec.guard_judged (L.the language.now) (known.known_guarded (L.the language.now) guarded.now) (seen_context context.now) (seen_state state.old)) }
{
    let aside = set_aside(alloc, state)?;
    let first = walk.judge(alloc, language, context, state, &guarded.body)?;
    let mut so_far = no_clauses(alloc, language, &aside.environment, state, &guarded.body)?;
    let after = state.take_environment();
    let ty = after_first(
        alloc,
        walk,
        language,
        context,
        state,
        &mut so_far,
        &aside.environment,
        after,
        first,
        guarded,
    )?;
    leave(language, aside, &ty, state)?;
    Ok(ty)
}

/// Whether a body has no `rescue` clause, no `else` and no `ensure`.
fn is_bare(guarded: &Guarded<Tree>) -> bool
    ensures { result ≡ bare_spec.is_bare guarded.now }
{
    match guarded.rescues.as_slice() {
        [] => guarded.otherwise.is_none() && guarded.ensure.is_none(),
        [_, ..] => false,
    }
}

/// Leaves a guard that is its body alone, which has this type.
#[inline(never)]
fn leave_alone<L: Language>(
    alloc: Global,
    language: &L,
    before: Before,
    first: Ty,
    state: &mut State,
) -> Result<Ty, NoMemory>
    ensures { IfOk result (λ ty. judged ty (seen_state state.new) ≡ ends_spec.left_bare (L.the language.now) (seen_before before) (judged first (seen_state state.old))) }
{
    leave_bare(alloc, language, before, first, state)
}

/// Judges a body that has no `rescue` clause, no `else` and no `ensure`, as that of nearly each method: the environment is never copied.
#[inline(never)]
fn alone<W: Walk, L: Language>(
    alloc: Global,
    walk: &W,
    language: &L,
    context: &Context,
    state: &mut State,
    body: &Tree,
) -> Result<Ty, NoMemory>
    ensures { IfOk result (λ ty. judged ty (seen_state state.new) ≡ guards_spec.guard_judged (L.the language.now) (ends_spec.bare (L.the language.now) (known.part_in (L.the language.now) body.now)) (seen_context context.now) (seen_state state.old)) }
{
    let before = begin_bare(alloc, state);
    let first = walk.judge(alloc, language, context, state, body)?;
    leave_alone(alloc, language, before, first, state)
}

/// Judges a body with its `rescue` clauses, `else` and `ensure`.
pub fn guard<W: Walk, L: Language>(
    alloc: Global,
    walk: &W,
    language: &L,
    context: &Context,
    state: &mut State,
    guarded: &Guarded<Tree>,
) -> Result<Ty, NoMemory>
    ensures { IfOk result (λ ty. judged ty (seen_state state.new) ≡ guards_spec.guard_judged (L.the language.now) (known.known_guarded (L.the language.now) guarded.now) (seen_context context.now) (seen_state state.old)) }
{
    if is_bare(guarded) {
        alone(alloc, walk, language, context, state, &guarded.body)
    } else {
        with_parts(alloc, walk, language, context, state, guarded)
    }
}
