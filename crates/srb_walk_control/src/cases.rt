//! `case` and its `when`s.
//!
//! What is around grows with the patterns and bodies: each sees what those before it assign.

ghost use Rattle.std.specs.Prelude.{None, ◌≡◌, ◌∷◌, [], Some, IfOk, OnOk};
ghost use Rattle.srb_judgement.specs.Branches as branches_spec;
ghost use Rattle.srb_judgement.specs.Cases as cases;
ghost use Rattle.srb_judgement.specs.Environments as environments;
ghost use Rattle.srb_judgement.specs.Kept.{seen_context};
ghost use Rattle.srb_judgement.specs.Narrowing.{variable_of};
ghost use Rattle.srb_walk.specs.Beside.{seen_beside};
ghost use Rattle.srb_walk.specs.Written.{spelling_of};
ghost use Rattle.srb_judgement.specs.States.{judged, moved, seeing};
ghost use Rattle.srb_judgement.specs.Views.{seen_ends, seen_environment, seen_state, seen_tested, settled};
ghost use Rattle.srb_walk_control.specs.Passed as passed;
ghost use Rattle.srb_walk.specs.Known as known;

use crate::branches::{Branching, otherwise, take_rest, taken};
use rb_tree::syntax::{Tree, When};
use srb_judgement::contexts::Context;
use srb_judgement::ends::no_ends;
use srb_judgement::environments::{Environment, joined};
use srb_judgement::language::Language;
use srb_judgement::narrowing::{saying, says_pattern, variable_of};
use srb_judgement::states::State;
use srb_judgement::tested::Tested;
use srb_terms::{Name, NoMemory, Ty};
use srb_walk::around::{Beside, after};
use srb_walk::walking::Walk;
use srb_walk::written::spelling;
use std::alloc::Global;

/// The patterns so far: the environment in which one of them fits, and that in which none does.
#[derive(Drop)]
pub struct Fitting {
    pub fits: Environment,
    pub rest: Environment,
}

/// What patterns of `when` are: conditions, or values against the subject, which may be a variable.
#[derive(Drop)]
pub enum Subject {
    Conditions,
    Value(Option<Name>),
}

/// The subject of a `case`, before it is judged.
#[inline(never)]
pub fn subject_of<L: Language>(
    alloc: Global,
    language: &L,
    context: &Context,
    subject: &Tree,
) -> Result<Subject, NoMemory>
    ensures { IfOk result (λ s. passed.seen_subject s ≡ Some (variable_of (seen_context context.now) (spelling_of (L.the language.now) subject.now))) }
{
    let spelled = spelling(alloc, language, subject)?;
    match variable_of(context, &spelled) {
        Some(name) => Ok(Subject::Value(Some(name.copied()?))),
        None => Ok(Subject::Value(None)),
    }
}

/// Judges a pattern of `when`.
pub fn pattern<W: Walk, L: Language>(
    alloc: Global,
    walk: &W,
    language: &L,
    context: &Context,
    state: &mut State,
    subject: &Subject,
    pattern: &Tree,
) -> Result<Tested, NoMemory>
    ensures { IfOk result (λ t. settled (seen_tested t (seen_state state.new)) ≡ settled (passed.subject_test (L.the language.now) (passed.seen_subject subject.now) (known.part_in (L.the language.now) pattern.now) (seen_context context.now) (seen_state state.old))) }
{
    match subject {
        Subject::Conditions => walk.test(alloc, language, context, state, pattern),
        Subject::Value(variable) => {
            let spelled = spelling(alloc, language, pattern)?;
            let says = says_pattern(alloc, language, &context.scope, variable.as_ref(), &spelled)?;
            let ty = walk.judge(alloc, language, context, state, pattern)?;
            saying(alloc, language, &says, ty, state)
        }
    }
}

/// Takes out the environment in which no pattern fits.
fn take_unfit(so_far: &mut Fitting) -> Environment
    ensures taken { seen_environment result ≡ seen_environment so_far.old.rest }
    ensures fits { seen_environment so_far.new.fits ≡ seen_environment so_far.old.fits }
{
    std::mem::replace(&mut so_far.rest, Environment::Silent)
}

/// Adds one more pattern, which is judged.
fn add_fit<L: Language>(
    alloc: Global,
    language: &L,
    so_far: &mut Fitting,
    tested: Tested,
) -> Result<(), NoMemory>
    ensures fits { OnOk result (seen_environment so_far.new.fits ≡ environments.joined (L.the language.now) (seen_environment so_far.old.fits) (seen_environment tested.truth)) }
    ensures rest { OnOk result (seen_environment so_far.new.rest ≡ seen_environment tested.falsehood) }
{
    let fits = std::mem::replace(&mut so_far.fits, Environment::Silent);
    so_far.fits = joined(alloc, language, fits, tested.truth)?;
    so_far.rest = tested.falsehood;
    Ok(())
}

/// Judges one more pattern of `when`.
pub fn fit<W: Walk, L: Language>(
    alloc: Global,
    walk: &W,
    language: &L,
    context: &Context,
    beside: &mut Beside,
    state: &mut State,
    subject: &Subject,
    so_far: &mut Fitting,
    tree: &Tree,
) -> Result<(), NoMemory>
    ensures { OnOk result (passed.placed_fitting (seen_beside beside.new (seen_context context.now)) (passed.seen_fitting so_far.new (seen_state state.new)) ≡ passed.placed_fitting (seen_beside beside.old (seen_context context.now))
        (cases.fit_patterns (L.the language.now) (passed.subject_test (L.the language.now) (passed.seen_subject subject.now)) (known.part_in (L.the language.now) tree.now ∷ []) (seen_beside beside.old (seen_context context.now)) (passed.seen_fitting so_far.old (seen_state state.old)))) }
{
    state.environment = take_unfit(so_far);
    let tested = pattern(
        alloc,
        walk,
        language,
        beside.of(context),
        state,
        subject,
        tree,
    )?;
    add_fit(alloc, language, so_far, tested)?;
    beside.see(alloc, language, context, tree)?;
    Ok(())
}

/// Judges the patterns of a `when`.
pub fn patterns<W: Walk, L: Language>(
    alloc: Global,
    walk: &W,
    language: &L,
    context: &Context,
    beside: &mut Beside,
    state: &mut State,
    subject: &Subject,
    so_far: &mut Fitting,
    row: &[Tree],
) -> Result<(), NoMemory>
    ensures { OnOk result (passed.placed_fitting (seen_beside beside.new (seen_context context.now)) (passed.seen_fitting so_far.new (seen_state state.new)) ≡ passed.placed_fitting (seen_beside beside.old (seen_context context.now))
        (cases.fit_patterns (L.the language.now) (passed.subject_test (L.the language.now) (passed.seen_subject subject.now)) (known.known_trees (L.the language.now) row.now) (seen_beside beside.old (seen_context context.now)) (passed.seen_fitting so_far.old (seen_state state.old)))) }
{
    'row: for each in row {
        fit(
            alloc, walk, language, context, beside, state, subject, so_far, each,
        )?;
    }
    Ok(())
}

/// Judges the patterns of a `when`, and goes where one of them fits. Where none does, no branch is taken so far.
#[inline(never)]
fn fitted<W: Walk, L: Language>(
    alloc: Global,
    walk: &W,
    language: &L,
    context: &Context,
    beside: &mut Beside,
    state: &mut State,
    subject: &Subject,
    so_far: &mut Branching,
    row: &[Tree],
) -> Result<(), NoMemory>
    ensures rest { OnOk result (seen_environment so_far.new.rest ≡ (cases.fit_patterns (L.the language.now) (passed.subject_test (L.the language.now) (passed.seen_subject subject.now)) (known.known_trees (L.the language.now) row.now) (seen_beside beside.old (seen_context context.now)) (cases.fitting (L.the language.now) (seen_environment so_far.old.rest) [] (seen_state state.old))).rest) }
    ensures state { OnOk result (seen_state state.new ≡ moved (cases.fit_patterns (L.the language.now) (passed.subject_test (L.the language.now) (passed.seen_subject subject.now)) (known.known_trees (L.the language.now) row.now) (seen_beside beside.old (seen_context context.now)) (cases.fitting (L.the language.now) (seen_environment so_far.old.rest) [] (seen_state state.old))).fits
        (cases.fit_patterns (L.the language.now) (passed.subject_test (L.the language.now) (passed.seen_subject subject.now)) (known.known_trees (L.the language.now) row.now) (seen_beside beside.old (seen_context context.now)) (cases.fitting (L.the language.now) (seen_environment so_far.old.rest) [] (seen_state state.old))).state) }
    ensures seen { OnOk result (seen_beside beside.new (seen_context context.now) ≡ seeing (cases.fit_patterns (L.the language.now) (passed.subject_test (L.the language.now) (passed.seen_subject subject.now)) (known.known_trees (L.the language.now) row.now) (seen_beside beside.old (seen_context context.now)) (cases.fitting (L.the language.now) (seen_environment so_far.old.rest) [] (seen_state state.old))).visible (seen_beside beside.old (seen_context context.now))) }
    ensures ends { OnOk result (seen_ends so_far.new.ends ≡ seen_ends so_far.old.ends) }
{
    let rest = take_rest(so_far);
    let mut fitting = Fitting {
        fits: Environment::Dead,
        rest,
    };
    patterns(
        alloc,
        walk,
        language,
        context,
        beside,
        state,
        subject,
        &mut fitting,
        row,
    )?;
    let Fitting { fits, rest } = fitting;
    so_far.rest = rest;
    state.environment = fits;
    Ok(())
}

/// Judges a `when`.
pub fn when<W: Walk, L: Language>(
    alloc: Global,
    walk: &W,
    language: &L,
    context: &Context,
    beside: &mut Beside,
    state: &mut State,
    subject: &Subject,
    so_far: &mut Branching,
    when: &When<Tree>,
) -> Result<(), NoMemory>
    ensures { OnOk result (passed.placed (seen_beside beside.new (seen_context context.now)) (passed.seen_branching so_far.new (seen_state state.new)) ≡ passed.placed (seen_beside beside.old (seen_context context.now))
        (cases.with_whens (L.the language.now) (passed.subject_test (L.the language.now) (passed.seen_subject subject.now)) (known.known_when (L.the language.now) when.now ∷ []) (seen_beside beside.old (seen_context context.now)) (passed.seen_branching so_far.old (seen_state state.old)))) }
{
    fitted(
        alloc,
        walk,
        language,
        context,
        beside,
        state,
        subject,
        so_far,
        when.patterns.as_slice(),
    )?;
    taken(
        alloc, walk, language, context, beside, state, so_far, &when.body,
    )?;
    Ok(())
}

/// Judges the `when`s of a `case`.
pub fn whens<W: Walk, L: Language>(
    alloc: Global,
    walk: &W,
    language: &L,
    context: &Context,
    beside: &mut Beside,
    state: &mut State,
    subject: &Subject,
    so_far: &mut Branching,
    row: &[When<Tree>],
) -> Result<(), NoMemory>
    ensures { OnOk result (passed.placed (seen_beside beside.new (seen_context context.now)) (passed.seen_branching so_far.new (seen_state state.new)) ≡ passed.placed (seen_beside beside.old (seen_context context.now))
        (cases.with_whens (L.the language.now) (passed.subject_test (L.the language.now) (passed.seen_subject subject.now)) (known.known_whens (L.the language.now) row.now) (seen_beside beside.old (seen_context context.now)) (passed.seen_branching so_far.old (seen_state state.old)))) }
{
    'row: for each in row {
        when(
            alloc, walk, language, context, beside, state, subject, so_far, each,
        )?;
    }
    Ok(())
}

/// No branch yet, of a `case` that begins in the state's environment.
#[inline(never)]
fn before_whens<L: Language>(
    alloc: Global,
    language: &L,
    state: &State,
) -> Result<Branching, NoMemory>
    ensures { IfOk result (λ b. passed.seen_branching b (seen_state state.now) ≡ branches_spec.branching (L.the language.now) (seen_state state.now).environment (seen_state state.now)) }
{
    Ok(Branching {
        ends: no_ends(language),
        rest: state.environment.copied(alloc)?,
    })
}

/// Judges the `when`s of a `case`, and what stands after `else`.
fn all_whens<W: Walk, L: Language>(
    alloc: Global,
    walk: &W,
    language: &L,
    context: &Context,
    state: &mut State,
    subject: &Subject,
    row: &[When<Tree>],
    last: &Option<Tree>,
) -> Result<Ty, NoMemory>
    ensures { IfOk result (λ ty. judged ty (seen_state state.new) ≡ cases.case_after (L.the language.now) (passed.subject_test (L.the language.now) (passed.seen_subject subject.now)) (known.known_whens (L.the language.now) row.now) (known.known_option (L.the language.now) last.now) (seen_context context.now) (seen_state state.old)) }
{
    let mut beside = Beside::new();
    let mut so_far = before_whens(alloc, language, state)?;
    whens(
        alloc,
        walk,
        language,
        context,
        &mut beside,
        state,
        subject,
        &mut so_far,
        row,
    )?;
    otherwise(
        alloc,
        walk,
        language,
        beside.of(context),
        state,
        &mut so_far,
        last,
    )
}

/// Judges a `case` without a subject: its patterns are conditions.
pub fn plain_case<W: Walk, L: Language>(
    alloc: Global,
    walk: &W,
    language: &L,
    context: &Context,
    state: &mut State,
    row: &[When<Tree>],
    last: &Option<Tree>,
) -> Result<Ty, NoMemory>
    ensures { IfOk result (λ ty. judged ty (seen_state state.new) ≡ cases.case_judged (L.the language.now) None (known.known_whens (L.the language.now) row.now) (known.known_option (L.the language.now) last.now) (seen_context context.now) (seen_state state.old)) }
{
    all_whens(
        alloc,
        walk,
        language,
        context,
        state,
        &Subject::Conditions,
        row,
        last,
    )
}

/// Judges a `case` with a subject.
pub fn case_of<W: Walk, L: Language>(
    alloc: Global,
    walk: &W,
    language: &L,
    context: &Context,
    state: &mut State,
    value: &Tree,
    row: &[When<Tree>],
    last: &Option<Tree>,
) -> Result<Ty, NoMemory>
    ensures { IfOk result (λ ty. judged ty (seen_state state.new) ≡ cases.case_judged (L.the language.now) (Some (known.part_in (L.the language.now) value.now)) (known.known_whens (L.the language.now) row.now) (known.known_option (L.the language.now) last.now) (seen_context context.now) (seen_state state.old)) }
{
    let subject = subject_of(alloc, language, context, value)?;
    walk.judge(alloc, language, context, state, value)?;
    let inner = after(alloc, language, context, value)?;
    all_whens(
        alloc,
        walk,
        language,
        inner.of(context),
        state,
        &subject,
        row,
        last,
    )
}

/// Judges a `case`.
pub fn case<W: Walk, L: Language>(
    alloc: Global,
    walk: &W,
    language: &L,
    context: &Context,
    state: &mut State,
    subject: &Option<Tree>,
    row: &[When<Tree>],
    last: &Option<Tree>,
) -> Result<Ty, NoMemory>
    ensures { IfOk result (λ ty. judged ty (seen_state state.new) ≡ cases.case_judged (L.the language.now) (known.known_option (L.the language.now) subject.now) (known.known_whens (L.the language.now) row.now) (known.known_option (L.the language.now) last.now) (seen_context context.now) (seen_state state.old)) }
{
    match subject {
        None => plain_case(alloc, walk, language, context, state, row, last),
        Some(value) => case_of(alloc, walk, language, context, state, value, row, last),
    }
}
