//! Branches: `if`, `unless`, `elsif`, `? :`, and `if` and `unless` as modifiers.
//!
//! What is around grows with the branches: each sees what the conditions and bodies before it assign.

ghost use Rattle.std.specs.Prelude.{◌≡◌, ◌∷◌, [], false, None, Some, IfOk, OnOk};
ghost use Rattle.srb_judgement.specs.Branches as branches;
ghost use Rattle.rb_tree.specs.declared.syntax.Test.TheVariants as sense;
ghost use Rattle.srb_judgement.specs.Ends as ends_spec;
ghost use Rattle.srb_judgement.specs.Environments.{Silent};
ghost use Rattle.srb_judgement.specs.Kept.{seen_context};
ghost use Rattle.srb_judgement.specs.States.{judged, moved, seeing};
ghost use Rattle.srb_judgement.specs.Views.{seen_ends, seen_environment, seen_state, seen_tested, settled};
ghost use Rattle.srb_walk.specs.Assigned.{names_of};
ghost use Rattle.srb_walk.specs.Beside.{seen_beside};
ghost use Rattle.srb_walk.specs.Judging as spec;
ghost use Rattle.srb_walk_control.specs.Passed as passed;
ghost use Rattle.srb_walk.specs.Known as known;

use crate::ends::{add_end, whole};
use rb_tree::syntax::{Arm, Test, Tree};
use srb_judgement::contexts::Context;
use srb_judgement::ends::{Ends, empty_type, no_ends};
use srb_judgement::environments::Environment;
use srb_judgement::language::Language;
use srb_judgement::states::State;
use srb_judgement::tested::Tested;
use srb_terms::{NoMemory, Ty};
use srb_walk::around::{Beside, after};
use srb_walk::walking::Walk;
use std::alloc::Global;

/// The branches so far: their ends, and the environment in which none of them is taken.
#[derive(Drop)]
pub struct Branching {
    pub ends: Ends,
    pub rest: Environment,
}

/// Judges the condition of `if`, `unless`, `while` or `until`. `unless` and `until` exchange its sides.
pub fn test_condition<W: Walk, L: Language>(
    alloc: Global,
    walk: &W,
    language: &L,
    context: &Context,
    state: &mut State,
    which: Test,
    tree: &Tree,
) -> Result<Tested, NoMemory>
    ensures { IfOk result (λ t. settled (seen_tested t (seen_state state.new)) ≡ settled (branches.turned which (spec.test_of (L.the language.now) tree.now (seen_context context.now) (seen_state state.old)))) }
{
    match which {
        Test::Positive => walk.test(alloc, language, context, state, tree),
        Test::Negative => {
            let Tested {
                ty,
                truth,
                falsehood,
            } = walk.test(alloc, language, context, state, tree)?;
            Ok(Tested {
                ty,
                truth: falsehood,
                falsehood: truth,
            })
        }
    }
}

/// Takes out the environment in which no branch is taken.
pub fn take_rest(so_far: &mut Branching) -> Environment
    ensures taken { seen_environment result ≡ seen_environment so_far.old.rest }
    ensures ends { seen_ends so_far.new.ends ≡ seen_ends so_far.old.ends }
{
    std::mem::replace(&mut so_far.rest, Environment::Silent)
}

/// Judges a condition, and goes where it holds. Where it doesn't, no branch is taken so far.
#[inline(never)]
fn judge_condition<W: Walk, L: Language>(
    alloc: Global,
    walk: &W,
    language: &L,
    context: &Context,
    state: &mut State,
    so_far: &mut Branching,
    which: Test,
    tree: &Tree,
) -> Result<(), NoMemory>
    ensures rest { OnOk result (seen_environment so_far.new.rest ≡ (branches.turned which (spec.test_of (L.the language.now) tree.now (seen_context context.now) (seen_state state.old))).falsehood) }
    ensures state { OnOk result (seen_state state.new ≡ moved (branches.turned which (spec.test_of (L.the language.now) tree.now (seen_context context.now) (seen_state state.old))).truth (branches.turned which (spec.test_of (L.the language.now) tree.now (seen_context context.now) (seen_state state.old))).state) }
    ensures ends { OnOk result (seen_ends so_far.new.ends ≡ seen_ends so_far.old.ends) }
{
    let Tested {
        ty: _,
        truth,
        falsehood,
    } = test_condition(alloc, walk, language, context, state, which, tree)?;
    so_far.rest = falsehood;
    state.environment = truth;
    Ok(())
}

/// Judges what is done in a branch, and adds its end.
fn branch<W: Walk, L: Language>(
    alloc: Global,
    walk: &W,
    language: &L,
    context: &Context,
    state: &mut State,
    ends: &mut Ends,
    body: &Tree,
) -> Result<(), NoMemory>
    ensures ends { OnOk result (seen_ends ends.new ≡ ends_spec.with_end (L.the language.now) (seen_ends ends.old) (spec.judge_of (L.the language.now) body.now (seen_context context.now) (seen_state state.old))) }
    ensures state { OnOk result (seen_state state.new ≡ moved Silent (spec.judge_of (L.the language.now) body.now (seen_context context.now) (seen_state state.old)).state) }
{
    let ty = walk.judge(alloc, language, context, state, body)?;
    add_end(alloc, language, ends, ty, state)
}

/// Judges what is done in a branch with others after it, adds its end, and makes what it assigns visible.
pub fn taken<W: Walk, L: Language>(
    alloc: Global,
    walk: &W,
    language: &L,
    context: &Context,
    beside: &mut Beside,
    state: &mut State,
    so_far: &mut Branching,
    body: &Tree,
) -> Result<(), NoMemory>
    ensures { OnOk result (passed.placed (seen_beside beside.new (seen_context context.now)) (passed.seen_branching so_far.new (seen_state state.new)) ≡ passed.placed (seen_beside beside.old (seen_context context.now))
        (branches.with_branch (L.the language.now) (passed.seen_branching so_far.old (seen_state state.old)) (seen_environment so_far.old.rest) (names_of (L.the language.now) false body.now) (spec.judge_of (L.the language.now) body.now (seen_beside beside.old (seen_context context.now)) (seen_state state.old)))) }
{
    branch(
        alloc,
        walk,
        language,
        beside.of(context),
        state,
        &mut so_far.ends,
        body,
    )?;
    beside.see(alloc, language, context, body)?;
    Ok(())
}

/// Judges a condition of a row of branches, and the branch where it holds.
#[inline(never)]
fn one_branch<W: Walk, L: Language>(
    alloc: Global,
    walk: &W,
    language: &L,
    context: &Context,
    beside: &mut Beside,
    state: &mut State,
    so_far: &mut Branching,
    which: Test,
    condition: &Tree,
    body: &Tree,
) -> Result<(), NoMemory>
    ensures { OnOk result (passed.placed (seen_beside beside.new (seen_context context.now)) (passed.seen_branching so_far.new (seen_state state.new)) ≡ passed.placed (seen_beside beside.old (seen_context context.now))
        (branches.after_condition (L.the language.now) (known.part_in (L.the language.now) body.now) (names_of (L.the language.now) false condition.now) (seen_beside beside.old (seen_context context.now)) (passed.seen_branching so_far.old (seen_state state.old))
        (branches.turned which (spec.test_of (L.the language.now) condition.now (seen_beside beside.old (seen_context context.now)) (seen_state state.old))))) }
{
    judge_condition(
        alloc,
        walk,
        language,
        beside.of(context),
        state,
        so_far,
        which,
        condition,
    )?;
    beside.see(alloc, language, context, condition)?;
    taken(alloc, walk, language, context, beside, state, so_far, body)?;
    Ok(())
}

/// Judges an `elsif` arm.
pub fn arm<W: Walk, L: Language>(
    alloc: Global,
    walk: &W,
    language: &L,
    context: &Context,
    beside: &mut Beside,
    state: &mut State,
    so_far: &mut Branching,
    arm: &Arm<Tree>,
) -> Result<(), NoMemory>
    ensures { OnOk result (passed.placed (seen_beside beside.new (seen_context context.now)) (passed.seen_branching so_far.new (seen_state state.new)) ≡ passed.placed (seen_beside beside.old (seen_context context.now))
        (branches.with_arms (L.the language.now) (known.known_arm (L.the language.now) arm.now ∷ []) (seen_beside beside.old (seen_context context.now)) (passed.seen_branching so_far.old (seen_state state.old)))) }
{
    state.environment = take_rest(so_far);
    one_branch(
        alloc,
        walk,
        language,
        context,
        beside,
        state,
        so_far,
        Test::Positive,
        &arm.condition,
        &arm.body,
    )?;
    Ok(())
}

/// Judges `elsif` arms.
pub fn arms<W: Walk, L: Language>(
    alloc: Global,
    walk: &W,
    language: &L,
    context: &Context,
    beside: &mut Beside,
    state: &mut State,
    so_far: &mut Branching,
    row: &[Arm<Tree>],
) -> Result<(), NoMemory>
    ensures { OnOk result (passed.placed (seen_beside beside.new (seen_context context.now)) (passed.seen_branching so_far.new (seen_state state.new)) ≡ passed.placed (seen_beside beside.old (seen_context context.now))
        (branches.with_arms (L.the language.now) (known.known_arms (L.the language.now) row.now) (seen_beside beside.old (seen_context context.now)) (passed.seen_branching so_far.old (seen_state state.old)))) }
{
    'row: for each in row {
        arm(alloc, walk, language, context, beside, state, so_far, each)?;
    }
    Ok(())
}

/// The type of all branches, after the last one that is none.
#[inline(never)]
pub fn without_otherwise<L: Language>(
    alloc: Global,
    language: &L,
    so_far: &mut Branching,
    context: &Context,
    state: &mut State,
) -> Result<Ty, NoMemory>
    ensures { IfOk result (λ ty. judged ty (seen_state state.new) ≡ branches.all_branches (L.the language.now) (branches.with_otherwise (L.the language.now) None (seen_context context.now) (passed.seen_branching so_far.old (seen_state state.old)))) }
{
    let rest = take_rest(so_far);
    let ty = empty_type(language, &rest)?;
    state.environment = rest;
    add_end(alloc, language, &mut so_far.ends, ty, state)?;
    Ok(whole(language, &mut so_far.ends, state))
}

/// Judges the last branch, and answers the type of all.
pub fn last_branch<W: Walk, L: Language>(
    alloc: Global,
    walk: &W,
    language: &L,
    context: &Context,
    state: &mut State,
    so_far: &mut Branching,
    body: &Tree,
) -> Result<Ty, NoMemory>
    ensures { IfOk result (λ ty. judged ty (seen_state state.new) ≡ branches.all_branches (L.the language.now) (branches.with_otherwise (L.the language.now) (Some (known.part_in (L.the language.now) body.now)) (seen_context context.now) (passed.seen_branching so_far.old (seen_state state.old)))) }
{
    state.environment = take_rest(so_far);
    branch(
        alloc,
        walk,
        language,
        context,
        state,
        &mut so_far.ends,
        body,
    )?;
    Ok(whole(language, &mut so_far.ends, state))
}

/// Judges an `else`, perhaps a missing one, and answers the type of all branches.
pub fn otherwise<W: Walk, L: Language>(
    alloc: Global,
    walk: &W,
    language: &L,
    context: &Context,
    state: &mut State,
    so_far: &mut Branching,
    otherwise: &Option<Tree>,
) -> Result<Ty, NoMemory>
    ensures { IfOk result (λ ty. judged ty (seen_state state.new) ≡ branches.all_branches (L.the language.now) (branches.with_otherwise (L.the language.now) (known.known_option (L.the language.now) otherwise.now) (seen_context context.now) (passed.seen_branching so_far.old (seen_state state.old)))) }
{
    match otherwise {
        None => without_otherwise(alloc, language, so_far, context, state),
        Some(body) => last_branch(alloc, walk, language, context, state, so_far, body),
    }
}

/// No branch yet, before the first condition.
fn no_branches<L: Language>(language: &L) -> Branching
    ensures { seen_ends result.ends ≡ ends_spec.no_ends (L.the language.now) }
{
    Branching {
        ends: no_ends(language),
        rest: Environment::Silent,
    }
}

/// Judges a condition before which this statement is visible.
#[inline(never)]
fn condition_after<W: Walk, L: Language>(
    alloc: Global,
    walk: &W,
    language: &L,
    context: &Context,
    state: &mut State,
    so_far: &mut Branching,
    which: Test,
    statement: &Tree,
    tree: &Tree,
) -> Result<(), NoMemory>
    ensures rest { OnOk result (seen_environment so_far.new.rest ≡ (branches.turned which (spec.test_of (L.the language.now) tree.now (seeing (names_of (L.the language.now) false statement.now) (seen_context context.now)) (seen_state state.old))).falsehood) }
    ensures state { OnOk result (seen_state state.new ≡ moved (branches.turned which (spec.test_of (L.the language.now) tree.now (seeing (names_of (L.the language.now) false statement.now) (seen_context context.now)) (seen_state state.old))).truth (branches.turned which (spec.test_of (L.the language.now) tree.now (seeing (names_of (L.the language.now) false statement.now) (seen_context context.now)) (seen_state state.old))).state) }
    ensures ends { OnOk result (seen_ends so_far.new.ends ≡ seen_ends so_far.old.ends) }
{
    let beside = after(alloc, language, context, statement)?;
    judge_condition(
        alloc,
        walk,
        language,
        beside.of(context),
        state,
        so_far,
        which,
        tree,
    )
}

/// Judges a statement with `if` or `unless` after it.
pub fn modified_if<W: Walk, L: Language>(
    alloc: Global,
    walk: &W,
    language: &L,
    context: &Context,
    state: &mut State,
    which: Test,
    statement: &Tree,
    condition: &Tree,
) -> Result<Ty, NoMemory>
    ensures { IfOk result (λ ty. judged ty (seen_state state.new) ≡ branches.modified_if (L.the language.now) which (known.part_in (L.the language.now) statement.now) (known.part_in (L.the language.now) condition.now) (seen_context context.now) (seen_state state.old)) }
{
    let mut so_far = no_branches(language);
    condition_after(
        alloc,
        walk,
        language,
        context,
        state,
        &mut so_far,
        which,
        statement,
        condition,
    )?;
    branch(
        alloc,
        walk,
        language,
        context,
        state,
        &mut so_far.ends,
        statement,
    )?;
    without_otherwise(alloc, language, &mut so_far, context, state)
}

/// Judges `if` or `unless`, with `elsif` arms and perhaps `else`.
pub fn branches<W: Walk, L: Language>(
    alloc: Global,
    walk: &W,
    language: &L,
    context: &Context,
    state: &mut State,
    which: Test,
    condition: &Tree,
    body: &Tree,
    row: &[Arm<Tree>],
    last: &Option<Tree>,
) -> Result<Ty, NoMemory>
    ensures { IfOk result (λ ty. judged ty (seen_state state.new) ≡ branches.if_judged (L.the language.now) which (known.part_in (L.the language.now) condition.now) (known.part_in (L.the language.now) body.now) (known.known_arms (L.the language.now) row.now) (known.known_option (L.the language.now) last.now) (seen_context context.now) (seen_state state.old)) }
{
    let mut beside = Beside::new();
    let mut so_far = no_branches(language);
    one_branch(
        alloc,
        walk,
        language,
        context,
        &mut beside,
        state,
        &mut so_far,
        which,
        condition,
        body,
    )?;
    arms(
        alloc,
        walk,
        language,
        context,
        &mut beside,
        state,
        &mut so_far,
        row,
    )?;
    otherwise(
        alloc,
        walk,
        language,
        beside.of(context),
        state,
        &mut so_far,
        last,
    )
}

/// Judges `? :`.
pub fn conditional<W: Walk, L: Language>(
    alloc: Global,
    walk: &W,
    language: &L,
    context: &Context,
    state: &mut State,
    condition: &Tree,
    positive: &Tree,
    negative: &Tree,
) -> Result<Ty, NoMemory>
    ensures { IfOk result (λ ty. judged ty (seen_state state.new) ≡ branches.if_judged (L.the language.now) sense.Positive (known.part_in (L.the language.now) condition.now) (known.part_in (L.the language.now) positive.now) [] (Some (known.part_in (L.the language.now) negative.now)) (seen_context context.now) (seen_state state.old)) }
{
    let mut beside = Beside::new();
    let mut so_far = no_branches(language);
    one_branch(
        alloc,
        walk,
        language,
        context,
        &mut beside,
        state,
        &mut so_far,
        Test::Positive,
        condition,
        positive,
    )?;
    last_branch(
        alloc,
        walk,
        language,
        beside.of(context),
        state,
        &mut so_far,
        negative,
    )
}
