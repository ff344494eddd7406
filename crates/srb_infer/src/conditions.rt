//! Conditions: how each kind of tree is judged for truth and for falsehood.
//!
//! What is done for one kind of tree is never inlined, so that a condition inside another takes a small frame.

ghost use Rattle.std.specs.Prelude.{◌≡◌, IfOk};
ghost use Rattle.srb_judgement.specs.Kept.{seen_context};
ghost use Rattle.rb_tree.specs.Trees.{span_of};
ghost use Rattle.srb_judgement.specs.Assignments as assignments_spec;
ghost use Rattle.srb_judgement.specs.Chains as chains;
ghost use Rattle.srb_judgement.specs.Environments.{is_live};
ghost use Rattle.srb_judgement.specs.Narrowing as narrowing;
ghost use Rattle.srb_judgement.specs.Operators as operators_spec;
ghost use Rattle.srb_judgement.specs.Reaching as reaching_spec;
ghost use Rattle.srb_judgement.specs.Sequences as sequences;
ghost use Rattle.srb_judgement.specs.Spellings.{chain_at};
ghost use Rattle.srb_judgement.specs.Unreached as unreached;
ghost use Rattle.srb_judgement.specs.Conditions as conditions;
ghost use Rattle.srb_judgement.specs.States.{State as Passed, judged};
ghost use Rattle.srb_judgement.specs.Views.{seen_says, seen_state, seen_tested, settled};
ghost use Rattle.srb_terms.specs.declared.ty.Ty.{Ty};
ghost use Rattle.srb_walk.specs.Judging as spec;
ghost use Rattle.srb_walk.specs.Known as known;
ghost use Rattle.srb_walk.specs.Walking as walking;

use crate::walk::named;
use rb_tree::syntax::{Argument, Binary, Block, Node, Suffix, Tree, Unary};
use rb_views::prefix::Prefix;
use srb_judgement::contexts::Context;
use srb_judgement::language::Language;
use srb_judgement::narrowing::saying;
use srb_judgement::operators::{and_sides, exchanged, or_sides};
use srb_judgement::reaching::{both_sides, excluding, not_tested};
use srb_judgement::says::Says;
use srb_judgement::states::State;
use srb_judgement::tested::Tested;
use srb_terms::{Boxed, Name, NoMemory, Span, Ty};
use srb_walk::around::after;
use srb_walk::operators::{called, unary};
use srb_walk::says::{command_says, name_says, operator_says, row_says, target_says};
use srb_walk::walking::Walk;
use srb_walk_assignments::assignments::{assign, operator_assign};
use srb_walk_calls::calls::command;
use srb_walk_calls::rows::chained;
use srb_walk_control::sequences::body;
use std::alloc::Global;

/// Leaves out the side that the type of a condition excludes. It is never inlined: what it holds would stand in the frame of each condition.
#[inline(never)]
fn without_dead<L: Language>(
    alloc: Global,
    language: &L,
    tested: Tested,
) -> Result<Tested, NoMemory>
    ensures { IfOk result (λ t. (s : Passed Ty) → seen_tested t s ≡ reaching_spec.excluding (L.the language.now) (seen_tested tested s)) }
{
    excluding(alloc, language, tested)
}

/// What was judged as a value of this type, and then what it says of each side. It is never inlined either.
#[inline(never)]
fn said<L: Language>(
    alloc: Global,
    language: &L,
    says: &Says,
    ty: Ty,
    state: &mut State,
) -> Result<Tested, NoMemory>
    ensures { IfOk result (λ t. settled (seen_tested t (seen_state state.new)) ≡ settled (narrowing.saying (L.the language.now) (seen_says says.now) (judged ty (seen_state state.old)))) }
{
    saying(alloc, language, says, ty, state)
}

/// Judges a tree as a condition.
#[tactic(auto, using(srb_walk::proofs::Judgings::test_is), unfolding(srb_walk::specs::Judging::test_by_life))]
#[inline(never)]
pub fn test_node<W: Walk, L: Language>(
    alloc: Global,
    walk: &W,
    language: &L,
    context: &Context,
    state: &mut State,
    tree: &Tree,
) -> Result<Tested, NoMemory>
    ensures { IfOk result (λ t. settled (seen_tested t (seen_state state.new)) ≡ settled (spec.test_of (L.the language.now) tree.now (seen_context context.now) (seen_state state.old))) }
{
    test_by_life(alloc, walk, language, context, state, tree)
}

/// The same, by whether it is a body.
#[tactic(auto, unfolding(srb_walk::specs::Judging::test_by_life))]
fn test_by_life<W: Walk, L: Language>(
    alloc: Global,
    walk: &W,
    language: &L,
    context: &Context,
    state: &mut State,
    tree: &Tree,
) -> Result<Tested, NoMemory>
    ensures { IfOk result (λ t. settled (seen_tested t (seen_state state.new)) ≡ settled (spec.test_by_life (L.the language.now) tree.now (seen_context context.now) (seen_state state.old))) }
{
    match tree.get() {
        Node::Body { statements, .. } => {
            test_body(alloc, walk, language, context, state, statements.as_slice())
        }
        _ => test_reached(alloc, walk, language, context, state, tree),
    }
}

/// Judges a tree that is no body as a condition, by whether it is reached.
fn test_reached<W: Walk, L: Language>(
    alloc: Global,
    walk: &W,
    language: &L,
    context: &Context,
    state: &mut State,
    tree: &Tree,
) -> Result<Tested, NoMemory>
    ensures { IfOk result (λ t. settled (seen_tested t (seen_state state.new)) ≡ settled (unreached.tested_by_life (L.the language.now) (is_live (seen_state state.old).environment) (reaching_spec.excluding (L.the language.now) (spec.tested_inside (L.the language.now) tree.now (seen_context context.now) (seen_state state.old))) (unreached.not_tested (L.the language.now) (seen_state state.old).environment (span_of tree.now) (seen_state state.old)))) }
{
    if state.environment.is_live() {
        test_excluding(alloc, walk, language, context, state, tree)
    } else {
        not_tested(alloc, language, tree.span(), state)
    }
}

/// Judges a condition that is reached, and leaves out the side that is dead.
fn test_excluding<W: Walk, L: Language>(
    alloc: Global,
    walk: &W,
    language: &L,
    context: &Context,
    state: &mut State,
    tree: &Tree,
) -> Result<Tested, NoMemory>
    ensures { IfOk result (λ t. settled (seen_tested t (seen_state state.new)) ≡ settled (reaching_spec.excluding (L.the language.now) (spec.tested_inside (L.the language.now) tree.now (seen_context context.now) (seen_state state.old)))) }
{
    let tested = test_inside(alloc, walk, language, context, state, tree)?;
    without_dead(alloc, language, tested)
}

/// Judges a body as a condition: that of its statement, if there is one alone.
pub fn test_body<W: Walk, L: Language>(
    alloc: Global,
    walk: &W,
    language: &L,
    context: &Context,
    state: &mut State,
    statements: &[Tree],
) -> Result<Tested, NoMemory>
    ensures { IfOk result (λ t. settled (seen_tested t (seen_state state.new)) ≡ settled (conditions.body_test (L.the language.now) (known.known_trees (L.the language.now) statements.now) (seen_context context.now) (seen_state state.old))) }
{
    match statements {
        [] => plain_body(alloc, walk, language, context, state, statements),
        [statement] => walk.test(alloc, language, context, state, statement),
        _ => plain_body(alloc, walk, language, context, state, statements),
    }
}

/// Judges a body as a condition that says nothing.
fn plain_body<W: Walk, L: Language>(
    alloc: Global,
    walk: &W,
    language: &L,
    context: &Context,
    state: &mut State,
    statements: &[Tree],
) -> Result<Tested, NoMemory>
    ensures { IfOk result (λ t. settled (seen_tested t (seen_state state.new)) ≡ settled (reaching_spec.both_sides (sequences.body (L.the language.now) (known.known_trees (L.the language.now) statements.now) (seen_context context.now) (seen_state state.old)))) }
{
    let ty = body(alloc, walk, language, context, state, statements)?;
    both_sides(alloc, ty, state)
}

/// Judges `b` of `a && b` as a condition.
pub fn and_test<W: Walk, L: Language>(
    alloc: Global,
    walk: &W,
    language: &L,
    context: &Context,
    state: &mut State,
    left: Tested,
    right: &Tree,
) -> Result<Tested, NoMemory>
    ensures { IfOk result (λ t. settled (seen_tested t (seen_state state.new)) ≡ settled (operators_spec.and_next (L.the language.now) (spec.test_of (L.the language.now) right.now) (seen_context context.now) (seen_tested left (seen_state state.old)))) }
{
    let Tested {
        ty,
        truth,
        falsehood,
    } = left;
    state.environment = truth;
    let other = walk.test(alloc, language, context, state, right)?;
    and_sides(alloc, language, &ty, falsehood, other)
}

/// Judges `b` of `a || b` as a condition.
pub fn or_test<W: Walk, L: Language>(
    alloc: Global,
    walk: &W,
    language: &L,
    context: &Context,
    state: &mut State,
    left: Tested,
    right: &Tree,
) -> Result<Tested, NoMemory>
    ensures { IfOk result (λ t. settled (seen_tested t (seen_state state.new)) ≡ settled (operators_spec.or_next (L.the language.now) (spec.test_of (L.the language.now) right.now) (seen_context context.now) (seen_tested left (seen_state state.old)))) }
{
    let Tested {
        ty,
        truth,
        falsehood,
    } = left;
    state.environment = falsehood;
    let other = walk.test(alloc, language, context, state, right)?;
    or_sides(alloc, language, &ty, truth, other)
}

/// Judges a name as a condition.
#[inline(never)]
fn name_test<L: Language>(
    alloc: Global,
    language: &L,
    context: &Context,
    state: &mut State,
    name: &Name,
    span: Span,
) -> Result<Tested, NoMemory>
    ensures { IfOk result (λ t. settled (seen_tested t (seen_state state.new)) ≡ settled (conditions.name_test (L.the language.now) name.now span (seen_context context.now) (seen_state state.old))) }
{
    let says = name_says(language, context, name)?;
    let ty = named(alloc, language, context, state, name, span)?;
    said(alloc, language, &says, ty, state)
}

/// Judges an assignment as a condition.
#[inline(never)]
fn assigned_test<W: Walk, L: Language>(
    alloc: Global,
    walk: &W,
    language: &L,
    context: &Context,
    state: &mut State,
    target: &Tree,
    value: &Tree,
) -> Result<Tested, NoMemory>
    ensures { IfOk result (λ t. settled (seen_tested t (seen_state state.new)) ≡ settled (assignments_spec.assigned_test (L.the language.now) (walking.ending_in (L.the language.now) target.now) (assignments_spec.assigned (L.the language.now) (walking.ending_in (L.the language.now) target.now) (known.part_in (L.the language.now) value.now).it) (seen_context context.now) (seen_state state.old))) }
{
    let says = target_says(language, target)?;
    let ty = assign(alloc, walk, language, context, state, target, value)?;
    said(alloc, language, &says, ty, state)
}

/// Judges an assignment with an operator as a condition.
#[inline(never)]
fn operator_assigned_test<W: Walk, L: Language>(
    alloc: Global,
    walk: &W,
    language: &L,
    context: &Context,
    state: &mut State,
    target: &Tree,
    operator: Binary,
    place: Span,
    value: &Tree,
    whole: Span,
) -> Result<Tested, NoMemory>
    ensures { IfOk result (λ t. settled (seen_tested t (seen_state state.new)) ≡ settled (assignments_spec.assigned_test (L.the language.now) (walking.ending_in (L.the language.now) target.now) (assignments_spec.operator_assigned (L.the language.now) (walking.ending_in (L.the language.now) target.now) operator place (known.part_in (L.the language.now) value.now).it whole) (seen_context context.now) (seen_state state.old))) }
{
    let says = target_says(language, target)?;
    let ty = operator_assign(
        alloc, walk, language, context, state, target, operator, place, whole, value,
    )?;
    said(alloc, language, &says, ty, state)
}

/// Judges `!a` as a condition.
fn not_test<W: Walk, L: Language>(
    alloc: Global,
    walk: &W,
    language: &L,
    context: &Context,
    state: &mut State,
    operand: &Tree,
) -> Result<Tested, NoMemory>
    ensures { IfOk result (λ t. settled (seen_tested t (seen_state state.new)) ≡ settled (operators_spec.exchanged (L.the language.now) (spec.test_of (L.the language.now) operand.now (seen_context context.now) (seen_state state.old)))) }
{
    let tested = walk.test(alloc, language, context, state, operand)?;
    exchanged(language, tested)
}

/// Judges an operator before its operand, but `!`, as a condition.
fn prefix_test<W: Walk, L: Language>(
    alloc: Global,
    walk: &W,
    language: &L,
    context: &Context,
    state: &mut State,
    operator: Unary,
    operand: &Tree,
    span: Span,
) -> Result<Tested, NoMemory>
    ensures { IfOk result (λ t. settled (seen_tested t (seen_state state.new)) ≡ settled (reaching_spec.both_sides (operators_spec.unary_judged (L.the language.now) operator (known.part_in (L.the language.now) operand.now).it span (seen_context context.now) (seen_state state.old)))) }
{
    let ty = unary(
        alloc, walk, language, context, state, operator, operand, span,
    )?;
    both_sides(alloc, ty, state)
}

/// Judges an operator before its operand as a condition.
#[inline(never)]
fn unary_test<W: Walk, L: Language>(
    alloc: Global,
    walk: &W,
    language: &L,
    context: &Context,
    state: &mut State,
    operator: Unary,
    operand: &Tree,
    span: Span,
) -> Result<Tested, NoMemory>
    ensures { IfOk result (λ t. settled (seen_tested t (seen_state state.new)) ≡ settled (conditions.unary_test (L.the language.now) operator (known.part_in (L.the language.now) operand.now) span (seen_context context.now) (seen_state state.old))) }
{
    match operator {
        Unary::Not => not_test(alloc, walk, language, context, state, operand),
        _ => prefix_test(
            alloc, walk, language, context, state, operator, operand, span,
        ),
    }
}

/// Judges `a && b` as a condition.
fn and_judged<W: Walk, L: Language>(
    alloc: Global,
    walk: &W,
    language: &L,
    context: &Context,
    state: &mut State,
    left: &Tree,
    right: &Tree,
) -> Result<Tested, NoMemory>
    ensures { IfOk result (λ t. settled (seen_tested t (seen_state state.new)) ≡ settled (operators_spec.and_test (L.the language.now) (spec.test_of (L.the language.now) left.now) (known.part_in (L.the language.now) left.now).it.declares (spec.test_of (L.the language.now) right.now) (seen_context context.now) (seen_state state.old))) }
{
    let tested = walk.test(alloc, language, context, state, left)?;
    let inner = after(alloc, language, context, left)?;
    and_test(
        alloc,
        walk,
        language,
        inner.of(context),
        state,
        tested,
        right,
    )
}

/// Judges `a || b` as a condition.
fn or_judged<W: Walk, L: Language>(
    alloc: Global,
    walk: &W,
    language: &L,
    context: &Context,
    state: &mut State,
    left: &Tree,
    right: &Tree,
) -> Result<Tested, NoMemory>
    ensures { IfOk result (λ t. settled (seen_tested t (seen_state state.new)) ≡ settled (operators_spec.or_test (L.the language.now) (spec.test_of (L.the language.now) left.now) (known.part_in (L.the language.now) left.now).it.declares (spec.test_of (L.the language.now) right.now) (seen_context context.now) (seen_state state.old))) }
{
    let tested = walk.test(alloc, language, context, state, left)?;
    let inner = after(alloc, language, context, left)?;
    or_test(
        alloc,
        walk,
        language,
        inner.of(context),
        state,
        tested,
        right,
    )
}

/// Judges an operator that is a call as a condition.
fn operator_test<W: Walk, L: Language>(
    alloc: Global,
    walk: &W,
    language: &L,
    context: &Context,
    state: &mut State,
    operator: Binary,
    place: Span,
    left: &Tree,
    right: &Tree,
) -> Result<Tested, NoMemory>
    ensures { IfOk result (λ t. settled (seen_tested t (seen_state state.new)) ≡ settled (narrowing.saying (L.the language.now) (operators_spec.says_operator (L.the language.now) operator (known.part_in (L.the language.now) left.now).it (known.part_in (L.the language.now) right.now).it (seen_context context.now)) (operators_spec.operator_judged (L.the language.now) (known.part_in (L.the language.now) left.now).it (operators_spec.method_name operator) place (known.part_in (L.the language.now) right.now).it (seen_context context.now) (seen_state state.old)))) }
{
    let says = operator_says(alloc, language, context, operator, left, right)?;
    let ty = called(
        alloc, walk, language, context, state, operator, place, left, right,
    )?;
    said(alloc, language, &says, ty, state)
}

/// Judges an operator between two operands as a condition.
#[inline(never)]
fn binary_test<W: Walk, L: Language>(
    alloc: Global,
    walk: &W,
    language: &L,
    context: &Context,
    state: &mut State,
    operator: Binary,
    place: Span,
    left: &Tree,
    right: &Tree,
) -> Result<Tested, NoMemory>
    ensures { IfOk result (λ t. settled (seen_tested t (seen_state state.new)) ≡ settled (operators_spec.binary_test (L.the language.now) operator place (known.part_in (L.the language.now) left.now) (known.part_in (L.the language.now) right.now) (seen_context context.now) (seen_state state.old))) }
{
    match operator {
        Binary::And => and_judged(alloc, walk, language, context, state, left, right),
        Binary::Or => or_judged(alloc, walk, language, context, state, left, right),
        _ => operator_test(
            alloc, walk, language, context, state, operator, place, left, right,
        ),
    }
}

/// Judges a row as a condition.
#[inline(never)]
fn chain_test<W: Walk, L: Language>(
    alloc: Global,
    walk: &W,
    language: &L,
    context: &Context,
    state: &mut State,
    receiver: &Tree,
    suffixes: &[Suffix<Tree>],
) -> Result<Tested, NoMemory>
    ensures { IfOk result (λ t. settled (seen_tested t (seen_state state.new)) ≡ settled (chains.chain_test (L.the language.now) (chain_at (L.the language.now) (known.part_in (L.the language.now) receiver.now) (known.known_suffixes (L.the language.now) suffixes.now)) (seen_context context.now) (seen_state state.old))) }
{
    let row = Prefix {
        operand: receiver,
        suffixes,
    };
    let says = row_says(alloc, language, context, row)?;
    let ty = chained(alloc, walk, language, context, state, receiver, suffixes)?;
    said(alloc, language, &says, ty, state)
}

/// Judges a command as a condition.
#[inline(never)]
fn command_test<W: Walk, L: Language>(
    alloc: Global,
    walk: &W,
    language: &L,
    context: &Context,
    state: &mut State,
    callee: &Tree,
    row: &[Argument<Tree>],
    block: &Option<Boxed<Block<Tree>>>,
    span: Span,
) -> Result<Tested, NoMemory>
    ensures { IfOk result (λ t. settled (seen_tested t (seen_state state.new)) ≡ settled (conditions.command_test (L.the language.now) (walking.ending_in (L.the language.now) callee.now) (chains.operands_of (known.known_arguments (L.the language.now) row.now)) (known.known_blocks (L.the language.now) block.now) span (seen_context context.now) (seen_state state.old))) }
{
    let says = command_says(alloc, language, context, callee, row, block)?;
    let ty = command(
        alloc, walk, language, context, state, callee, row, block, span,
    )?;
    said(alloc, language, &says, ty, state)
}

/// Judges a tree of any other kind as a condition.
fn plain_test<W: Walk, L: Language>(
    alloc: Global,
    walk: &W,
    language: &L,
    context: &Context,
    state: &mut State,
    tree: &Tree,
) -> Result<Tested, NoMemory>
    ensures { IfOk result (λ t. settled (seen_tested t (seen_state state.new)) ≡ settled (reaching_spec.both_sides (spec.judge_of (L.the language.now) tree.now (seen_context context.now) (seen_state state.old)))) }
{
    let ty = walk.judge(alloc, language, context, state, tree)?;
    both_sides(alloc, ty, state)
}

/// Judges a condition that is reached, by its node.
#[tactic(auto, unfolding(srb_walk::specs::Judging::tested_inside))]
pub fn test_inside<W: Walk, L: Language>(
    alloc: Global,
    walk: &W,
    language: &L,
    context: &Context,
    state: &mut State,
    tree: &Tree,
) -> Result<Tested, NoMemory>
    ensures { IfOk result (λ t. settled (seen_tested t (seen_state state.new)) ≡ settled (spec.tested_inside (L.the language.now) tree.now (seen_context context.now) (seen_state state.old))) }
{
    match tree.get() {
        Node::Parens { body, .. } => walk.test(alloc, language, context, state, body),
        Node::Name { name, span } => name_test(alloc, language, context, state, name, *span),
        Node::Assign { target, value, .. } => {
            assigned_test(alloc, walk, language, context, state, target, value)
        }
        Node::OperatorAssign {
            target,
            operator,
            operator_span,
            value,
            span,
        } => operator_assigned_test(
            alloc,
            walk,
            language,
            context,
            state,
            target,
            *operator,
            *operator_span,
            value,
            *span,
        ),
        Node::Unary {
            operator,
            operand,
            span,
        } => unary_test(
            alloc, walk, language, context, state, *operator, operand, *span,
        ),
        Node::Binary {
            operator,
            operator_span,
            left,
            right,
            ..
        } => binary_test(
            alloc,
            walk,
            language,
            context,
            state,
            *operator,
            *operator_span,
            left,
            right,
        ),
        Node::Post {
            receiver,
            suffixes,
            ..
        } => chain_test(
            alloc,
            walk,
            language,
            context,
            state,
            receiver,
            suffixes.as_slice(),
        ),
        Node::Command {
            callee,
            arguments: row,
            block,
            span,
        } => command_test(
            alloc,
            walk,
            language,
            context,
            state,
            callee,
            row.as_slice(),
            block,
            *span,
        ),
        _ => plain_test(alloc, walk, language, context, state, tree),
    }
}
