//! The walk over a tree: how each kind of tree is judged as a value.

ghost use Rattle.std.specs.Prelude.{◌≡◌, [], None, IfOk};
ghost use Rattle.rb_views.specs.Calls.{arguments_of};
ghost use Rattle.srb_judgement.specs.Calls.{call_untyped};
ghost use Rattle.srb_judgement.specs.Chains.{operands_of};
ghost use Rattle.srb_judgement.specs.Expressions as expressions;
ghost use Rattle.srb_judgement.specs.Kept.{seen_context};
ghost use Rattle.srb_judgement.specs.States.{judged};
ghost use Rattle.srb_judgement.specs.Views.{seen_state};
ghost use Rattle.srb_judgement.specs.Words as words;
ghost use Rattle.srb_walk.specs.Judging as spec;
ghost use Rattle.srb_walk.specs.Known as known;
ghost use Rattle.srb_walk_calls.specs.Fronts as fronts;

use rb_tree::syntax::{Argument, Block, Modifier, Node, Test, Tree};
use srb_judgement::built_in::BuiltIn;
use srb_judgement::contexts::Context;
use srb_judgement::language::Language;
use srb_judgement::reaching::{close, not_reached};
use srb_judgement::sent::Arguments;
use srb_judgement::states::State;
use srb_judgement::types::nil_type;
use srb_judgement::words::{instance_variable, type_at};
use srb_terms::{Boxed, Items, Name, NoMemory, Span, Ty};
use srb_walk::jumps::jump_value;
use srb_walk::names::in_brackets;
use srb_walk::operators::{binary, unary};
use srb_walk::walking::Walk;
use srb_walk_assignments::assignments::{assign, operator_assign};
use srb_walk_calls::calls::{command, own_call, untyped_call};
use srb_walk_calls::rows::{chained, named_constant};
use srb_walk_calls::steps::alone;
use srb_walk_control::branches::{branches, conditional, modified_if};
use srb_walk_control::cases::case;
use srb_walk_control::guards::guard;
use srb_walk_control::loops::{modified_loop, while_loop};
use srb_walk_control::sequences::{array, body, hash, text};
use std::alloc::Global;

/// Whether a tree is an expression, and so has a place where it may not be reached.
#[tactic(auto, unfolding(srb_walk::specs::Judging::is_expression))]
pub fn is_expression(tree: &Tree) -> bool
    ensures { result ≡ spec.is_expression tree.now }
{
    match tree.get() {
        Node::Body { .. } => false,
        Node::Class { .. } => false,
        Node::Module { .. } => false,
        Node::Def { .. } => false,
        _ => true,
    }
}

/// Judges a tree, and answers its type.
#[tactic(auto, using(srb_walk::proofs::Judgings::judge_is), unfolding(srb_walk::specs::Judging::judge_by_life))]
pub fn judge_node<W: Walk, L: Language>(
    alloc: Global,
    walk: &W,
    language: &L,
    context: &Context,
    state: &mut State,
    tree: &Tree,
) -> Result<Ty, NoMemory>
    ensures { IfOk result (λ ty. judged ty (seen_state state.new) ≡ spec.judge_of (L.the language.now) tree.now (seen_context context.now) (seen_state state.old)) }
{
    by_life(alloc, walk, language, context, state, tree)
}

/// The same, by whether it is an expression and is reached.
#[tactic(auto, unfolding(srb_walk::specs::Judging::judge_by_life))]
pub fn by_life<W: Walk, L: Language>(
    alloc: Global,
    walk: &W,
    language: &L,
    context: &Context,
    state: &mut State,
    tree: &Tree,
) -> Result<Ty, NoMemory>
    ensures { IfOk result (λ ty. judged ty (seen_state state.new) ≡ spec.judge_by_life (L.the language.now) tree.now (seen_context context.now) (seen_state state.old)) }
{
    if !is_expression(tree) {
        unplaced(alloc, walk, language, context, state, tree)
    } else if state.environment.is_live() {
        let ty = inside(alloc, walk, language, context, state, tree)?;
        close(language, &ty, state);
        Ok(ty)
    } else {
        not_reached(alloc, language, tree.span(), state)
    }
}

/// Judges a body or a declaration.
#[tactic(auto, unfolding(srb_walk::specs::Judging::unplaced_of))]
pub fn unplaced<W: Walk, L: Language>(
    alloc: Global,
    walk: &W,
    language: &L,
    context: &Context,
    state: &mut State,
    tree: &Tree,
) -> Result<Ty, NoMemory>
    ensures { IfOk result (λ ty. judged ty (seen_state state.new) ≡ spec.unplaced_of (L.the language.now) tree.now (seen_context context.now) (seen_state state.old)) }
{
    match tree.get() {
        Node::Body { statements, .. } => {
            body(alloc, walk, language, context, state, statements.as_slice())
        }
        _ => nil_type(language),
    }
}

/// Judges an expression that is reached, by its node.
#[tactic(auto, unfolding(srb_walk::specs::Judging::inside_of))]
pub fn inside<W: Walk, L: Language>(
    alloc: Global,
    walk: &W,
    language: &L,
    context: &Context,
    state: &mut State,
    tree: &Tree,
) -> Result<Ty, NoMemory>
    ensures { IfOk result (λ ty. judged ty (seen_state state.new) ≡ spec.inside_of (L.the language.now) tree.now (seen_context context.now) (seen_state state.old)) }
{
    match tree.get() {
        Node::Jump { jump, value, span } => {
            jump_value(alloc, walk, language, context, state, *jump, value, *span)
        }
        Node::Conditional {
            condition,
            positive,
            negative,
            ..
        } => conditional(
            alloc, walk, language, context, state, condition, positive, negative,
        ),
        Node::Binary {
            operator,
            operator_span,
            left,
            right,
            ..
        } => binary(
            alloc,
            walk,
            language,
            context,
            state,
            *operator,
            *operator_span,
            left,
            right,
        ),
        Node::Whole { .. } => language.built_in(BuiltIn::Integer).copied(),
        Node::Float { .. } => language.built_in(BuiltIn::Float).copied(),
        Node::Text { pieces: row, .. } => {
            text(alloc, walk, language, context, state, row.as_slice())
        }
        Node::Symbol { .. } => language.built_in(BuiltIn::Symbol).copied(),
        Node::InstanceVariable { name, span } => {
            instance_variable(alloc, language, context, name, *span, state)
        }
        Node::SelfWord { .. } => context.self_type.copied(),
        Node::Nil { .. } => language.built_in(BuiltIn::NilClass).copied(),
        Node::True { .. } => language.built_in(BuiltIn::TrueClass).copied(),
        Node::False { .. } => language.built_in(BuiltIn::FalseClass).copied(),
        Node::Array { elements, .. } => {
            array(alloc, walk, language, context, state, elements.as_slice())
        }
        Node::Hash { pairs, .. } => hash(alloc, walk, language, context, state, pairs.as_slice()),
        Node::Parens { body, .. } => walk.judge(alloc, language, context, state, body),
        Node::If {
            test: which,
            condition,
            body,
            arms,
            otherwise,
            ..
        } => branches(
            alloc,
            walk,
            language,
            context,
            state,
            *which,
            condition,
            body,
            arms.as_slice(),
            otherwise,
        ),
        Node::Name { name, span } => named(alloc, language, context, state, name, *span),
        Node::Call {
            name,
            name_span,
            arguments: row,
            block,
            ..
        } => bracketed_call(
            alloc, walk, language, context, state, name, *name_span, row, block,
        ),
        Node::Yield { arguments: row, .. } => {
            bracketed_untyped(alloc, walk, language, context, state, row)
        }
        Node::Super { arguments: row, .. } => {
            bracketed_untyped(alloc, walk, language, context, state, row)
        }
        Node::Command {
            callee,
            arguments: row,
            block,
            span,
        } => command(
            alloc,
            walk,
            language,
            context,
            state,
            callee,
            row.as_slice(),
            block,
            *span,
        ),
        Node::Post {
            receiver,
            suffixes,
            ..
        } => chained(
            alloc,
            walk,
            language,
            context,
            state,
            receiver,
            suffixes.as_slice(),
        ),
        Node::Constant { name, .. } => constant(alloc, language, context, state, false, name),
        Node::TopConstant { name, .. } => constant(alloc, language, context, state, true, name),
        Node::Assign { target, value, .. } => {
            assign(alloc, walk, language, context, state, target, value)
        }
        Node::OperatorAssign {
            target,
            operator,
            operator_span,
            value,
            span,
        } => operator_assign(
            alloc,
            walk,
            language,
            context,
            state,
            target,
            *operator,
            *operator_span,
            *span,
            value,
        ),
        Node::Unary {
            operator,
            operand,
            span,
        } => unary(
            alloc, walk, language, context, state, *operator, operand, *span,
        ),
        Node::Modified {
            statement,
            modifier,
            condition,
            ..
        } => modified(
            alloc, walk, language, context, state, *modifier, statement, condition,
        ),
        Node::While {
            test: which,
            condition,
            body,
            ..
        } => while_loop(
            alloc, walk, language, context, state, *which, condition, body,
        ),
        Node::Case {
            subject,
            arms,
            otherwise,
            ..
        } => case(
            alloc,
            walk,
            language,
            context,
            state,
            subject,
            arms.as_slice(),
            otherwise,
        ),
        Node::Begin { guarded: inner, .. } => guard(
            alloc,
            walk,
            language,
            context,
            state,
            inner.get(),
        ),
        _ => nil_type(language),
    }
}

/// The type of a name: of a variable where it is one, and else of a call on `self`.
#[inline(never)]
pub fn named<L: Language>(
    alloc: Global,
    language: &L,
    context: &Context,
    state: &mut State,
    name: &Name,
    span: Span,
) -> Result<Ty, NoMemory>
    ensures { IfOk result (λ ty. judged ty (seen_state state.new) ≡ expressions.name_judged (L.the language.now) name.now span (seen_context context.now) (seen_state state.old)) }
{
    if context.is_visible(name) {
        type_at(language, &state.environment, name)
    } else {
        self_named(alloc, language, context, state, name, span)
    }
}

/// The type of a name that is no variable: of a call on `self`.
#[inline(never)]
fn self_named<L: Language>(
    alloc: Global,
    language: &L,
    context: &Context,
    state: &mut State,
    name: &Name,
    span: Span,
) -> Result<Ty, NoMemory>
    ensures { IfOk result (λ ty. judged ty (seen_state state.new) ≡ expressions.own_call (L.the language.now) name.now span [] None (seen_context context.now) (seen_state state.old)) }
{
    let given = Arguments {
        positional: Items::new(alloc),
        keys: Items::new(alloc),
    };
    alone(
        alloc,
        language,
        context,
        state,
        &context.self_type,
        name,
        span,
        &given,
    )
}

/// Judges a constant that stands alone.
#[inline(never)]
fn constant<L: Language>(
    alloc: Global,
    language: &L,
    context: &Context,
    state: &State,
    top: bool,
    name: &Name,
) -> Result<Ty, NoMemory>
    ensures { IfOk result (λ ty. judged ty (seen_state state.now) ≡ words.constant (L.the language.now) (fronts.constant_path top name.now) (seen_context context.now) (seen_state state.now)) }
{
    named_constant(alloc, language, context, top, name)
}

/// Judges a call on `self` with brackets.
fn bracketed_call<W: Walk, L: Language>(
    alloc: Global,
    walk: &W,
    language: &L,
    context: &Context,
    state: &mut State,
    name: &Name,
    place: Span,
    brackets: &Option<Items<Argument<Tree>>>,
    own: &Option<Boxed<Block<Tree>>>,
) -> Result<Ty, NoMemory>
    ensures { IfOk result (λ ty. judged ty (seen_state state.new) ≡ expressions.own_call (L.the language.now) name.now place (operands_of (arguments_of (known.known_brackets (L.the language.now) brackets.now))) (known.known_blocks (L.the language.now) own.now) (seen_context context.now) (seen_state state.old)) }
{
    own_call(
        alloc,
        walk,
        language,
        context,
        state,
        name,
        place,
        in_brackets(brackets),
        own,
    )
}

/// Judges `yield` or `super` with brackets.
fn bracketed_untyped<W: Walk, L: Language>(
    alloc: Global,
    walk: &W,
    language: &L,
    context: &Context,
    state: &mut State,
    brackets: &Option<Items<Argument<Tree>>>,
) -> Result<Ty, NoMemory>
    ensures { IfOk result (λ ty. judged ty (seen_state state.new) ≡ call_untyped (L.the language.now) (operands_of (arguments_of (known.known_brackets (L.the language.now) brackets.now))) None (seen_context context.now) (seen_state state.old)) }
{
    untyped_call(
        alloc,
        walk,
        language,
        context,
        state,
        in_brackets(brackets),
        &None,
    )
}

/// Judges a statement with a modifier.
pub fn modified<W: Walk, L: Language>(
    alloc: Global,
    walk: &W,
    language: &L,
    context: &Context,
    state: &mut State,
    modifier: Modifier,
    statement: &Tree,
    condition: &Tree,
) -> Result<Ty, NoMemory>
    ensures { IfOk result (λ ty. judged ty (seen_state state.new) ≡ expressions.modified (L.the language.now) modifier (known.part_in (L.the language.now) statement.now) (known.part_in (L.the language.now) condition.now) (seen_context context.now) (seen_state state.old)) }
{
    match modifier {
        Modifier::If => modified_if(
            alloc,
            walk,
            language,
            context,
            state,
            Test::Positive,
            statement,
            condition,
        ),
        Modifier::Unless => modified_if(
            alloc,
            walk,
            language,
            context,
            state,
            Test::Negative,
            statement,
            condition,
        ),
        Modifier::While => modified_loop(
            alloc,
            walk,
            language,
            context,
            state,
            Test::Positive,
            statement,
            condition,
        ),
        Modifier::Until => modified_loop(
            alloc,
            walk,
            language,
            context,
            state,
            Test::Negative,
            statement,
            condition,
        ),
    }
}
