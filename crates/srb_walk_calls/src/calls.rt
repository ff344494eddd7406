//! Arguments, blocks, and calls.

ghost use Rattle.std.specs.Option.{is_some};
ghost use Rattle.std.specs.Prelude.{◌≡◌, ◌∷◌, [], IfOk, OnOk};
ghost use Rattle.srb_terms.specs.declared.ty.Ty.{Ty};
ghost use Rattle.srb_judgement.specs.Blocks as blocks_spec;
ghost use Rattle.srb_judgement.specs.Calls as calls_spec;
ghost use Rattle.srb_judgement.specs.Chains.{operand_of, operands_of};
ghost use Rattle.srb_judgement.specs.Expressions as expressions;
ghost use Rattle.srb_judgement.specs.Kept.{seen_context};
ghost use Rattle.srb_judgement.specs.States as states_spec;
ghost use Rattle.srb_judgement.specs.States.{judged};
ghost use Rattle.rb_views.specs.Prefixes.{seen_prefix};
ghost use Rattle.srb_walk.specs.Endings.{known_end, prefix_operand, seen_end};
ghost use Rattle.srb_walk.specs.Judging as judging;
ghost use Rattle.srb_walk.specs.Rows as rows_spec;
ghost use Rattle.srb_judgement.specs.Views.{seen_arguments, seen_given, seen_named, seen_environment, seen_state, seen_block_judged};
ghost use Rattle.srb_walk.specs.Walking as walking;
ghost use Rattle.srb_walk_calls.specs.Fronts as fronts;
ghost use Rattle.srb_walk.specs.Known as known;

use crate::rows::{assertion, chained, count_of};
use crate::steps::{alone, or_nil, types_given, with_block};
use rb_tree::syntax::{Argument, Block, Dot, Tree};
use rb_views::prefix::Prefix;
use srb_judgement::assertions::{Form, form_by};
use srb_judgement::blocks::{BlockJudged, begin_block, end_block};
use srb_judgement::calls::{join_before, left_of};
use srb_judgement::contexts::Context;
use srb_judgement::environments::Environment;
use srb_judgement::language::Language;
use srb_judgement::sent::{Arguments, Given, Named};
use srb_judgement::states::State;
use srb_terms::{Boxed, Items, Name, NoMemory, Span, Ty};
use srb_walk::around::{Beside, parameter_names};
use srb_walk::assigned::assigned;
use srb_walk::ending::Ending;
use srb_walk::names::{after_arguments, after_prefix, prefix_spelling, see_argument};
use srb_walk::walking::Walk;
use std::alloc::Global;

/// An argument by its place that has this type.
#[tactic(auto, using(srb_walk::proofs::Writing::span_told))]
pub fn given_at<L: Language>(language: &L, ty: Ty, value: &Tree) -> Given
    ensures { seen_given result ≡ record { ty = ty; span = (known.part_in (L.the language.now) value.now).it.span } }
{
    Given {
        ty,
        span: value.span(),
    }
}

/// An argument by its name that has this type.
#[tactic(auto, using(srb_walk::proofs::Writing::span_told))]
pub fn named_at<L: Language>(
    language: &L,
    name: &Name,
    ty: Ty,
    value: &Tree,
) -> Result<Named, NoMemory>
    ensures { IfOk result (λ n. seen_named n ≡ record { name = name.now; ty = ty; span = (known.part_in (L.the language.now) value.now).it.span }) }
{
    Ok(Named {
        name: name.copied()?,
        ty,
        span: value.span(),
    })
}

/// Judges an argument, and adds it to those before it.
pub fn argument<W: Walk, L: Language>(
    alloc: Global,
    walk: &W,
    language: &L,
    context: &Context,
    state: &mut State,
    given: &mut Arguments,
    argument: &Argument<Tree>,
) -> Result<(), NoMemory>
    ensures { OnOk result (seen_arguments given.new (seen_state state.new) ≡ calls_spec.judge_arguments (operand_of (known.known_argument (L.the language.now) argument.now) ∷ []) (seen_context context.now) (seen_arguments given.old (seen_state state.old))) }
{
    match argument {
        Argument::Positional { value } => {
            let ty = walk.judge(alloc, language, context, state, value)?;
            given.positional.push(given_at(language, ty, value))
        }
        Argument::Keyword { name, value, .. } => {
            let ty = walk.judge(alloc, language, context, state, value)?;
            given.keys.push(named_at(language, name, ty, value)?)
        }
        Argument::Block { value, .. } => {
            walk.judge(alloc, language, context, state, value)?;
            Ok(())
        }
    }
}

/// Judges arguments in their order.
pub fn arguments<W: Walk, L: Language>(
    alloc: Global,
    walk: &W,
    language: &L,
    context: &Context,
    state: &mut State,
    row: &[Argument<Tree>],
) -> Result<Arguments, NoMemory>
    ensures { IfOk result (λ a. seen_arguments a (seen_state state.new) ≡ calls_spec.judge_arguments (operands_of (known.known_arguments (L.the language.now) row.now)) (seen_context context.now) (calls_spec.no_arguments (seen_state state.old))) }
{
    let mut beside = Beside::new();
    let mut given = Arguments {
        positional: Items::new(alloc),
        keys: Items::new(alloc),
    };
    'row: for each in row {
        argument(
            alloc,
            walk,
            language,
            beside.of(context),
            state,
            &mut given,
            each,
        )?;
        see_argument(alloc, language, &mut beside, context, each)?;
    }
    Ok(given)
}

/// Judges the body of a block in its own context, and takes the block's own variables and jumps out of what is left.
fn block_inside<W: Walk, L: Language>(
    alloc: Global,
    walk: &W,
    language: &L,
    context: &Context,
    inner: &Context,
    state: &mut State,
    parameters: &[Name],
    assigns: &[Name],
    types: &[Ty],
    body: &Tree,
) -> Result<BlockJudged, NoMemory>
    ensures { IfOk result (λ b. seen_block_judged b (seen_state state.new) ≡ blocks_spec.left_with (L.the language.now) parameters.now (seen_context context.now) (seen_state state.old) (judging.judge_of (L.the language.now) body.now (seen_context inner.now) (blocks_spec.state_with (L.the language.now) parameters.now assigns.now types.now (seen_context context.now) (seen_state state.old)))) }
{
    let aside = begin_block(alloc, language, context, parameters, assigns, types, state)?;
    let ty = walk.judge(alloc, language, inner, state, body)?;
    end_block(alloc, language, context, parameters, aside, ty, state)
}

/// Judges a block whose parameters get these types.
pub fn block<W: Walk, L: Language>(
    alloc: Global,
    walk: &W,
    language: &L,
    context: &Context,
    state: &mut State,
    types: &[Ty],
    block: &Block<Tree>,
) -> Result<BlockJudged, NoMemory>
    ensures { IfOk result (λ b. seen_block_judged b (seen_state state.new) ≡ blocks_spec.block_judged (L.the language.now) (known.known_block (L.the language.now) block.now) types.now (seen_context context.now) (seen_state state.old)) }
{
    let parameters = parameter_names(alloc, block.parameters.as_slice())?;
    let mut assigns = Items::new(alloc);
    assigned(alloc, language, true, &block.body, &mut assigns)?;
    let inner = context.in_block(alloc, language, &state.environment, parameters.as_slice())?;
    block_inside(
        alloc,
        walk,
        language,
        context,
        &inner,
        state,
        parameters.as_slice(),
        assigns.as_slice(),
        types,
        &block.body,
    )
}

/// The type of a call with these arguments, with the block that it is given, if it is given one. The context is that after the arguments.
pub fn call_with<W: Walk, L: Language>(
    alloc: Global,
    walk: &W,
    language: &L,
    context: &Context,
    state: &mut State,
    receiver: &Ty,
    name: &Name,
    name_span: Span,
    given: &Arguments,
    own: &Option<Boxed<Block<Tree>>>,
) -> Result<Ty, NoMemory>
    ensures { IfOk result (λ ty. judged ty (seen_state state.new) ≡ calls_spec.call_with (L.the language.now) (known.known_blocks (L.the language.now) own.now) receiver.now name.now name_span (seen_context context.now) (seen_arguments given.now (seen_state state.old))) }
{
    match own {
        None => alone(
            alloc, language, context, state, receiver, name, name_span, given,
        ),
        Some(own) => {
            let count = own.get().parameters.len();
            let types = types_given(
                alloc, language, state, receiver, name, name_span, given, count,
            )?;
            let left = block(
                alloc,
                walk,
                language,
                context,
                state,
                types.as_slice(),
                own.get(),
            )?;
            with_block(
                alloc, language, state, receiver, name, name_span, given, count, left,
            )
        }
    }
}

/// The block of a call that takes anything, whose parameters are all `T.untyped`.
pub fn untyped_block<W: Walk, L: Language>(
    alloc: Global,
    walk: &W,
    language: &L,
    context: &Context,
    state: &mut State,
    own: &Option<Boxed<Block<Tree>>>,
) -> Result<Ty, NoMemory>
    ensures { IfOk result (λ ty. judged ty (seen_state state.new) ≡ calls_spec.untyped_block (L.the language.now) (known.known_blocks (L.the language.now) own.now) (seen_context context.now) (seen_state state.old)) }
{
    match own {
        None => Ok(language.untyped()),
        Some(own) => {
            block(alloc, walk, language, context, state, &[], own.get())?;
            Ok(language.untyped())
        }
    }
}

/// Judges the arguments and the block of a call that takes anything, as `yield` and `super` are.
pub fn untyped_call<W: Walk, L: Language>(
    alloc: Global,
    walk: &W,
    language: &L,
    context: &Context,
    state: &mut State,
    row: &[Argument<Tree>],
    own: &Option<Boxed<Block<Tree>>>,
) -> Result<Ty, NoMemory>
    ensures { IfOk result (λ ty. judged ty (seen_state state.new) ≡ calls_spec.call_untyped (L.the language.now) (operands_of (known.known_arguments (L.the language.now) row.now)) (known.known_blocks (L.the language.now) own.now) (seen_context context.now) (seen_state state.old)) }
{
    arguments(alloc, walk, language, context, state, row)?;
    let inner = after_arguments(alloc, language, context, row)?;
    untyped_block(alloc, walk, language, inner.of(context), state, own)
}

/// Judges a call on a receiver of this type, with its arguments and its block.
pub fn call_on<W: Walk, L: Language>(
    alloc: Global,
    walk: &W,
    language: &L,
    context: &Context,
    state: &mut State,
    receiver: &Ty,
    name: &Name,
    name_span: Span,
    row: &[Argument<Tree>],
    own: &Option<Boxed<Block<Tree>>>,
) -> Result<Ty, NoMemory>
    ensures { IfOk result (λ ty. judged ty (seen_state state.new) ≡ calls_spec.call_on (L.the language.now) receiver.now name.now name_span (operands_of (known.known_arguments (L.the language.now) row.now)) (known.known_blocks (L.the language.now) own.now) (seen_context context.now) (seen_state state.old)) }
{
    let given = arguments(alloc, walk, language, context, state, row)?;
    let inner = after_arguments(alloc, language, context, row)?;
    call_with(
        alloc,
        walk,
        language,
        inner.of(context),
        state,
        receiver,
        name,
        name_span,
        &given,
        own,
    )
}

/// Judges a call by `&.` of which this is left of the receiver's type: where nothing is left, no call is judged.
pub fn safe_call<W: Walk, L: Language>(
    alloc: Global,
    walk: &W,
    language: &L,
    context: &Context,
    state: &mut State,
    left: &Ty,
    name: &Name,
    name_span: Span,
    row: &[Argument<Tree>],
    own: &Option<Boxed<Block<Tree>>>,
) -> Result<Ty, NoMemory>
    ensures { IfOk result (λ ty. judged ty (seen_state state.new) ≡ calls_spec.safe_call (L.the language.now) ((L.the language.now).is_never left.now) left.now name.now name_span (operands_of (known.known_arguments (L.the language.now) row.now)) (known.known_blocks (L.the language.now) own.now) (seen_context context.now) (seen_state state.old)) }
{
    if language.is_never(left) {
        untyped_call(alloc, walk, language, context, state, row, own)?;
        Ok(language.never())
    } else {
        call_on(
            alloc, walk, language, context, state, left, name, name_span, row, own,
        )
    }
}

/// Judges a call by `&.` on a receiver of this type.
pub fn safely<W: Walk, L: Language>(
    alloc: Global,
    walk: &W,
    language: &L,
    context: &Context,
    state: &mut State,
    receiver: &Ty,
    name: &Name,
    name_span: Span,
    row: &[Argument<Tree>],
    own: &Option<Boxed<Block<Tree>>>,
) -> Result<Ty, NoMemory>
    ensures { IfOk result (λ ty. judged ty (seen_state state.new) ≡ calls_spec.safely (L.the language.now) receiver.now name.now name_span (operands_of (known.known_arguments (L.the language.now) row.now)) (known.known_blocks (L.the language.now) own.now) (seen_context context.now) (seen_state state.old)) }
{
    let before = state.environment.copied(alloc)?;
    let left = left_of(alloc, language, receiver)?;
    let ty = safe_call(
        alloc, walk, language, context, state, &left, name, name_span, row, own,
    )?;
    join_before(alloc, language, before, &ty, state)?;
    or_nil(alloc, language, state, receiver, &ty)
}

/// Judges a call by `.` or `&.` on a receiver of this type, which was judged. The context is that after the receiver.
pub fn after_receiver<W: Walk, L: Language>(
    alloc: Global,
    walk: &W,
    language: &L,
    context: &Context,
    state: &mut State,
    dot: Dot,
    receiver: &Ty,
    name: &Name,
    name_span: Span,
    row: &[Argument<Tree>],
    own: &Option<Boxed<Block<Tree>>>,
) -> Result<Ty, NoMemory>
    ensures { IfOk result (λ ty. judged ty (seen_state state.new) ≡ calls_spec.after_receiver (L.the language.now) dot name.now name_span (operands_of (known.known_arguments (L.the language.now) row.now)) (known.known_blocks (L.the language.now) own.now) (seen_context context.now) (judged receiver.now (seen_state state.old))) }
{
    match dot {
        Dot::Plain => call_on(
            alloc, walk, language, context, state, receiver, name, name_span, row, own,
        ),
        Dot::Safe => safely(
            alloc, walk, language, context, state, receiver, name, name_span, row, own,
        ),
    }
}

/// Judges a call on `self`.
pub fn own_call<W: Walk, L: Language>(
    alloc: Global,
    walk: &W,
    language: &L,
    context: &Context,
    state: &mut State,
    name: &Name,
    name_span: Span,
    row: &[Argument<Tree>],
    own: &Option<Boxed<Block<Tree>>>,
) -> Result<Ty, NoMemory>
    ensures { IfOk result (λ ty. judged ty (seen_state state.new) ≡ expressions.own_call (L.the language.now) name.now name_span (operands_of (known.known_arguments (L.the language.now) row.now)) (known.known_blocks (L.the language.now) own.now) (seen_context context.now) (seen_state state.old)) }
{
    let receiver = &context.self_type;
    call_on(
        alloc, walk, language, context, state, receiver, name, name_span, row, own,
    )
}

/// Judges a call on a prefix.
pub fn call_operand<W: Walk, L: Language>(
    alloc: Global,
    walk: &W,
    language: &L,
    context: &Context,
    state: &mut State,
    front: Prefix<'_>,
    dot: Dot,
    name: &Name,
    name_span: Span,
    row: &[Argument<Tree>],
    own: &Option<Boxed<Block<Tree>>>,
) -> Result<Ty, NoMemory>
    ensures { IfOk result (λ ty. judged ty (seen_state state.new) ≡ calls_spec.call_operand (L.the language.now) (prefix_operand (L.the language.now) (seen_prefix front.entry)) dot name.now name_span (operands_of (known.known_arguments (L.the language.now) row.now)) (known.known_blocks (L.the language.now) own.now) (seen_context context.now) (seen_state state.old)) }
{
    let receiver = chained(
        alloc,
        walk,
        language,
        context,
        state,
        front.operand,
        front.suffixes,
    )?;
    let inner = after_prefix(alloc, language, context, front)?;
    after_receiver(
        alloc,
        walk,
        language,
        inner.of(context),
        state,
        dot,
        &receiver,
        name,
        name_span,
        row,
        own,
    )
}

/// Judges a command that is a call on a prefix, or a form of `T`.
pub fn send<W: Walk, L: Language>(
    alloc: Global,
    walk: &W,
    language: &L,
    context: &Context,
    state: &mut State,
    front: Prefix<'_>,
    dot: Dot,
    name: &Name,
    name_span: Span,
    row: &[Argument<Tree>],
    own: &Option<Boxed<Block<Tree>>>,
    whole: Span,
) -> Result<Ty, NoMemory>
    ensures { IfOk result (λ ty. judged ty (seen_state state.new) ≡ fronts.sent_by (L.the language.now) (fronts.command_form dot (is_some own.now) (prefix_operand (L.the language.now) (seen_prefix front.entry)).spelling name.now row.now) (prefix_operand (L.the language.now) (seen_prefix front.entry)) dot name.now name_span (operands_of (known.known_arguments (L.the language.now) row.now)) (known.known_blocks (L.the language.now) own.now) whole (seen_context context.now) (seen_state state.old)) }
{
    match command_form(alloc, language, front, dot, name, row, own.is_some())? {
        Form::Call => call_operand(
            alloc, walk, language, context, state, front, dot, name, name_span, row, own,
        ),
        form => assertion(alloc, walk, language, context, state, form, whole, row),
    }
}

/// Judges a call without brackets on a prefix.
pub fn send_to<W: Walk, L: Language>(
    alloc: Global,
    walk: &W,
    language: &L,
    context: &Context,
    state: &mut State,
    front: Prefix<'_>,
    dot: Dot,
    name: &Name,
    name_span: Span,
    row: &[Argument<Tree>],
    own: &Option<Boxed<Block<Tree>>>,
    whole: Span,
) -> Result<Ty, NoMemory>
    ensures { IfOk result (λ ty. judged ty (seen_state state.new) ≡ calls_spec.send (L.the language.now) (prefix_operand (L.the language.now) (seen_prefix front.entry)) dot name.now name_span (operands_of (known.known_arguments (L.the language.now) row.now)) (known.known_blocks (L.the language.now) own.now) whole (seen_context context.now) (seen_state state.old)) }
{
    send(
        alloc, walk, language, context, state, front, dot, name, name_span, row, own, whole,
    )
}

/// Judges a command whose callee ends so.
pub fn command_on<W: Walk, L: Language>(
    alloc: Global,
    walk: &W,
    language: &L,
    context: &Context,
    state: &mut State,
    ending: Ending<'_>,
    row: &[Argument<Tree>],
    own: &Option<Boxed<Block<Tree>>>,
    span: Span,
) -> Result<Ty, NoMemory>
    ensures { IfOk result (λ ty. judged ty (seen_state state.new) ≡ expressions.command (L.the language.now) (known_end (L.the language.now) (seen_end ending.entry)) (operands_of (known.known_arguments (L.the language.now) row.now)) (known.known_blocks (L.the language.now) own.now) span (seen_context context.now) (seen_state state.old)) }
{
    match ending {
        Ending::Name { name, span } => own_call(
            alloc, walk, language, context, state, name, span, row, own,
        ),
        Ending::Call {
            receiver: front,
            dot,
            name,
            name_span,
        } => send_to(
            alloc, walk, language, context, state, front, dot, name, name_span, row, own, span,
        ),
        _ => untyped_call(alloc, walk, language, context, state, row, own),
    }
}

/// Judges a command.
pub fn command<W: Walk, L: Language>(
    alloc: Global,
    walk: &W,
    language: &L,
    context: &Context,
    state: &mut State,
    callee: &Tree,
    row: &[Argument<Tree>],
    own: &Option<Boxed<Block<Tree>>>,
    span: Span,
) -> Result<Ty, NoMemory>
    ensures { IfOk result (λ ty. judged ty (seen_state state.new) ≡ expressions.command (L.the language.now) (walking.ending_in (L.the language.now) callee.now) (operands_of (known.known_arguments (L.the language.now) row.now)) (known.known_blocks (L.the language.now) own.now) span (seen_context context.now) (seen_state state.old)) }
{
    command_on(
        alloc,
        walk,
        language,
        context,
        state,
        Ending::of(callee),
        row,
        own,
        span,
    )
}

/// The form of `T` that a command is, by the prefix that it is called on.
pub fn command_form<L: Language>(
    alloc: Global,
    language: &L,
    front: Prefix<'_>,
    dot: Dot,
    name: &Name,
    row: &[Argument<Tree>],
    block: bool,
) -> Result<Form, NoMemory>
    ensures { IfOk result (λ f. f ≡ fronts.command_form dot block (prefix_operand (L.the language.now) (seen_prefix front.entry)).spelling name.now row.now) }
{
    match dot {
        Dot::Plain if !block => {
            let spelled = prefix_spelling(alloc, language, front)?;
            Ok(form_by(&spelled, name, count_of(row)))
        }
        _ => Ok(Form::Call),
    }
}

/// A call without arguments.
pub fn no_arguments(alloc: Global) -> Arguments
    ensures { (s : states_spec.State Ty) → seen_arguments result s ≡ calls_spec.no_arguments s }
{
    Arguments {
        positional: Items::new(alloc),
        keys: Items::new(alloc),
    }
}
