//! Assignments.

ghost use Rattle.std.specs.Prelude.{◌≡◌, [], ◌∷◌, codes, IfOk};
ghost use Rattle.rb_views.specs.Prefixes.{seen_prefix};
ghost use Rattle.srb_judgement.specs.Assignments as spec;
ghost use Rattle.srb_judgement.specs.Chains.{operands_of};
ghost use Rattle.srb_judgement.specs.Kept.{seen_context};
ghost use Rattle.srb_judgement.specs.Narrowing.{saying};
ghost use Rattle.srb_judgement.specs.Operators as operators;
ghost use Rattle.srb_judgement.specs.Reaching.{excluding};
ghost use Rattle.srb_judgement.specs.States.{judged, seeing};
ghost use Rattle.srb_judgement.specs.Views.{seen_arguments, seen_says, seen_state, seen_tested, settled};
ghost use Rattle.srb_walk.specs.Beside.{seen_beside};
ghost use Rattle.srb_walk.specs.Endings.{known_end, prefix_operand, seen_end};
ghost use Rattle.srb_walk.specs.Judging.{judge_of};
ghost use Rattle.srb_walk.specs.Known as known;
ghost use Rattle.srb_walk.specs.Walking as walking;
ghost use Rattle.srb_walk_assignments.specs.Operated as operated;

use rb_tree::syntax::{Argument, Binary, Tree};
use rb_views::prefix::Prefix;
use srb_judgement::assignments::{to_instance_variable, to_variable, writer};
use srb_judgement::contexts::Context;
use srb_judgement::language::Language;
use srb_judgement::narrowing::saying;
use srb_judgement::reaching::{close, excluding};
use srb_judgement::says::Says;
use srb_judgement::sent::Arguments;
use srb_judgement::states::State;
use srb_judgement::tested::Tested;
use srb_judgement::words::{instance_variable, type_at};
use srb_terms::{Items, Name, NoMemory, Span, Ty};
use srb_walk::around::{Beside, with_names};
use srb_walk::ending::Ending;
use srb_walk::names::{after_arguments, after_prefix};
use srb_walk::operators::{and_right, operator_call, or_right};
use srb_walk::walking::Walk;
use srb_walk_calls::calls::{arguments, no_arguments};
use srb_walk_calls::rows::chained;
use srb_walk_calls::steps::{alone, write};
use std::alloc::Global;

// ---- `t = e`

/// What is around where this variable is visible too.
fn with_name(alloc: Global, context: &Context, name: &Name) -> Result<Beside, NoMemory>
    ensures { IfOk result (λ b. seen_beside b (seen_context context.now) ≡ seeing (name.now ∷ []) (seen_context context.now)) }
{
    let mut names = Items::new(alloc);
    names.push(name.copied()?)?;
    with_names(alloc, context, names.as_slice())
}

/// Judges a value in which this variable is visible.
fn judge_seeing<W: Walk, L: Language>(
    alloc: Global,
    walk: &W,
    language: &L,
    context: &Context,
    state: &mut State,
    name: &Name,
    value: &Tree,
) -> Result<Ty, NoMemory>
    ensures { IfOk result (λ ty. judged ty (seen_state state.new) ≡ judge_of (L.the language.now) value.now (seeing (name.now ∷ []) (seen_context context.now)) (seen_state state.old)) }
{
    let inner = with_name(alloc, context, name)?;
    walk.judge(alloc, language, inner.of(context), state, value)
}

/// Assigns a value to a variable, which is visible in the value.
pub fn assign_variable<W: Walk, L: Language>(
    alloc: Global,
    walk: &W,
    language: &L,
    context: &Context,
    state: &mut State,
    name: &Name,
    value: &Tree,
) -> Result<Ty, NoMemory>
    ensures { IfOk result (λ ty. judged ty (seen_state state.new) ≡ spec.to_variable (L.the language.now) name.now (known.part_in (L.the language.now) value.now).it.span (seen_context context.now) ((known.part_in (L.the language.now) value.now).it.judge (seeing (name.now ∷ []) (seen_context context.now)) (seen_state state.old))) }
{
    let ty = judge_seeing(alloc, walk, language, context, state, name, value)?;
    to_variable(alloc, language, context, name, value.span(), &ty, state)?;
    Ok(ty)
}

/// Assigns a value to an instance variable.
pub fn assign_instance_variable<W: Walk, L: Language>(
    alloc: Global,
    walk: &W,
    language: &L,
    context: &Context,
    state: &mut State,
    name: &Name,
    value: &Tree,
) -> Result<Ty, NoMemory>
    ensures { IfOk result (λ ty. judged ty (seen_state state.new) ≡ spec.to_instance_variable (L.the language.now) name.now (known.part_in (L.the language.now) value.now).it.span (seen_context context.now) ((known.part_in (L.the language.now) value.now).it.judge (seen_context context.now) (seen_state state.old))) }
{
    let ty = walk.judge(alloc, language, context, state, value)?;
    to_instance_variable(alloc, language, context, name, value.span(), &ty, state)?;
    Ok(ty)
}

/// Judges a value that a call of this method writes, after these arguments.
pub fn value_after<W: Walk, L: Language>(
    alloc: Global,
    walk: &W,
    language: &L,
    context: &Context,
    state: &mut State,
    receiver: &Ty,
    name: &Name,
    name_span: Span,
    given: Arguments,
    value: &Tree,
) -> Result<Ty, NoMemory>
    ensures { IfOk result (λ ty. judged ty (seen_state state.new) ≡ spec.value_after (L.the language.now) receiver.now name.now name_span (known.part_in (L.the language.now) value.now).it (seen_context context.now) (seen_arguments given (seen_state state.old))) }
{
    let ty = walk.judge(alloc, language, context, state, value)?;
    let place = value.span();
    write(
        alloc, language, context, state, receiver, name, name_span, given, place, &ty,
    )?;
    Ok(ty)
}

/// Judges a value that `[]=` writes, after these arguments.
fn element_after<W: Walk, L: Language>(
    alloc: Global,
    walk: &W,
    language: &L,
    context: &Context,
    state: &mut State,
    receiver: &Ty,
    bracket: Span,
    given: Arguments,
    value: &Tree,
) -> Result<Ty, NoMemory>
    ensures { IfOk result (λ ty. judged ty (seen_state state.new) ≡ spec.value_after (L.the language.now) receiver.now (codes "[]=") bracket (known.part_in (L.the language.now) value.now).it (seen_context context.now) (seen_arguments given (seen_state state.old))) }
{
    let name = Name::from_str(alloc, "[]=")?;
    value_after(
        alloc, walk, language, context, state, receiver, &name, bracket, given, value,
    )
}

/// Assigns a value to an element of a receiver of this type.
pub fn index_after<W: Walk, L: Language>(
    alloc: Global,
    walk: &W,
    language: &L,
    context: &Context,
    state: &mut State,
    receiver: &Ty,
    row: &[Argument<Tree>],
    bracket: Span,
    value: &Tree,
) -> Result<Ty, NoMemory>
    ensures { IfOk result (λ ty. judged ty (seen_state state.new) ≡ spec.index_after (L.the language.now) (operands_of (known.known_arguments (L.the language.now) row.now)) bracket (known.part_in (L.the language.now) value.now).it (seen_context context.now) (judged receiver.now (seen_state state.old))) }
{
    let given = arguments(alloc, walk, language, context, state, row)?;
    let last = after_arguments(alloc, language, context, row)?;
    element_after(
        alloc,
        walk,
        language,
        last.of(context),
        state,
        receiver,
        bracket,
        given,
        value,
    )
}

/// Assigns a value to an attribute of a prefix.
pub fn assign_attribute<W: Walk, L: Language>(
    alloc: Global,
    walk: &W,
    language: &L,
    context: &Context,
    state: &mut State,
    front: Prefix<'_>,
    name: &Name,
    name_span: Span,
    value: &Tree,
) -> Result<Ty, NoMemory>
    ensures { IfOk result (λ ty. judged ty (seen_state state.new) ≡ spec.attribute_after (L.the language.now) name.now name_span (known.part_in (L.the language.now) value.now).it (seeing (prefix_operand (L.the language.now) (seen_prefix front.entry)).declares (seen_context context.now)) ((prefix_operand (L.the language.now) (seen_prefix front.entry)).judge (seen_context context.now) (seen_state state.old))) }
{
    let receiver = chained(
        alloc,
        walk,
        language,
        context,
        state,
        front.operand,
        front.suffixes,
    )?;
    let inner = after_prefix(alloc, language, context, front)?;
    let name = writer(alloc, name)?;
    let none = no_arguments(alloc);
    value_after(
        alloc,
        walk,
        language,
        inner.of(context),
        state,
        &receiver,
        &name,
        name_span,
        none,
        value,
    )
}

/// Assigns a value to an element of a prefix.
pub fn assign_index<W: Walk, L: Language>(
    alloc: Global,
    walk: &W,
    language: &L,
    context: &Context,
    state: &mut State,
    front: Prefix<'_>,
    row: &[Argument<Tree>],
    bracket: Span,
    value: &Tree,
) -> Result<Ty, NoMemory>
    ensures { IfOk result (λ ty. judged ty (seen_state state.new) ≡ spec.index_after (L.the language.now) (operands_of (known.known_arguments (L.the language.now) row.now)) bracket (known.part_in (L.the language.now) value.now).it (seeing (prefix_operand (L.the language.now) (seen_prefix front.entry)).declares (seen_context context.now)) ((prefix_operand (L.the language.now) (seen_prefix front.entry)).judge (seen_context context.now) (seen_state state.old))) }
{
    let receiver = chained(
        alloc,
        walk,
        language,
        context,
        state,
        front.operand,
        front.suffixes,
    )?;
    let inner = after_prefix(alloc, language, context, front)?;
    index_after(
        alloc,
        walk,
        language,
        inner.of(context),
        state,
        &receiver,
        row,
        bracket,
        value,
    )
}

/// Assigns a value to what ends so.
pub fn assign_to<W: Walk, L: Language>(
    alloc: Global,
    walk: &W,
    language: &L,
    context: &Context,
    state: &mut State,
    ending: Ending<'_>,
    value: &Tree,
) -> Result<Ty, NoMemory>
    ensures { IfOk result (λ ty. judged ty (seen_state state.new) ≡ spec.assigned (L.the language.now) (known_end (L.the language.now) (seen_end ending.entry)) (known.part_in (L.the language.now) value.now).it (seen_context context.now) (seen_state state.old)) }
{
    match ending {
        Ending::Name { name, .. } => assign_variable(
            alloc, walk, language, context, state, name, value,
        ),
        Ending::InstanceVariable { name, .. } => assign_instance_variable(
            alloc, walk, language, context, state, name, value,
        ),
        Ending::Call {
            receiver: front,
            name,
            name_span,
            ..
        } => assign_attribute(
            alloc, walk, language, context, state, front, name, name_span, value,
        ),
        Ending::Index {
            receiver: front,
            arguments: row,
            bracket,
        } => assign_index(
            alloc, walk, language, context, state, front, row, bracket, value,
        ),
        Ending::Constant => walk.judge(alloc, language, context, state, value),
        Ending::Yield => walk.judge(alloc, language, context, state, value),
        Ending::Super => walk.judge(alloc, language, context, state, value),
        Ending::Other => walk.judge(alloc, language, context, state, value),
    }
}

/// Judges `target = value`.
pub fn assign<W: Walk, L: Language>(
    alloc: Global,
    walk: &W,
    language: &L,
    context: &Context,
    state: &mut State,
    target: &Tree,
    value: &Tree,
) -> Result<Ty, NoMemory>
    ensures { IfOk result (λ ty. judged ty (seen_state state.new) ≡ spec.assigned (L.the language.now) (walking.ending_in (L.the language.now) target.now) (known.part_in (L.the language.now) value.now).it (seen_context context.now) (seen_state state.old)) }
{
    assign_to(
        alloc,
        walk,
        language,
        context,
        state,
        Ending::of(target),
        value,
    )
}

// ---- `t op= e`

/// What was read as a condition: what it says, and the sides that its type leaves.
pub fn read_tested<L: Language>(
    alloc: Global,
    language: &L,
    state: &mut State,
    says: &Says,
    read: Ty,
) -> Result<Tested, NoMemory>
    ensures { IfOk result (λ t. settled (seen_tested t (seen_state state.new)) ≡ settled (excluding (L.the language.now) (saying (L.the language.now) (seen_says says.now) (judged read (seen_state state.old))))) }
{
    let tested = saying(alloc, language, says, read, state)?;
    excluding(alloc, language, tested)
}

/// Judges `t || e` with a t that was read.
pub fn or_operated<W: Walk, L: Language>(
    alloc: Global,
    walk: &W,
    language: &L,
    context: &Context,
    state: &mut State,
    says: &Says,
    read: Ty,
    value: &Tree,
) -> Result<Ty, NoMemory>
    ensures { IfOk result (λ ty. judged ty (seen_state state.new) ≡ operators.or_after (L.the language.now) (known.part_in (L.the language.now) value.now).it.judge (seen_context context.now) (excluding (L.the language.now) (saying (L.the language.now) (seen_says says.now) (judged read (seen_state state.old))))) }
{
    let tested = read_tested(alloc, language, state, says, read)?;
    or_right(alloc, walk, language, context, state, tested, value)
}

/// Judges `t && e` with a t that was read.
pub fn and_operated<W: Walk, L: Language>(
    alloc: Global,
    walk: &W,
    language: &L,
    context: &Context,
    state: &mut State,
    says: &Says,
    read: Ty,
    value: &Tree,
) -> Result<Ty, NoMemory>
    ensures { IfOk result (λ ty. judged ty (seen_state state.new) ≡ operators.and_after (L.the language.now) (known.part_in (L.the language.now) value.now).it.judge (seen_context context.now) (excluding (L.the language.now) (saying (L.the language.now) (seen_says says.now) (judged read (seen_state state.old))))) }
{
    let tested = read_tested(alloc, language, state, says, read)?;
    and_right(alloc, walk, language, context, state, tested, value)
}

/// Judges an operator that is a call, on a t that was read.
pub fn method_operated<W: Walk, L: Language>(
    alloc: Global,
    walk: &W,
    language: &L,
    context: &Context,
    state: &mut State,
    operator: Binary,
    place: Span,
    read: &Ty,
    value: &Tree,
) -> Result<Ty, NoMemory>
    ensures { IfOk result (λ ty. judged ty (seen_state state.new) ≡ spec.after_read (L.the language.now) (operators.method_name operator) place (known.part_in (L.the language.now) value.now).it (seen_context context.now) (operated.closed_read (L.the language.now) read.now (seen_state state.old))) }
{
    close(language, read, state);
    operator_call(
        alloc, walk, language, context, state, read, operator, place, value,
    )
}

/// Judges `t op e`, after t was read: before its type ends what it ends.
pub fn operated_inside<W: Walk, L: Language>(
    alloc: Global,
    walk: &W,
    language: &L,
    context: &Context,
    state: &mut State,
    operator: Binary,
    place: Span,
    says: &Says,
    read: Ty,
    value: &Tree,
) -> Result<Ty, NoMemory>
    ensures { IfOk result (λ ty. judged ty (seen_state state.new) ≡ operated.operated_inside (L.the language.now) operator place (seen_says says.now) (judged read (seen_state state.old)) (known.part_in (L.the language.now) value.now).it (seen_context context.now)) }
{
    match operator {
        Binary::Or => or_operated(alloc, walk, language, context, state, says, read, value),
        Binary::And => and_operated(alloc, walk, language, context, state, says, read, value),
        _ => method_operated(
            alloc, walk, language, context, state, operator, place, &read, value,
        ),
    }
}

/// Judges `t op e`, after t was read.
pub fn operated<W: Walk, L: Language>(
    alloc: Global,
    walk: &W,
    language: &L,
    context: &Context,
    state: &mut State,
    operator: Binary,
    place: Span,
    says: &Says,
    read: Ty,
    value: &Tree,
) -> Result<Ty, NoMemory>
    ensures { IfOk result (λ ty. judged ty (seen_state state.new) ≡ operated.operated_read (L.the language.now) operator place (seen_says says.now) (judged read (seen_state state.old)) (known.part_in (L.the language.now) value.now).it (seen_context context.now)) }
{
    let ty = operated_inside(
        alloc, walk, language, context, state, operator, place, says, read, value,
    )?;
    close(language, &ty, state);
    Ok(ty)
}

/// Judges `x op e`, the value that `x op= e` assigns.
fn operated_variable<W: Walk, L: Language>(
    alloc: Global,
    walk: &W,
    language: &L,
    context: &Context,
    state: &mut State,
    name: &Name,
    operator: Binary,
    place: Span,
    value: &Tree,
) -> Result<Ty, NoMemory>
    ensures { IfOk result (λ ty. judged ty (seen_state state.new) ≡ operated.operated_variable (L.the language.now) name.now operator place (known.part_in (L.the language.now) value.now).it (seen_context context.now) (seen_state state.old)) }
{
    let says = Says::Truthy(name.copied()?);
    let read = type_at(language, &state.environment, name)?;
    operated(
        alloc, walk, language, context, state, operator, place, &says, read, value,
    )
}

/// Judges `x op e` where x is visible in e.
fn operated_seeing<W: Walk, L: Language>(
    alloc: Global,
    walk: &W,
    language: &L,
    context: &Context,
    state: &mut State,
    name: &Name,
    operator: Binary,
    place: Span,
    value: &Tree,
) -> Result<Ty, NoMemory>
    ensures { IfOk result (λ ty. judged ty (seen_state state.new) ≡ operated.operated_variable (L.the language.now) name.now operator place (known.part_in (L.the language.now) value.now).it (seeing (name.now ∷ []) (seen_context context.now)) (seen_state state.old)) }
{
    let inner = with_name(alloc, context, name)?;
    operated_variable(
        alloc,
        walk,
        language,
        inner.of(context),
        state,
        name,
        operator,
        place,
        value,
    )
}

/// Judges `x op= e`.
pub fn operate_variable<W: Walk, L: Language>(
    alloc: Global,
    walk: &W,
    language: &L,
    context: &Context,
    state: &mut State,
    name: &Name,
    operator: Binary,
    place: Span,
    whole: Span,
    value: &Tree,
) -> Result<Ty, NoMemory>
    ensures { IfOk result (λ ty. judged ty (seen_state state.new) ≡ spec.to_variable (L.the language.now) name.now whole (seen_context context.now) (operated.operated_variable (L.the language.now) name.now operator place (known.part_in (L.the language.now) value.now).it (seeing (name.now ∷ []) (seen_context context.now)) (seen_state state.old))) }
{
    let ty = operated_seeing(
        alloc, walk, language, context, state, name, operator, place, value,
    )?;
    to_variable(alloc, language, context, name, whole, &ty, state)?;
    Ok(ty)
}

/// Judges `@x op= e`.
pub fn operate_instance_variable<W: Walk, L: Language>(
    alloc: Global,
    walk: &W,
    language: &L,
    context: &Context,
    state: &mut State,
    name: &Name,
    name_span: Span,
    operator: Binary,
    place: Span,
    whole: Span,
    value: &Tree,
) -> Result<Ty, NoMemory>
    ensures { IfOk result (λ ty. judged ty (seen_state state.new) ≡ spec.to_instance_variable (L.the language.now) name.now whole (seen_context context.now) (operated.operated_instance_variable (L.the language.now) name.now name_span operator place (known.part_in (L.the language.now) value.now).it (seen_context context.now) (seen_state state.old))) }
{
    let read = instance_variable(alloc, language, context, name, name_span, state)?;
    let ty = operated(
        alloc,
        walk,
        language,
        context,
        state,
        operator,
        place,
        &Says::Nothing,
        read,
        value,
    )?;
    to_instance_variable(alloc, language, context, name, whole, &ty, state)?;
    Ok(ty)
}

/// Judges `t op= e` where calls with these arguments read and write t.
pub fn operate_call<W: Walk, L: Language>(
    alloc: Global,
    walk: &W,
    language: &L,
    context: &Context,
    state: &mut State,
    receiver: &Ty,
    reader: &Name,
    name: &Name,
    name_span: Span,
    given: Arguments,
    operator: Binary,
    place: Span,
    whole: Span,
    value: &Tree,
) -> Result<Ty, NoMemory>
    ensures { IfOk result (λ ty. judged ty (seen_state state.new) ≡ spec.operated_call (L.the language.now) receiver.now reader.now name.now name_span (seen_arguments given (seen_state state.old)) operator place (known.part_in (L.the language.now) value.now).it whole (seen_context context.now)) }
{
    let read = alone(
        alloc, language, context, state, receiver, reader, name_span, &given,
    )?;
    let ty = operated(
        alloc,
        walk,
        language,
        context,
        state,
        operator,
        place,
        &Says::Nothing,
        read,
        value,
    )?;
    write(
        alloc, language, context, state, receiver, name, name_span, given, whole, &ty,
    )?;
    Ok(ty)
}

/// Judges `a.b op= e`.
pub fn operate_attribute<W: Walk, L: Language>(
    alloc: Global,
    walk: &W,
    language: &L,
    context: &Context,
    state: &mut State,
    front: Prefix<'_>,
    name: &Name,
    name_span: Span,
    operator: Binary,
    place: Span,
    whole: Span,
    value: &Tree,
) -> Result<Ty, NoMemory>
    ensures { IfOk result (λ ty. judged ty (seen_state state.new) ≡ spec.operated_attribute (L.the language.now) name.now name_span operator place (known.part_in (L.the language.now) value.now).it whole (seeing (prefix_operand (L.the language.now) (seen_prefix front.entry)).declares (seen_context context.now)) ((prefix_operand (L.the language.now) (seen_prefix front.entry)).judge (seen_context context.now) (seen_state state.old))) }
{
    let receiver = chained(
        alloc,
        walk,
        language,
        context,
        state,
        front.operand,
        front.suffixes,
    )?;
    let inner = after_prefix(alloc, language, context, front)?;
    let writes = writer(alloc, name)?;
    let none = no_arguments(alloc);
    operate_call(
        alloc,
        walk,
        language,
        inner.of(context),
        state,
        &receiver,
        name,
        &writes,
        name_span,
        none,
        operator,
        place,
        whole,
        value,
    )
}

/// Judges `a[i] op= e` on a receiver of this type.
pub fn operate_index_after<W: Walk, L: Language>(
    alloc: Global,
    walk: &W,
    language: &L,
    context: &Context,
    state: &mut State,
    receiver: &Ty,
    row: &[Argument<Tree>],
    bracket: Span,
    operator: Binary,
    place: Span,
    whole: Span,
    value: &Tree,
) -> Result<Ty, NoMemory>
    ensures { IfOk result (λ ty. judged ty (seen_state state.new) ≡ spec.operated_index (L.the language.now) (operands_of (known.known_arguments (L.the language.now) row.now)) bracket operator place (known.part_in (L.the language.now) value.now).it whole (seen_context context.now) (judged receiver.now (seen_state state.old))) }
{
    let given = arguments(alloc, walk, language, context, state, row)?;
    let last = after_arguments(alloc, language, context, row)?;
    let reader = Name::from_str(alloc, "[]")?;
    let name = Name::from_str(alloc, "[]=")?;
    operate_call(
        alloc,
        walk,
        language,
        last.of(context),
        state,
        receiver,
        &reader,
        &name,
        bracket,
        given,
        operator,
        place,
        whole,
        value,
    )
}

/// Judges `a[i] op= e`.
pub fn operate_index<W: Walk, L: Language>(
    alloc: Global,
    walk: &W,
    language: &L,
    context: &Context,
    state: &mut State,
    front: Prefix<'_>,
    row: &[Argument<Tree>],
    bracket: Span,
    operator: Binary,
    place: Span,
    whole: Span,
    value: &Tree,
) -> Result<Ty, NoMemory>
    ensures { IfOk result (λ ty. judged ty (seen_state state.new) ≡ spec.operated_index (L.the language.now) (operands_of (known.known_arguments (L.the language.now) row.now)) bracket operator place (known.part_in (L.the language.now) value.now).it whole (seeing (prefix_operand (L.the language.now) (seen_prefix front.entry)).declares (seen_context context.now)) ((prefix_operand (L.the language.now) (seen_prefix front.entry)).judge (seen_context context.now) (seen_state state.old))) }
{
    let receiver = chained(
        alloc,
        walk,
        language,
        context,
        state,
        front.operand,
        front.suffixes,
    )?;
    let inner = after_prefix(alloc, language, context, front)?;
    operate_index_after(
        alloc,
        walk,
        language,
        inner.of(context),
        state,
        &receiver,
        row,
        bracket,
        operator,
        place,
        whole,
        value,
    )
}

/// Judges `t op= e` where t ends so. The last place is that of the whole statement.
pub fn operate_on<W: Walk, L: Language>(
    alloc: Global,
    walk: &W,
    language: &L,
    context: &Context,
    state: &mut State,
    ending: Ending<'_>,
    operator: Binary,
    place: Span,
    whole: Span,
    value: &Tree,
) -> Result<Ty, NoMemory>
    ensures { IfOk result (λ ty. judged ty (seen_state state.new) ≡ spec.operator_assigned (L.the language.now) (known_end (L.the language.now) (seen_end ending.entry)) operator place (known.part_in (L.the language.now) value.now).it whole (seen_context context.now) (seen_state state.old)) }
{
    match ending {
        Ending::Name { name, .. } => operate_variable(
            alloc, walk, language, context, state, name, operator, place, whole, value,
        ),
        Ending::InstanceVariable { name, span } => operate_instance_variable(
            alloc, walk, language, context, state, name, span, operator, place, whole, value,
        ),
        Ending::Call {
            receiver: front,
            name,
            name_span,
            ..
        } => operate_attribute(
            alloc, walk, language, context, state, front, name, name_span, operator, place, whole,
            value,
        ),
        Ending::Index {
            receiver: front,
            arguments: row,
            bracket,
        } => operate_index(
            alloc, walk, language, context, state, front, row, bracket, operator, place, whole,
            value,
        ),
        Ending::Constant => walk.judge(alloc, language, context, state, value),
        Ending::Yield => walk.judge(alloc, language, context, state, value),
        Ending::Super => walk.judge(alloc, language, context, state, value),
        Ending::Other => walk.judge(alloc, language, context, state, value),
    }
}

/// Judges `target op= value`. The last place is that of the whole statement.
pub fn operator_assign<W: Walk, L: Language>(
    alloc: Global,
    walk: &W,
    language: &L,
    context: &Context,
    state: &mut State,
    target: &Tree,
    operator: Binary,
    place: Span,
    whole: Span,
    value: &Tree,
) -> Result<Ty, NoMemory>
    ensures { IfOk result (λ ty. judged ty (seen_state state.new) ≡ spec.operator_assigned (L.the language.now) (walking.ending_in (L.the language.now) target.now) operator place (known.part_in (L.the language.now) value.now).it whole (seen_context context.now) (seen_state state.old)) }
{
    operate_on(
        alloc,
        walk,
        language,
        context,
        state,
        Ending::of(target),
        operator,
        place,
        whole,
        value,
    )
}
