//! Operands with suffixes: calls, indexes and constants in a row.

ghost use Rattle.std.specs.Prelude.{◌≡◌, ◌≤◌, length, true, slice_get, IfOk};
ghost use Rattle.srb_judgement.specs.Environments.{is_live};
ghost use Rattle.srb_judgement.specs.Chains.{operands_of};
ghost use Rattle.srb_judgement.specs.Kept.{seen_context};
ghost use Rattle.srb_judgement.specs.Reaching.{closed};
ghost use Rattle.srb_judgement.specs.States.{judged};
ghost use Rattle.rb_views.specs.Prefixes.{suffix_span};
ghost use Rattle.srb_judgement.specs.Unreached.{not_reached};
ghost use Rattle.srb_walk.specs.Rows as rows_spec;
ghost use Rattle.srb_judgement.specs.Views.{seen_environment, seen_spelling, seen_state};
ghost use Rattle.srb_walk_calls.specs.Fronts as fronts;
ghost use Rattle.srb_judgement.specs.States as states_spec;
ghost use Rattle.srb_judgement.specs.Words as words_spec;
ghost use Rattle.srb_terms.specs.declared.ty.Ty.{Ty};
ghost use Rattle.srb_walk.specs.Known as known;

use crate::calls::after_receiver;
use crate::steps::must;
use rb_tree::syntax::{Argument, Block, Dot, Suffix, Tree};
use rb_views::place::open_bracket;
use rb_views::prefix::{Prefix, suffix_span};
use srb_judgement::assertions::{Form, form_by, let_judged, reveal};
use srb_judgement::contexts::Context;
use srb_judgement::language::Language;
use srb_judgement::reaching::{close, not_reached};
use srb_judgement::spelling::{Count, Spelling};
use srb_judgement::states::State;
use srb_judgement::words::constant_type;
use srb_terms::{Boxed, Items, Name, Names, NoMemory, Span, Ty};
use srb_walk::around::with_names;
use srb_walk::assigned::assigned;
use srb_walk::names::{declare_arguments, in_brackets};
use srb_walk::walking::Walk;
use srb_walk::written::{row_spelling, spelling};
use std::alloc::Global;

/// A prefix of a row of suffixes that was judged: its type, and what it assigns.
#[derive(Drop)]
pub struct Row {
    pub ty: Ty,
    pub declares: Items<Name>,
}

/// Judges a call as one more suffix. The context is that in front of the row.
pub fn called<W: Walk, L: Language>(
    alloc: Global,
    walk: &W,
    language: &L,
    context: &Context,
    state: &mut State,
    so_far: Row,
    dot: Dot,
    name: &Name,
    name_span: Span,
    row: &[Argument<Tree>],
    own: &Option<Boxed<Block<Tree>>>,
) -> Result<Row, NoMemory>
    ensures { IfOk result (λ r. fronts.seen_row r (seen_state state.new) ≡ rows_spec.called_on (L.the language.now) (seen_context context.now) dot name.now name_span (operands_of (known.known_arguments (L.the language.now) row.now)) (known.known_blocks (L.the language.now) own.now) (fronts.seen_row so_far (seen_state state.old))) }
{
    let Row { ty, mut declares } = so_far;
    let inner = with_names(alloc, context, declares.as_slice())?;
    let result = after_receiver(
        alloc,
        walk,
        language,
        inner.of(context),
        state,
        dot,
        &ty,
        name,
        name_span,
        row,
        own,
    )?;
    declare_arguments(alloc, language, row, &mut declares)?;
    close(language, &result, state);
    Ok(Row {
        ty: result,
        declares,
    })
}

/// A constant as one more suffix, after what is no path.
pub fn with_constant<L: Language>(language: &L, state: &mut State, so_far: Row) -> Row
    ensures { fronts.seen_row result (seen_state state.new) ≡ record { declares = so_far.declares; it = closed (L.the language.now) (judged (L.the language.now).untyped (seen_state state.old)) } }
{
    let ty = language.untyped();
    close(language, &ty, state);
    let Row { ty: _, declares } = so_far;
    Row { ty, declares }
}

/// Judges one more suffix, which is no constant of a path and no form of `T`. The context is that in front of the row.
pub fn suffixed<W: Walk, L: Language>(
    alloc: Global,
    walk: &W,
    language: &L,
    context: &Context,
    state: &mut State,
    so_far: Row,
    suffix: &Suffix<Tree>,
) -> Result<Row, NoMemory>
    ensures { IfOk result (λ r. fronts.seen_row r (seen_state state.new) ≡ rows_spec.suffixed (L.the language.now) (seen_context context.now) (known.known_suffix (L.the language.now) suffix.now) (fronts.seen_row so_far (seen_state state.old))) }
{
    match suffix {
        Suffix::Call {
            dot,
            name,
            name_span,
            arguments: row,
            block,
            ..
        } => {
            let row = in_brackets(row);
            called(
                alloc, walk, language, context, state, so_far, *dot, name, *name_span, row, block,
            )
        }
        Suffix::Constant { .. } => Ok(with_constant(language, state, so_far)),
        Suffix::Index {
            arguments: row,
            span,
        } => {
            let name = Name::from_str(alloc, "[]")?;
            let place = open_bracket(*span);
            called(
                alloc,
                walk,
                language,
                context,
                state,
                so_far,
                Dot::Plain,
                &name,
                place,
                row.as_slice(),
                &None,
            )
        }
    }
}

/// Judges suffixes, none of which is a constant of a path or a form of `T`.
pub fn all_suffixed<W: Walk, L: Language>(
    alloc: Global,
    walk: &W,
    language: &L,
    context: &Context,
    state: &mut State,
    so_far: Row,
    row: &[Suffix<Tree>],
) -> Result<Row, NoMemory>
    ensures { IfOk result (λ r. fronts.seen_row r (seen_state state.new) ≡ rows_spec.all_suffixed (L.the language.now) (seen_context context.now) (known.known_suffixes (L.the language.now) row.now) (fronts.seen_row so_far (seen_state state.old))) }
{
    let mut done = so_far;
    'row: for each in row {
        done = suffixed(alloc, walk, language, context, state, done, each)?;
    }
    Ok(done)
}

/// Judges `T.let` or `T.cast` of a value with a type expression.
#[tactic(auto, using(srb_walk::proofs::Writing::span_told))]
pub fn typed_form<W: Walk, L: Language>(
    alloc: Global,
    walk: &W,
    language: &L,
    context: &Context,
    state: &mut State,
    checks: bool,
    value: &Tree,
    text: &Tree,
) -> Result<Ty, NoMemory>
    ensures { IfOk result (λ ty. judged ty (seen_state state.new) ≡ fronts.typed_form (L.the language.now) checks (known.part_in (L.the language.now) value.now).it (known.part_in (L.the language.now) text.now).it (seen_context context.now) (seen_state state.old)) }
{
    let declared = language.reads(alloc, &context.scope, text)?;
    let ty = walk.judge(alloc, language, context, state, value)?;
    if checks {
        let_judged(alloc, language, declared, value.span(), &ty, state)
    } else {
        Ok(declared)
    }
}

/// Judges a form of `T` with one argument, whose whole call stands at this place.
pub fn plain_form<W: Walk, L: Language>(
    alloc: Global,
    walk: &W,
    language: &L,
    context: &Context,
    state: &mut State,
    form: Form,
    whole: Span,
    value: &Tree,
) -> Result<Ty, NoMemory>
    ensures { IfOk result (λ ty. judged ty (seen_state state.new) ≡ fronts.plain_form (L.the language.now) form whole (known.part_in (L.the language.now) value.now).it (seen_context context.now) (seen_state state.old)) }
{
    let ty = walk.judge(alloc, language, context, state, value)?;
    match form {
        Form::Must => must(alloc, language, state, &ty),
        Form::RevealType => {
            reveal(alloc, language, whole, &ty, state)?;
            Ok(ty)
        }
        _ => Ok(language.untyped()),
    }
}

/// Judges a form of `T` with these arguments, whose whole call stands at this place.
pub fn assertion<W: Walk, L: Language>(
    alloc: Global,
    walk: &W,
    language: &L,
    context: &Context,
    state: &mut State,
    form: Form,
    whole: Span,
    row: &[Argument<Tree>],
) -> Result<Ty, NoMemory>
    ensures { IfOk result (λ ty. judged ty (seen_state state.new) ≡ fronts.form_judged (L.the language.now) form whole (operands_of (known.known_arguments (L.the language.now) row.now)) (seen_context context.now) (seen_state state.old)) }
{
    match row {
        [
            Argument::Positional { value },
            Argument::Positional { value: text },
        ] => typed_form(
            alloc,
            walk,
            language,
            context,
            state,
            is_let(form),
            value,
            text,
        ),
        [Argument::Positional { value }] => {
            plain_form(alloc, walk, language, context, state, form, whole, value)
        }
        _ => Ok(language.never()),
    }
}

/// Whether a form of `T` with a type expression checks its value.
pub fn is_let(form: Form) -> bool
    ensures { result ≡ fronts.is_let form }
{
    match form {
        Form::Let => true,
        _ => false,
    }
}

/// How many arguments there are by their places, where each stands by its place.
pub fn count_of(row: &[Argument<Tree>]) -> Count
    ensures { result ≡ fronts.counted row.now }
{
    match row {
        [Argument::Positional { .. }] => Count::One,
        [Argument::Positional { .. }, Argument::Positional { .. }] => Count::Two,
        _ => Count::Other,
    }
}

/// The form of `T` that a suffix is after an operand with this spelling.
pub fn form_of(receiver: &Spelling, suffix: &Suffix<Tree>) -> Form
    ensures { result ≡ fronts.suffix_form (seen_spelling receiver.now) suffix.now }
{
    match suffix {
        Suffix::Call {
            dot: Dot::Plain,
            name,
            arguments: row,
            block: None,
            ..
        } => form_by(receiver, name, count_of(in_brackets(row))),
        _ => Form::Call,
    }
}

/// The path of a constant, after `::` if `top`.
pub fn constant_path(alloc: Global, top: bool, name: &Name) -> Result<Names, NoMemory>
    ensures { IfOk result (λ path. path ≡ fronts.constant_path top name.now) }
{
    let path = Names::new().pushed(alloc, name.copied()?)?;
    if top {
        path.pushed(alloc, Name::from_str(alloc, "")?)
    } else {
        Ok(path)
    }
}

/// The type of a path of constants with this spelling.
pub fn path_type<L: Language>(
    alloc: Global,
    language: &L,
    context: &Context,
    spelling: &Spelling,
) -> Result<Ty, NoMemory>
    ensures { IfOk result (λ ty. ty ≡ fronts.spelled_type (L.the language.now) (seen_context context.now) (seen_spelling spelling.now)) }
{
    match spelling {
        Spelling::ConstantPath(path) => constant_type(alloc, language, &context.scope, path),
        _ => Ok(language.untyped()),
    }
}

/// Whether a spelling is a path of constants.
pub fn is_path(spelling: &Spelling) -> bool
    ensures { result ≡ rows_spec.is_path (seen_spelling spelling.now) }
{
    match spelling {
        Spelling::ConstantPath(_) => true,
        Spelling::NameAlone(_) => false,
        Spelling::NilWord => false,
        Spelling::Other => false,
    }
}

/// Whether a suffix is a constant.
pub fn is_constant(suffix: &Suffix<Tree>) -> bool
    ensures { result ≡ fronts.is_constant suffix.now }
{
    match suffix {
        Suffix::Constant { .. } => true,
        Suffix::Call { .. } => false,
        Suffix::Index { .. } => false,
    }
}

/// The number of constants with which a row of suffixes begins.
#[tactic(auto, using(crate::proofs::Counting::constants_next, crate::proofs::Counting::constants_stop))]
pub fn constants(suffixes: &[Suffix<Tree>]) -> usize
    ensures count { result ≡ fronts.constants_before suffixes.now }
    ensures bound { result ≤ length suffixes.now }
{
    let mut count = 0;
    'suffixes: for suffix in suffixes {
        if !is_constant(suffix) {
            return count;
        }
        count += 1;
    }
    count
}

/// Judges an operand that is not reached with its suffixes, of which this is the last.
#[tactic(auto, using(srb_walk::proofs::Writing::span_told))]
pub fn not_chained<L: Language>(
    alloc: Global,
    language: &L,
    state: &mut State,
    receiver: &Tree,
    last: &Suffix<Tree>,
) -> Result<Ty, NoMemory>
    ensures { IfOk result (λ ty. judged ty (seen_state state.new) ≡ not_reached (L.the language.now) (seen_state state.old).environment (record { start = (known.part_in (L.the language.now) receiver.now).it.span.start; end = (suffix_span last.now).end }) (seen_state state.old)) }
{
    let place = Span {
        start: receiver.span().start,
        end: suffix_span(last).end,
    };
    not_reached(alloc, language, place, state)
}

/// Judges an operand with its suffixes, of which this is the last.
pub fn reached_or<W: Walk, L: Language>(
    alloc: Global,
    walk: &W,
    language: &L,
    context: &Context,
    state: &mut State,
    receiver: &Tree,
    row: &[Suffix<Tree>],
    last: &Suffix<Tree>,
) -> Result<Ty, NoMemory>
    ensures { IfOk result (λ ty. judged ty (seen_state state.new) ≡ fronts.reached_or (L.the language.now) (is_live (seen_state state.old).environment) (fronts.row_judged (L.the language.now) (known.part_in (L.the language.now) receiver.now).it (known.known_suffixes (L.the language.now) row.now) (seen_context context.now) (seen_state state.old)) (not_reached (L.the language.now) (seen_state state.old).environment (record { start = (known.part_in (L.the language.now) receiver.now).it.span.start; end = (suffix_span last.now).end }) (seen_state state.old))) }
{
    if state.environment.is_live() {
        rows(alloc, walk, language, context, state, receiver, row)
    } else {
        not_chained(alloc, language, state, receiver, last)
    }
}

/// Judges an operand with its suffixes, perhaps none.
pub fn chained<W: Walk, L: Language>(
    alloc: Global,
    walk: &W,
    language: &L,
    context: &Context,
    state: &mut State,
    receiver: &Tree,
    row: &[Suffix<Tree>],
) -> Result<Ty, NoMemory>
    ensures { IfOk result (λ ty. judged ty (seen_state state.new) ≡ fronts.row_judged (L.the language.now) (known.part_in (L.the language.now) receiver.now).it (known.known_suffixes (L.the language.now) row.now) (seen_context context.now) (seen_state state.old)) }
{
    let whole = Prefix {
        operand: receiver,
        suffixes: row,
    };
    match whole.last() {
        None => walk.judge(alloc, language, context, state, receiver),
        Some(last) => reached_or(alloc, walk, language, context, state, receiver, row, last),
    }
}

/// How many constants in front of a row go on with the path that its operand is.
pub fn path_length(spelled: &Spelling, row: &[Suffix<Tree>]) -> usize
    ensures count { result ≡ fronts.path_length (seen_spelling spelled.now) row.now }
    ensures bound { result ≤ length row.now }
{
    if is_path(spelled) { constants(row) } else { 0 }
}

/// Whether a row goes on with the path that its operand is.
pub fn goes_on(spelled: &Spelling, row: &[Suffix<Tree>]) -> bool
    ensures { result ≡ fronts.goes_on (seen_spelling spelled.now) row.now }
{
    match row {
        [Suffix::Constant { .. }, ..] => is_path(spelled),
        _ => false,
    }
}

/// The form of `T` that the first suffix is after what is spelled so.
pub fn next_form(spelled: &Spelling, row: &[Suffix<Tree>]) -> Form
    ensures { result ≡ fronts.next_form (seen_spelling spelled.now) row.now }
{
    match row {
        [first, ..] => form_of(spelled, first),
        [] => Form::Call,
    }
}

/// Judges an operand that is reached, or, where constants follow it, the path that it is with them.
pub fn front<W: Walk, L: Language>(
    alloc: Global,
    walk: &W,
    language: &L,
    context: &Context,
    state: &mut State,
    receiver: &Tree,
    path: &Spelling,
    longer: bool,
) -> Result<Ty, NoMemory>
    ensures { IfOk result (λ ty. judged ty (seen_state state.new) ≡ fronts.front_judged (L.the language.now) longer (known.part_in (L.the language.now) receiver.now).it (seen_spelling path.now) (seen_context context.now) (seen_state state.old)) }
{
    if longer {
        let ty = path_type(alloc, language, context, path)?;
        close(language, &ty, state);
        Ok(ty)
    } else {
        walk.judge(alloc, language, context, state, receiver)
    }
}

/// Judges a form of `T`, which is the first of these suffixes, and then the others.
pub fn asserted<W: Walk, L: Language>(
    alloc: Global,
    walk: &W,
    language: &L,
    context: &Context,
    state: &mut State,
    form: Form,
    whole: Span,
    declares: Items<Name>,
    row: &[Suffix<Tree>],
) -> Result<Row, NoMemory>
    ensures { IfOk result (λ r. fronts.seen_row r (seen_state state.new) ≡ fronts.asserted (L.the language.now) form whole declares (known.known_suffixes (L.the language.now) row.now) (seen_context context.now) (seen_state state.old)) }
{
    let mut declares = declares;
    match row {
        [
            Suffix::Call {
                arguments: given,
                ..
            },
            rest @ ..,
        ] => {
            let given = in_brackets(given);
            let ty = assertion(alloc, walk, language, context, state, form, whole, given)?;
            declare_arguments(alloc, language, given, &mut declares)?;
            close(language, &ty, state);
            all_suffixed(
                alloc,
                walk,
                language,
                context,
                state,
                Row { ty, declares },
                rest,
            )
        }
        _ => Ok(Row {
            ty: language.never(),
            declares,
        }),
    }
}

/// Judges an operand that is reached with its suffixes, by the constants that go on with its path, and the form of `T` that follows.
pub fn row_by<W: Walk, L: Language>(
    alloc: Global,
    walk: &W,
    language: &L,
    context: &Context,
    state: &mut State,
    receiver: &Tree,
    path: &Spelling,
    longer: bool,
    whole: Span,
    declares: Items<Name>,
    row: &[Suffix<Tree>],
) -> Result<Row, NoMemory>
    ensures { IfOk result (λ r. fronts.seen_row r (seen_state state.new) ≡ fronts.row_by (L.the language.now) (fronts.next_form (seen_spelling path.now) row.now) longer (known.part_in (L.the language.now) receiver.now).it (seen_spelling path.now) whole declares (known.known_suffixes (L.the language.now) row.now) (seen_context context.now) (seen_state state.old)) }
{
    match next_form(path, row) {
        Form::Call => {
            let ty = front(
                alloc, walk, language, context, state, receiver, path, longer,
            )?;
            all_suffixed(
                alloc,
                walk,
                language,
                context,
                state,
                Row { ty, declares },
                row,
            )
        }
        form => asserted(
            alloc, walk, language, context, state, form, whole, declares, row,
        ),
    }
}

/// Judges an operand that is reached with its suffixes, by how it is spelled, where it stands and what it assigns.
pub fn told<W: Walk, L: Language>(
    alloc: Global,
    walk: &W,
    language: &L,
    context: &Context,
    state: &mut State,
    receiver: &Tree,
    spelled: Spelling,
    place: Span,
    declares: Items<Name>,
    row: &[Suffix<Tree>],
) -> Result<Ty, NoMemory>
    ensures { IfOk result (λ ty. judged ty (seen_state state.new) ≡ fronts.told (L.the language.now) (seen_spelling spelled) place declares (known.part_in (L.the language.now) receiver.now).it row.now (seen_context context.now) (seen_state state.old)) }
{
    let longer = goes_on(&spelled, row);
    let constants = path_length(&spelled, row);
    let path = row_spelling(alloc, spelled, &row[..constants])?;
    let whole = up_to_next(place, row, constants);
    let rest = &row[constants..];
    let done = row_by(
        alloc, walk, language, context, state, receiver, &path, longer, whole, declares, rest,
    )?;
    Ok(done.ty)
}

/// Judges an operand that is reached with its suffixes.
pub fn rows<W: Walk, L: Language>(
    alloc: Global,
    walk: &W,
    language: &L,
    context: &Context,
    state: &mut State,
    receiver: &Tree,
    row: &[Suffix<Tree>],
) -> Result<Ty, NoMemory>
    ensures { IfOk result (λ ty. is_live (seen_state state.old).environment ≡ true → judged ty (seen_state state.new) ≡ fronts.row_judged (L.the language.now) (known.part_in (L.the language.now) receiver.now).it (known.known_suffixes (L.the language.now) row.now) (seen_context context.now) (seen_state state.old)) }
{
    let mut declares = Items::new(alloc);
    assigned(alloc, language, false, receiver, &mut declares)?;
    let spelled = spelling(alloc, language, receiver)?;
    let place = receiver.span();
    told(
        alloc, walk, language, context, state, receiver, spelled, place, declares, row,
    )
}

/// The place from an operand to the suffix after so many.
pub fn up_to_next(operand: Span, row: &[Suffix<Tree>], before: usize) -> Span
    ensures { result ≡ fronts.span_to operand (slice_get row.now before) }
{
    match row.get(before) {
        Some(last) => Span {
            start: operand.start,
            end: suffix_span(last).end,
        },
        None => operand,
    }
}

/// The type of a constant, after `::` if `top`.
pub fn named_constant<L: Language>(
    alloc: Global,
    language: &L,
    context: &Context,
    top: bool,
    name: &Name,
) -> Result<Ty, NoMemory>
    ensures { IfOk result (λ ty. (s : states_spec.State Ty) → judged ty s ≡ words_spec.constant (L.the language.now) (fronts.constant_path top name.now) (seen_context context.now) s) }
{
    let path = constant_path(alloc, top, name)?;
    constant_type(alloc, language, &context.scope, &path)
}
