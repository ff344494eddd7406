//! Statements, operands, and the parts of literals, in their order.

ghost use Rattle.std.specs.Prelude.{◌≡◌, ◌∷◌, ◌++◌, [], false, codes, map, IfOk, OnOk};
ghost use Rattle.rb_tree.specs.declared.syntax.Pair.TheVariants as pairs_spec;
ghost use Rattle.srb_judgement.specs.Kept.{seen_context};
ghost use Rattle.srb_judgement.specs.Sequences as sequences;
ghost use Rattle.srb_judgement.specs.States.{judged, seeing};
ghost use Rattle.srb_judgement.specs.Variables.{part_operand};
ghost use Rattle.srb_judgement.specs.Views.{seen_state};
ghost use Rattle.srb_judgement.specs.Words as words_spec;
ghost use Rattle.srb_walk_control.specs.Passed as passed;
ghost use Rattle.srb_walk.specs.Assigned.{names_of};
ghost use Rattle.srb_walk.specs.Judging as spec;
ghost use Rattle.srb_walk.specs.Known as known;
ghost use Rattle.srb_walk.specs.Beside.{seen_beside};

use rb_tree::syntax::{Pair, Piece, Tree};
use srb_judgement::built_in::BuiltIn;
use srb_judgement::contexts::Context;
use srb_judgement::ends::empty_type;
use srb_judgement::language::Language;
use srb_judgement::states::State;
use srb_judgement::words::element_type;
use srb_terms::{Items, NoMemory, Ty};
use srb_walk::around::Beside;
use srb_walk::walking::Walk;
use std::alloc::Global;

/// Judges one more statement, and makes what it assigns visible.
fn statement<W: Walk, L: Language>(
    alloc: Global,
    walk: &W,
    language: &L,
    context: &Context,
    beside: &mut Beside,
    state: &mut State,
    statement: &Tree,
) -> Result<Ty, NoMemory>
    ensures judged { IfOk result (λ ty. judged ty (seen_state state.new) ≡ spec.judge_of (L.the language.now) statement.now (seen_beside beside.old (seen_context context.now)) (seen_state state.old)) }
    ensures seen { OnOk result (seen_beside beside.new (seen_context context.now) ≡ seeing (names_of (L.the language.now) false statement.now) (seen_beside beside.old (seen_context context.now))) }
{
    let ty = walk.judge(alloc, language, beside.of(context), state, statement)?;
    beside.see(alloc, language, context, statement)?;
    Ok(ty)
}

/// Judges statements in their order.
pub fn body<W: Walk, L: Language>(
    alloc: Global,
    walk: &W,
    language: &L,
    context: &Context,
    state: &mut State,
    statements: &[Tree],
) -> Result<Ty, NoMemory>
    ensures { IfOk result (λ ty. judged ty (seen_state state.new) ≡ sequences.body (L.the language.now) (known.known_trees (L.the language.now) statements.now) (seen_context context.now) (seen_state state.old)) }
{
    let mut beside = Beside::new();
    let mut ty = empty_type(language, &state.environment)?;
    'statements: for each in statements {
        ty = statement(alloc, walk, language, context, &mut beside, state, each)?;
    }
    Ok(ty)
}

/// Judges one more tree, adds its type, and makes what it assigns visible.
fn add<W: Walk, L: Language>(
    alloc: Global,
    walk: &W,
    language: &L,
    context: &Context,
    beside: &mut Beside,
    state: &mut State,
    types: &mut Items<Ty>,
    tree: &Tree,
) -> Result<(), NoMemory>
    ensures judged { OnOk result (record { types = types.new; state = seen_state state.new } ≡ sequences.and_one types.old (spec.judge_of (L.the language.now) tree.now (seen_beside beside.old (seen_context context.now)) (seen_state state.old))) }
    ensures seen { OnOk result (seen_beside beside.new (seen_context context.now) ≡ seeing (names_of (L.the language.now) false tree.now) (seen_beside beside.old (seen_context context.now))) }
{
    let ty = walk.judge(alloc, language, beside.of(context), state, tree)?;
    types.push(ty)?;
    beside.see(alloc, language, context, tree)
}

/// Judges operands in their order, and answers their types.
pub fn operands<W: Walk, L: Language>(
    alloc: Global,
    walk: &W,
    language: &L,
    context: &Context,
    state: &mut State,
    row: &[Tree],
) -> Result<Items<Ty>, NoMemory>
    ensures { IfOk result (λ types. record { types = types; state = seen_state state.new } ≡ sequences.judge_all (map part_operand (known.known_trees (L.the language.now) row.now)) (seen_context context.now) (seen_state state.old)) }
{
    let mut beside = Beside::new();
    let mut types = Items::new(alloc);
    'row: for operand in row {
        add(
            alloc,
            walk,
            language,
            context,
            &mut beside,
            state,
            &mut types,
            operand,
        )?;
    }
    Ok(types)
}

/// Judges what stands between the `#{` and the `}` of a string.
pub fn piece<W: Walk, L: Language>(
    alloc: Global,
    walk: &W,
    language: &L,
    context: &Context,
    beside: &mut Beside,
    state: &mut State,
    piece: &Piece<Tree>,
) -> Result<(), NoMemory>
    ensures judged { OnOk result (seen_state state.new ≡ words_spec.judge_pieces (L.the language.now) (known.known_piece (L.the language.now) piece.now ∷ []) (seen_beside beside.old (seen_context context.now)) (seen_state state.old)) }
    ensures seen { OnOk result (seen_beside beside.new (seen_context context.now) ≡ passed.seeing_piece (L.the language.now) piece.now (seen_beside beside.old (seen_context context.now))) }
{
    match piece {
        Piece::Words { .. } => Ok(()),
        Piece::Code { body, .. } => {
            walk.judge(alloc, language, beside.of(context), state, body)?;
            beside.see(alloc, language, context, body)
        }
    }
}

/// Judges the pieces of a string.
pub fn pieces<W: Walk, L: Language>(
    alloc: Global,
    walk: &W,
    language: &L,
    context: &Context,
    state: &mut State,
    row: &[Piece<Tree>],
) -> Result<(), NoMemory>
    ensures { OnOk result (seen_state state.new ≡ words_spec.judge_pieces (L.the language.now) (known.known_pieces (L.the language.now) row.now) (seen_context context.now) (seen_state state.old)) }
{
    let mut beside = Beside::new();
    'row: for each in row {
        piece(alloc, walk, language, context, &mut beside, state, each)?;
    }
    Ok(())
}

/// Judges a string.
pub fn text<W: Walk, L: Language>(
    alloc: Global,
    walk: &W,
    language: &L,
    context: &Context,
    state: &mut State,
    row: &[Piece<Tree>],
) -> Result<Ty, NoMemory>
    ensures { IfOk result (λ ty. judged ty (seen_state state.new) ≡ words_spec.text (L.the language.now) (known.known_pieces (L.the language.now) row.now) (seen_context context.now) (seen_state state.old)) }
{
    pieces(alloc, walk, language, context, state, row)?;
    language.built_in(BuiltIn::String).copied()
}

/// Judges an array literal.
pub fn array<W: Walk, L: Language>(
    alloc: Global,
    walk: &W,
    language: &L,
    context: &Context,
    state: &mut State,
    elements: &[Tree],
) -> Result<Ty, NoMemory>
    ensures { IfOk result (λ ty. judged ty (seen_state state.new) ≡ words_spec.array (L.the language.now) (map part_operand (known.known_trees (L.the language.now) elements.now)) (seen_context context.now) (seen_state state.old)) }
{
    let types = operands(alloc, walk, language, context, state, elements)?;
    language.array(alloc, &element_type(alloc, language, types.as_slice())?)
}

/// The types of the keys and values of a hash.
#[derive(Drop)]
pub struct Keyed {
    keys: Items<Ty>,
    values: Items<Ty>,
}

/// Judges a key and the value after it.
fn arrow<W: Walk, L: Language>(
    alloc: Global,
    walk: &W,
    language: &L,
    context: &Context,
    beside: &mut Beside,
    state: &mut State,
    keyed: &mut Keyed,
    key: &Tree,
    value: &Tree,
) -> Result<(), NoMemory>
    ensures judged { OnOk result (record { keys = keyed.new.keys; values = keyed.new.values; state = seen_state state.new } ≡ words_spec.judge_pairs (L.the language.now) (pairs_spec.Arrow (known.part_in (L.the language.now) key.now) (known.part_in (L.the language.now) value.now) ∷ []) (seen_beside beside.old (seen_context context.now)) (record { keys = keyed.old.keys; values = keyed.old.values; state = seen_state state.old })) }
    ensures seen { OnOk result (seen_beside beside.new (seen_context context.now) ≡ seeing (names_of (L.the language.now) false key.now ++ names_of (L.the language.now) false value.now) (seen_beside beside.old (seen_context context.now))) }
{
    add(
        alloc,
        walk,
        language,
        context,
        beside,
        state,
        &mut keyed.keys,
        key,
    )?;
    add(
        alloc,
        walk,
        language,
        context,
        beside,
        state,
        &mut keyed.values,
        value,
    )
}

/// Judges a value after a label, which is a symbol.
fn label<W: Walk, L: Language>(
    alloc: Global,
    walk: &W,
    language: &L,
    context: &Context,
    beside: &mut Beside,
    state: &mut State,
    keyed: &mut Keyed,
    value: &Tree,
) -> Result<(), NoMemory>
    ensures judged { OnOk result (record { keys = keyed.new.keys; values = keyed.new.values; state = seen_state state.new } ≡ words_spec.with_key (L.the language.now) keyed.old.keys keyed.old.values ((L.the language.now).instance (codes "Symbol")) (spec.judge_of (L.the language.now) value.now (seen_beside beside.old (seen_context context.now)) (seen_state state.old))) }
    ensures seen { OnOk result (seen_beside beside.new (seen_context context.now) ≡ seeing (names_of (L.the language.now) false value.now) (seen_beside beside.old (seen_context context.now))) }
{
    let key = language.built_in(BuiltIn::Symbol).copied()?;
    keyed.keys.push(key)?;
    add(
        alloc,
        walk,
        language,
        context,
        beside,
        state,
        &mut keyed.values,
        value,
    )
}

/// Judges a pair of a hash.
pub fn pair<W: Walk, L: Language>(
    alloc: Global,
    walk: &W,
    language: &L,
    context: &Context,
    beside: &mut Beside,
    state: &mut State,
    keyed: &mut Keyed,
    pair: &Pair<Tree>,
) -> Result<(), NoMemory>
    ensures judged { OnOk result (record { keys = keyed.new.keys; values = keyed.new.values; state = seen_state state.new } ≡ words_spec.judge_pairs (L.the language.now) (known.known_pair (L.the language.now) pair.now ∷ []) (seen_beside beside.old (seen_context context.now)) (record { keys = keyed.old.keys; values = keyed.old.values; state = seen_state state.old })) }
    ensures seen { OnOk result (seen_beside beside.new (seen_context context.now) ≡ seeing (passed.pair_names (L.the language.now) pair.now) (seen_beside beside.old (seen_context context.now))) }
{
    match pair {
        Pair::Arrow { key, value } => {
            arrow(
                alloc, walk, language, context, beside, state, keyed, key, value,
            )
        }
        Pair::Label { value, .. } => {
            label(alloc, walk, language, context, beside, state, keyed, value)
        }
    }
}

/// Judges the pairs of a hash, and answers the types of their keys and values.
fn pairs<W: Walk, L: Language>(
    alloc: Global,
    walk: &W,
    language: &L,
    context: &Context,
    state: &mut State,
    row: &[Pair<Tree>],
) -> Result<Keyed, NoMemory>
    ensures { IfOk result (λ k. record { keys = k.keys; values = k.values; state = seen_state state.new } ≡ words_spec.judge_pairs (L.the language.now) (known.known_pairs (L.the language.now) row.now) (seen_context context.now) (record { keys = []; values = []; state = seen_state state.old })) }
{
    let mut beside = Beside::new();
    let mut keyed = Keyed {
        keys: Items::new(alloc),
        values: Items::new(alloc),
    };
    'row: for each in row {
        pair(
            alloc,
            walk,
            language,
            context,
            &mut beside,
            state,
            &mut keyed,
            each,
        )?;
    }
    Ok(keyed)
}

/// Judges a hash literal.
pub fn hash<W: Walk, L: Language>(
    alloc: Global,
    walk: &W,
    language: &L,
    context: &Context,
    state: &mut State,
    row: &[Pair<Tree>],
) -> Result<Ty, NoMemory>
    ensures { IfOk result (λ ty. judged ty (seen_state state.new) ≡ words_spec.hash (L.the language.now) (known.known_pairs (L.the language.now) row.now) (seen_context context.now) (seen_state state.old)) }
{
    let keyed = pairs(alloc, walk, language, context, state, row)?;
    let key = element_type(alloc, language, keyed.keys.as_slice())?;
    let value = element_type(alloc, language, keyed.values.as_slice())?;
    language.hash(alloc, &key, &value)
}
