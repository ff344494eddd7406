//! Adds the parts of rows, of arguments, suffixes, arms and the like, to what is still to be read.

ghost use Rattle.std.specs.Prelude.{◌≡◌, ◌++◌, [], ◌∷◌, OnOk, map};
ghost use Rattle.std.specs.List.{flat_map};
ghost use Rattle.srb_references.specs.Readings as spec;
ghost use Rattle.srb_references.specs.declared.reading.Reading.TheVariants.{TypeExpression};

use crate::reading::{Reading, Taken};
use crate::taken::{keyword_reading, positional_reading, taken_on};
use crate::type_form::in_brackets;
use crate::visit::Worklist;
use rb_tree::syntax::{
    Argument, Arm, Block, Guarded, Pair, Parameter, Piece, Rescue, Suffix, Tree, When,
};
use srb_terms::{Boxed, Items, Names, NoMemory};

/// Adds a part that is read as an expression.
pub fn plain<'a>(list: &mut Worklist<'a>, scope: &Names, tree: &'a Tree) -> Result<(), NoMemory>
    ensures { OnOk result (list.new ≡ list.old ++ spec.plain scope.now tree.now ∷ []) }
{
    list.push(Reading::Plain, scope, tree)
}

/// Adds two such parts.
pub fn two<'a>(
    list: &mut Worklist<'a>,
    scope: &Names,
    first: &'a Tree,
    second: &'a Tree,
) -> Result<(), NoMemory>
    ensures { OnOk result (list.new ≡ list.old ++ spec.plain scope.now first.now ∷ spec.plain scope.now second.now ∷ []) }
{
    plain(list, scope, first)?;
    plain(list, scope, second)
}

/// Adds what may be left out.
pub fn if_any<'a>(
    list: &mut Worklist<'a>,
    scope: &Names,
    tree: &'a Option<Tree>,
) -> Result<(), NoMemory>
    ensures { OnOk result (list.new ≡ list.old ++ spec.if_any scope.now tree.now) }
{
    match tree {
        None => Ok(()),
        Some(tree) => plain(list, scope, tree),
    }
}

/// Adds a part by its reading, where it has one.
pub fn part_if<'a>(
    list: &mut Worklist<'a>,
    scope: &Names,
    reading: Option<Reading>,
    tree: &'a Tree,
) -> Result<(), NoMemory>
    ensures { OnOk result (list.new ≡ list.old ++ spec.part_if scope.now reading tree.now) }
{
    match reading {
        None => Ok(()),
        Some(reading) => list.push(reading, scope, tree),
    }
}

/// Adds trees that are read in the same way.
pub fn trees<'a>(
    list: &mut Worklist<'a>,
    reading: Reading,
    scope: &Names,
    row: &'a [Tree],
) -> Result<(), NoMemory>
    ensures { OnOk result (list.new ≡ list.old ++ map (spec.visit reading scope.now) row.now) }
{
    'row: for tree in row {
        list.push(reading, scope, tree)?;
    }
    Ok(())
}

/// Adds the value of an argument.
fn argument<'a>(
    list: &mut Worklist<'a>,
    scope: &Names,
    taken: Taken,
    argument: &'a Argument<Tree>,
) -> Result<(), NoMemory>
    ensures { OnOk result (list.new ≡ list.old ++ spec.argument_parts scope.now taken argument.now) }
{
    match argument {
        Argument::Positional { value } => list.push(positional_reading(taken), scope, value),
        Argument::Keyword { value, .. } => list.push(keyword_reading(taken), scope, value),
        Argument::Block { value, .. } => plain(list, scope, value),
    }
}

/// Adds the values of arguments.
pub fn row<'a>(
    list: &mut Worklist<'a>,
    scope: &Names,
    taken: Taken,
    arguments: &'a [Argument<Tree>],
) -> Result<(), NoMemory>
    ensures { OnOk result (list.new ≡ list.old ++ spec.row_parts scope.now taken arguments.now) }
{
    'arguments: for each in arguments {
        argument(list, scope, taken, each)?;
    }
    Ok(())
}

/// Adds an expression and a type expression.
fn asserted<'a>(
    list: &mut Worklist<'a>,
    scope: &Names,
    value: &'a Tree,
    given: &'a Tree,
) -> Result<(), NoMemory>
    ensures { OnOk result (list.new ≡ list.old ++ spec.plain scope.now value.now ∷ spec.visit TypeExpression scope.now given.now ∷ []) }
{
    plain(list, scope, value)?;
    list.push(Reading::TypeExpression, scope, given)
}

/// Adds the values of the arguments of a call.
fn arguments<'a>(
    list: &mut Worklist<'a>,
    scope: &Names,
    taken: Taken,
    arguments: &'a [Argument<Tree>],
) -> Result<(), NoMemory>
    ensures { OnOk result (list.new ≡ list.old ++ spec.arguments_parts scope.now taken arguments.now) }
{
    match (taken, arguments) {
        (
            Taken::SecondIsType,
            [
                Argument::Positional { value },
                Argument::Positional { value: given },
            ],
        ) => asserted(list, scope, value, given),
        _ => row(list, scope, taken, arguments),
    }
}

/// Adds the body of a block.
fn block<'a>(
    list: &mut Worklist<'a>,
    scope: &Names,
    reading: Reading,
    block: &'a Option<Boxed<Block<Tree>>>,
) -> Result<(), NoMemory>
    ensures { OnOk result (list.new ≡ list.old ++ spec.block_parts scope.now reading block.now) }
{
    match block {
        None => Ok(()),
        Some(block) => list.push(reading, scope, &block.get().body),
    }
}

/// Adds the arguments and the block of a call.
pub fn call<'a>(
    list: &mut Worklist<'a>,
    scope: &Names,
    taken: Taken,
    given: &'a [Argument<Tree>],
    reading: Reading,
    inner: &'a Option<Boxed<Block<Tree>>>,
) -> Result<(), NoMemory>
    ensures { OnOk result (list.new ≡ list.old ++ spec.call_parts scope.now taken given.now reading inner.now) }
{
    arguments(list, scope, taken, given)?;
    block(list, scope, reading, inner)
}

/// Adds the parts of a suffix, which may be a call on `T`.
fn suffix<'a>(
    list: &mut Worklist<'a>,
    scope: &Names,
    reading: Reading,
    on_t: bool,
    suffix: &'a Suffix<Tree>,
) -> Result<(), NoMemory>
    ensures { OnOk result (list.new ≡ list.old ++ spec.suffix_parts scope.now reading on_t suffix.now) }
{
    match suffix {
        Suffix::Call {
            dot,
            name,
            arguments,
            block,
            ..
        } => {
            let taken = taken_on(reading, on_t, *dot, name.as_str(), block.is_some());
            call(
                list,
                scope,
                taken,
                in_brackets(arguments),
                Reading::Plain,
                block,
            )
        }
        Suffix::Constant { .. } => Ok(()),
        Suffix::Index { arguments, .. } => row(list, scope, Taken::All, arguments.as_slice()),
    }
}

/// Adds the parts of suffixes, the first of which may be a call on `T`.
pub fn suffixes<'a>(
    list: &mut Worklist<'a>,
    scope: &Names,
    reading: Reading,
    on_t: bool,
    suffixes: &'a [Suffix<Tree>],
) -> Result<(), NoMemory>
    ensures { OnOk result (list.new ≡ list.old ++ spec.suffixes_parts scope.now reading on_t suffixes.now) }
{
    let mut first = on_t;
    'suffixes: for each in suffixes {
        suffix(list, scope, reading, first, each)?;
        first = false;
    }
    Ok(())
}

/// Adds the arguments of a suffix of a type expression's form.
fn form_suffix<'a>(
    list: &mut Worklist<'a>,
    scope: &Names,
    taken: Taken,
    suffix: &'a Suffix<Tree>,
) -> Result<(), NoMemory>
    ensures { OnOk result (list.new ≡ list.old ++ spec.form_suffix_parts scope.now taken suffix.now) }
{
    match suffix {
        Suffix::Call { arguments, .. } => row(list, scope, taken, in_brackets(arguments)),
        Suffix::Constant { .. } => Ok(()),
        Suffix::Index { arguments, .. } => row(list, scope, taken, arguments.as_slice()),
    }
}

/// Adds the arguments in a type expression of a form.
pub fn form_suffixes<'a>(
    list: &mut Worklist<'a>,
    scope: &Names,
    taken: Taken,
    suffixes: &'a [Suffix<Tree>],
) -> Result<(), NoMemory>
    ensures { OnOk result (list.new ≡ list.old ++ flat_map (spec.form_suffix_parts scope.now taken) suffixes.now) }
{
    'suffixes: for each in suffixes {
        form_suffix(list, scope, taken, each)?;
    }
    Ok(())
}

/// Adds what stands between the `#{` and the `}` of a string.
fn piece<'a>(list: &mut Worklist<'a>, scope: &Names, piece: &'a Piece<Tree>) -> Result<(), NoMemory>
    ensures { OnOk result (list.new ≡ list.old ++ spec.piece_parts scope.now piece.now) }
{
    match piece {
        Piece::Words { .. } => Ok(()),
        Piece::Code { body, .. } => plain(list, scope, body),
    }
}

/// Adds the parts of a string.
pub fn pieces<'a>(
    list: &mut Worklist<'a>,
    scope: &Names,
    row: &'a [Piece<Tree>],
) -> Result<(), NoMemory>
    ensures { OnOk result (list.new ≡ list.old ++ flat_map (spec.piece_parts scope.now) row.now) }
{
    'row: for each in row {
        piece(list, scope, each)?;
    }
    Ok(())
}

/// Adds the parts of a pair of a hash.
fn pair<'a>(list: &mut Worklist<'a>, scope: &Names, pair: &'a Pair<Tree>) -> Result<(), NoMemory>
    ensures { OnOk result (list.new ≡ list.old ++ spec.pair_parts scope.now pair.now) }
{
    match pair {
        Pair::Arrow { key, value } => two(list, scope, key, value),
        Pair::Label { value, .. } => plain(list, scope, value),
    }
}

/// Adds the parts of the pairs of a hash.
pub fn pairs<'a>(
    list: &mut Worklist<'a>,
    scope: &Names,
    row: &'a [Pair<Tree>],
) -> Result<(), NoMemory>
    ensures { OnOk result (list.new ≡ list.old ++ flat_map (spec.pair_parts scope.now) row.now) }
{
    'row: for each in row {
        pair(list, scope, each)?;
    }
    Ok(())
}

/// Adds the parts of an `elsif` arm.
fn arm<'a>(list: &mut Worklist<'a>, scope: &Names, arm: &'a Arm<Tree>) -> Result<(), NoMemory>
    ensures { OnOk result (list.new ≡ list.old ++ spec.arm_parts scope.now arm.now) }
{
    two(list, scope, &arm.condition, &arm.body)
}

/// Adds the parts of `elsif` arms.
pub fn arms<'a>(
    list: &mut Worklist<'a>,
    scope: &Names,
    row: &'a [Arm<Tree>],
) -> Result<(), NoMemory>
    ensures { OnOk result (list.new ≡ list.old ++ flat_map (spec.arm_parts scope.now) row.now) }
{
    'row: for each in row {
        arm(list, scope, each)?;
    }
    Ok(())
}

/// Adds the parts of a `when` arm.
fn when<'a>(list: &mut Worklist<'a>, scope: &Names, when: &'a When<Tree>) -> Result<(), NoMemory>
    ensures { OnOk result (list.new ≡ list.old ++ spec.when_parts scope.now when.now) }
{
    trees(list, Reading::Plain, scope, when.patterns.as_slice())?;
    plain(list, scope, &when.body)
}

/// Adds the parts of `when` arms.
pub fn whens<'a>(
    list: &mut Worklist<'a>,
    scope: &Names,
    row: &'a [When<Tree>],
) -> Result<(), NoMemory>
    ensures { OnOk result (list.new ≡ list.old ++ flat_map (spec.when_parts scope.now) row.now) }
{
    'row: for each in row {
        when(list, scope, each)?;
    }
    Ok(())
}

/// Adds the parts of a `rescue` clause.
fn rescue<'a>(
    list: &mut Worklist<'a>,
    scope: &Names,
    rescue: &'a Rescue<Tree>,
) -> Result<(), NoMemory>
    ensures { OnOk result (list.new ≡ list.old ++ spec.rescue_parts scope.now rescue.now) }
{
    trees(list, Reading::Plain, scope, rescue.patterns.as_slice())?;
    plain(list, scope, &rescue.body)
}

/// Adds the parts of `rescue` clauses.
fn rescues<'a>(
    list: &mut Worklist<'a>,
    scope: &Names,
    row: &'a [Rescue<Tree>],
) -> Result<(), NoMemory>
    ensures { OnOk result (list.new ≡ list.old ++ flat_map (spec.rescue_parts scope.now) row.now) }
{
    'row: for each in row {
        rescue(list, scope, each)?;
    }
    Ok(())
}

/// Adds the default of a parameter.
fn parameter<'a>(
    list: &mut Worklist<'a>,
    scope: &Names,
    parameter: &'a Parameter<Tree>,
) -> Result<(), NoMemory>
    ensures { OnOk result (list.new ≡ list.old ++ spec.parameter_parts scope.now parameter.now) }
{
    if_any(list, scope, &parameter.default)
}

/// Adds the defaults of parameters.
pub fn parameters<'a>(
    list: &mut Worklist<'a>,
    scope: &Names,
    row: &'a [Parameter<Tree>],
) -> Result<(), NoMemory>
    ensures { OnOk result (list.new ≡ list.old ++ flat_map (spec.parameter_parts scope.now) row.now) }
{
    'row: for each in row {
        parameter(list, scope, each)?;
    }
    Ok(())
}

/// Adds a body, its `rescue` clauses, and what stands after `else` and `ensure`.
pub fn guarded<'a>(
    list: &mut Worklist<'a>,
    scope: &Names,
    guarded: &'a Guarded<Tree>,
) -> Result<(), NoMemory>
    ensures { OnOk result (list.new ≡ list.old ++ spec.guarded_parts scope.now guarded.now) }
{
    plain(list, scope, &guarded.body)?;
    rescues(list, scope, guarded.rescues.as_slice())?;
    if_any(list, scope, &guarded.otherwise)?;
    if_any(list, scope, &guarded.ensure)
}
