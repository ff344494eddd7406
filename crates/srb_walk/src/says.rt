//! What conditions say of variables.

ghost use Rattle.std.specs.Prelude.{◌≡◌, None, IfOk};
ghost use Rattle.srb_judgement.specs.Assignments as assignments_spec;
ghost use Rattle.srb_judgement.specs.Chains.{operands_of};
ghost use Rattle.srb_judgement.specs.Kept.{seen_context};
ghost use Rattle.srb_judgement.specs.Operators as operators_spec;
ghost use Rattle.srb_judgement.specs.Conditions as conditions;
ghost use Rattle.srb_judgement.specs.States.{is_visible};
ghost use Rattle.rb_tree.specs.declared.syntax.Dot.TheVariants as dot;
ghost use Rattle.rb_views.specs.Prefixes.{seen_prefix};
ghost use Rattle.srb_judgement.specs.Chains.{chain, says_of};
ghost use Rattle.srb_walk.specs.Endings.{known_end, prefix_operand, seen_end};
ghost use Rattle.srb_walk.specs.Saying as saying;
ghost use Rattle.srb_judgement.specs.Views.{seen_says, seen_spelling};
ghost use Rattle.srb_judgement.specs.Narrowing as says_spec;
ghost use Rattle.std.specs.Option.{option_copied};
ghost use Rattle.srb_walk.specs.Walking as walking;
ghost use Rattle.srb_walk.specs.Known as known;

use crate::around::after;
use crate::ending::Ending;
use crate::names::{after_prefix, in_brackets, prefix_spelling};
use crate::written::spelling;
use rb_tree::syntax::{Argument, Binary, Block, Dot, Suffix, Tree};
use rb_views::prefix::Prefix;
use srb_judgement::contexts::Context;
use srb_judgement::language::Language;
use srb_judgement::narrowing::{exchanged_says, says_call, says_class, says_equal};
use srb_judgement::says::Says;
use srb_judgement::spelling::{Sole, Spelling};
use srb_terms::{Boxed, Name, NoMemory};
use std::alloc::Global;

/// What a name says: that a variable is `truthy` or `falsy`.
pub fn name_says<L: Language>(
    language: &L,
    context: &Context,
    name: &Name,
) -> Result<Says, NoMemory>
    ensures { IfOk result (λ s. seen_says s ≡ conditions.says_name (L.the language.now) (is_visible (seen_context context.now) name.now) name.now) }
{
    if context.is_visible(name) {
        Ok(Says::Truthy(name.copied()?))
    } else {
        Ok(Says::Nothing)
    }
}

/// What an assignment to what ends so says.
fn ending_says<L: Language>(language: &L, end: Ending<'_>) -> Result<Says, NoMemory>
    ensures { IfOk result (λ s. seen_says s ≡ assignments_spec.target_says (L.the language.now) (known_end (L.the language.now) (seen_end end.entry))) }
{
    match end {
        Ending::Name { name, .. } => Ok(Says::Truthy(name.copied()?)),
        _ => Ok(Says::Nothing),
    }
}

/// What an assignment to this says.
pub fn target_says<L: Language>(language: &L, target: &Tree) -> Result<Says, NoMemory>
    ensures { IfOk result (λ s. seen_says s ≡ assignments_spec.target_says (L.the language.now) (walking.ending_in (L.the language.now) target.now)) }
{
    ending_says(language, Ending::of(target))
}

/// What an operator that is a call says.
pub fn operator_says<L: Language>(
    alloc: Global,
    language: &L,
    context: &Context,
    operator: Binary,
    left: &Tree,
    right: &Tree,
) -> Result<Says, NoMemory>
    ensures { IfOk result (λ s. seen_says s ≡ operators_spec.says_operator (L.the language.now) operator (known.part_in (L.the language.now) left.now).it (known.part_in (L.the language.now) right.now).it (seen_context context.now)) }
{
    let first = spelling(alloc, language, left)?;
    let second = spelling(alloc, language, right)?;
    match operator {
        Binary::Equal => says_equal(language, context, &first, &second),
        Binary::NotEqual => Ok(exchanged_says(says_equal(language, context, &first, &second)?)),
        Binary::CaseEqual => {
            let inner = after(alloc, language, context, left)?;
            says_class(alloc, language, inner.of(context), &second, &first)
        }
        _ => Ok(Says::Nothing),
    }
}

/// What a call by `.` without a block says, on an operand that is spelled so.
fn spelled_says<L: Language>(
    alloc: Global,
    language: &L,
    context: &Context,
    spelled: &Spelling,
    name: &Name,
    row: &[Argument<Tree>],
) -> Result<Says, NoMemory>
    ensures { IfOk result (λ s. seen_says s ≡ says_spec.says_call (L.the language.now) (seen_context context.now) (seen_spelling spelled.now) name.now (operands_of (known.known_arguments (L.the language.now) row.now))) }
{
    match row {
        [] => says_call(alloc, language, context, spelled, name, Sole::Empty),
        [Argument::Positional { value }] => {
            let only = spelling(alloc, language, value)?;
            says_call(alloc, language, context, spelled, name, Sole::One(&only))
        }
        _ => says_call(alloc, language, context, spelled, name, Sole::Other),
    }
}

/// What a call by `.` without a block says, on a prefix.
pub fn call_says<L: Language>(
    alloc: Global,
    language: &L,
    context: &Context,
    front: Prefix<'_>,
    name: &Name,
    row: &[Argument<Tree>],
) -> Result<Says, NoMemory>
    ensures { IfOk result (λ s. seen_says s ≡ says_of (L.the language.now) (prefix_operand (L.the language.now) (seen_prefix front.entry)) dot.Plain name.now (operands_of (known.known_arguments (L.the language.now) row.now)) None (seen_context context.now)) }
{
    let spelled = prefix_spelling(alloc, language, front)?;
    let inner = after_prefix(alloc, language, context, front)?;
    spelled_says(alloc, language, inner.of(context), &spelled, name, row)
}

/// What a suffix says on a prefix.
fn last_says<L: Language>(
    alloc: Global,
    language: &L,
    context: &Context,
    front: Prefix<'_>,
    suffix: Option<&Suffix<Tree>>,
) -> Result<Says, NoMemory>
    ensures { IfOk result (λ s. seen_says s ≡ saying.last_says (L.the language.now) (seen_prefix front.entry) (option_copied suffix.entry) (seen_context context.now)) }
{
    match suffix {
        Some(
            Suffix::Call {
                dot: Dot::Plain,
                name,
                arguments: given,
                block: None,
                ..
            },
        ) => call_says(alloc, language, context, front, name, in_brackets(given)),
        _ => Ok(Says::Nothing),
    }
}

/// What the last suffix of a row says.
pub fn row_says<L: Language>(
    alloc: Global,
    language: &L,
    context: &Context,
    row: Prefix<'_>,
) -> Result<Says, NoMemory>
    ensures { IfOk result (λ s. seen_says s ≡ (chain (L.the language.now) (known.part_in (L.the language.now) row.entry.operand.now).it (known.known_suffixes (L.the language.now) row.entry.suffixes.now)).says (seen_context context.now)) }
{
    last_says(alloc, language, context, row.without_last(), row.last())
}

/// What a command without a block says, whose callee ends so.
fn end_says<L: Language>(
    alloc: Global,
    language: &L,
    context: &Context,
    end: Ending<'_>,
    row: &[Argument<Tree>],
) -> Result<Says, NoMemory>
    ensures { IfOk result (λ s. seen_says s ≡ conditions.command_says (L.the language.now) (known_end (L.the language.now) (seen_end end.entry)) (operands_of (known.known_arguments (L.the language.now) row.now)) None (seen_context context.now)) }
{
    match end {
        Ending::Call {
            receiver,
            dot: Dot::Plain,
            name,
            ..
        } => call_says(alloc, language, context, receiver, name, row),
        _ => Ok(Says::Nothing),
    }
}

/// What a command says.
pub fn command_says<L: Language>(
    alloc: Global,
    language: &L,
    context: &Context,
    callee: &Tree,
    row: &[Argument<Tree>],
    block: &Option<Boxed<Block<Tree>>>,
) -> Result<Says, NoMemory>
    ensures { IfOk result (λ s. seen_says s ≡ conditions.command_says (L.the language.now) (walking.ending_in (L.the language.now) callee.now) (operands_of (known.known_arguments (L.the language.now) row.now)) (known.known_blocks (L.the language.now) block.now) (seen_context context.now)) }
{
    match block {
        None => end_says(alloc, language, context, Ending::of(callee), row),
        Some(_) => Ok(Says::Nothing),
    }
}
