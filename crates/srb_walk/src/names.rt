//! What rows of trees assign, and how they are spelled.

ghost use Rattle.std.specs.Prelude.{◌≡◌, ◌++◌, ◌∷◌, [], true, map, IfOk, OnOk};
ghost use Rattle.std.specs.List.{flat_map};
ghost use Rattle.rb_views.specs.Calls.{arguments_of};
ghost use Rattle.srb_judgement.specs.Calls as calls_spec;
ghost use Rattle.srb_judgement.specs.Chains.{operand_of, operands_of};
ghost use Rattle.srb_judgement.specs.Kept.{seen_context};
ghost use Rattle.srb_judgement.specs.Sequences as sequences;
ghost use Rattle.srb_judgement.specs.States.{seeing};
ghost use Rattle.srb_judgement.specs.Variables.{part_operand};
ghost use Rattle.srb_walk.specs.Beside.{seen_beside};
ghost use Rattle.srb_walk.specs.Assigned.{names_of};
ghost use Rattle.rb_views.specs.Prefixes.{seen_prefix};
ghost use Rattle.srb_walk.specs.Endings.{prefix_operand};
ghost use Rattle.srb_walk.specs.Written.{spelling_of};
ghost use Rattle.srb_judgement.specs.Views.{seen_spelling};
ghost use Rattle.srb_walk.specs.Walking as walking;
ghost use Rattle.srb_walk.specs.Known as known;

use crate::around::{Beside, with_names};
use crate::assigned::assigned;
use crate::written::{row_spelling, spelling};
use rb_tree::syntax::{Argument, Suffix, Tree};
use rb_views::prefix::Prefix;
use srb_judgement::contexts::Context;
use srb_judgement::language::Language;
use srb_judgement::spelling::Spelling;
use srb_terms::{Items, Name, NoMemory};
use std::alloc::Global;

/// Arguments in brackets; none where no brackets stand.
pub fn in_brackets<'a>(arguments: &'a Option<Items<Argument<Tree>>>) -> &'a [Argument<Tree>]
    ensures { result.now ≡ arguments_of arguments.now }
{
    match arguments {
        Some(row) => row.as_slice(),
        None => &[],
    }
}

/// Makes what an argument assigns visible.
pub fn see_argument<L: Language>(
    alloc: Global,
    language: &L,
    beside: &mut Beside,
    context: &Context,
    argument: &Argument<Tree>,
) -> Result<(), NoMemory>
    ensures { OnOk result (seen_beside beside.new (seen_context context.now) ≡ seeing (calls_spec.argument_value (operand_of (known.known_argument (L.the language.now) argument.now))).declares (seen_beside beside.old (seen_context context.now))) }
{
    match argument {
        Argument::Positional { value } => beside.see(alloc, language, context, value),
        Argument::Keyword { value, .. } => beside.see(alloc, language, context, value),
        Argument::Block { value, .. } => beside.see(alloc, language, context, value),
    }
}

/// What is around after arguments.
pub fn after_arguments<L: Language>(
    alloc: Global,
    language: &L,
    context: &Context,
    row: &[Argument<Tree>],
) -> Result<Beside, NoMemory>
    ensures { IfOk result (λ b. seen_beside b (seen_context context.now) ≡ seeing (calls_spec.declared_by (operands_of (known.known_arguments (L.the language.now) row.now))) (seen_context context.now)) }
{
    let mut names = Items::new(alloc);
    declare_arguments(alloc, language, row, &mut names)?;
    with_names(alloc, context, names.as_slice())
}

/// Adds what an argument assigns.
pub fn declare<L: Language>(
    alloc: Global,
    language: &L,
    argument: &Argument<Tree>,
    names: &mut Items<Name>,
) -> Result<(), NoMemory>
    ensures { OnOk result (names.new ≡ names.old ++ (calls_spec.argument_value (operand_of (known.known_argument (L.the language.now) argument.now))).declares) }
{
    match argument {
        Argument::Positional { value } => assigned(alloc, language, false, value, names),
        Argument::Keyword { value, .. } => assigned(alloc, language, false, value, names),
        Argument::Block { value, .. } => assigned(alloc, language, false, value, names),
    }
}

/// Adds what arguments assign.
pub fn declare_arguments<L: Language>(
    alloc: Global,
    language: &L,
    row: &[Argument<Tree>],
    names: &mut Items<Name>,
) -> Result<(), NoMemory>
    ensures { OnOk result (names.new ≡ names.old ++ calls_spec.declared_by (operands_of (known.known_arguments (L.the language.now) row.now))) }
{
    'row: for each in row {
        declare(alloc, language, each, names)?;
    }
    Ok(())
}

/// Adds what the arguments of a suffix assign.
pub fn declare_suffix<L: Language>(
    alloc: Global,
    language: &L,
    suffix: &Suffix<Tree>,
    names: &mut Items<Name>,
) -> Result<(), NoMemory>
    ensures { OnOk result (names.new ≡ names.old ++ walking.suffix_names (L.the language.now) suffix.now) }
{
    match suffix {
        Suffix::Call { arguments: row, .. } => {
            declare_arguments(alloc, language, in_brackets(row), names)
        }
        Suffix::Constant { .. } => Ok(()),
        Suffix::Index { arguments: row, .. } => {
            declare_arguments(alloc, language, row.as_slice(), names)
        }
    }
}

/// Adds what the arguments of suffixes assign.
pub fn declare_suffixes<L: Language>(
    alloc: Global,
    language: &L,
    row: &[Suffix<Tree>],
    names: &mut Items<Name>,
) -> Result<(), NoMemory>
    ensures { OnOk result (names.new ≡ names.old ++ flat_map (walking.suffix_names (L.the language.now)) row.now) }
{
    'row: for suffix in row {
        declare_suffix(alloc, language, suffix, names)?;
    }
    Ok(())
}

/// Adds what a prefix assigns.
pub fn declare_prefix<L: Language>(
    alloc: Global,
    language: &L,
    row: Prefix<'_>,
    names: &mut Items<Name>,
) -> Result<(), NoMemory>
    ensures { OnOk result (names.new ≡ names.old ++ (prefix_operand (L.the language.now) (seen_prefix row.entry)).declares) }
{
    assigned(alloc, language, false, row.operand, names)?;
    declare_suffixes(alloc, language, row.suffixes, names)
}

/// What is around after a prefix.
pub fn after_prefix<L: Language>(
    alloc: Global,
    language: &L,
    context: &Context,
    row: Prefix<'_>,
) -> Result<Beside, NoMemory>
    ensures { IfOk result (λ b. seen_beside b (seen_context context.now) ≡ seeing (prefix_operand (L.the language.now) (seen_prefix row.entry)).declares (seen_context context.now)) }
{
    let mut names = Items::new(alloc);
    declare_prefix(alloc, language, row, &mut names)?;
    with_names(alloc, context, names.as_slice())
}

/// Adds what each of these trees assigns.
pub fn declare_all<L: Language>(
    alloc: Global,
    language: &L,
    row: &[Tree],
    names: &mut Items<Name>,
) -> Result<(), NoMemory>
    ensures { OnOk result (names.new ≡ names.old ++ sequences.all_declared (map part_operand (known.known_trees (L.the language.now) row.now))) }
{
    'row: for each in row {
        assigned(alloc, language, false, each, names)?;
    }
    Ok(())
}

/// The variables that a loop assigns, those of blocks inside it among them.
pub fn loop_names<L: Language>(
    alloc: Global,
    language: &L,
    condition: &Tree,
    body: &Tree,
) -> Result<Items<Name>, NoMemory>
    ensures { IfOk result (λ names. names ≡ names_of (L.the language.now) true condition.now ++ names_of (L.the language.now) true body.now) }
{
    let mut names = Items::new(alloc);
    assigned(alloc, language, true, condition, &mut names)?;
    assigned(alloc, language, true, body, &mut names)?;
    Ok(names)
}

/// Adds how a tree is spelled.
fn add_spelling<L: Language>(
    alloc: Global,
    language: &L,
    tree: &Tree,
    all: &mut Items<Spelling>,
) -> Result<(), NoMemory>
    ensures { OnOk result (map seen_spelling all.new ≡ map seen_spelling all.old ++ spelling_of (L.the language.now) tree.now ∷ []) }
{
    all.push(spelling(alloc, language, tree)?)?;
    Ok(())
}

/// How trees are spelled.
pub fn spellings<L: Language>(
    alloc: Global,
    language: &L,
    row: &[Tree],
) -> Result<Items<Spelling>, NoMemory>
    ensures { IfOk result (λ all. map seen_spelling all ≡ map (spelling_of (L.the language.now)) row.now) }
{
    let mut all = Items::new(alloc);
    'row: for each in row {
        add_spelling(alloc, language, each, &mut all)?;
    }
    Ok(all)
}

/// How a prefix is spelled.
pub fn prefix_spelling<L: Language>(
    alloc: Global,
    language: &L,
    row: Prefix<'_>,
) -> Result<Spelling, NoMemory>
    ensures { IfOk result (λ s. seen_spelling s ≡ (prefix_operand (L.the language.now) (seen_prefix row.entry)).spelling) }
{
    let so_far = spelling(alloc, language, row.operand)?;
    row_spelling(alloc, so_far, row.suffixes)
}
