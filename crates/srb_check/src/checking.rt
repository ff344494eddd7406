ghost use Rattle.std.specs.Prelude.{◌≡◌, [], ◌∷◌, ◌+◌, ◌++◌, ℕ, List, IfOk, OnOk};
ghost use Rattle.rb_rewrite.specs.Rewriting.{attrs_of};
ghost use Rattle.srb_conflicts.specs.Conflicts.{conflict_errors};
ghost use Rattle.srb_declarations.specs.Declarations.{declarations_of};
ghost use Rattle.srb_judgement.specs.Errors.{from_true, shown_errors};
ghost use Rattle.srb_judgement.specs.Judgements as judgement;
ghost use Rattle.srb_language.specs.Asked.{language_of};
ghost use Rattle.srb_language.specs.Knowledge.{knowledge_at};
ghost use Rattle.srb_references.specs.MalformedTypes.{malformed_errors, types_of};
ghost use Rattle.srb_references.specs.References.{reference_errors, references_of};
ghost use Rattle.srb_rules.specs.Standing.{Stands};
ghost use Rattle.srb_sig.specs.Views.{view_of};
ghost use Rattle.srb_signatures.specs.Errors.{signature_errors};
ghost use Rattle.srb_table.specs.Names.{TellsMembers};
ghost use Rattle.srb_terms.specs.declared.fact.Fact.{Fact};
ghost use Rattle.srb_check.specs.Arranged as order;
ghost use Rattle.srb_check.specs.Checks.{errors_of};
ghost use Rattle.srb_check.specs.Levels as levels;
ghost use Rattle.srb_check.specs.Records.{loaded, record_errors, tree_errors};
ghost use Rattle.srb_check.specs.Symbols.{symbol_errors};
ghost use Rattle.srb_check.specs.Types.{type_errors};

use crate::arranged::arranged;
use crate::file::FileRec;
use rb_rewrite::attrs;
use rb_tree::syntax::Tree;
use srb_conflicts::conflicts;
use srb_declarations::declarations;
use srb_infer::{Levels, infer};
use srb_judgement::errors::is_shown;
use srb_language::ProjectLanguage;
use srb_references::mention_errors;
use srb_signatures::signature_errors;
use srb_terms::{Diag, Items, Level, NoMemory, Steps, World};
use std::alloc::{AllocError, Global};
use std::sync::ledger::Ledger;

/// Whether a level shows errors of types.
fn shows_types(level: Level) -> bool
    ensures { result ≡ from_true level }
{
    match level {
        Level::Ignore | Level::False => false,
        Level::True | Level::Strict | Level::Strong => true,
    }
}

/// Whether methods need signatures at a level.
fn needs_signatures(level: Level) -> bool
    ensures { result ≡ levels.needs_signatures level }
{
    match level {
        Level::Ignore | Level::False | Level::True => false,
        Level::Strict | Level::Strong => true,
    }
}

/// Adds the errors of a program's declarations.
fn add_conflicts(
    alloc: Global,
    world: &World,
    tree: &Tree,
    found: &mut Items<Diag>,
) -> Result<(), NoMemory>
    ensures { (fs : List Fact) → Stands world.now fs → OnOk result (found.new ≡ found.old ++ conflict_errors fs (declarations_of tree.now)) }
{
    let declared = declarations(alloc, tree)?;
    conflicts(alloc, world, declared.as_slice(), found)
}

/// Adds the errors of a program's signatures at this level.
fn add_signature_errors(
    alloc: Global,
    level: Level,
    tree: &Tree,
    found: &mut Items<Diag>,
) -> Result<(), NoMemory>
    ensures { OnOk result (found.new ≡ found.old ++ signature_errors (levels.needs_signatures level) tree.now) }
{
    let errors = signature_errors(alloc, needs_signatures(level), tree)?;
    found.append(errors)
}

/// The errors of a program's declarations, references, type expressions and signatures at this level.
fn symbol_errors(
    alloc: Global,
    world: &World,
    level: Level,
    tree: &Tree,
) -> Result<Items<Diag>, NoMemory>
    ensures { (fs : List Fact) → Stands world.now fs → IfOk result (λ ds. ds ≡ symbol_errors fs level tree.now) }
{
    let mut found = Items::new(alloc);
    add_conflicts(alloc, world, tree, &mut found)?;
    mention_errors(alloc, world, tree, &mut found)?;
    add_signature_errors(alloc, level, tree, &mut found)?;
    Ok(found)
}

/// The errors of types that a level shows, of these ones.
fn shown(level: Level, mut errors: Vec<Diag>) -> Vec<Diag>
    ensures { result.items ≡ shown_errors level errors.items }
{
    errors.retain(|error| is_shown(level, error.number));
    errors
}

/// The errors of the judgement of a program, after the rewriting of attributes and initializers.
fn judged(
    alloc: Global,
    world: &World,
    usual: &Levels,
    tree: &Tree,
) -> Result<Items<Diag>, NoMemory>
    ensures { IfOk result (λ errors. errors ≡ judgement.errors_of (language_of (knowledge_at world.now)) (attrs_of tree.now)) }
{
    let rewritten = attrs(alloc, tree)?;
    let language = ProjectLanguage::new(alloc, world)?;
    infer(alloc, usual, &language, &rewritten)
}

/// Adds the errors of the judgement of a program that the level shows.
fn add_judged(
    alloc: Global,
    world: &World,
    usual: &Levels,
    level: Level,
    tree: &Tree,
    found: &mut Items<Diag>,
) -> Result<(), NoMemory>
    ensures { OnOk result (found.new ≡ found.old ++ judgement.errors_at (language_of (knowledge_at world.now)) level (attrs_of tree.now)) }
{
    let errors = judged(alloc, world, usual, tree)?;
    found.append(Items::from_vec(shown(level, errors.into_vec())))
}

/// Adds the errors of types in a program that the level shows. A program of a level that shows none isn't judged.
fn add_type_errors(
    alloc: Global,
    world: &World,
    usual: &Levels,
    level: Level,
    tree: &Tree,
    found: &mut Items<Diag>,
) -> Result<(), NoMemory>
    ensures { (fs : List Fact) → Stands world.now fs → TellsMembers world.now fs → OnOk result (found.new ≡ found.old ++ type_errors fs level tree.now) }
{
    if shows_types(level) {
        add_judged(alloc, world, usual, level, tree, found)
    } else {
        Ok(())
    }
}

/// The errors of a program at this level, in order.
fn program_list(
    alloc: Global,
    world: &World,
    usual: &Levels,
    level: Level,
    tree: &Tree,
) -> Result<Vec<Diag>, NoMemory>
    ensures { (fs : List Fact) → Stands world.now fs → TellsMembers world.now fs → IfOk result (λ ds. ds.items ≡ order.arranged (symbol_errors fs level tree.now ++ type_errors fs level tree.now)) }
{
    let mut found = symbol_errors(alloc, world, level, tree)?;
    add_type_errors(alloc, world, usual, level, tree, &mut found)?;
    Ok(arranged(found.into_vec()))
}

/// The errors of a tree, where there is one.
fn tree_errors(
    alloc: Global,
    world: &World,
    usual: &Levels,
    level: Level,
    tree: &Option<Tree>,
) -> Result<Vec<Diag>, NoMemory>
    ensures { (fs : List Fact) → Stands world.now fs → TellsMembers world.now fs → IfOk result (λ ds. ds.items ≡ tree_errors fs level tree.now) }
{
    match tree {
        None => Ok(Vec::new(alloc)),
        Some(tree) => program_list(alloc, world, usual, level, tree),
    }
}

/// A list of one error.
fn one_error(alloc: Global, error: Diag) -> Result<Vec<Diag>, AllocError>
    ensures { IfOk result (λ ds. ds.items ≡ error ∷ []) }
{
    let mut errors = Vec::new(alloc);
    errors.push(error)?;
    Ok(errors)
}

/// The errors that a record tells, under the facts for which the symbol table stands and whose members it tells.
fn record_errors(
    alloc: Global,
    world: &World,
    usual: &Levels,
    file: &FileRec,
) -> Result<Vec<Diag>, NoMemory>
    ensures { (fs : List Fact) → Stands world.now fs → TellsMembers world.now fs → IfOk result (λ ds. ds.items ≡ record_errors fs file.now) }
{
    match &file.error {
        Some(error) => one_error(alloc, error.copied()?),
        None => tree_errors(alloc, world, usual, file.level, &file.tree),
    }
}

/// The errors of the file that was loaded as `file`, under the facts for which the symbol table stands and whose members it tells: those of
/// its project. It counts one step, whatever it answers.
#[tactic(auto, using(crate::proofs::Loads::loaded_errors))]
pub fn check_file<L: Ledger>(
    alloc: Global,
    world: &World,
    usual: &Levels,
    file: &FileRec,
    steps: &mut Steps<L>,
) -> Result<Vec<Diag>, AllocError>
    ensures errors { (fs : List Fact) → Stands world.now fs → TellsMembers world.now fs → (bytes : List ℕ) → file.now ≡ loaded bytes → IfOk result (λ ds. ds.items ≡ errors_of fs bytes) }
    ensures record { (fs : List Fact) → Stands world.now fs → TellsMembers world.now fs → IfOk result (λ ds. ds.items ≡ record_errors fs file.now) }
    ensures counted { steps.new ≡ steps.old + 1 }
{
    steps.count();
    record_errors(alloc, world, usual, file)
}
