//! The errors of malformed type expressions.

ghost use Rattle.std.specs.Prelude.{◌≡◌, ◌++◌, List, map, option_map, IfOk, OnOk};
ghost use Rattle.std.specs.Option.{option_copied};
ghost use Rattle.srb_references.specs.MalformedTypes as spec;
ghost use Rattle.srb_references.specs.Visits.{seen_visit};
ghost use Rattle.srb_rules.specs.Standing.{Stands};
ghost use Rattle.srb_rules.specs.Values.{is_value};
ghost use Rattle.srb_sig.specs.Views.{view_at, view_of};
ghost use Rattle.srb_terms.specs.declared.fact.Fact.{Fact};
ghost use Rattle.rb_views.specs.Paths.{seen_path};

use crate::reading::Reading;
use crate::type_form::{TypeForm, type_form};
use crate::visit::Visit;
use rb_outline::outline;
use rb_tree::syntax::Tree;
use rb_views::path::Path;
use srb_constants::resolve;
use srb_declarations::naming::written;
use srb_rules::Position;
use srb_sig::{WrongPart, wrong_parts};
use srb_terms::{Diag, Items, Kind, Name, Names, NoMemory, TyText, Words, World};
use std::alloc::Global;

/// Whether a name is that of a value constant.
fn is_value(kind: Option<Kind>) -> bool
    ensures { result ≡ is_value kind }
{
    match kind {
        Some(Kind::Value) => true,
        _ => false,
    }
}

/// Whether what a path stands for is a value constant.
fn stands_for_value(world: &World, found: Option<&Name>) -> bool
    ensures { result ≡ spec.stands_for_value (view_at world.now) (option_copied found.entry) }
{
    match found {
        None => false,
        Some(name) => is_value(world.kind(name)),
    }
}

/// Whether a path stands for a value constant.
fn names_value<'a>(
    alloc: Global,
    world: &World,
    scope: &Names,
    path: Option<Path<'a>>,
) -> Result<bool, NoMemory>
    ensures { IfOk result (λ b. b ≡ spec.names_value (view_at world.now) scope.now (option_map seen_path path.entry)) }
{
    match path {
        None => Ok(false),
        Some(path) => {
            let path = written(alloc, path.top, path.names)?;
            Ok(stands_for_value(world, resolve(world, scope, &path, Position::Value)))
        }
    }
}

/// Whether the first wrong part is the expression itself.
fn begins_with_whole(wrong: &[WrongPart]) -> bool
    ensures { result ≡ spec.begins_with_whole wrong.now }
{
    match wrong {
        [] => false,
        [first, ..] => first.part == 0,
    }
}

/// Whether a `T.all` in which no part is wrong has too many parts.
fn is_too_large(alloc: Global, world: &World, scope: &Names, tree: &Tree) -> Result<bool, NoMemory>
    ensures { IfOk result (λ b. b ≡ spec.is_too_large (view_at world.now) scope.now tree.now) }
{
    let text = TyText {
        tree: outline(alloc, tree)?,
    };
    let wrong = wrong_parts(alloc, world, scope, &text)?;
    Ok(begins_with_whole(wrong.as_slice()))
}

/// Whether a type expression of this form is malformed.
fn is_malformed_form(
    alloc: Global,
    world: &World,
    scope: &Names,
    tree: &Tree,
    form: TypeForm,
) -> Result<bool, NoMemory>
    ensures { IfOk result (λ b. b ≡ spec.is_malformed_form (view_at world.now) scope.now tree.now form) }
{
    match form {
        TypeForm::Other => Ok(true),
        TypeForm::Path => names_value(alloc, world, scope, Path::of(tree)),
        TypeForm::AllOf => is_too_large(alloc, world, scope, tree),
        TypeForm::Untyped
        | TypeForm::Never
        | TypeForm::Boolean
        | TypeForm::Nilable
        | TypeForm::AnyOf
        | TypeForm::ArrayOf
        | TypeForm::HashOf
        | TypeForm::ClassOf
        | TypeForm::ProcOf => Ok(false),
    }
}

/// Whether a part is a malformed type expression, by what the table holds.
#[tactic(auto, unfolding(crate::specs::MalformedTypes::is_malformed))]
fn is_malformed<'a>(alloc: Global, world: &World, part: &Visit<'a>) -> Result<bool, NoMemory>
    ensures { IfOk result (λ b. b ≡ spec.is_malformed (view_at world.now) (seen_visit part.now)) }
{
    match part.reading {
        Reading::TypeExpression => {
            is_malformed_form(alloc, world, &part.scope, part.tree, type_form(part.tree))
        }
        Reading::ClassName => names_value(alloc, world, &part.scope, Path::of(part.tree)),
        Reading::Plain
        | Reading::Inner
        | Reading::Direct
        | Reading::Mixin
        | Reading::SigBody
        | Reading::Chain => Ok(false),
    }
}

/// The error of a malformed type expression.
fn malformed_type(alloc: Global, tree: &Tree) -> Result<Diag, NoMemory>
    ensures { IfOk result (λ d. d ≡ spec.malformed_type tree.now) }
{
    Ok(Diag {
        span: tree.span(),
        number: 5004,
        text: Words::from_str(alloc, "malformed type")?,
    })
}

/// Adds an error where a part is malformed.
pub fn check<'a>(
    alloc: Global,
    world: &World,
    part: &Visit<'a>,
    found: &mut Items<Diag>,
) -> Result<(), NoMemory>
    ensures { OnOk result (found.new ≡ found.old ++ spec.malformed_errors_of (view_at world.now) (seen_visit part.now)) }
{
    if is_malformed(alloc, world, part)? {
        found.push(malformed_type(alloc, part.tree)?)
    } else {
        Ok(())
    }
}

/// Adds an error for each part that is malformed, by what the table holds.
fn check_each<'a>(
    alloc: Global,
    world: &World,
    parts: &[Visit<'a>],
    found: &mut Items<Diag>,
) -> Result<(), NoMemory>
    ensures { OnOk result (found.new ≡ found.old ++ spec.malformed_errors (view_at world.now) (map seen_visit parts.now)) }
{
    'parts: for part in parts {
        check(alloc, world, part, found)?;
    }
    Ok(())
}

/// Adds an error for each of these parts of type expressions that is malformed: it has none of the forms of types, names a value constant,
/// or is a `T.all` that multiplied out has more than 256 parts.
///
/// Where the table stands for some facts, these are the errors that the rules give by these facts.
pub fn malformed_types<'a>(
    alloc: Global,
    world: &World,
    parts: &[Visit<'a>],
    found: &mut Items<Diag>,
) -> Result<(), NoMemory>
    ensures { (fs : List Fact) → Stands world.now fs → OnOk result (found.new ≡ found.old ++ spec.malformed_errors (view_of fs) (map seen_visit parts.now)) }
{
    check_each(alloc, world, parts, found)
}
