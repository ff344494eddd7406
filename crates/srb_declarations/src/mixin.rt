//! Calls of `include` and `extend` in the body of a class or module.

ghost use Rattle.std.specs.Prelude.{◌≡◌, OnOk, option_map};
ghost use Rattle.rb_views.specs.Calls.{seen_call};
ghost use Rattle.rb_views.specs.Paths.{seen_path};
ghost use Rattle.srb_declarations.specs.Declarations as spec;

use crate::declaration::Declaration;
use crate::naming::{mixin_named, written};
use rb_tree::syntax::{Argument, Tree};
use rb_views::call::Call;
use rb_views::path::Path;
use srb_terms::{How, Items, Name, Names, NoMemory, Span};
use std::alloc::Global;

/// The whole place of an argument, with its label or its `&`.
fn argument_span(argument: &Argument<Tree>) -> Span
    ensures { result ≡ spec.argument_span argument.now }
{
    match argument {
        Argument::Positional { value } => value.span(),
        Argument::Keyword { span, value, .. } | Argument::Block { span, value } => Span {
            start: span.start,
            end: value.span().end,
        },
    }
}

/// Adds an argument at this place that begins with this path, if with any.
fn with_path<'a>(
    alloc: Global,
    name: &Name,
    way: How,
    place: Span,
    path: Option<Path<'a>>,
    scope: &Names,
    found: &mut Items<Declaration>,
) -> Result<(), NoMemory>
    ensures { OnOk result (found.new ≡ spec.with_path name.now way place (option_map seen_path path.entry) scope.now found.old) }
{
    match path {
        Some(
            Path {
                top,
                names,
                span,
                rest: [],
            },
        ) => found.push(Declaration::Mixin {
            of: name.copied()?,
            scope: scope.copied()?,
            path: written(alloc, top, names)?,
            how: way,
            span,
        }),
        _ => found.push(Declaration::OtherMixin { span: place }),
    }
}

/// Adds an argument.
fn with_mixin(
    alloc: Global,
    name: &Name,
    way: How,
    argument: &Argument<Tree>,
    scope: &Names,
    found: &mut Items<Declaration>,
) -> Result<(), NoMemory>
    ensures { OnOk result (found.new ≡ spec.with_mixin name.now way argument.now scope.now found.old) }
{
    match argument {
        Argument::Positional { value } => {
            with_path(
                alloc,
                name,
                way,
                value.span(),
                Path::of(value),
                scope,
                found,
            )
        }
        _ => found.push(Declaration::OtherMixin {
            span: argument_span(argument),
        }),
    }
}

/// Adds the arguments, in their order.
fn with_mixins(
    alloc: Global,
    name: &Name,
    way: How,
    arguments: &[Argument<Tree>],
    scope: &Names,
    found: &mut Items<Declaration>,
) -> Result<(), NoMemory>
    ensures { OnOk result (found.new ≡ spec.with_mixins name.now way arguments.now scope.now found.old) }
{
    'arguments: for argument in arguments {
        with_mixin(alloc, name, way, argument, scope, found)?;
    }
    Ok(())
}

/// Adds the mixins that a call gives.
fn with_call<'a>(
    alloc: Global,
    name: &Name,
    call: Option<Call<'a>>,
    scope: &Names,
    found: &mut Items<Declaration>,
) -> Result<(), NoMemory>
    ensures { OnOk result (found.new ≡ spec.with_call name.now (option_map seen_call call.entry) scope.now found.old) }
{
    match call {
        Some(call) => match (call.receiver, call.block, mixin_named(call.name)) {
            (None, None, Some(way)) => {
                with_mixins(alloc, name, way, call.arguments, scope, found)
            }
            _ => Ok(()),
        },
        None => Ok(()),
    }
}

/// Adds the mixins that a statement of the body of this class or module gives.
pub fn mixed(
    alloc: Global,
    name: &Name,
    statement: &Tree,
    scope: &Names,
    found: &mut Items<Declaration>,
) -> Result<(), NoMemory>
    ensures { OnOk result (found.new ≡ spec.mixed name.now statement.now scope.now found.old) }
{
    with_call(alloc, name, Call::of(statement), scope, found)
}
