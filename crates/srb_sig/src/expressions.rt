//! The reading of type expressions. The depth of an expression bounds the recursion.

ghost use Rattle.std.specs.Prelude.{◌≡◌, IfOk};
ghost use Rattle.srb_sig.specs.Forms.{kind_of};
ghost use Rattle.srb_sig.specs.Types as spec;
ghost use Rattle.srb_sig.specs.Views.{view_at};

use crate::forming::formed_reading;
use crate::forms::{has_inner, type_form};
use crate::leaves::simple_reading;
use crate::reading::{Notes, Read, Row, counted, with_read};
use srb_terms::{Items, Names, NoMemory, NodeKind, Outline, World};
use std::alloc::Global;

/// Reads an expression.
#[cycle(reading)]
#[tactic(auto, using(crate::proofs::Equations::reading_is))]
pub fn read(
    t: &Outline,
    alloc: Global,
    w: &World,
    scope: &Names,
    notes: Notes,
) -> Result<Read, NoMemory>
    ensures { IfOk result (λ r. r ≡ spec.reading (view_at w.now) scope.now t.now notes) }
{
    let form = type_form(t);
    if has_inner(form) {
        let part = notes.next;
        let wrong = notes.wrong.len();
        let row = Row {
            types: Items::new(alloc),
            notes: counted(notes)?,
        };
        let row = read_inside(t, alloc, w, scope, row)?;
        formed_reading(alloc, w, form, part, wrong, row)
    } else {
        simple_reading(alloc, w, scope, form, t, notes)
    }
}

/// Reads the type expressions that stand in a tree.
#[cycle(reading)]
#[tactic(auto, using(crate::proofs::Equations::rows_are))]
fn read_inside(
    t: &Outline,
    alloc: Global,
    w: &World,
    scope: &Names,
    row: Row,
) -> Result<Row, NoMemory>
    ensures { IfOk result (λ r. r ≡ spec.rows (view_at w.now) scope.now t.now row) }
{
    match t.label.kind {
        NodeKind::Keyword => read_values(t.parts.as_slice(), alloc, w, scope, row),
        NodeKind::Brackets => read_arguments(t.parts.as_slice(), alloc, w, scope, row),
        NodeKind::Index => read_arguments(t.parts.as_slice(), alloc, w, scope, row),
        NodeKind::SuffixCall => read_rows(t.parts.as_slice(), alloc, w, scope, row),
        NodeKind::Post => read_rows(t.parts.as_slice(), alloc, w, scope, row),
        _ => Ok(row),
    }
}

/// Reads an expression that stands beside others.
#[cycle(reading)]
fn read_one(t: &Outline, alloc: Global, w: &World, scope: &Names, row: Row) -> Result<Row, NoMemory>
    ensures { IfOk result (λ r. r ≡ spec.with_one (spec.reading (view_at w.now) scope.now t.now) row) }
{
    let Row { types, notes } = row;
    with_read(types, read(t, alloc, w, scope, notes)?)
}

/// Reads an argument: the value of one by name, or the expression itself.
#[cycle(reading)]
fn read_argument(
    t: &Outline,
    alloc: Global,
    w: &World,
    scope: &Names,
    row: Row,
) -> Result<Row, NoMemory>
    ensures { IfOk result (λ r. r ≡ spec.argument_rows (kind_of t.now) (spec.inside (view_at w.now) scope.now t.now) row) }
{
    match t.label.kind {
        NodeKind::Keyword => read_inside(t, alloc, w, scope, row),
        _ => read_one(t, alloc, w, scope, row),
    }
}

/// Reads expressions one after the other.
#[cycle(reading)]
fn read_values(
    parts: &[Outline],
    alloc: Global,
    w: &World,
    scope: &Names,
    row: Row,
) -> Result<Row, NoMemory>
    ensures { IfOk result (λ r. r ≡ spec.with_each (λ x. spec.with_one (spec.inside (view_at w.now) scope.now x).own) parts.now row) }
{
    let mut so_far = row;
    'parts: for part in parts {
        so_far = read_one(part, alloc, w, scope, so_far)?;
    }
    Ok(so_far)
}

/// Reads arguments one after the other.
#[cycle(reading)]
fn read_arguments(
    parts: &[Outline],
    alloc: Global,
    w: &World,
    scope: &Names,
    row: Row,
) -> Result<Row, NoMemory>
    ensures { IfOk result (λ r. r ≡ spec.with_each (λ x. spec.argument_rows (kind_of x) (spec.inside (view_at w.now) scope.now x)) parts.now row) }
{
    let mut so_far = row;
    'parts: for part in parts {
        so_far = read_argument(part, alloc, w, scope, so_far)?;
    }
    Ok(so_far)
}

/// Reads what stands in some trees, one after the other.
#[cycle(reading)]
fn read_rows(
    parts: &[Outline],
    alloc: Global,
    w: &World,
    scope: &Names,
    row: Row,
) -> Result<Row, NoMemory>
    ensures { IfOk result (λ r. r ≡ spec.with_each (λ x. (spec.inside (view_at w.now) scope.now x).rows) parts.now row) }
{
    let mut so_far = row;
    'parts: for part in parts {
        so_far = read_inside(part, alloc, w, scope, so_far)?;
    }
    Ok(so_far)
}
