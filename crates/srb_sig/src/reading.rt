//! What reading has found so far.

ghost use Rattle.std.specs.Prelude.{◌≡◌, IfOk};
ghost use Rattle.srb_terms.specs.declared.ty.Ty.TheVariants as ty;
ghost use Rattle.srb_sig.specs.Types as spec;

use crate::wrong::{Cause, WrongPart};
use srb_terms::{Items, NoMemory, Ty};
use std::alloc::{AllocError, Global};

/// What a part is in which no other stands.
#[derive(Drop)]
pub enum Leaf {
    /// It has this type.
    Known(Ty),
    /// It is wrong.
    Wrong(Cause),
}

/// The parts that were read.
#[derive(Drop)]
pub struct Notes {
    /// The number of the next part.
    pub next: u32,
    /// The wrong parts so far.
    pub wrong: Items<WrongPart>,
}

/// An expression that was read.
#[derive(Drop)]
pub struct Read {
    /// Its type. It has no meaning where a part of the expression is wrong.
    pub ty: Ty,
    /// The parts up to its last one.
    pub notes: Notes,
}

/// Expressions that were read, which stand beside each other.
#[derive(Drop)]
pub struct Row {
    /// Their types.
    pub types: Items<Ty>,
    /// The parts up to the last one.
    pub notes: Notes,
}

/// No part yet.
pub fn none_yet(alloc: Global) -> Notes
    ensures { result ≡ spec.none_yet }
{
    Notes {
        next: 0,
        wrong: Items::new(alloc),
    }
}

/// With one more part. It fails where 2^32 - 1 were read.
pub fn counted(notes: Notes) -> Result<Notes, NoMemory>
    ensures { IfOk result (λ n. n ≡ spec.counted notes) }
{
    match notes.next.checked_add(1) {
        None => Err(AllocError),
        Some(next) => Ok(Notes {
            next,
            wrong: notes.wrong,
        }),
    }
}

/// The part of this number is wrong.
pub fn with_wrong(part: u32, cause: Cause, notes: Notes) -> Result<Notes, NoMemory>
    ensures { IfOk result (λ n. n ≡ spec.with_wrong part cause notes) }
{
    let Notes { next, mut wrong } = notes;
    wrong.push(WrongPart { part, cause })?;
    Ok(Notes { next, wrong })
}

/// A part in which no other stands, at the next number.
pub fn noted(leaf: Leaf, notes: Notes) -> Result<Read, NoMemory>
    ensures { IfOk result (λ r. r ≡ spec.noted leaf notes) }
{
    match leaf {
        Leaf::Known(ty) => Ok(Read {
            ty,
            notes: counted(notes)?,
        }),
        Leaf::Wrong(cause) => {
            let part = notes.next;
            Ok(Read {
                ty: Ty::Untyped,
                notes: counted(with_wrong(part, cause, notes)?)?,
            })
        }
    }
}

/// With the type of one more expression.
pub fn with_read(types: Items<Ty>, read: Read) -> Result<Row, NoMemory>
    ensures { IfOk result (λ r. r ≡ spec.with_read types read) }
{
    let mut types = types;
    let Read { ty, notes } = read;
    types.push(ty)?;
    Ok(Row { types, notes })
}
