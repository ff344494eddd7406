//! The types that variables have at a place of a body.

ghost use Rattle.std.specs.Prelude.{◌≡◌, [], bytes_eq, slice_get, flat_map, IfOk};
ghost use Rattle.indexmap.specs.IndexMap.{IsUnique};
ghost use Rattle.srb_judgement.specs.Environments as spec;
ghost use Rattle.srb_judgement.specs.Reaching.{ended_if};
ghost use Rattle.srb_judgement.specs.Environments.{row};
ghost use Rattle.srb_judgement.specs.Steps.{alone, grown, joining, missing, rows_at};
ghost use Rattle.srb_judgement.specs.Views.{seen_environment, seen_rows};

use crate::built_in::BuiltIn;
use crate::language::Language;
use indexmap::IndexMap;
use srb_terms::{Name, NoMemory, Ty};
use std::alloc::Global;

/// The types of variables, in the order in which they were first assigned.
pub type Rows = IndexMap<Name, Ty>;

/// The types that variables have at a place.
#[derive(Drop)]
pub enum Environment {
    /// The place is reached.
    Live(Rows),
    /// It isn't reached, and what stands there is told so.
    Dead,
    /// It isn't reached, and that was told.
    Silent,
}

impl Environment {
    /// Whether the place is reached.
    pub fn is_live(&self) -> bool
        ensures { result ≡ spec.is_live (seen_environment self.now) }
    {
        match self {
            Environment::Live(_) => true,
            Environment::Dead => false,
            Environment::Silent => false,
        }
    }

    /// A live environment becomes dead.
    pub fn ended(self) -> Environment
        ensures { seen_environment result ≡ spec.ended (seen_environment self) }
    {
        match self {
            Environment::Live(_) => Environment::Dead,
            Environment::Dead => Environment::Dead,
            Environment::Silent => Environment::Silent,
        }
    }

    /// A live environment becomes dead where the test holds.
    pub fn ended_if(self, holds: bool) -> Environment
        ensures { seen_environment result ≡ ended_if holds (seen_environment self) }
    {
        if holds { self.ended() } else { self }
    }

    /// The variable has this type, where the environment is live.
    pub fn assigned(self, name: Name, ty: Ty) -> Result<Environment, NoMemory>
        ensures { IfOk result (λ e. seen_environment e ≡ spec.assigned_in (seen_environment self) name ty) }
    {
        match self {
            Environment::Live(rows) => Ok(Environment::Live(with_type(rows, name, ty)?)),
            Environment::Dead => Ok(Environment::Dead),
            Environment::Silent => Ok(Environment::Silent),
        }
    }

    /// A copy that shares names and types.
    pub fn copied(&self, alloc: Global) -> Result<Environment, NoMemory>
        ensures { IfOk result (λ e. seen_environment e ≡ seen_environment self.now) }
    {
        match self {
            Environment::Live(rows) => Ok(Environment::Live(copied_rows(alloc, rows)?)),
            Environment::Dead => Ok(Environment::Dead),
            Environment::Silent => Ok(Environment::Silent),
        }
    }
}

/// The map with a variable's type given anew.
#[tactic(auto, using(crate::proofs::Rows::with_type_seen))]
pub fn with_type(rows: Rows, name: Name, ty: Ty) -> Result<Rows, NoMemory>
    ensures { IfOk result (λ r. seen_rows r.entries ≡ spec.with_type (seen_rows rows.entries) name ty) }
{
    let mut rows = rows;
    rows.insert(name, ty)?;
    Ok(rows)
}

/// The type of a variable: `NilClass` where it is absent.
#[tactic(auto, using(crate::proofs::Rows::type_in_seen))]
pub fn variable_type<'a, L: Language>(language: &'a L, rows: &'a Rows, name: &Name) -> &'a Ty
    ensures { result.now ≡ spec.variable_type (L.the language.now) (seen_rows rows.now.entries) name.now }
{
    match rows.get(name) {
        None => language.built_in(BuiltIn::NilClass),
        Some(ty) => ty,
    }
}

/// Puts a copy of the row at `index` into a map.
fn put_copy(rows: &Rows, index: usize, all: Rows) -> Result<Rows, NoMemory>
    ensures { IfOk result (λ r. seen_rows r.entries ≡ grown (seen_rows all.entries) (rows_at alone (slice_get rows.now.entries index))) }
{
    match rows.get_index(index) {
        None => Ok(all),
        Some((name, ty)) => with_type(all, name.copied()?, ty.copied()?),
    }
}

/// Puts copies of the rows of a map one after the other into an empty one.
fn regrown(alloc: Global, rows: &Rows) -> Result<Rows, NoMemory>
    ensures rows { IfOk result (λ r. seen_rows r.entries ≡ grown [] (flat_map alone (seen_rows rows.now.entries))) }
    ensures unique { IsUnique bytes_eq rows.now }
{
    let empty = IndexMap::with_capacity(alloc, rows.len())?;
    let mut all = empty;
    'rows: for index in 0..rows.len() {
        all = put_copy(rows, index, all)?;
    }
    Ok(all)
}

/// A copy that shares names and types.
pub fn copied_rows(alloc: Global, rows: &Rows) -> Result<Rows, NoMemory>
    ensures { IfOk result (λ r. seen_rows r.entries ≡ seen_rows rows.now.entries) }
{
    regrown(alloc, rows)
}

/// Puts the row at `index`, joined with what others have of its variable, into a map.
fn put_joined<L: Language>(
    alloc: Global,
    language: &L,
    rows: &Rows,
    index: usize,
    others: &Rows,
    all: Rows,
) -> Result<Rows, NoMemory>
    ensures { IfOk result (λ r. seen_rows r.entries ≡ grown (seen_rows all.entries) (rows_at (joining (L.the language.now) (seen_rows others.now.entries)) (slice_get rows.now.entries index))) }
{
    match rows.get_index(index) {
        None => Ok(all),
        Some((name, ty)) => {
            let joined = language.any(alloc, ty, variable_type(language, others, name))?;
            with_type(all, name.copied()?, joined)
        }
    }
}

/// The rows of a map, each joined with what others have of its variable.
fn joined_all<L: Language>(
    alloc: Global,
    language: &L,
    rows: &Rows,
    others: &Rows,
) -> Result<Rows, NoMemory>
    ensures rows { IfOk result (λ r. seen_rows r.entries ≡ grown [] (flat_map (joining (L.the language.now) (seen_rows others.now.entries)) (seen_rows rows.now.entries))) }
    ensures unique { IsUnique bytes_eq rows.now }
{
    let empty = IndexMap::with_capacity(alloc, rows.len())?;
    let mut all = empty;
    'rows: for index in 0..rows.len() {
        all = put_joined(alloc, language, rows, index, others, all)?;
    }
    Ok(all)
}

/// Puts a row, which others have alone, into a map, if these rows have none of its variable.
#[tactic(auto, using(crate::proofs::Rows::type_in_seen))]
fn put_new<L: Language>(
    alloc: Global,
    language: &L,
    rows: &Rows,
    name: &Name,
    ty: &Ty,
    all: Rows,
) -> Result<Rows, NoMemory>
    ensures { IfOk result (λ r. seen_rows r.entries ≡ grown (seen_rows all.entries) (missing (L.the language.now) (seen_rows rows.now.entries) (row name.now ty.now))) }
{
    match rows.get(name) {
        Some(_) => Ok(all),
        None => {
            let joined = language.any(alloc, language.built_in(BuiltIn::NilClass), ty)?;
            with_type(all, name.copied()?, joined)
        }
    }
}

/// Puts the row of others at `index` into a map, if these rows have none of its variable.
fn put_missing<L: Language>(
    alloc: Global,
    language: &L,
    rows: &Rows,
    others: &Rows,
    index: usize,
    all: Rows,
) -> Result<Rows, NoMemory>
    ensures { IfOk result (λ r. seen_rows r.entries ≡ grown (seen_rows all.entries) (rows_at (missing (L.the language.now) (seen_rows rows.now.entries)) (slice_get others.now.entries index))) }
{
    match others.get_index(index) {
        None => Ok(all),
        Some((name, ty)) => put_new(alloc, language, rows, name, ty, all),
    }
}

/// A map, and the rows of others of whose variables these rows have none.
fn with_missing<L: Language>(
    alloc: Global,
    language: &L,
    rows: &Rows,
    others: &Rows,
    joined: Rows,
) -> Result<Rows, NoMemory>
    ensures rows { IfOk result (λ r. seen_rows r.entries ≡ grown (seen_rows joined.entries) (flat_map (missing (L.the language.now) (seen_rows rows.now.entries)) (seen_rows others.now.entries))) }
    ensures unique { IsUnique bytes_eq others.now }
{
    let mut all = joined;
    'others: for index in 0..others.len() {
        all = put_missing(alloc, language, rows, others, index, all)?;
    }
    Ok(all)
}

/// The join of two maps: each variable has the `T.any` of its types.
pub fn joined_rows<L: Language>(
    alloc: Global,
    language: &L,
    rows: &Rows,
    others: &Rows,
) -> Result<Rows, NoMemory>
    ensures { IfOk result (λ r. seen_rows r.entries ≡ spec.joined_rows (L.the language.now) (seen_rows rows.now.entries) (seen_rows others.now.entries)) }
{
    let all = joined_all(alloc, language, rows, others)?;
    with_missing(alloc, language, rows, others, all)
}

/// The join of two environments: a place that isn't reached adds nothing.
pub fn joined<L: Language>(
    alloc: Global,
    language: &L,
    e: Environment,
    other: Environment,
) -> Result<Environment, NoMemory>
    ensures { IfOk result (λ r. seen_environment r ≡ spec.joined (L.the language.now) (seen_environment e) (seen_environment other)) }
{
    match e {
        Environment::Live(rows) => match other {
            Environment::Live(others) => {
                Ok(Environment::Live(joined_rows(alloc, language, &rows, &others)?))
            }
            Environment::Dead => Ok(Environment::Live(rows)),
            Environment::Silent => Ok(Environment::Live(rows)),
        },
        Environment::Dead => Ok(other),
        Environment::Silent => match other {
            Environment::Live(others) => Ok(Environment::Live(others)),
            Environment::Dead => Ok(Environment::Silent),
            Environment::Silent => Ok(Environment::Silent),
        },
    }
}
