//! What the judgement passes on: the environment, the jump environments, the assignments and the errors so far.

ghost use Rattle.std.specs.Prelude.{◌≡◌, [], OnOk, map};
ghost use Rattle.srb_judgement.specs.Bodies as bodies;
ghost use Rattle.srb_judgement.specs.Environments.{Silent};
ghost use Rattle.srb_judgement.specs.States as spec;
ghost use Rattle.srb_judgement.specs.Views.{seen_environment, seen_row, seen_state};

use crate::environments::{Environment, Rows};
use indexmap::IndexMap;
use srb_terms::{Diag, Items, Name, NoMemory, Ty};
use std::alloc::Global;

/// A variable and a type that a live assignment gave it.
#[derive(Drop)]
pub struct Row {
    pub name: Name,
    pub ty: Ty,
}

/// What a `break` or `next` carries: its type, and the types of variables where it stands.
#[derive(Drop)]
pub struct Left {
    pub ty: Ty,
    pub rows: Rows,
}

/// The jump environments of the innermost loop or block around.
#[derive(Drop)]
pub struct Jumps {
    pub breaks: Items<Left>,
    pub nexts: Items<Left>,
}

/// What the judgement passes on.
#[derive(Drop)]
pub struct State {
    pub environment: Environment,
    pub jumps: Jumps,
    /// The types that live assignments gave to variables so far.
    pub assigned: Items<Row>,
    pub errors: Items<Diag>,
}

/// No jump yet.
pub fn no_jumps(alloc: Global) -> Jumps
    ensures { (result.breaks ≡ []) × (result.nexts ≡ []) }
{
    Jumps {
        breaks: Items::new(alloc),
        nexts: Items::new(alloc),
    }
}

/// The state in which a body begins.
pub fn fresh(alloc: Global) -> State
    ensures { seen_state result ≡ bodies.fresh }
{
    State {
        environment: Environment::Live(IndexMap::new(alloc)),
        jumps: no_jumps(alloc),
        assigned: Items::new(alloc),
        errors: Items::new(alloc),
    }
}

/// A live assignment is noted.
fn note(
    assigned: &mut Items<Row>,
    environment: &Environment,
    name: &Name,
    ty: &Ty,
) -> Result<(), NoMemory>
    ensures { OnOk result (map seen_row assigned.new ≡ spec.noted (seen_environment environment.now) name.now ty.now (map seen_row assigned.old)) }
{
    match environment {
        Environment::Live(_) => assigned.push(Row {
            name: name.copied()?,
            ty: ty.copied()?,
        }),
        Environment::Dead => Ok(()),
        Environment::Silent => Ok(()),
    }
}

impl State {
    /// Takes the environment out, and leaves the silent one.
    pub fn take_environment(&mut self) -> Environment
        ensures taken { seen_environment result ≡ (seen_state self.old).environment }
        ensures left { seen_state self.new ≡ spec.moved Silent (seen_state self.old) }
        ensures jumps { self.new.jumps ≡ self.old.jumps }
    {
        std::mem::replace(&mut self.environment, Environment::Silent)
    }

    /// A live environment becomes dead.
    pub fn stop(&mut self)
        ensures { seen_state self.new ≡ spec.stopped (seen_state self.old) }
    {
        let environment = self.take_environment();
        self.environment = environment.ended();
    }

    /// The variable gets this type, which is noted.
    pub fn give(&mut self, name: &Name, ty: Ty) -> Result<(), NoMemory>
        ensures { OnOk result (seen_state self.new ≡ spec.given name.now ty (seen_state self.old)) }
    {
        note(&mut self.assigned, &self.environment, name, &ty)?;
        self.set_type(name, ty)
    }

    /// The variable has this type, which isn't noted.
    pub fn set_type(&mut self, name: &Name, ty: Ty) -> Result<(), NoMemory>
        ensures { OnOk result (seen_state self.new ≡ bodies.has_type name.now ty (seen_state self.old)) }
    {
        let environment = self.take_environment();
        self.environment = environment.assigned(name.copied()?, ty)?;
        Ok(())
    }

    /// One more error.
    pub fn error(&mut self, error: Diag) -> Result<(), NoMemory>
        ensures { OnOk result (seen_state self.new ≡ spec.with_error error (seen_state self.old)) }
    {
        self.errors.push(error)
    }

    /// More errors.
    pub fn more_errors(&mut self, errors: Items<Diag>) -> Result<(), NoMemory>
        ensures { OnOk result (seen_state self.new ≡ spec.with_errors errors (seen_state self.old)) }
    {
        self.errors.append(errors)
    }
}
