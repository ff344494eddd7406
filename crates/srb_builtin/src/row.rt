ghost use Rattle.std.specs.Prelude.{◌≡◌, [], ◌∷◌, ◌++◌, IfOk, OnOk};
ghost use Rattle.srb_builtin.specs.Rows.{facts_of_row};
ghost use Rattle.srb_builtin.specs.Table.{declares, refers};

use crate::methods::add_line;
use srb_terms::{Fact, How, Items, Kind, Name, Names, NoMemory};
use std::alloc::Global;

/// A row of the table.
#[derive(Clone, Copy)]
pub enum Row {
    /// A class without a superclass.
    Top(&'static str),
    /// A class, and its superclass.
    Class(&'static str, &'static str),
    /// A class, and a module that it includes.
    Include(&'static str, &'static str),
    /// A module.
    Module(&'static str),
    /// A class or module, and a line of its methods.
    Methods(&'static str, &'static str),
}

/// Adds the facts of a row.
pub fn add_row(alloc: Global, facts: &mut Items<Fact>, row: Row) -> Result<(), NoMemory>
    ensures { OnOk result (facts.new ≡ facts.old ++ facts_of_row row) }
{
    match row {
        Row::Top(name) => add_scope(alloc, facts, name, Kind::Class),
        Row::Class(name, superclass) => {
            add_scope(alloc, facts, name, Kind::Class)?;
            add_parent(alloc, facts, name, Names::new(), superclass, How::Super)
        }
        Row::Include(class, module) => {
            let scope = one_name(alloc, class)?;
            add_parent(alloc, facts, class, scope, module, How::Include)
        }
        Row::Module(name) => add_scope(alloc, facts, name, Kind::Module),
        Row::Methods(owner, line) => add_line(alloc, facts, owner, line),
    }
}

// Adds that a name is one of a class or module.
fn add_scope(alloc: Global, facts: &mut Items<Fact>, name: &str, kind: Kind) -> Result<(), NoMemory>
    ensures { OnOk result (facts.new ≡ facts.old ++ declares name.now kind ∷ []) }
{
    let name = Name::from_str(alloc, name)?;
    facts.push(Fact::Scope { name, kind })
}

// Adds that a class refers to the class or module of one name.
fn add_parent(
    alloc: Global,
    facts: &mut Items<Fact>,
    of: &str,
    scope: Names,
    to: &str,
    how: How,
) -> Result<(), NoMemory>
    ensures { OnOk result (facts.new ≡ facts.old ++ refers of.now scope to.now how ∷ []) }
{
    let of = Name::from_str(alloc, of)?;
    let to = one_name(alloc, to)?;
    facts.push(Fact::Parent { of, scope, to, how })
}

// The list of this name alone.
fn one_name(alloc: Global, name: &str) -> Result<Names, NoMemory>
    ensures { IfOk result (λ names. names ≡ name.now ∷ []) }
{
    Names::new().pushed(alloc, Name::from_str(alloc, name)?)
}
