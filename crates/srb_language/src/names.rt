//! What names stand for.

ghost use Rattle.std.specs.Prelude.{◌≡◌, IfOk, option_map};
ghost use Rattle.std.specs.Option.{option_copied, unwrap_or};
ghost use Rattle.srb_judgement.specs.Views.{seen_meaning};
ghost use Rattle.srb_terms.specs.NameSets.{has_name};
ghost use Rattle.srb_language.specs.Asked as spec;
ghost use Rattle.srb_language.specs.Knowledge.{knowledge_at};
ghost use Rattle.srb_terms.specs.declared.ty.Ty.TheVariants as ty;

use srb_constants::resolve;
use srb_judgement::meaning::Meaning;
use srb_rules::Position;
use srb_terms::{Kind, Name, Names, NoMemory, Ty, World};

/// The type of a value constant; `T.untyped` where none is known.
fn value_type(found: Option<&Ty>) -> Result<Ty, NoMemory>
    ensures { IfOk result (λ t. t ≡ unwrap_or (option_copied found.entry) ty.Untyped) }
{
    match found {
        None => Ok(Ty::Untyped),
        Some(ty) => ty.copied(),
    }
}

/// What a name stands for, by its kind.
fn meant_by(w: &World, name: &Name, kind: Option<Kind>) -> Result<Meaning, NoMemory>
    ensures { IfOk result (λ m. seen_meaning m ≡ spec.meant_by (knowledge_at w.now) name.now kind) }
{
    Ok(match kind {
        Some(Kind::Class) => Meaning::Class(name.copied()?),
        Some(Kind::Module) => Meaning::Module(name.copied()?),
        Some(Kind::Value) => Meaning::Value(value_type(w.value(name))?),
        None => Meaning::Unresolved,
    })
}

/// What a path stands for in the bodies with these full names, the innermost first.
pub fn meaning(w: &World, scope: &Names, path: &Names) -> Result<Meaning, NoMemory>
    ensures { IfOk result (λ m. seen_meaning m ≡ spec.meaning_of (knowledge_at w.now) scope.now path.now) }
{
    match resolve(w, scope, path, Position::Value) {
        None => Ok(Meaning::Unresolved),
        Some(name) => meant_by(w, name, w.kind(name)),
    }
}

/// Whether a name with this text stands in a list.
fn holds(names: &Names, text: &str) -> bool
    ensures { result ≡ has_name text.now names.now }
{
    let mut at = names;
    'at: while let Some((first, rest)) = at.split() {
        if first.as_str() == text {
            return true;
        }
        at = rest;
    }
    false
}

/// Whether `Exception` stands in the linearization of a class.
pub fn is_exception(w: &World, name: &Name) -> bool
    ensures { result ≡ spec.is_exception (knowledge_at w.now) name.now }
{
    match w.lin(name) {
        None => false,
        Some(names) => holds(names, "Exception"),
    }
}

/// The type of an instance variable that the first of some classes and modules declares.
fn first_ivar(w: &World, meta: bool, name: &Name, names: &Names) -> Result<Option<Ty>, NoMemory>
    ensures { IfOk result (λ t. t ≡ spec.first_ivar (knowledge_at w.now) meta name.now names.now) }
{
    let mut at = names;
    'at: while let Some((owner, rest)) = at.split() {
        match w.ivar(owner, meta, name) {
            Some(ty) => return Ok(Some(ty.copied()?)),
            None => {}
        }
        at = rest;
    }
    Ok(None)
}

/// The declared type of an instance variable of a class or module, or of its class object, where `meta` is true.
pub fn instance_variable(
    w: &World,
    owner: &Name,
    meta: bool,
    name: &Name,
) -> Result<Option<Ty>, NoMemory>
    ensures { IfOk result (λ t. t ≡ spec.instance_variable_of (knowledge_at w.now) owner.now meta name.now) }
{
    match w.lin(owner) {
        None => Ok(None),
        Some(names) => first_ivar(w, meta, name, names),
    }
}
