ghost use Rattle.std.specs.Prelude.{◌≡◌, bytes_eq};
ghost use Rattle.std.specs.Option.{option_copied};
ghost use Rattle.srb_rules.specs.FullNames.{ARRAY, HASH};
ghost use Rattle.srb_rules.specs.Parents as parents;
ghost use Rattle.srb_table.specs.Steps.{inherited_at, mixed_at};

use srb_constants::{Position, resolve};
use srb_terms::{Kind, Name, Names, Path, World};

/// The class that a superclass stands for, where it may be inherited.
pub fn inherited<'w>(w: &'w World, scope: &Names, path: &Path) -> Option<&'w Name>
    ensures { option_copied result ≡ inherited_at w.now scope.now path.now }
{
    match resolve(w, scope, path, Position::Parent) {
        None => None,
        Some(found) => {
            if is_inheritable(w.kind(found), found) {
                Some(found)
            } else {
                None
            }
        }
    }
}

/// The module that a mixin stands for.
pub fn mixed<'w>(w: &'w World, scope: &Names, path: &Path) -> Option<&'w Name>
    ensures { option_copied result ≡ mixed_at w.now scope.now path.now }
{
    match resolve(w, scope, path, Position::Parent) {
        None => None,
        Some(found) => match w.kind(found) {
            Some(Kind::Module) => Some(found),
            Some(Kind::Class) => None,
            Some(Kind::Value) => None,
            None => None,
        },
    }
}

/// Whether a class may inherit what is of this kind and has this name.
pub fn is_inheritable(kind: Option<Kind>, name: &Name) -> bool
    ensures { result ≡ parents.is_inheritable kind name.now }
{
    match kind {
        Some(Kind::Class) => name.as_str() != "Array" && name.as_str() != "Hash",
        Some(Kind::Module) => false,
        Some(Kind::Value) => false,
        None => false,
    }
}
