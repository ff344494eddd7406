ghost use Rattle.std.specs.Prelude.{◌≡◌, IfOk};

use crate::{Boxed, Items, Name, NoMemory, ParamKind};

/// The parts of a union or of an intersection. Copies share them.
pub type Tys = Boxed<Items<Ty>>;

/// A type.
#[derive(Debug, Drop)]
pub enum Ty {
    /// `T.untyped`.
    Untyped,
    /// `T.noreturn`.
    Never,
    /// The instances of a class or module, by its full name.
    Class(Name),
    /// `T.class_of` a class or module, by its full name.
    Meta(Name),
    /// `T::Array` of a type.
    Arr(Boxed<Ty>),
    /// `T::Hash` of a type of keys and a type of values.
    Hsh(Boxed<Ty>, Boxed<Ty>),
    /// `T.any` of its parts.
    Any(Tys),
    /// `T.all` of its parts.
    All(Tys),
}

impl Ty {
    /// A copy that shares its parts. It takes no memory.
    pub fn copied(&self) -> Result<Ty, NoMemory>
        ensures { IfOk result (λ t. t ≡ self.now) }
    {
        Ok(match self {
            Ty::Untyped => Ty::Untyped,
            Ty::Never => Ty::Never,
            Ty::Class(name) => Ty::Class(name.copied()?),
            Ty::Meta(name) => Ty::Meta(name.copied()?),
            Ty::Arr(element) => Ty::Arr(element.copied()?),
            Ty::Hsh(key, value) => Ty::Hsh(key.copied()?, value.copied()?),
            Ty::Any(parts) => Ty::Any(parts.copied()?),
            Ty::All(parts) => Ty::All(parts.copied()?),
        })
    }
}

/// A parameter of a method and its type.
#[derive(Debug, Drop)]
pub struct Param {
    pub name: Name,
    pub kind: ParamKind,
    pub ty: Ty,
}

/// A method as the symbol table has it.
#[derive(Debug, Drop)]
pub struct Method {
    /// The class or module that declares it, by its full name.
    pub owner: Name,
    pub name: Name,
    pub params: Items<Param>,
    /// What it answers: `T.untyped` for a `void` method, and where no signature tells.
    pub result: Ty,
    /// Whether a well-formed signature gave the types.
    pub typed: bool,
}
