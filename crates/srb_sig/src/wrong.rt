use srb_terms::NoMemory;

/// Why a part of a type expression is wrong.
#[derive(Clone, Copy, PartialEq, Eq, Debug)]
pub enum Cause {
    /// A path of constants that stands for nothing.
    Unresolved,
    /// Everything else that is no type.
    Malformed,
}

/// A wrong part of a type expression.
#[derive(Clone, Copy, Debug)]
pub struct WrongPart {
    /// Its number. The parts are numbered from 0, each before those in it.
    pub part: u32,
    /// Why it is wrong.
    pub cause: Cause,
}

/// Why a type expression has no type.
#[derive(Debug, Drop)]
pub enum TyEnd {
    /// The first wrong part is none of the forms of types, names a value constant, or is a `T.all` that is too large.
    Malformed {
        /// The number of the part.
        part: u32,
    },
    /// The first wrong part is a path of constants that stands for nothing.
    Unresolved {
        /// The number of the part.
        part: u32,
    },
    /// Out of memory, or 2^32 parts or more.
    NoMemory,
}

impl From<NoMemory> for TyEnd {
    ghost use Rattle.srb_sig.specs.declared.wrong.TyEnd.TheVariants as end;
    ghost use Rattle.std.specs.Prelude.{◌≡◌};

    ghost from_gives = { λ _ e. e ≡ end.NoMemory };

    fn from(_: NoMemory) -> TyEnd {
        TyEnd::NoMemory
    }
}
