use srb_terms::{Name, NoMemory};

/// Why there are no linearizations.
#[derive(Debug, Drop)]
pub enum LinEnd {
    /// A class or module reaches itself. It is the first one in the order of the links' beginnings.
    Circular {
        /// The full name of the class or module.
        class: Name,
    },
    /// Out of memory.
    NoMemory,
}

impl From<NoMemory> for LinEnd {
    ghost use Rattle.srb_ancestors.specs.declared.lin_end.LinEnd.TheVariants as end;
    ghost use Rattle.std.specs.Prelude.{◌≡◌};

    ghost from_gives = { λ _ e. e ≡ end.NoMemory };

    fn from(_: NoMemory) -> LinEnd {
        LinEnd::NoMemory
    }
}
