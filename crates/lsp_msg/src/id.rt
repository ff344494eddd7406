ghost use Rattle.std.specs.Prelude.{◌≡◌, IfOk};

use srb_terms::{NoMemory, Words};

/// What names a request, so that its reply can say whom it answers (JSON-RPC 2.0, section 4).
#[derive(Debug, Drop, PartialEq, Eq)]
pub enum Id {
    /// A whole number.
    Number(i64),
    /// A text.
    Text(Words),
}

impl Id {
    /// A copy of this id.
    pub fn copied(&self) -> Result<Id, NoMemory>
        ensures { IfOk result (λ id. id ≡ self.now) }
    {
        match self {
            Id::Number(number) => Ok(Id::Number(*number)),
            Id::Text(text) => Ok(Id::Text(text.copied()?)),
        }
    }
}
