ghost use Rattle.std.specs.Prelude.{◌≡◌, IfOk};

use crate::EndCause;
use lsp_msg::Msg;
use srb_terms::NoMemory;
use std::alloc::Global;

/// What the session takes in: a message, or that none follows.
#[derive(Debug, Drop)]
pub enum Inp {
    Msg(Msg),
    End(EndCause),
}

impl Inp {
    /// A copy of this input.
    pub fn copied(&self, alloc: Global) -> Result<Inp, NoMemory>
        ensures { IfOk result (λ inp. inp ≡ self.now) }
    {
        match self {
            Inp::Msg(msg) => Ok(Inp::Msg(msg.copied(alloc)?)),
            Inp::End(cause) => Ok(Inp::End(*cause)),
        }
    }
}
