ghost use Rattle.std.specs.Prelude.{◌≡◌, IfOk};

use crate::copies::copied_facts;
use crate::list::Summary;
use srb_terms::{Fact, NoMemory};
use std::alloc::Global;

/// The summary of these facts. The long names in it are shared with them.
pub fn summary(alloc: Global, facts: &[Fact]) -> Result<Summary, NoMemory>
    ensures { IfOk result (λ s. s ≡ facts.now) }
{
    Summary::of(alloc, copied_facts(alloc, facts)?)
}
