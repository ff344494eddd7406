//! Errors in order, each once.

ghost use Rattle.std.specs.Prelude.{◌≡◌};
ghost use Rattle.srb_check.specs.Arranged as spec;

use srb_terms::Diag;

/// The errors in order by start, end, number and text, each once. It takes no memory.
pub fn arranged(mut errors: Vec<Diag>) -> Vec<Diag>
    ensures { result.items ≡ spec.arranged errors.items }
{
    errors.sort_unstable();
    errors.dedup();
    errors
}
