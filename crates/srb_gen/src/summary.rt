ghost use Rattle.std.specs.Prelude.{◌≡◌, IfOk};
ghost use Rattle.srb_gen.specs.Generated.{summary_of};

use srb_terms::NoMemory;
use std::alloc::Global;

/// The summary of a session: the numbers of files, edits and errors, a line each.
pub fn summary_bytes(
    alloc: Global,
    files: u64,
    edits: u64,
    errors: u64,
) -> Result<Vec<u8>, NoMemory>
    ensures { IfOk result (λ bytes. bytes.items ≡ summary_of files edits errors) }
{
    let text = format!(in alloc; "files {files}\nedits {edits}\nerrors {errors}\n")?;
    Ok(text.into_bytes())
}
