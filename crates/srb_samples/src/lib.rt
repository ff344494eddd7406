//! Projects that tests begin with. No other code calls them.
#![tactic(auto)]

ghost use Rattle.std.specs.Prelude.{◌≡◌, ◌<◌, ◌≤◌, length, IfOk};
ghost use Rattle.lsp_docs.specs.Documents.{MOST_FILES};
ghost use Rattle.lsp_docs.specs.Projects.{total_bytes};
ghost use Rattle.srb_text.specs.Limits.{MOST_BYTES};

use srb_terms::{Name, NoMemory, Project};
use std::alloc::Global;

/// A project of the files `a.rb`, `b.rb` and `c.rb`, each of which has this text.
pub fn three_files(alloc: Global, text: &str) -> Result<Project, NoMemory>
    requires { length text.now ≤ 1000 }
    ensures count { IfOk result (λ p. length p ≤ MOST_FILES) }
    ensures bytes { IfOk result (λ p. total_bytes p ≤ MOST_BYTES) }
{
    let mut files = Project::new(alloc);
    files.put(
        Name::from_str(alloc, "a.rb")?,
        Vec::from_slice(alloc, text.as_bytes())?,
    )?;
    files.put(
        Name::from_str(alloc, "b.rb")?,
        Vec::from_slice(alloc, text.as_bytes())?,
    )?;
    files.put(
        Name::from_str(alloc, "c.rb")?,
        Vec::from_slice(alloc, text.as_bytes())?,
    )?;
    Ok(files)
}
