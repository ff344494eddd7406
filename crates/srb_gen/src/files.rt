ghost use Rattle.std.specs.Prelude.{◌≡◌, ◌<◌, ◌≤◌, length, IfOk, OnOk};
ghost use Rattle.srb_terms.specs.Projects.{IsProject, put_file};
ghost use Rattle.lsp_docs.specs.Documents.{MOST_FILES};
ghost use Rattle.lsp_docs.specs.Projects.{total_bytes};
ghost use Rattle.srb_text.specs.Limits.{MOST_BYTES};
ghost use Rattle.srb_gen.specs.Texts.{file_path, first_text};
ghost use Rattle.srb_gen.specs.Generated.{generated_project};

use crate::texts::{file_path, first_text};
use srb_terms::{Name, NoMemory, Project};
use std::alloc::Global;

/// The project of `count` files.
pub fn project(alloc: Global, count: u16) -> Result<Project, NoMemory>
    requires some { 1 ≤ count }
    requires few { count ≤ 1000 }
    ensures project { IfOk result (λ p. p ≡ generated_project count) }
    ensures ordered { IfOk result (λ p. IsProject p) }
    ensures files { IfOk result (λ p. length p ≤ MOST_FILES) }
    ensures bytes { IfOk result (λ p. total_bytes p ≤ MOST_BYTES) }
{
    let mut project = Project::new(alloc);
    'files: for number in 0..count {
        add_file(alloc, &mut project, number)?;
    }
    Ok(project)
}

// Puts the file of this number into the project.
fn add_file(alloc: Global, project: &mut Project, number: u16) -> Result<(), NoMemory>
    requires { number < 1000 }
    ensures { OnOk result (project.new ≡ put_file (file_path number) (first_text number) project.old) }
{
    let path = Name::from_string(file_path(alloc, number)?)?;
    let text = first_text(alloc, number)?;
    project.put(path, text.into_bytes())
}
