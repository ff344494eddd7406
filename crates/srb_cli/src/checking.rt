//! The command `tc DIR`: the report of all files of a folder.

ghost use Rattle.std.specs.Prelude.{◌≡◌, ◌-◌, ◌^◌, ◌<◌, ℕ, List, Option};
ghost use Rattle.srb_cli.specs.Ends.{Checks, EndsChecking};

use crate::folder::read_folder;
use crate::report::{report, write_report};
use srb_io::{Files, Sink};
use srb_terms::{Cause, Project};
use std::alloc::Global;

/// Checks the files of a project, and writes the report.
fn check<K: Sink>(alloc: Global, project: &Project, sink: &mut K) -> Cause
    requires { K.faults sink.old < 2 ^ 64 - 1 }
    ensures { (left : Option (List ℕ)) (reads : ℕ) → Checks project.now result record {
      left_before = left;
      left_after = left;
      held_before = K.held sink.old;
      held_after = K.held sink.new;
      reads_before = reads;
      reads_after = reads;
      writes_before = K.faults sink.old;
      writes_after = K.faults sink.new;
    } }
{
    match report(alloc, project.files()) {
        Ok(report) => write_report(sink, report.as_slice()),
        Err(_) => Cause::NoMemory,
    }
}

/// Reads the files below `dir`, checks them, and writes the report. Whatever a source has left stays there.
pub fn tc<F: Files, K: Sink>(alloc: Global, dir: &str, files: &mut F, sink: &mut K) -> Cause
    requires files { F.faults files.old < 2 ^ 64 - 1 }
    requires writes { K.faults sink.old < 2 ^ 64 - 1 }
    ensures { (left : Option (List ℕ)) (reads : ℕ) → EndsChecking dir.now result record {
      left_before = left;
      left_after = left;
      held_before = K.held sink.old;
      held_after = K.held sink.new;
      reads_before = reads;
      reads_after = reads;
      writes_before = K.faults sink.old;
      writes_after = K.faults sink.new;
    } record {
      told = F.told files.old;
      failed_before = F.faults files.old;
      failed_after = F.faults files.new;
    } }
{
    match read_folder(alloc, files, dir) {
        Ok(project) => check(alloc, &project, sink),
        Err(cause) => cause,
    }
}
