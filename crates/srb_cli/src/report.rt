//! The report of files that are checked, and how it is written.

ghost use Rattle.std.specs.Prelude.{◌≡◌, ◌-◌, ◌^◌, ◌<◌, ◌++◌, List, length, slice_get, Some, IfOk, OnOk};
ghost use Rattle.srb_terms.specs.Projects.{File};
ghost use Rattle.srb_check.specs.Jobs.{IsJobOf};
ghost use Rattle.srb_check.specs.Symbols.{project_facts};
ghost use Rattle.srb_check.specs.Checks.{errors_of};
ghost use Rattle.srb_check.specs.Reports.{file_report, report_of};
ghost use Rattle.srb_cli.specs.Ends.{Reported};

use srb_check::{Job, job_of, push_report};
use srb_io::{Sink, write_all};
use srb_terms::{Cause, ProjectFile, Steps};
use std::alloc::{AllocError, Global};
use std::marker::Brand;
use std::sync::ledger::{Blank, Ledger};

/// Checks the file at an index of a project, and adds the lines of its errors to a report.
fn push_file<L: Ledger>(
    alloc: Global,
    report: &mut Vec<u8>,
    job: &Job,
    index: usize,
    file: &ProjectFile,
    steps: &mut Steps<L>,
) -> Result<(), AllocError>
    ensures { (project : List File) → IsJobOf project job.now → slice_get project index ≡ Some file.now
        → OnOk result (report.new.items ≡ report.old.items ++ file_report file.now.0 file.now.1 (errors_of (project_facts project) file.now.1)) }
{
    let errors = job.check_at(alloc, index, steps)?;
    push_report(
        report,
        file.path().as_str(),
        file.bytes(),
        errors.as_slice(),
    )
}

/// The report of files, by a check whose steps are counted on this blank. The symbol table is built once, and then one file
/// after the other is checked.
fn report_by<L: Ledger>(
    alloc: Global,
    files: &[ProjectFile],
    blank: Blank,
) -> Result<Vec<u8>, AllocError>
    requires name { blank.name ≡ L.name }
    requires parts { blank.parts ≡ L.parts }
    requires some { 0 < blank.parts }
    ensures { IfOk result (λ r. r.items ≡ report_of files.now) }
{
    let mut steps: Steps<L> = Steps::new(blank);
    let job = job_of(alloc, files)?;
    let mut report = Vec::new(alloc);
    'files: for index in 0..files.len() {
        push_file(alloc, &mut report, &job, index, &files[index], &mut steps)?;
    }
    // The program ends soon. Its trees go with it, which is quicker than to drop each.
    std::mem::forget(job);
    Ok(report)
}

/// The report of files, in the order in which they stand.
pub fn report(alloc: Global, files: &[ProjectFile]) -> Result<Vec<u8>, AllocError>
    ensures { IfOk result (λ r. r.items ≡ report_of files.now) }
{
    report_by::<Brand>(alloc, files, Blank::new(1))
}

/// Writes a report. The cause tells whether it is empty, and whether the sink failed.
pub fn write_report<K: Sink>(sink: &mut K, report: &[u8]) -> Cause
    requires { K.faults sink.old < 2 ^ 64 - 1 }
    ensures { Reported result report.now (K.held sink.old) (K.held sink.new) (K.faults sink.old) (K.faults sink.new) }
{
    if report.is_empty() {
        return Cause::Done;
    }
    match write_all(sink, report) {
        Ok(()) => Cause::Errors,
        Err(_) => Cause::WriteFault,
    }
}
