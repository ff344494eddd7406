ghost use Rattle.std.specs.Prelude.{◌≡◌, ◌-◌, ◌^◌, ◌<◌, IfOk};
ghost use Rattle.srb_cli.specs.Ends.{EndsText, IsTooBig, text_report};

use crate::report::{report, write_report};
use srb_io::{ReadAllEnd, Sink, Source, read_all};
use srb_terms::{Cause, Items, Name, ProjectFile};
use srb_text::BYTES_LIMIT;
use std::alloc::{AllocError, Global};

/// The path under which the command checks what it reads.
const TEXT_PATH: &str = "stdin.rb";

/// The report of the bytes as the file that the command checks.
fn text_report(alloc: Global, bytes: Vec<u8>) -> Result<Vec<u8>, AllocError>
    ensures { IfOk result (λ r. r.items ≡ text_report bytes.items) }
{
    let path = Name::from_str(alloc, TEXT_PATH)?;
    report(alloc, &[ProjectFile::new(path, Items::from_vec(bytes))])
}

/// The cause where the input is larger than the limit.
fn too_big(alloc: Global) -> Cause
    ensures { IsTooBig result }
{
    match Name::from_str(alloc, TEXT_PATH) {
        Ok(path) => Cause::TooBig { path },
        Err(_) => Cause::NoMemory,
    }
}

/// Reads the source to its end, checks it as one file, and writes the report.
pub fn text<S: Source, K: Sink>(alloc: Global, source: &mut S, sink: &mut K) -> Cause
    requires reads { S.faults source.old < 2 ^ 64 - 1 }
    requires writes { K.faults sink.old < 2 ^ 64 - 1 }
    ensures { EndsText result record {
      left_before = S.left source.old;
      left_after = S.left source.new;
      held_before = K.held sink.old;
      held_after = K.held sink.new;
      reads_before = S.faults source.old;
      reads_after = S.faults source.new;
      writes_before = K.faults sink.old;
      writes_after = K.faults sink.new;
    } }
{
    match read_all(alloc, source, BYTES_LIMIT) {
        Ok(bytes) => match text_report(alloc, bytes) {
            Ok(report) => write_report(sink, report.as_slice()),
            Err(_) => Cause::NoMemory,
        },
        Err(ReadAllEnd::TooBig) => too_big(alloc),
        Err(ReadAllEnd::Fault) => Cause::ReadFault,
        Err(ReadAllEnd::NoMemory) => Cause::NoMemory,
    }
}
