ghost use Rattle.std.specs.Prelude.{◌≡◌, ◌-◌, ◌^◌, ◌<◌, ◌≤◌};
ghost use Rattle.srb_cli.specs.Ends.{EndsServing};
ghost use Rattle.srb_cli.specs.Outside.{outside};

use crate::folder::read_folder;
use run_pool::Open;
use run_serve::serve;
use run_watch::Trace;
use srb_io::{Files, Sink, Source};
use srb_terms::Cause;
use std::alloc::Global;
use std::sync::Wait;
use std::thread::Threads;

/// Reads the files below `dir`, and serves a session over them with so many workers.
pub fn lsp<R: Threads + Wait + Sync, F: Files, S: Source + Send, K: Sink + Send, T: Trace + Send>(
    rt: &R,
    alloc: Global,
    dir: &str,
    workers: u8,
    files: &mut F,
    source: &mut S,
    sink: &mut K,
    trace: &mut T,
) -> Cause
    requires workers { workers ≤ 16 }
    requires files { F.faults files.old < 2 ^ 64 - 1 }
    requires reads { S.faults source.old < 2 ^ 64 - 1 }
    requires writes { K.faults sink.old < 2 ^ 64 - 1 }
    ensures { EndsServing dir.now result (outside (F.told files.old) (F.faults files.old) (F.faults files.new) (S.left source.old) (S.left source.new) (S.faults source.old) (S.faults source.new) (K.held sink.old) (K.held sink.new) (K.faults sink.old) (K.faults sink.new) (T.told trace.old) (T.told trace.new)) }
{
    match read_folder(alloc, files, dir) {
        Ok(project) => serve(rt, alloc, project, workers, source, sink, trace, &Open).cause,
        Err(cause) => cause,
    }
}
