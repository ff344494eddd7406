ghost use Rattle.std.specs.Prelude.{◌≡◌, ◌-◌, ◌^◌, ◌<◌, map, string_bytes};
ghost use Rattle.srb_terms.specs.Statuses.{status_of};
ghost use Rattle.srb_cli.specs.Commands.{command_of};
ghost use Rattle.srb_cli.specs.Ends.{Ends};
ghost use Rattle.srb_cli.specs.Outside.{outside};

use crate::command::{Command, command_of, usage};
use crate::generating::generate;
use crate::one_thread::once;
use crate::serving::lsp;
use run_watch::Trace;
use srb_io::{Files, Sink, Source};
use srb_terms::Ended;
use std::alloc::Global;
use std::sync::Wait;
use std::thread::Threads;

/// Does what the words say: reads the source, writes to the sink, tells the trace each step of a session, and answers the
/// status.
pub fn run<R: Threads + Wait + Sync, F: Files, S: Source + Send, K: Sink + Send, T: Trace + Send>(
    rt: &R,
    alloc: Global,
    words: &[String],
    files: &mut F,
    source: &mut S,
    sink: &mut K,
    trace: &mut T,
) -> Ended
    requires files { F.faults files.old < 2 ^ 64 - 1 }
    requires reads { S.faults source.old < 2 ^ 64 - 1 }
    requires writes { K.faults sink.old < 2 ^ 64 - 1 }
    ensures status { result.status ≡ status_of result.cause }
    ensures ends { Ends (command_of (map string_bytes words.now)) result.cause (outside (F.told files.old) (F.faults files.old) (F.faults files.new) (S.left source.old) (S.left source.new) (S.faults source.old) (S.faults source.new) (K.held sink.old) (K.held sink.new) (K.faults sink.old) (K.faults sink.new) (T.told trace.old) (T.told trace.new)) }
{
    match command_of(words) {
        Some(Command::Text | Command::Check(_)) => once(alloc, words, files, source, sink),
        Some(Command::Serve(dir, workers)) => {
            let cause = lsp(rt, alloc, dir, workers, files, source, sink, trace);
            Ended::new(cause)
        }
        Some(Command::Generate(count)) => Ended::new(generate(rt, alloc, count, sink, trace)),
        None => usage(sink),
    }
}
