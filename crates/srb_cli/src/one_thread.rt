//! The commands that check once and end: `text` and `tc DIR`.

ghost use Rattle.std.specs.Prelude.{◌≡◌, ◌-◌, ◌^◌, ◌<◌, List, Option, IsTrue, map, string_bytes};
ghost use Rattle.srb_terms.specs.Statuses.{status_of};
ghost use Rattle.run_watch.specs.declared.step.Step.{Step};
ghost use Rattle.srb_cli.specs.Commands.{checks_once, command_of};
ghost use Rattle.srb_cli.specs.Ends.{Ends};
ghost use Rattle.srb_cli.specs.Outside.{outside};

use crate::checking::tc;
use crate::command::{Command, command_of};
use crate::text::text;
use srb_io::{Files, Sink, Source};
use srb_terms::Ended;
use std::alloc::Global;

/// Does what the words of `text` or `tc DIR` say. It waits for nobody and returns.
pub fn once<F: Files, S: Source, K: Sink>(
    alloc: Global,
    words: &[String],
    files: &mut F,
    source: &mut S,
    sink: &mut K,
) -> Ended
    requires words { IsTrue (checks_once (command_of (map string_bytes words.now))) }
    requires files { F.faults files.old < 2 ^ 64 - 1 }
    requires reads { S.faults source.old < 2 ^ 64 - 1 }
    requires writes { K.faults sink.old < 2 ^ 64 - 1 }
    ensures status { result.status ≡ status_of result.cause }
    ensures ends { (steps : Option (List Step)) → Ends (command_of (map string_bytes words.now)) result.cause (outside (F.told files.old) (F.faults files.old) (F.faults files.new) (S.left source.old) (S.left source.new) (S.faults source.old) (S.faults source.new) (K.held sink.old) (K.held sink.new) (K.faults sink.old) (K.faults sink.new) steps steps) }
{
    match command_of(words) {
        Some(Command::Text) => Ended::new(text(alloc, source, sink)),
        Some(Command::Check(dir)) => Ended::new(tc(alloc, dir, files, sink)),
        _ => unreachable!(),
    }
}
