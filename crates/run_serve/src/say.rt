//! Messages and steps as the coordinator tells them.

ghost use Rattle.std.specs.Prelude.{◌≡◌, ◌-◌, ◌^◌, ◌<◌, None};
ghost use Rattle.run_serve.specs.Deeds.{Says, Tells, TellsLanded, given_back, stop_by};

use crate::serve_end::ServeEnd;
use lsp_frame::{WriteEnd, write};
use lsp_msg::{Out, encode};
use run_core::Landed;
use run_queues::Item;
use run_watch::{Step, Trace};
use srb_io::Sink;
use std::alloc::Global;

/// Why the coordinator stops where a write ends so.
fn stop_by(end: WriteEnd) -> ServeEnd
    ensures { result ≡ stop_by end }
{
    match end {
        WriteEnd::Fault => ServeEnd::WriteFault,
        WriteEnd::NoMemory => ServeEnd::NoMemory,
    }
}

/// Writes the message, if there is one.
pub fn say<K: Sink>(alloc: Global, sink: &mut K, out: Option<Out>) -> Result<(), ServeEnd>
    requires { K.faults sink.old < 2 ^ 64 - 1 }
    ensures { Says result out (K.held sink.old) (K.held sink.new) (K.faults sink.old) (K.faults sink.new) }
{
    let Some(out) = out else {
        return Ok(());
    };
    let Ok(body) = encode(alloc, &out) else {
        return Err(ServeEnd::NoMemory);
    };
    match write(alloc, sink, body.as_slice()) {
        Ok(()) => Ok(()),
        Err(end) => Err(stop_by(end)),
    }
}

/// Tells the trace a step that was made, and writes its message, if there is one.
pub fn tell<K: Sink, T: Trace>(
    alloc: Global,
    sink: &mut K,
    trace: &mut T,
    step: &Step,
    out: Option<Out>,
) -> Result<(), ServeEnd>
    requires { K.faults sink.old < 2 ^ 64 - 1 }
    ensures { Tells result step.now out (record { held = K.held sink.old; told = T.told trace.old }) (record { held = K.held sink.new; told = T.told trace.new }) (K.faults sink.old) (K.faults sink.new) }
{
    match trace.step(step) {
        Ok(()) => say(alloc, sink, out),
        Err(_) => Err(ServeEnd::NoMemory),
    }
}

/// Tells the trace the step that was made where errors of a file landed, and writes them where they are to be shown. Where none was made, since
/// the errors have to wait, they are given back.
pub fn tell_landed<K: Sink, T: Trace>(
    alloc: Global,
    sink: &mut K,
    trace: &mut T,
    landed: Landed,
    back: &mut Option<Item>,
) -> Result<(), ServeEnd>
    requires writes { K.faults sink.old < 2 ^ 64 - 1 }
    requires none { back.old ≡ None }
    ensures tells { TellsLanded result landed (record { held = K.held sink.old; told = T.told trace.old }) (record { held = K.held sink.new; told = T.told trace.new }) (K.faults sink.old) (K.faults sink.new) }
    ensures back { back.new ≡ given_back landed }
{
    match landed {
        Landed::Shown(step, out) => tell(alloc, sink, trace, &step, Some(out)),
        Landed::Quiet(step) => tell(alloc, sink, trace, &step, None),
        Landed::Dropped(step) => tell(alloc, sink, trace, &step, None),
        Landed::Later(item) => {
            *back = Some(item);
            Ok(())
        }
    }
}
