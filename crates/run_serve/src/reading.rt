//! The reader of a session.

ghost use Rattle.std.specs.Prelude.{◌≡◌, ◌+◌, ◌-◌, ◌^◌, ◌<◌, [], List, ℕ, None, MatchResult, length};
ghost use Rattle.std.specs.declared.option.Option.{Option};
ghost use Rattle.lsp_msg.specs.declared.msg.Msg.{Msg as Message};
ghost use Rattle.run_serve.specs.Hearing.{AreSent, Heard, HeardFront, IsGiven, IsHeard, end_for, ends_messages, is_end};

use lsp_frame::{FrameEnd, Frames, Input};
use lsp_msg::{Msg, decode};
use run_gate::{Gate, Seat};
use run_queues::{Inbox, PutPass};
use run_watch::{EndCause, Inp};
use srb_io::Source;
use srb_terms::NoMemory;
use std::alloc::{AllocError, Global};
use std::sync::Wait;

/// The end of a session's input where its frames end so. `None` exactly because memory ran out.
fn end_for(end: FrameEnd) -> Option<EndCause>
    ensures { result ≡ end_for end }
{
    match end {
        FrameEnd::Broken { at } => Some(EndCause::Broken { at }),
        FrameEnd::TooLong { length } => Some(EndCause::TooLong { length }),
        FrameEnd::Fault => Some(EndCause::Fault),
        FrameEnd::NoMemory => None,
    }
}

/// The next input of a session: the end where `exit` was the last message, else a message or the end of the source.
fn next_input<S: Source>(
    alloc: Global,
    frames: &mut Frames,
    source: &mut S,
    exited: bool,
) -> Result<Inp, NoMemory>
    requires countable { S.faults source.old < 2 ^ 64 - 1 }
    requires going { frames.old.ended ≡ None }
    ensures { (left : Option (List ℕ)) (faults : ℕ) (messages : List Message)
        → Heard left (S.left source.old) faults (S.faults source.old) frames.old exited messages
        → MatchResult result (λ inp. IsHeard left (S.left source.new) faults (S.faults source.new) frames.new messages inp)
        (λ _. HeardFront left (S.left source.new) messages) }
{
    if exited {
        return Ok(Inp::End(EndCause::Exit));
    }
    match frames.next(source) {
        Ok(Input::Body(body)) => match decode(alloc, body.as_slice()) {
            Ok(msg) => Ok(Inp::Msg(msg)),
            Err(e) => Err(e),
        },
        Ok(Input::End) => Ok(Inp::End(EndCause::Closed)),
        Err(end) => match end_for(end) {
            Some(cause) => Ok(Inp::End(cause)),
            None => Err(AllocError),
        },
    }
}

/// The next input of a session, or the end that tells that memory ran out.
fn next_given<S: Source>(alloc: Global, frames: &mut Frames, source: &mut S, exited: bool) -> Inp
    requires countable { S.faults source.old < 2 ^ 64 - 1 }
    requires going { frames.old.ended ≡ None }
    ensures { (left : Option (List ℕ)) (faults : ℕ) (messages : List Message)
        → Heard left (S.left source.old) faults (S.faults source.old) frames.old exited messages
        → IsGiven left (S.left source.new) faults (S.faults source.new) frames.new messages result }
{
    match next_input(alloc, frames, source, exited) {
        Ok(inp) => inp,
        Err(_) => Inp::End(EndCause::NoMemory),
    }
}

/// Whether the input is `exit`, after which no message is read.
fn ends_messages(inp: &Inp) -> bool
    ensures { result ≡ ends_messages inp.now }
{
    match inp {
        Inp::Msg(Msg::Exit) => true,
        _ => false,
    }
}

/// Whether the input is the end.
fn is_end(inp: &Inp) -> bool
    ensures { result ≡ is_end inp.now }
{
    match inp {
        Inp::Msg(_) => false,
        Inp::End(_) => true,
    }
}

/// Reads messages and puts them into the inbox, and then the end: after `exit`, where the source ends or its frames are refused, or where
/// memory runs out. It puts nothing more where the gate was raised or the inbox is refused memory; there it raises the gate itself.
pub fn read<R: Wait, S: Source>(
    rt: &R,
    alloc: Global,
    source: &mut S,
    inbox: &Inbox,
    pass: &mut PutPass,
    gate: &Gate,
    seat: &mut Seat,
)
    requires reads { S.faults source.old < 2 ^ 64 - 1 }
    requires inbox { pass.old.queue ≡ inbox.now.name }
    requires unsent { pass.old.sent ≡ [] }
    requires gate { seat.old.gate ≡ gate.now }
    requires part { 0 < length seat.old.drawn + seat.old.left }
    ensures sent { AreSent (S.left source.old) (S.left source.new) (S.faults source.old) (S.faults source.new) pass.new.sent }
    ensures inbox { pass.new.queue ≡ pass.old.queue }
    ensures gate { seat.new.gate ≡ seat.old.gate }
{
    let mut frames = Frames::new(alloc);
    let mut exited = false;
    'inputs: for _ in rt.forever() {
        if gate.look(seat) {
            return;
        }
        let inp = next_given(alloc, &mut frames, source, exited);
        exited = ends_messages(&inp);
        let last = is_end(&inp);
        match inbox.put(rt, pass, inp) {
            Ok(()) => {}
            Err(_) => {
                gate.raise(seat);
                inbox.wake(rt);
                return;
            }
        }
        if last {
            return;
        }
    }
    unreachable!()
}
