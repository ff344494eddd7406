ghost use Rattle.std.specs.Prelude.{◌≡◌, ◌<◌, ◌≤◌, ◌++◌, Bool, IfOk, OnOk};
ghost use Rattle.lsp_frame.specs.Written.{frame};
ghost use Rattle.run_core.specs.Inputs.{messages_of, end_of};
ghost use Rattle.run_watch.specs.declared.end_cause.EndCause.TheVariants as end;
ghost use Rattle.srb_gen.specs.Texts.{first_text, last_text};
ghost use Rattle.srb_gen.specs.Messages.{file_uri, opened_body, changed_body};
ghost use Rattle.srb_gen.specs.Generated.{generated_session, generated_messages, SaysEdits};

use crate::messages::{changed_body, exit_body, initialize_body, opened_body, shutdown_body};
use srb_terms::NoMemory;
use std::alloc::Global;

/// The session over the project of `count` files: the bytes that a client would send.
pub fn session(alloc: Global, count: u16) -> Result<Vec<u8>, NoMemory>
    requires some { 1 ≤ count }
    requires few { count ≤ 1000 }
    ensures bytes { IfOk result (λ bytes. bytes.items ≡ generated_session count) }
    ensures messages { IfOk result (λ bytes. messages_of bytes.items ≡ generated_messages count) }
    ensures ended { IfOk result (λ bytes. (failed : Bool) → end_of bytes.items failed ≡ end.Exit) }
{
    let mut bytes = Vec::new(alloc);
    let body = initialize_body(alloc)?;
    add_frame(alloc, &mut bytes, body.as_slice())?;
    'files: for number in 0..count {
        add_edits(alloc, &mut bytes, number)?;
    }
    let body = shutdown_body(alloc)?;
    add_frame(alloc, &mut bytes, body.as_slice())?;
    let body = exit_body(alloc)?;
    add_frame(alloc, &mut bytes, body.as_slice())?;
    Ok(bytes)
}

// Adds the messages about the file of this number.
fn add_edits(alloc: Global, bytes: &mut Vec<u8>, number: u16) -> Result<(), NoMemory>
    requires { number < 1000 }
    ensures bytes { OnOk result (bytes.new.items ≡ bytes.old.items ++ frame (opened_body (file_uri number) (first_text number)) ++ frame (changed_body (file_uri number) (last_text number))) }
    ensures says { OnOk result (SaysEdits number) }
{
    let body = opened_body(alloc, number)?;
    add_frame(alloc, bytes, body.as_slice())?;
    let body = changed_body(alloc, number)?;
    add_frame(alloc, bytes, body.as_slice())
}

// Adds the frame of this body.
fn add_frame(alloc: Global, bytes: &mut Vec<u8>, body: &[u8]) -> Result<(), NoMemory>
    ensures { OnOk result (bytes.new.items ≡ bytes.old.items ++ frame body.now) }
{
    let frame = frame_of(alloc, body)?;
    bytes.extend_from_slice(frame.as_slice())
}

fn frame_of(alloc: Global, body: &[u8]) -> Result<Vec<u8>, NoMemory>
    ensures { IfOk result (λ bytes. bytes.items ≡ frame body.now) }
{
    let length = body.len();
    let head = format!(in alloc; "Content-Length: {length}\r\n\r\n")?;
    let mut bytes = head.into_bytes();
    bytes.extend_from_slice(body)?;
    Ok(bytes)
}
