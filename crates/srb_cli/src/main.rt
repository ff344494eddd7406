//! The program `srb`: its words, and what each command reads, writes and answers.
#![tactic(auto)]

mod checking;
mod command;
#[cfg(test)]
mod command_tests;
mod commands;
#[cfg(test)]
mod encoding_tests;
mod folder;
#[cfg(test)]
mod folder_tests;
mod generating;
#[cfg(test)]
mod generating_tests;
pub mod laws;
mod one_thread;
#[cfg(test)]
mod paced_tests;
#[cfg(test)]
mod record_tests;
mod report;
mod serving;
#[cfg(test)]
mod session_tests;
#[cfg(test)]
mod tests;
mod text;
#[cfg(test)]
mod workers_tests;

use commands::run;
use run_watch::NoTrace;
use srb_io::{DirFiles, StdSink, StdSource};
use srb_terms::Cause;
use std::alloc::AllocError;
use std::env;
use std::io::ErrorKind;
use std::process::ExitCode;

/// The words after the program's name. Where one isn't UTF-8 there are none, and no command has none.
fn words(rt: &HostRuntime) -> Result<Vec<String>, AllocError> {
    let mut words = Vec::new(rt.alloc());
    match env::args(rt) {
        Ok(args) => {
            for word in args.skip(1) {
                words.push(word)?;
            }
            Ok(words)
        }
        Err(e) if e.kind() == ErrorKind::OutOfMemory => Err(AllocError),
        Err(_) => Ok(words),
    }
}

fn main(rt: HostRuntime) -> ExitCode {
    let mut files = DirFiles::new(&rt);
    let mut source = StdSource::new(rt.stdin());
    let mut sink = StdSink::new(rt.stdout());
    match words(&rt) {
        Ok(words) => {
            let ended = run(
                &rt,
                rt.alloc(),
                words.as_slice(),
                &mut files,
                &mut source,
                &mut sink,
                &mut NoTrace,
            );
            ExitCode::from(ended.status)
        }
        Err(AllocError) => ExitCode::from(Cause::NoMemory.status()),
    }
}
