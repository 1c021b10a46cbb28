//! DINOMO's key-value store over one shared pool of words, played by a script.
#![tactic(auto)]

mod command;
mod playing;
mod reading;
mod setting;
#[cfg(test)]
mod tests;

use crate::command::run;
use crate::setting::{whole_pool, words_behind_name};
use dn_io::{Status, StdIn, StdOut};
use std::env;
use std::process::ExitCode;

/// Runs over the standard streams and a pool of its own. Words of the command line that are no text are no command.
fn run_here(rt: &HostRuntime) -> Status {
    let words = match env::args(rt) {
        Ok(args) => words_behind_name(rt.alloc(), args),
        Err(_) => Ok(Vec::new(rt.alloc())),
    };
    let (Ok(words), Ok(mut pool)) = (words, whole_pool(rt.alloc())) else {
        return Status::OutOfMemory;
    };
    let mut source = StdIn::new(rt.stdin());
    let mut sink = StdOut::new(rt.stdout());
    run(
        rt.alloc(),
        words.as_slice(),
        &mut source,
        &mut sink,
        &mut pool,
    )
}

fn main(rt: HostRuntime) -> ExitCode {
    ExitCode::from(run_here(&rt).code())
}
