//! The program: `main` hands its words to `tile_files::shell`, with whose status it ends.
#![tactic(auto)]

use std::process::ExitCode;
use std::rt::{Env, Files};
use std::{env, io};
use tile_files::shell;

/// The status of a command line that is refused.
const REFUSED: u8 = 2;

fn main(rt: HostRuntime) -> ExitCode {
    match status(&rt) {
        Ok(status) => ExitCode::from(status),
        Err(error) => {
            let _ = eprintln!(rt; "tileshell: the command line cannot be read: {error}");
            ExitCode::from(REFUSED)
        }
    }
}

/// The status of the program, or why its words could not be read.
fn status<R: Files + Env + Input + Print + Eprint + AllocGlobal>(rt: &R) -> io::Result<u8> {
    let arguments: Vec<String> = env::args(rt)?.collect(rt.alloc())?;
    let mut words = Vec::with_capacity(rt.alloc(), arguments.len())?;
    for argument in &arguments {
        words.push(argument.as_str())?;
    }
    Ok(shell(rt, words.as_slice()))
}
