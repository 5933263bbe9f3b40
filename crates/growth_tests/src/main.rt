//! Changes that are prepared and carried out, and scripts that are run, while one growth is refused.
//!
//! A line of standard input names a trial. Of a change the answer says to which call of the trial a
//! growth was refused, and of a script what was replied and which tile it wrote.
//! `tools/refused-growths` refuses each growth of each trial in turn.
#![tactic(auto)]

mod fault;
mod refused;
mod script;
mod scripts;
mod trial;

use crate::script::front_named;
use crate::trial::{Trial, trial_named};
use std::io;
use std::io::Read;
use std::process::ExitCode;

/// Standard input has no more bytes than this.
const ROOM: usize = 1024;

/// The status where no trial found a fault.
const NO_FAULT: u8 = 0;

/// The status where a trial found a fault.
const FAULT: u8 = 1;

/// The status where no trial can be run.
const NO_TRIAL: u8 = 2;

fn main(rt: HostRuntime) -> ExitCode {
    match status(&rt) {
        Ok(status) => ExitCode::from(status),
        Err(error) => {
            let _ = eprintln!(rt; "growth_tests: {error}");
            ExitCode::from(NO_TRIAL)
        }
    }
}

/// Runs the trials that standard input asks for, up to the first fault.
fn status<R: Input + Print + Eprint + AllocGlobal>(rt: &R) -> io::Result<u8> {
    let mut room = [0; ROOM];
    let Ok(text) = str::from_utf8(read_all(&mut rt.reader(), &mut room)?) else {
        eprintln!(rt; "growth_tests: standard input is not UTF-8")?;
        return Ok(NO_TRIAL);
    };
    for line in text.lines() {
        let status = line_status(rt, line)?;
        if status != NO_FAULT {
            return Ok(status);
        }
    }
    Ok(NO_FAULT)
}

/// Runs the trial that the line names.
fn line_status<R: Print + Eprint + AllocGlobal>(rt: &R, line: &str) -> io::Result<u8> {
    if let Some(trial) = trial_named(line) {
        return trial_status(rt, trial);
    }
    let Some(front) = front_named(line) else {
        return no_trial(rt, line);
    };
    front.run(rt)?;
    Ok(NO_FAULT)
}

fn no_trial<R: Eprint>(rt: &R, line: &str) -> io::Result<u8> {
    eprintln!(rt; "growth_tests: no trial: {line}")?;
    Ok(NO_TRIAL)
}

/// Runs the trial of a change, and prints to which call a growth was refused.
fn trial_status<R: Print + Eprint + AllocGlobal>(rt: &R, trial: Trial) -> io::Result<u8> {
    match trial.run(rt.alloc()) {
        Ok(refused) => {
            println!(rt; "{trial}: {refused}")?;
            Ok(NO_FAULT)
        }
        Err(fault) => {
            eprintln!(rt; "growth_tests: {trial}: {fault}")?;
            Ok(FAULT)
        }
    }
}

/// The bytes that were read: all that there are, or as many as there is room for.
fn read_all<'a>(input: &mut (impl Read), room: &'a mut [u8]) -> io::Result<&'a [u8]> {
    let mut length = 0;
    while length < room.len() {
        let count = input.read(&mut room[length..])?;
        if count == 0 {
            break;
        }
        length += count;
    }
    Ok(&room[..length])
}
