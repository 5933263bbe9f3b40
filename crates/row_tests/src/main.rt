//! Whole runs and single calls as rows of tables: what is given, and what should result.
//!
//! The words of the program are the files of the tables, which are in `data/`. A line is a word and
//! what follows it. In each table it can be one of these:
//!
//! - `#`: a comment.
//! - `piece NAME = PIECES`: names bytes, also for the tables of the same kind that follow.
//!   `test_fixtures` says what a piece is.
//!
//! A table of whole runs, `NAME.rows`, has tiles and scripts, with how each run ends, its replies
//! and its tile. Each row is run as a call, over readers and writers of the standard library, and
//! one byte a call; where no line is refused, as a strict run too. The name of one that differs is
//! printed. There are blank lines between rows.
//!
//! - `row NAME`: begins a row.
//! - `depth N`, `strict`: how the script is run; without these, with depth 100 and not strict.
//! - `tile PIECES`: the tile that is read.
//! - `> LINE`: a line of the script. `>| TEXT` has no line feed after it, and `>> PIECES` is bytes.
//! - `< LINE`, `<| TEXT`, `<< PIECES`: what is replied.
//! - `ends OUTCOME`: how the run ends, if not with `Done`.
//! - `gives PIECES`: the tile that is written, if it is not the one that was read. If the run ends
//!   other than as `Done` or `SomeRefused`, none is.
//!
//! A table of single calls, `NAME.calls`, has what a call is given, and what it answers. Blank
//! lines are put where they help.
//!
//! - `call MODULE NAME`: the rows from here on are of this call, which has no tile at first.
//! - `tile PIECES`: the tile of the rows from here on.
//! - `> TEXT`, `>> PIECES`: what the call is given.
//! - `< TEXT`, `<< PIECES`: what it answers. With this line the row is tried. One that answers
//!   otherwise is printed.
#![tactic(auto)]

mod calls;
mod counts;
mod runs;

use crate::calls::try_calls;
use crate::counts::Counts;
use crate::runs::try_runs;
use std::process::ExitCode;
use std::rt::{Env, Files};
use std::{env, fs, io};
use test_fixtures::pieces::Pieces;

fn main(rt: HostRuntime) -> ExitCode {
    match run_tables(&rt) {
        Ok(true) => ExitCode::SUCCESS,
        Ok(false) => ExitCode::FAILURE,
        Err(error) => {
            let _ = eprintln!(rt; "row_tests: {error}");
            ExitCode::FAILURE
        }
    }
}

/// Tries the rows of all tables, and prints how many differ. Returns whether none does.
fn run_tables<R: Files + Env + Print + Eprint + AllocGlobal>(rt: &R) -> io::Result<bool> {
    let files: Vec<String> = env::args(rt)?.skip(1).collect(rt.alloc())?;
    // Kept apart, as some names stand for other bytes in tables of the other kind.
    let mut of_runs = Pieces::new(rt.alloc());
    let mut of_calls = Pieces::new(rt.alloc());
    let mut counts = Counts::default();
    for file in &files {
        let text = fs::read_to_string(rt, file.as_str())?;
        match file.rsplit_once('.') {
            Some((_, "rows")) => try_runs(rt, &mut of_runs, text.as_str(), &mut counts)?,
            Some((_, "calls")) => try_calls(rt, &mut of_calls, text.as_str(), &mut counts)?,
            _ => {
                eprintln!(rt; "no table: {file}")?;
                counts.add_fault();
            }
        }
    }
    let Counts { rows, faults } = counts;
    println!(rt; "{rows} rows, {faults} differ")?;
    Ok(faults == 0)
}
