//! The program, from its words to its status.

ghost use Rattle.std.specs.Prelude.{◌≡◌, ◌≤◌};
ghost use Rattle.mvt_history_steps.specs.declared.TheConstants.{MAX_DEPTH};
ghost use Rattle.tile_command_line.specs.Depth.{HasDepth};
ghost use Rattle.tile_files.specs.Status.{status_of};

use crate::created::Created;
use clap::ArgMatches;
use std::alloc::Global;
use std::fs;
use std::io::{self, BufWriter, Read};
use std::rt::Files;
use tile_command_line::{depth_in, matched};
use tile_device::{FromRead, FromWrite, Sink, Source};
use tile_run::{DeviceName, Options, Outcome, run};

/// Runs the program on its words, of which the first is its name, and returns its status.
pub fn shell<R: Files + Input + Print + Eprint + AllocGlobal>(rt: &R, words: &[&str]) -> u8 {
    match matched(rt.alloc(), words) {
        Ok(matches) => edit_files(rt, &matches),
        Err(error) => {
            let _ = error.print(rt);
            if error.use_stderr() { 2 } else { 0 }
        }
    }
}

fn edit_files<R: Files + Input + Print + Eprint + AllocGlobal>(
    rt: &R,
    matches: &ArgMatches<'_>,
) -> u8
    requires { HasDepth matches.now }
{
    let (Some(tile), Some(out)) = (matches.get_str("TILE"), matches.get_str("OUT")) else {
        return 2;
    };
    let options = Options {
        depth: depth_in(matches),
        strict: matches.get_flag("strict"),
    };
    let outcome = edit_file(rt, tile, out, matches.get_str("script"), options);
    report(rt, outcome)
}

/// Opens the tile and then the script, before either is read. Where no script is named, it is
/// standard input. If that is closed, the tile would be opened in its place and read as the script,
/// so this is checked first.
fn edit_file<R: Files + Input + Print + AllocGlobal>(
    rt: &R,
    tile: &str,
    out: &str,
    script: Option<&str>,
    options: Options,
) -> Outcome
    requires some_depth { 1 ≤ options.depth }
    requires depth { options.depth ≤ MAX_DEPTH }
{
    let has_input = is_open(&mut rt.reader());
    let Ok(tile) = fs::open(rt, tile) else {
        return Outcome::Device(DeviceName::Tile);
    };
    match script {
        Some(path) => match fs::open(rt, path) {
            Ok(script) => edit_opened(rt, tile, script, out, options),
            Err(_) => Outcome::Device(DeviceName::Script),
        },
        None if has_input => edit_opened(rt, tile, rt.reader(), out, options),
        None => Outcome::Device(DeviceName::Script),
    }
}

/// A read of nothing succeeds.
fn is_open(reader: &mut impl Read) -> bool {
    reader.read(&mut []).is_ok()
}

fn edit_opened<R: Files + Print + AllocGlobal, S: Read + Drop>(
    rt: &R,
    tile: R::File,
    script: S,
    out: &str,
    options: Options,
) -> Outcome
    requires some_depth { 1 ≤ options.depth }
    requires depth { options.depth ≤ MAX_DEPTH }
{
    let Ok(replies) = BufWriter::new(rt.alloc(), io::writer(rt)) else {
        return Outcome::NoMemory;
    };
    outcome_of(
        rt.alloc(),
        &mut FromRead::new(tile),
        &mut FromRead::new(script),
        &mut FromWrite::new(replies),
        &mut FromWrite::new(Created::new(rt, out)),
        options,
    )
}

/// The outcome of a run. Nothing else is said of it: for the types of files, what the contract of
/// `run` says would take long to prove, and no caller here needs it.
fn outcome_of(
    alloc: Global,
    tile: &mut impl Source,
    script: &mut impl Source,
    replies: &mut impl Sink,
    out: &mut impl Sink,
    options: Options,
) -> Outcome
    requires some_depth { 1 ≤ options.depth }
    requires depth { options.depth ≤ MAX_DEPTH }
{
    run(alloc, tile, script, replies, out, options)
}

/// Returns the status of the outcome, and prints on standard error why no tile was written, unless replies say it.
fn report<R: Eprint>(rt: &R, outcome: Outcome) -> u8
    ensures { result ≡ status_of outcome }
{
    let status = status(outcome);
    if status > 1 {
        let _ = eprintln!(rt; "tileshell: {outcome}");
    }
    status
}

/// The status of the outcome.
fn status(outcome: Outcome) -> u8
    ensures { result ≡ status_of outcome }
{
    match outcome {
        Outcome::Done => 0,
        Outcome::SomeRefused | Outcome::StrictStop => 1,
        Outcome::TileRefused(_) => 3,
        Outcome::Device(_) => 4,
        Outcome::NoMemory => 5,
    }
}
