//! The options of the program, and what its words say of them.

ghost use Rattle.std.specs.Prelude.{◌≡◌, ◌≤◌, IfOk, codes, pos};
ghost use Rattle.clap.specs.declared.builder.value_parser.ValueParser.TheVariants.{Signed};
ghost use Rattle.mvt_history_steps.specs.declared.TheConstants.{MAX_DEPTH};
ghost use Rattle.tile_command_line.specs.Depth.{HasDepth, GivesDepth};
ghost use Rattle.tile_command_line.specs.Defaulted.{Awaits, IsDefaulted, IsOrdinary};

use crate::help::SCRIPT_HELP;
use clap::builder::ValueParser;
use clap::{Arg, ArgAction, ArgMatches, Command, value_parser};
use mvt_history_steps::MAX_DEPTH;
use std::alloc::{AllocError, Global};

/// What `--version` prints after the name of the program.
const VERSION: &str = "0.1.0";

/// How the program is called.
const USAGE: &str = "tileshell [OPTIONS] <TILE> <OUT> < SCRIPT
       tileshell [OPTIONS] --script <FILE> <TILE> <OUT>";

/// Reads the words of the program, of which the first is its name. What is refused, and `--help`
/// and `--version`, are errors, which `clap` prints.
pub fn matched<'a>(alloc: Global, words: &'a [&'a str]) -> Result<ArgMatches<'a>, clap::Error>
    ensures { IfOk result HasDepth }
{
    described(alloc)?
        .arg(depth_option(alloc))?
        .try_get_matches_from(words)
}

/// The command line without `--depth`.
fn described<'a>(alloc: Global) -> Result<Command<'a>, AllocError>
    ensures { IfOk result (Awaits (codes "depth")) }
{
    named(alloc)
        .arg(tile_argument(alloc))?
        .arg(out_argument(alloc))?
        .arg(script_option(alloc))?
        .arg(strict_option(alloc))
}

/// A command line with no arguments.
fn named<'a>(alloc: Global) -> Command<'a>
    ensures { Awaits (codes "depth") result }
{
    Command::new(alloc, "tileshell")
        .version(VERSION)
        .about("Edits a vector tile by the lines of a script")
        .override_usage(USAGE)
        .after_long_help(SCRIPT_HELP)
}

/// The argument `TILE`.
fn tile_argument<'a>(alloc: Global) -> Arg<'a>
    ensures { IsOrdinary result (codes "TILE") }
{
    Arg::new(alloc, "TILE")
        .required(true)
        .help("The tile to edit, uncompressed")
}

/// The argument `OUT`.
fn out_argument<'a>(alloc: Global) -> Arg<'a>
    ensures { IsOrdinary result (codes "OUT") }
{
    Arg::new(alloc, "OUT")
        .required(true)
        .help("The file that the edited tile is written to")
}

/// The option `--script`.
fn script_option<'a>(alloc: Global) -> Arg<'a>
    ensures { IsOrdinary result (codes "script") }
{
    Arg::new(alloc, "script")
        .long("script")
        .value_name("FILE")
        .help("Read the script from this file, not from standard input")
}

/// The option `--strict`.
fn strict_option<'a>(alloc: Global) -> Arg<'a>
    ensures { IsOrdinary result (codes "strict") }
{
    Arg::new(alloc, "strict")
        .long("strict")
        .action(ArgAction::SetTrue)
        .help("Stop at the first refused line")
}

/// The option `--depth`.
fn depth_option<'a>(alloc: Global) -> Arg<'a>
    ensures id { result.id.now ≡ codes "depth" }
    ensures number { IsDefaulted result (Signed (pos 1) (pos MAX_DEPTH)) }
{
    Arg::new(alloc, "depth")
        .long("depth")
        .value_name("N")
        .action(ArgAction::Set)
        .value_parser(depths())
        .default_value("100")
        .help("How many steps undo can go back, from 1 to 10000")
}

/// The numbers that `--depth` takes.
fn depths<'a>() -> ValueParser<'a>
    ensures { result ≡ Signed (pos 1) (pos MAX_DEPTH) }
{
    value_parser!(u32).range(1..=i64::from(MAX_DEPTH))
}

/// The depth that the words ask for, or else the default.
pub fn depth_in(matches: &ArgMatches<'_>) -> u32
    requires { HasDepth matches.now }
    ensures given { GivesDepth matches.now result }
    ensures some_depth { 1 ≤ result }
    ensures depth { result ≤ MAX_DEPTH }
{
    matches.get_one::<u32>("depth").unwrap()
}
