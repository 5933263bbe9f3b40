//! The trials of scripts, whole or up to one of their lines.
//!
//! A script is run on a tile by the public call. The result is printed, with what was run, so that
//! `tools/refused-growths` can check it against what each line may be answered.

ghost use Rattle.std.specs.Prelude.{◌≤◌};

use crate::scripts::{
    ATTRIBUTES, BACK_OVER_STEPS, CANCELLED_KEEPS, CANCELLED_STEP, COMPACTION, FEATURES, FLOOR,
    GEOMETRIES, ID_SET_TWICE, IDS_APART, IDS_CLEARED, IDS_LISTED, KEPT_LAYERS, LAYERS, LISTINGS,
    MARKS, ON_OVER_STEPS, RENAME_AND_UNDO, SIZES, STEP, TWO_MARKS,
};
use std::fmt;
use std::io::{self, Cursor};
use test_fixtures::tiles::{T0, TWO_IDS};
use tileshell::{FromRead, FromWrite, Options, run};

/// Neither the replies of a script nor its tile have more bytes than this.
const ROOM: usize = 4096;

/// A script on a tile.
#[derive(Clone, Copy, Debug, PartialEq, Eq)]
pub enum Script {
    RenameAndUndo,
    Listings,
    IdsListed,
    Sizes,
    KeptLayers,
    Features,
    Attributes,
    Geometries,
    Compaction,
    Marks,
    TwoMarks,
    Step,
    CancelledStep,
    BackOverSteps,
    OnOverSteps,
    CancelledKeeps,
    IdsCleared,
    IdSetTwice,
    Floor,
}

const SCRIPTS: [Script; 19] = [
    Script::RenameAndUndo,
    Script::Listings,
    Script::IdsListed,
    Script::Sizes,
    Script::KeptLayers,
    Script::Features,
    Script::Attributes,
    Script::Geometries,
    Script::Compaction,
    Script::Marks,
    Script::TwoMarks,
    Script::Step,
    Script::CancelledStep,
    Script::BackOverSteps,
    Script::OnOverSteps,
    Script::CancelledKeeps,
    Script::IdsCleared,
    Script::IdSetTwice,
    Script::Floor,
];

fn script_named(name: &str) -> Option<Script> {
    for script in SCRIPTS {
        if script.name() == name {
            return Some(script);
        }
    }
    None
}

impl Script {
    fn name(self) -> &'static str {
        match self {
            Script::RenameAndUndo => "rename-and-undo",
            Script::Listings => "listings",
            Script::IdsListed => "ids-listed",
            Script::Sizes => "sizes",
            Script::KeptLayers => "kept-layers",
            Script::Features => "features",
            Script::Attributes => "attributes",
            Script::Geometries => "geometries",
            Script::Compaction => "compaction",
            Script::Marks => "marks",
            Script::TwoMarks => "two-marks",
            Script::Step => "step",
            Script::CancelledStep => "cancelled-step",
            Script::BackOverSteps => "back-over-steps",
            Script::OnOverSteps => "on-over-steps",
            Script::CancelledKeeps => "cancelled-keeps",
            Script::IdsCleared => "ids-cleared",
            Script::IdSetTwice => "id-set-twice",
            Script::Floor => "floor",
        }
    }

    fn lines(self) -> &'static str {
        match self {
            Script::RenameAndUndo => RENAME_AND_UNDO,
            Script::Listings => LISTINGS,
            Script::IdsListed => IDS_LISTED,
            Script::Sizes => SIZES,
            Script::KeptLayers => KEPT_LAYERS,
            Script::Features => FEATURES,
            Script::Attributes => ATTRIBUTES,
            Script::Geometries => GEOMETRIES,
            Script::Compaction => COMPACTION,
            Script::Marks => MARKS,
            Script::TwoMarks => TWO_MARKS,
            Script::Step => STEP,
            Script::CancelledStep => CANCELLED_STEP,
            Script::BackOverSteps => BACK_OVER_STEPS,
            Script::OnOverSteps => ON_OVER_STEPS,
            Script::CancelledKeeps => CANCELLED_KEEPS,
            Script::IdsCleared => IDS_CLEARED,
            Script::IdSetTwice => ID_SET_TWICE,
            Script::Floor => FLOOR,
        }
    }

    fn tile(self) -> &'static [u8] {
        match self {
            Script::KeptLayers
            | Script::BackOverSteps
            | Script::OnOverSteps
            | Script::CancelledKeeps => LAYERS,
            Script::Features => TWO_IDS,
            Script::IdsCleared => IDS_APART,
            _ => &T0,
        }
    }

    fn depth(self) -> u32
        ensures { (1 ≤ result) × (result ≤ 10000) }
    {
        match self {
            Script::TwoMarks => 2,
            _ => 100,
        }
    }
}

/// A script, or the first lines of one.
#[derive(Clone, Copy, Debug, PartialEq, Eq)]
pub struct Front {
    script: Script,
    /// How many lines are run, if not all.
    count: Option<usize>,
}

/// The script of this name, or its first lines, as many as the number after `@`.
pub fn front_named(name: &str) -> Option<Front> {
    let Some((script, count)) = name.split_once('@') else {
        let script = script_named(name)?;
        return Some(Front {
            script,
            count: None,
        });
    };
    Some(Front {
        script: script_named(script)?,
        count: Some(count.parse().ok()?),
    })
}

impl fmt::Display for Front {
    fn fmt<W: fmt::Write>(&self, f: &mut fmt::Formatter<W>) -> fmt::Result {
        f.write_str(self.script.name())?;
        match self.count {
            Some(count) => write!(f, "@{count}"),
            None => Ok(()),
        }
    }
}

impl Front {
    fn lines(self) -> &'static str {
        let lines = self.script.lines();
        match self.count {
            Some(count) => first_lines(lines, count),
            None => lines,
        }
    }

    /// Runs the lines, and prints what was run and the result. Only the run itself takes memory:
    /// there is room for its replies and its tile.
    pub fn run<R: Print + AllocGlobal>(self, rt: &R) -> io::Result<()> {
        let tile = self.script.tile();
        let lines = self.lines();
        let options = Options {
            depth: self.script.depth(),
            strict: false,
        };
        let mut replies = FromWrite::new(Cursor::new([0; ROOM]));
        let mut out = FromWrite::new(Cursor::new([0; ROOM]));
        let outcome = run(
            rt.alloc(),
            &mut FromRead::new(tile),
            &mut FromRead::new(lines.as_bytes()),
            &mut replies,
            &mut out,
            options,
        );
        println!(rt; "{self}: {outcome:?}")?;
        println!(rt; "depth {}", options.depth)?;
        println!(rt; "tile {}", Hex(tile))?;
        print_lines(rt, "script", lines)?;
        let replies = replies.into_inner();
        print_lines(
            rt,
            "reply",
            str::from_utf8(written(&replies)).unwrap_or("no UTF-8"),
        )?;
        let edited = out.into_inner();
        if edited.position() > 0 {
            println!(rt; "edited {}", Hex(written(&edited)))?;
        }
        Ok(())
    }
}

/// The first `count` lines of the text, or all.
fn first_lines(text: &str, count: usize) -> &str {
    let mut rest = text;
    for _ in 0..count {
        let Some((_, following)) = rest.split_once('\n') else {
            return text;
        };
        rest = following;
    }
    text.strip_suffix(rest).unwrap_or(text)
}

/// The bytes that were written.
fn written(sink: &Cursor<[u8; ROOM]>) -> &[u8] {
    let room = sink.get_ref();
    let count = room.len().min(sink.position() as usize);
    &room[..count]
}

/// Prints each line of the text after the word.
fn print_lines<R: Print>(rt: &R, word: &str, text: &str) -> io::Result<()> {
    for line in text.lines() {
        println!(rt; "{word} {line}")?;
    }
    Ok(())
}

/// Bytes as hexadecimal digits.
#[derive(Drop)]
struct Hex<'a>(&'a [u8]);

impl fmt::Display for Hex<'_> {
    fn fmt<W: fmt::Write>(&self, f: &mut fmt::Formatter<W>) -> fmt::Result {
        for byte in self.0 {
            write!(f, "{byte:02x}")?;
        }
        Ok(())
    }
}
