//! How a run is asked for and how it ends; how each step of it may stop.

ghost use Rattle.std.specs.Prelude.{◌≡◌};
ghost use Rattle.tile_course.specs.declared.outcome.ScriptStop.TheVariants as script_stops;
ghost use Rattle.tile_course.specs.Outcomes.{fault_of, script_stop_of, edited_outcome, opening_outcome, script_outcome, writing_outcome};

use std::alloc::AllocError;
use std::fmt;
use thiserror::Error;
use tile_device::ReadFault;

/// How a script is carried out.
#[derive(Clone, Copy, Debug, PartialEq, Eq)]
pub struct Options {
    /// How many steps undo goes back at most: from 1 to `MAX_DEPTH`.
    pub depth: u32,
    /// Whether the first refused line stops the run.
    pub strict: bool,
}

/// The devices of a run.
#[derive(Clone, Copy, Debug, PartialEq, Eq, Error)]
pub enum DeviceName {
    #[error("tile")]
    Tile,
    #[error("script")]
    Script,
    #[error("replies")]
    Replies,
    #[error("out")]
    Out,
}

/// Why a tile did not open.
#[derive(Clone, Copy, Debug, PartialEq, Eq, Error)]
pub enum TileFault {
    /// It is not a vector tile. The place is the length in bytes of its longest prefix that is one.
    #[error("1 BadWire place {place}")]
    BadWire { place: usize },
    /// It has more than `MAX_FILE` bytes.
    #[error("2 FileTooLarge")]
    FileTooLarge,
}

/// How a run ended.
#[derive(Clone, Copy, Debug, PartialEq, Eq)]
pub enum Outcome {
    /// Every line was accepted, and the tile was written.
    Done,
    /// At least one line was refused, and the tile was written.
    SomeRefused,
    /// The run is strict, and a line was refused: no line after it was carried out, and no tile was
    /// written.
    StrictStop,
    /// The tile did not open. Nothing was written.
    TileRefused(TileFault),
    /// A device failed, or was interrupted once too often, or the script is too long.
    Device(DeviceName),
    /// Memory was refused before the script was read, or for the tile to write.
    NoMemory,
}

impl Outcome {
    /// How a run ends once the edited tile is written.
    pub fn edited(any_refused: bool) -> Self
        ensures { result ≡ edited_outcome any_refused }
    {
        if any_refused {
            Outcome::SomeRefused
        } else {
            Outcome::Done
        }
    }
}

impl fmt::Display for Outcome {
    fn fmt<W: fmt::Write>(&self, f: &mut fmt::Formatter<W>) -> fmt::Result {
        match self {
            Outcome::Done => write!(f, "every line was accepted"),
            Outcome::SomeRefused => write!(f, "a line was refused"),
            Outcome::StrictStop => write!(f, "the run stopped at a refused line"),
            Outcome::TileRefused(fault) => write!(f, "tile refused: {fault}"),
            Outcome::Device(name) => write!(f, "device fault: {name}"),
            Outcome::NoMemory => write!(f, "no memory"),
        }
    }
}

/// Why the tile was not opened.
#[derive(Clone, Copy)]
pub enum Unopened {
    Device,
    Refused(TileFault),
    NoMemory,
}

impl From<ReadFault> for Unopened {
    ghost from_gives = { λ fault stop. stop ≡ fault_of fault };

    fn from(fault: ReadFault) -> Unopened {
        match fault {
            ReadFault::Device(_) => Unopened::Device,
            ReadFault::NoMemory => Unopened::NoMemory,
        }
    }
}

impl From<Unopened> for Outcome {
    ghost from_gives = { λ stop outcome. outcome ≡ opening_outcome stop };

    fn from(stop: Unopened) -> Outcome {
        match stop {
            Unopened::Device => Outcome::Device(DeviceName::Tile),
            Unopened::Refused(fault) => Outcome::TileRefused(fault),
            Unopened::NoMemory => Outcome::NoMemory,
        }
    }
}

/// How a line ends the run.
#[derive(Clone, Copy)]
pub enum LineStop {
    /// The reply to it met trouble.
    Replies,
    /// It was refused, and the run is strict.
    Strict,
}

/// How the run ends before all lines of the script are carried out.
#[derive(Clone, Copy)]
pub enum ScriptStop {
    /// The script met trouble, or is too long.
    Script,
    Replies,
    Strict,
    NoMemory,
}

impl From<AllocError> for ScriptStop {
    ghost from_gives = { λ _ stop. stop ≡ script_stops.NoMemory };

    fn from(_error: AllocError) -> ScriptStop {
        ScriptStop::NoMemory
    }
}

impl From<LineStop> for ScriptStop {
    ghost from_gives = { λ line stop. stop ≡ script_stop_of line };

    fn from(stop: LineStop) -> ScriptStop {
        match stop {
            LineStop::Replies => ScriptStop::Replies,
            LineStop::Strict => ScriptStop::Strict,
        }
    }
}

impl From<ScriptStop> for Outcome {
    ghost from_gives = { λ stop outcome. outcome ≡ script_outcome stop };

    fn from(stop: ScriptStop) -> Outcome {
        match stop {
            ScriptStop::Script => Outcome::Device(DeviceName::Script),
            ScriptStop::Replies => Outcome::Device(DeviceName::Replies),
            ScriptStop::Strict => Outcome::StrictStop,
            ScriptStop::NoMemory => Outcome::NoMemory,
        }
    }
}

/// Why the edited tile was not written.
#[derive(Clone, Copy)]
pub enum Unwritten {
    Device,
    NoMemory,
}

impl From<Unwritten> for Outcome {
    ghost from_gives = { λ stop outcome. outcome ≡ writing_outcome stop };

    fn from(stop: Unwritten) -> Outcome {
        match stop {
            Unwritten::Device => Outcome::Device(DeviceName::Out),
            Unwritten::NoMemory => Outcome::NoMemory,
        }
    }
}
