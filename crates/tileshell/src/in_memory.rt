//! `edit`: a run over bytes in memory, with the devices that it is made of.

ghost use Rattle.std.specs.Prelude.{◌≡◌, ◌≤◌, [], true, Some};
ghost use Rattle.mvt_history_steps.specs.declared.TheConstants.{MAX_DEPTH};
ghost use Rattle.tileshell.specs.InMemory.{EditsTile, RefusesFile, CutsLongScript, IsRunInMemory, NamesLongScript, GivesTile, handed_out};

use std::alloc::Global;
use tile_device::{Counts, Sink, Source, Trouble};
use tile_run::{DeviceName, Options, Outcome, run_and_free};

/// What an edit of a tile in memory returns.
#[derive(Debug, Drop)]
pub struct Edited {
    /// How the run ended. It is also `NoMemory` where the replies or the tile could not grow here.
    pub outcome: Outcome,
    /// The replies to the lines that ask for something, refused ones too.
    pub replies: Vec<u8>,
    /// The edited tile: exactly where the outcome is `Done` or `SomeRefused`.
    pub tile: Option<Vec<u8>>,
}

/// Edits the tile by the lines of the script, as `run` does, with no devices, and frees what the run
/// held. The tile and the script stay as they are.
///
/// A line for which memory was refused is replied to with 60 or 54, and a run that is not strict
/// goes on after it. With `NoMemory` the last reply may be cut short.
pub fn edit(alloc: Global, tile: &[u8], script: &[u8], options: Options) -> Edited
    requires some_depth { 1 ≤ options.depth }
    requires depth { options.depth ≤ MAX_DEPTH }

    // Where no memory was refused: the script on the document.
    ensures edits { EditsTile options tile.now script.now result }

    // A tile that does not open as a document is refused for what is wrong with it.
    ensures refuses { RefusesFile tile.now result }

    // Of a script that is too long, the lines that end within MAX_SCRIPT bytes.
    ensures cuts_long_script { CutsLongScript options tile.now script.now result }

    // Even where memory was refused: what was read, replied and written.
    ensures course { IsRunInMemory options tile.now script.now result }

    // No device is named, except the script where it is too long.
    ensures names_long_script { NamesLongScript script.now result }
    ensures gives_tile { GivesTile result }
{
    let mut replies = Gathered::new(alloc);
    let mut out = Gathered::new(alloc);
    let outcome = run_and_free(
        alloc,
        &mut Unread { rest: tile },
        &mut Unread { rest: script },
        &mut replies,
        &mut out,
        options,
    );
    hand_out(outcome, replies.bytes, out.bytes)
}

fn hand_out(outcome: Outcome, replies: Vec<u8>, out: Vec<u8>) -> Edited
    ensures { result ≡ handed_out outcome replies out }
{
    match outcome {
        Outcome::Done | Outcome::SomeRefused => Edited {
            outcome,
            replies,
            tile: Some(out),
        },
        Outcome::Device(DeviceName::Replies | DeviceName::Out) => Edited {
            outcome: Outcome::NoMemory,
            replies,
            tile: None,
        },
        _ => Edited {
            outcome,
            replies,
            tile: None,
        },
    }
}

/// Gives bytes in memory. Reading them never fails.
#[derive(Drop)]
struct Unread<'a> {
    rest: &'a [u8],
}

impl Source for Unread<'_> {
    ghost left = { λ unread. Some unread.rest.now };

    ghost tells = { λ _. true };

    ghost interruptions = { λ _. 0 };

    ghost failures = { λ _. 0 };

    fn read(&mut self, buffer: &mut [u8]) -> Result<usize, Trouble> {
        let count = self.rest.len().min(buffer.len());
        buffer[..count].copy_from_slice(&self.rest[..count]);
        self.rest = &self.rest[count..];
        Ok(count)
    }
}

/// Gathers what is written. A growth that is refused is a failure.
#[derive(Drop)]
struct Gathered {
    bytes: Vec<u8>,
    counts: Counts,
}

impl Gathered {
    fn new(alloc: Global) -> Self
        ensures bytes { result.bytes.items ≡ [] }
        ensures failures { result.counts.failures ≡ 0 }
    {
        Gathered {
            bytes: Vec::new(alloc),
            counts: Counts::default(),
        }
    }
}

impl Sink for Gathered {
    ghost written = { λ gathered. Some gathered.bytes.items };

    ghost tells = { λ _. true };

    ghost interruptions = { λ _. 0 };

    ghost failures = { λ gathered. gathered.counts.failures };

    fn write(&mut self, bytes: &[u8]) -> Result<usize, Trouble> {
        if self.bytes.extend_from_slice(bytes).is_err() {
            self.counts.count(Trouble::Failed);
            return Err(Trouble::Failed);
        }
        Ok(bytes.len())
    }

    fn flush(&mut self) -> Result<(), Trouble> {
        Ok(())
    }
}
