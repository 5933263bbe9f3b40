//! A script run on a tile: as a call, over readers and writers of std, and one byte a call.

ghost use Rattle.std.specs.Prelude.{◌≤◌};

use std::alloc::Global;
use std::io::{self, Read, Write};
use tileshell::{FromRead, FromWrite, Options, Outcome, edit, run};

/// What a run did: how it ended, its replies, and its tile.
#[derive(Drop)]
pub struct Ran {
    pub outcome: Outcome,
    pub replies: Vec<u8>,
    pub tile: Option<Vec<u8>>,
}

pub fn called(alloc: Global, tile: &[u8], script: &[u8], options: Options) -> Ran
    requires some_depth { 1 ≤ options.depth }
    requires depth { options.depth ≤ 10000 }
{
    let edited = edit(alloc, tile, script, options);
    Ran {
        outcome: edited.outcome,
        replies: edited.replies,
        tile: edited.tile,
    }
}

pub fn streamed(alloc: Global, tile: &[u8], script: &[u8], options: Options) -> Ran
    requires some_depth { 1 ≤ options.depth }
    requires depth { options.depth ≤ 10000 }
{
    let mut replies = FromWrite::new(Taker::new(alloc, usize::MAX));
    let mut out = FromWrite::new(Taker::new(alloc, usize::MAX));
    let outcome = run(
        alloc,
        &mut FromRead::new(tile),
        &mut FromRead::new(script),
        &mut replies,
        &mut out,
        options,
    );
    gathered(outcome, replies.into_inner(), out.into_inner())
}

pub fn dripped(alloc: Global, tile: &[u8], script: &[u8], options: Options) -> Ran
    requires some_depth { 1 ≤ options.depth }
    requires depth { options.depth ≤ 10000 }
{
    let mut replies = FromWrite::new(Taker::new(alloc, 1));
    let mut out = FromWrite::new(Taker::new(alloc, 1));
    let outcome = run(
        alloc,
        &mut FromRead::new(Drip { rest: tile }),
        &mut FromRead::new(Drip { rest: script }),
        &mut replies,
        &mut out,
        options,
    );
    gathered(outcome, replies.into_inner(), out.into_inner())
}

/// The result of a run. If `out` was never called, no tile was written.
fn gathered(outcome: Outcome, replies: Taker, out: Taker) -> Ran {
    Ran {
        outcome,
        replies: replies.taken,
        tile: if out.is_asked { Some(out.taken) } else { None },
    }
}

/// Gives one byte a call.
#[derive(Drop)]
struct Drip<'a> {
    rest: &'a [u8],
}

impl Read for Drip<'_> {
    fn read(&mut self, buffer: &mut [u8]) -> io::Result<usize> {
        let most = buffer.len().min(1);
        self.rest.read(&mut buffer[..most])
    }
}

/// Takes at most `most` bytes a call, and knows whether it was called.
#[derive(Drop)]
struct Taker {
    taken: Vec<u8>,
    most: usize,
    is_asked: bool,
}

impl Taker {
    fn new(alloc: Global, most: usize) -> Self {
        Taker {
            taken: Vec::new(alloc),
            most,
            is_asked: false,
        }
    }
}

impl Write for Taker {
    fn write(&mut self, bytes: &[u8]) -> io::Result<usize> {
        self.is_asked = true;
        let count = bytes.len().min(self.most);
        self.taken.extend_from_slice(&bytes[..count])?;
        Ok(count)
    }

    fn flush(&mut self) -> io::Result<()> {
        self.is_asked = true;
        Ok(())
    }
}
