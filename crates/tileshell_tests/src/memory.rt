//! Runs over devices.

ghost use Rattle.std.specs.Prelude.{◌≤◌};
ghost use Rattle.mvt_history_steps.specs.declared.TheConstants.{MAX_DEPTH};

use std::alloc::Global;
use test_devices::drip::{Calls, DripSink, DripSource};
use tileshell::{DeviceName, Options, Outcome, Sink, Source, run};

/// How a run is to end, its replies, and the tile that it is to write.
#[derive(Clone, Copy, Debug)]
pub struct Wanted<'a> {
    pub outcome: Outcome,
    pub replies: &'a [u8],
    pub tile: &'a [u8],
}

/// What a run did: how it ended, its replies, and the tile that it wrote.
#[derive(Debug, Drop)]
pub struct Ran {
    pub outcome: Outcome,
    pub replies: Vec<u8>,
    pub tile: Vec<u8>,
}

/// A run in which undo goes a hundred steps back, and that is strict or not.
pub fn options(strict: bool) -> Options
    ensures some_depth { 1 ≤ result.depth }
    ensures depth { result.depth ≤ MAX_DEPTH }
{
    Options { depth: 100, strict }
}

/// A run as a call about which nothing is said but what it returns: what the contract of `run` says
/// would cost time at each caller.
pub fn outcome_of(
    alloc: Global,
    tile: &mut impl Source,
    script: &mut impl Source,
    replies: &mut impl Sink,
    out: &mut impl Sink,
    options: Options,
) -> Outcome
    requires some_depth { 1 ≤ options.depth }
    requires depth { options.depth ≤ MAX_DEPTH }
{
    run(alloc, tile, script, replies, out, options)
}

/// The four devices of a run, each of which gives or takes one byte a call.
#[derive(Drop)]
pub struct Drips<'a> {
    pub tile: DripSource<'a>,
    pub script: DripSource<'a>,
    pub replies: DripSink,
    pub out: DripSink,
}

impl<'a> Drips<'a> {
    pub fn new(alloc: Global, tile: &'a [u8], script: &'a [u8]) -> Self {
        Drips {
            tile: DripSource::new(tile, Calls::untroubled()),
            script: DripSource::new(script, Calls::untroubled()),
            replies: DripSink::new(alloc, Calls::untroubled()),
            out: DripSink::new(alloc, Calls::untroubled()),
        }
    }

    pub fn set_calls(&mut self, device: DeviceName, calls: Calls) {
        match device {
            DeviceName::Tile => self.tile.calls = calls,
            DeviceName::Script => self.script.calls = calls,
            DeviceName::Replies => self.replies.calls = calls,
            DeviceName::Out => self.out.calls = calls,
        }
    }

    pub fn run(&mut self, alloc: Global, options: Options) -> Outcome
        requires some_depth { 1 ≤ options.depth }
        requires depth { options.depth ≤ MAX_DEPTH }
    {
        outcome_of(
            alloc,
            &mut self.tile,
            &mut self.script,
            &mut self.replies,
            &mut self.out,
            options,
        )
    }
}
