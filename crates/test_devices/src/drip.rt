//! Devices over bytes in memory that give or take a few bytes a call, and meet trouble at some calls.

ghost use Rattle.std.specs.Prelude.{◌≡◌, true, Some};

use std::alloc::Global;
use tile_device::{Counts, Sink, Source, Trouble};

/// The calls of a device, counted from 0, and those that meet trouble.
#[derive(Drop)]
pub struct Calls {
    pub made: u64,
    first_troubled: u64,
    first_untroubled: u64,
    trouble: Trouble,
    pub counts: Counts,
}

impl Calls {
    /// The calls from `first_troubled` on and before `first_untroubled` meet trouble.
    pub fn new(first_troubled: u64, first_untroubled: u64, trouble: Trouble) -> Self {
        Calls {
            made: 0,
            first_troubled,
            first_untroubled,
            trouble,
            counts: Counts::default(),
        }
    }

    pub fn untroubled() -> Self {
        Calls::new(0, 0, Trouble::Failed)
    }

    /// The call of this number fails, and so does each one after it.
    pub fn failing_at(call: u64) -> Self {
        Calls::new(call, u64::MAX, Trouble::Failed)
    }

    /// The first `count` calls are interrupted.
    pub fn interrupted(count: u64) -> Self {
        Calls::new(0, count, Trouble::Interrupted)
    }

    /// Makes a call, and returns whether it meets trouble.
    fn is_troubled(&mut self) -> bool
        ensures { self.new.counts ≡ self.old.counts }
    {
        let call = self.made;
        self.made = call.saturating_add(1);
        self.first_troubled <= call && call < self.first_untroubled
    }
}

/// Gives one byte a call, and notes how many a call asked for at most.
#[derive(Drop)]
pub struct DripSource<'a> {
    pub rest: &'a [u8],
    pub calls: Calls,
    pub most_asked: usize,
}

impl<'a> DripSource<'a> {
    pub fn new(rest: &'a [u8], calls: Calls) -> Self {
        DripSource {
            rest,
            calls,
            most_asked: 0,
        }
    }
}

impl Source for DripSource<'_> {
    ghost left = { λ d. Some d.rest.now };

    ghost tells = { λ _. true };

    ghost interruptions = { λ d. d.calls.counts.interruptions };

    ghost failures = { λ d. d.calls.counts.failures };

    fn read(&mut self, buffer: &mut [u8]) -> Result<usize, Trouble> {
        self.most_asked = self.most_asked.max(buffer.len());
        if self.calls.is_troubled() {
            let trouble = self.calls.trouble;
            self.calls.counts.count(trouble);
            return Err(trouble);
        }
        if self.rest.is_empty() || buffer.is_empty() {
            return Ok(0);
        }
        buffer[0] = self.rest[0];
        self.rest = &self.rest[1..];
        Ok(1)
    }
}

/// Takes a few bytes a call. A flush is a call too.
#[derive(Drop)]
pub struct DripSink {
    pub taken: Vec<u8>,
    pub calls: Calls,
    most: usize,
}

impl DripSink {
    /// Takes one byte a call.
    pub fn new(alloc: Global, calls: Calls) -> Self {
        DripSink::of_most(alloc, 1, calls)
    }

    /// Takes up to `most` bytes a call, and at least one.
    pub fn of_most(alloc: Global, most: usize, calls: Calls) -> Self {
        DripSink {
            taken: Vec::new(alloc),
            calls,
            most,
        }
    }
}

impl Sink for DripSink {
    ghost written = { λ d. Some d.taken.items };

    ghost tells = { λ _. true };

    ghost interruptions = { λ d. d.calls.counts.interruptions };

    ghost failures = { λ d. d.calls.counts.failures };

    fn write(&mut self, bytes: &[u8]) -> Result<usize, Trouble> {
        let count = bytes.len().min(self.most.max(1));
        let trouble = if self.calls.is_troubled() {
            self.calls.trouble
        } else if self.taken.extend_from_slice(&bytes[..count]).is_ok() {
            return Ok(count);
        } else {
            Trouble::Failed
        };
        self.calls.counts.count(trouble);
        Err(trouble)
    }

    fn flush(&mut self) -> Result<(), Trouble> {
        if self.calls.is_troubled() {
            self.calls.counts.count(Trouble::Failed);
            return Err(Trouble::Failed);
        }
        Ok(())
    }
}
