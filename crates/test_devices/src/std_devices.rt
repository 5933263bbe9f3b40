//! Readers and writers of std that meet trouble.

use std::alloc::Global;
use std::io::{self, ErrorKind, Read, Write};

/// A reader and writer that takes no byte, or returns an error of one kind.
#[derive(Drop)]
pub struct Deaf {
    pub error: Option<ErrorKind>,
}

impl Deaf {
    fn answer(&self) -> io::Result<()> {
        self.error.map_or(Ok(()), |kind| Err(kind.into()))
    }
}

impl Read for Deaf {
    fn read(&mut self, _buffer: &mut [u8]) -> io::Result<usize> {
        self.answer()?;
        Ok(0)
    }
}

impl Write for Deaf {
    fn write(&mut self, _bytes: &[u8]) -> io::Result<usize> {
        self.answer()?;
        Ok(0)
    }

    fn flush(&mut self) -> io::Result<()> {
        self.answer()
    }
}

/// An error that one call returns, and none before or after it.
#[derive(Drop)]
pub struct Slip {
    calls_before: Option<u64>,
    kind: ErrorKind,
}

impl Slip {
    pub fn new(calls_before: Option<u64>, kind: ErrorKind) -> Self {
        Slip { calls_before, kind }
    }

    fn answer(&mut self) -> io::Result<()> {
        let calls_before = self.calls_before;
        self.calls_before = calls_before.and_then(|calls| calls.checked_sub(1));
        if calls_before == Some(0) {
            return Err(self.kind.into());
        }
        Ok(())
    }
}

/// Gives one byte a call, but for its slip.
#[derive(Drop)]
pub struct SlipReader<'a> {
    rest: &'a [u8],
    slip: Slip,
}

impl<'a> SlipReader<'a> {
    pub fn new(rest: &'a [u8], slip: Slip) -> Self {
        SlipReader { rest, slip }
    }
}

impl Read for SlipReader<'_> {
    fn read(&mut self, buffer: &mut [u8]) -> io::Result<usize> {
        self.slip.answer()?;
        let most = buffer.len().min(1);
        self.rest.read(&mut buffer[..most])
    }
}

/// Takes one byte a call, but for its slip.
#[derive(Drop)]
pub struct SlipWriter {
    pub taken: Vec<u8>,
    slip: Slip,
}

impl SlipWriter {
    pub fn new(alloc: Global, slip: Slip) -> Self {
        SlipWriter {
            taken: Vec::new(alloc),
            slip,
        }
    }
}

impl Write for SlipWriter {
    fn write(&mut self, bytes: &[u8]) -> io::Result<usize> {
        self.slip.answer()?;
        if bytes.is_empty() {
            return Ok(0);
        }
        self.taken.push(bytes[0])?;
        Ok(1)
    }

    fn flush(&mut self) -> io::Result<()> {
        self.slip.answer()
    }
}
