//! The order in which a run reads, replies and passes replies on.

use crate::memory::{Drips, options, outcome_of};
use std::alloc::{AllocError, Global};
use std::cell::RefCell;
use std::io::{self, Read, Write};
use std::test::Fail;
use test_fixtures::bytes::joined;
use test_fixtures::tiles::{RENAME, ROADS, T0};
use tileshell::{FromRead, FromWrite, Outcome};

/// What was done on the devices of a run: the bytes read and written as they are, a `$` for a read
/// that found the end, and a `|` for a flush.
#[derive(Drop)]
struct Log {
    text: RefCell<Vec<u8>>,
}

impl Log {
    fn new(alloc: Global) -> Self {
        Log {
            text: RefCell::new(Vec::new(alloc)),
        }
    }

    fn add(&self, bytes: &[u8]) -> Result<(), AllocError> {
        match self.text.try_borrow_mut() {
            Ok(mut text) => text.extend_from_slice(bytes),
            Err(_) => Err(AllocError),
        }
    }
}

/// Gives one byte a call.
#[derive(Drop)]
struct LoggedReader<'a> {
    log: &'a Log,
    rest: &'a [u8],
}

impl Read for LoggedReader<'_> {
    fn read(&mut self, buffer: &mut [u8]) -> io::Result<usize> {
        if self.rest.is_empty() || buffer.is_empty() {
            self.log.add(b"$")?;
            return Ok(0);
        }
        self.log.add(&self.rest[..1])?;
        buffer[0] = self.rest[0];
        self.rest = &self.rest[1..];
        Ok(1)
    }
}

/// Takes all bytes of a call.
#[derive(Drop)]
struct LoggedWriter<'a> {
    log: &'a Log,
}

impl Write for LoggedWriter<'_> {
    fn write(&mut self, bytes: &[u8]) -> io::Result<usize> {
        self.log.add(bytes)?;
        Ok(bytes.len())
    }

    fn flush(&mut self) -> io::Result<()> {
        self.log.add(b"|")?;
        Ok(())
    }
}

/// What a run of the script on `T0` does on the script, the replies and the tile that it writes.
fn logged(alloc: Global, script: &[u8], strict: bool) -> (Outcome, Vec<u8>) {
    let log = Log::new(alloc);
    let outcome = outcome_of(
        alloc,
        &mut FromRead::new(T0.as_slice()),
        &mut FromRead::new(LoggedReader {
            log: &log,
            rest: script,
        }),
        &mut FromWrite::new(LoggedWriter { log: &log }),
        &mut FromWrite::new(LoggedWriter { log: &log }),
        options(strict),
    );
    let Log { text } = log;
    (outcome, text.into_inner())
}

#[test]
fn each_reply_goes_out_before_the_next_read(rt: HostRuntime) -> Result<(), Fail> {
    let steps =
        b"undo\nline 1 refused 50 NothingToUndo\n|#\nfrob\nline 3 refused 12 UnknownCommand\n|\nundo$line 5 refused 50 NothingToUndo\n|";
    let (outcome, log) = logged(rt.alloc(), b"undo\n#\nfrob\n\nundo", false);
    assert_eq!(rt; outcome, Outcome::SomeRefused);
    let want = joined(rt.alloc(), &[steps.as_slice(), &T0, b"|".as_slice()])?;
    assert_eq!(rt; log.as_slice(), want.as_slice());
    Ok(())
}

#[test]
fn an_accepted_line_is_replied_to_before_the_next_read(rt: HostRuntime) -> Result<(), Fail> {
    for strict in [false, true] {
        let script = joined(rt.alloc(), &[RENAME, b"\n# end".as_slice()])?;
        let (outcome, log) = logged(rt.alloc(), &script, strict);
        assert_eq!(rt; outcome, Outcome::Done);
        let want = joined(
            rt.alloc(),
            &[RENAME, b"\nok\n|# end$".as_slice(), &ROADS, b"|".as_slice()],
        )?;
        assert_eq!(rt; log.as_slice(), want.as_slice());
    }
    Ok(())
}

#[test]
fn nothing_is_read_after_a_strict_stop(rt: HostRuntime) {
    for (script, steps) in [
        (
            b"undo\nrename-layer #0 \"b\"".as_slice(),
            b"undo\nline 1 refused 50 NothingToUndo\n|".as_slice(),
        ),
        (
            b"# note\n\n \t\nfrob\nundo\n".as_slice(),
            b"# note\n\n \t\nfrob\nline 4 refused 12 UnknownCommand\n|".as_slice(),
        ),
        (
            b"rename-layer #0 \"b\"\nundo\nundo".as_slice(),
            b"rename-layer #0 \"b\"\nok\n|undo\nok\n|undo$line 3 refused 50 NothingToUndo\n|".as_slice(),
        ),
    ] {
        let (outcome, log) = logged(rt.alloc(), script, true);
        assert_eq!(rt; outcome, Outcome::StrictStop);
        assert_eq!(rt; log.as_slice(), steps);
    }
}

#[test]
fn the_script_is_read_in_small_pieces(rt: HostRuntime) {
    let mut drips = Drips::new(rt.alloc(), &T0, RENAME);
    assert_eq!(rt; drips.run(rt.alloc(), options(false)), Outcome::Done);
    assert_eq!(rt; drips.script.most_asked, 4096);
    assert_eq!(rt; drips.tile.most_asked, 16_384);
}
