//! Readers and writers of the standard library as devices.

ghost use Rattle.std.specs.Prelude.{◌≡◌, ◌↔◌};
ghost use Rattle.std.specs.IoError.{error_kind};
ghost use Rattle.tile_device.specs.Device.{Counted, is_untroubled};

use crate::counts::Counts;
use crate::device::{Sink, Source, Trouble};
use std::io::{self, ErrorKind, Read, Write};
use std::marker::Model;

/// A reader or a writer of std, and its troubles.
#[derive(Debug, Drop)]
pub struct FromStd<D> {
    device: D,
    counts: Counts,
}

/// A reader of std as a source. It tells its bytes, where the reader does, until its first trouble.
pub type FromRead<R> = FromStd<R>;

/// A writer of std as a sink. It tells its bytes, where the writer does, until its first trouble. A
/// write that takes none of at least one byte has failed, and so has every flush that returns an
/// error.
pub type FromWrite<W> = FromStd<W>;

impl<D> Model for FromStd<D> {
    ghost Value = { Counted D };

    ghost view = { λ d. record {
      device = d.device;
      interruptions = d.counts.interruptions;
      failures = d.counts.failures;
    } };
}

impl<D> FromStd<D> {
    pub fn new(device: D) -> Self
        ensures { result ≡ record { device = device; interruptions = 0; failures = 0 } }
    {
        FromStd {
            device,
            counts: Counts::default(),
        }
    }

    pub fn into_inner(self) -> D
        ensures { result ≡ self.device }
    {
        let FromStd { device, .. } = self;
        device
    }

    pub fn interruptions(&self) -> u64
        ensures { result ≡ self.now.interruptions }
    {
        self.counts.interruptions
    }

    pub fn failures(&self) -> u64
        ensures { result ≡ self.now.failures }
    {
        self.counts.failures
    }
}

impl<R: Read> Source for FromStd<R> {
    ghost left = { λ d. R.remaining d.device };

    ghost tells = { is_untroubled };

    ghost interruptions = { λ d. d.interruptions };

    ghost failures = { λ d. d.failures };

    fn read(&mut self, buffer: &mut [u8]) -> Result<usize, Trouble> {
        match self.device.read(buffer) {
            Ok(count) => Ok(count),
            Err(error) => {
                let trouble = trouble_of(&error);
                self.counts.count(trouble);
                Err(trouble)
            }
        }
    }
}

impl<W: Write> Sink for FromStd<W> {
    ghost written = { λ d. W.contents d.device };

    ghost tells = { is_untroubled };

    ghost interruptions = { λ d. d.interruptions };

    ghost failures = { λ d. d.failures };

    fn write(&mut self, bytes: &[u8]) -> Result<usize, Trouble> {
        let trouble = match self.device.write(bytes) {
            Ok(count) if count > 0 || bytes.is_empty() => return Ok(count),
            Ok(_) => Trouble::Failed,
            Err(error) => trouble_of(&error),
        };
        self.counts.count(trouble);
        Err(trouble)
    }

    fn flush(&mut self) -> Result<(), Trouble> {
        match self.device.flush() {
            Ok(()) => Ok(()),
            Err(_) => {
                self.counts.count(Trouble::Failed);
                Err(Trouble::Failed)
            }
        }
    }
}

fn trouble_of(error: &io::Error) -> Trouble
    ensures { (result ≡ Trouble.Interrupted) ↔ (error_kind error.now ≡ ErrorKind.Interrupted) }
{
    if error.kind() == ErrorKind::Interrupted {
        Trouble::Interrupted
    } else {
        Trouble::Failed
    }
}
