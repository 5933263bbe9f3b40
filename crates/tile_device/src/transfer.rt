//! A piece read, an input read up to a limit, bytes written and passed on, in calls that give and
//! take a few bytes each. A call that was interrupted is made again, as long as there are retries
//! left.

ghost use Rattle.std.specs.Prelude.{◌≡◌, ℕ, ◌-◌, ◌<◌, ◌≤◌, IfOk, IsTrue, OnErr, length, take};
ghost use Rattle.std.specs.Io.KnownBytes.{Appends};
ghost use Rattle.tile_device.specs.Device.{trouble_of};
ghost use Rattle.tile_device.specs.Seen.{Intake, Reads, Sends, sink_at, source_at};
ghost use Rattle.tile_device.specs.Transfer.{ReadsUpTo, piece_of};

use crate::device::{Sink, Source, Trouble};
use crate::retries::Retries;
use std::alloc::{AllocError, Global};
use thiserror::Error;

/// Why a source was not read to its end.
#[derive(Clone, Copy, Debug, PartialEq, Eq, Error)]
pub enum ReadFault {
    #[error("the device: {0}")]
    Device(Trouble),
    #[error("no memory")]
    NoMemory,
}

impl From<Trouble> for ReadFault {
    ghost use Rattle.tile_device.specs.declared.transfer.ReadFault.TheVariants.{Device};

    ghost from_gives = { λ trouble fault. fault ≡ Device trouble };

    fn from(trouble: Trouble) -> Self {
        ReadFault::Device(trouble)
    }
}

impl From<AllocError> for ReadFault {
    ghost use Rattle.tile_device.specs.declared.transfer.ReadFault.TheVariants.{NoMemory};

    ghost from_gives = { λ _ fault. fault ≡ NoMemory };

    fn from(_: AllocError) -> Self {
        ReadFault::NoMemory
    }
}

/// How many bytes one read asks for at most.
const PIECE: usize = 16384;

/// Reads into the front of the buffer, as `Source::read` does. An interrupted read is made again.
pub fn read_some<S: Source>(
    source: &mut S,
    buffer: &mut [u8],
    retries: &mut Retries,
) -> Result<usize, Trouble>
    ensures within { IfOk result (λ n. n ≤ length buffer.new) }
    ensures reads { Reads (source_at S.Source source.old) (source_at S.Source source.new)
        retries.old retries.new (piece_of result buffer.new (retries.old - retries.new)) }
{
    loop {
        match source.read(buffer) {
            Ok(count) => return Ok(count),
            Err(trouble) => retries.take_for(trouble)?,
        }
    }
}

/// Reads what the source has left, but at most `limit` bytes. An interrupted read is made again. A
/// fault loses what was read.
pub fn read_to_limit<S: Source>(
    alloc: Global,
    source: &mut S,
    limit: usize,
    retries: &mut Retries,
) -> Result<Vec<u8>, ReadFault>
    ensures { (intake : Intake) × ReadsUpTo limit result intake
        × Reads (source_at S.Source source.old) (source_at S.Source source.new) retries.old retries.new intake }
{
    let mut bytes = Vec::new(alloc);
    let mut piece = [0; PIECE];
    let mut room = limit;
    while room > 0 {
        let size = room.min(PIECE);
        bytes.reserve(size)?;
        let count = read_some(source, &mut piece[..size], retries)?;
        if count == 0 {
            return Ok(bytes);
        }
        // The room was made before the read, so that no byte is lost.
        bytes.extend_from_slice(&piece[..count]).unwrap();
        room -= count;
    }
    Ok(bytes)
}

/// Writes all of the bytes, in as many writes as it takes. An interrupted write is made again.
pub fn write_all<S: Sink>(sink: &mut S, bytes: &[u8], retries: &mut Retries) -> Result<(), Trouble>
    ensures sends { Sends (sink_at S.Sink sink.old) (sink_at S.Sink sink.new)
        retries.old retries.new bytes.now (trouble_of result) }

    // Trouble comes before the last byte.
    ensures prefix { IsTrue (S.tells sink.new) → OnErr result ((n : ℕ) × (n < length bytes.now)
        × Appends (S.written sink.old) (S.written sink.new) (take n bytes.now)) }
{
    let mut rest = bytes;
    while !rest.is_empty() {
        match sink.write(rest) {
            Ok(count) => rest = &rest[count..],
            Err(trouble) => retries.take_for(trouble)?,
        }
    }
    Ok(())
}

/// Writes all of the bytes, and passes on what is held back. An interrupted write is made again,
/// and a flush never is.
pub fn write_and_flush<S: Sink>(
    sink: &mut S,
    bytes: &[u8],
    retries: &mut Retries,
) -> Result<(), Trouble>
    ensures { Sends (sink_at S.Sink sink.old) (sink_at S.Sink sink.new)
        retries.old retries.new bytes.now (trouble_of result) }
{
    write_all(sink, bytes, retries)?;
    sink.flush()
}
