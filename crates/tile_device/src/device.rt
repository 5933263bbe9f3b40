//! The traits `Source` and `Sink`, and the troubles that a call may meet.

ghost use Rattle.std.specs.Prelude.{◌≡◌, ◌≢◌, ℕ, ◌<◌, ◌≤◌, List, Bool, IfOk, IsTrue, length};
ghost use Rattle.std.specs.declared.option.Option.{Option};
ghost use Rattle.std.specs.Io.KnownBytes.{Keeps, ReadConsumes, WriteAppends};
ghost use Rattle.tile_device.specs.Device.{failures_after, interruptions_after, trouble_of};

use thiserror::Error;

/// Why a device gave or took nothing.
#[derive(Clone, Copy, Debug, PartialEq, Eq, Error)]
pub enum Trouble {
    /// The same call may be made again.
    #[error("interrupted")]
    Interrupted,
    #[error("failed")]
    Failed,
}

/// What bytes are read from.
pub trait Source {
    // The bytes that are left to read, where they are known.
    ghost left: { Self → Option (List ℕ) };

    // Whether it still tells what its calls do to those bytes.
    ghost tells: { Self → Bool };

    // How many of its calls were interrupted, and how many failed. Both stop at 2^64 - 1.
    ghost interruptions: { Self → ℕ };

    ghost failures: { Self → ℕ };

    /// Reads into the front of the buffer. Reading no byte, with room for one, is the end.
    fn read(&mut self, buffer: &mut [u8]) -> Result<usize, Trouble>
        ensures within { IfOk result (λ n. n ≤ length buffer.new) }
        ensures interruptions { interruptions self.new
            ≡ interruptions_after (trouble_of result) (interruptions self.old) }
        ensures failures { failures self.new
            ≡ failures_after (trouble_of result) (failures self.old) }

        // A source that no longer tells never tells again. Where it tells, the bytes lose those
        // read at the front, and after a trouble they are those from before.
        ensures still_tells { IsTrue (tells self.new) → IsTrue (tells self.old) }
        ensures bytes { IsTrue (tells self.new)
            → ReadConsumes (left self.old) (left self.new) result buffer.new };
}

/// What bytes are written to.
pub trait Sink {
    // The bytes that were written, where they are known.
    ghost written: { Self → Option (List ℕ) };

    // Whether it still tells what its calls do to those bytes.
    ghost tells: { Self → Bool };

    // How many of its calls were interrupted, and how many failed. Both stop at 2^64 - 1.
    ghost interruptions: { Self → ℕ };

    ghost failures: { Self → ℕ };

    /// Writes a prefix of the bytes.
    fn write(&mut self, bytes: &[u8]) -> Result<usize, Trouble>
        ensures within { IfOk result (λ n. n ≤ length bytes.now) }
        ensures some { IfOk result (λ n. 0 < length bytes.now → 0 < n) }
        ensures interruptions { interruptions self.new
            ≡ interruptions_after (trouble_of result) (interruptions self.old) }
        ensures failures { failures self.new
            ≡ failures_after (trouble_of result) (failures self.old) }

        // A sink that no longer tells never tells again. Where it tells, the bytes grow by those
        // written, and after a trouble they are those from before.
        ensures still_tells { IsTrue (tells self.new) → IsTrue (tells self.old) }
        ensures bytes { IsTrue (tells self.new)
            → WriteAppends (written self.old) (written self.new) result bytes.now };

    /// Passes on what is held back.
    fn flush(&mut self) -> Result<(), Trouble>
        ensures not_interrupted { result ≢ Err Trouble.Interrupted }
        ensures interruptions { interruptions self.new ≡ interruptions self.old }
        ensures failures { failures self.new
            ≡ failures_after (trouble_of result) (failures self.old) }
        ensures still_tells { IsTrue (tells self.new) → IsTrue (tells self.old) }
        ensures bytes { IsTrue (tells self.new) → Keeps (written self.old) (written self.new) };
}
