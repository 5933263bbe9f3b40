//! How often a device was interrupted and failed.

ghost use Rattle.std.specs.Prelude.{◌≡◌, Some};
ghost use Rattle.tile_device.specs.Device.{failures_after, interruptions_after};

use crate::device::Trouble;

/// How often a device was interrupted and failed.
#[derive(Clone, Copy, Debug, Default, PartialEq, Eq)]
pub struct Counts {
    pub interruptions: u64,
    pub failures: u64,
}

impl Counts {
    /// Counts a trouble.
    pub fn count(&mut self, trouble: Trouble)
        ensures interruptions { self.new.interruptions
            ≡ interruptions_after (Some trouble) self.old.interruptions }
        ensures failures { self.new.failures
            ≡ failures_after (Some trouble) self.old.failures }
    {
        match trouble {
            Trouble::Interrupted => self.interruptions = self.interruptions.saturating_add(1),
            Trouble::Failed => self.failures = self.failures.saturating_add(1),
        }
    }
}
