//! How many interrupted calls may still be made again.

ghost use Rattle.std.specs.Prelude.{◌≡◌, ◌+◌, ◌<◌, ◌↔◌, IfErr, IsOk, OnErr, OnOk};

use crate::device::Trouble;
use std::marker::Model;

/// How many interrupted calls may still be made again.
#[derive(Debug, Drop)]
pub struct Retries {
    left: u32,
}

impl Model for Retries {
    ghost use Rattle.std.specs.Prelude.{ℕ};

    ghost Value = { ℕ };

    ghost view = { λ r. r.left };
}

impl Retries {
    pub fn new(left: u32) -> Self
        ensures { result ≡ left }
    {
        Retries { left }
    }

    pub fn left(&self) -> u32
        ensures { result ≡ self.now }
    {
        self.left
    }

    /// Takes one retry for an interrupted call. A trouble that it takes none for ends the calls.
    pub(crate) fn take_for(&mut self, trouble: Trouble) -> Result<(), Trouble>
        ensures taken { IsOk result ↔ ((trouble ≡ Trouble.Interrupted) × (0 < self.old)) }
        ensures ok { OnOk result (self.old ≡ self.new + 1) }
        ensures err { IfErr result (λ same. same ≡ trouble) }
        ensures kept { OnErr result (self.new ≡ self.old) }
    {
        match trouble {
            Trouble::Interrupted if self.left > 0 => {
                self.left -= 1;
                Ok(())
            }
            _ => Err(trouble),
        }
    }
}
