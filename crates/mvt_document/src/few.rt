//! A few bytes, in the value that holds them.

ghost use Rattle.std.specs.Prelude.{◌≡◌, ◌<◌, length, MatchOption};

use std::marker::Model;

/// How many bytes are few: as many as fit into a field of four words beside its form, its tag and its width.
const MOST: usize = 23;

/// At most 23 bytes, with no memory of their own. Contracts see the list of them.
#[derive(Drop)]
pub(crate) struct Few {
    count: u8,
    room: [u8; MOST],
}

impl Model for Few {
    ghost use Rattle.std.specs.Prelude.{ℕ, List, take, ◌≤◌};

    ghost Value = { List ℕ };

    ghost view = { λ f. take f.count f.room };

    ghost invariant = { λ f. f.count ≤ 23 };
}

impl Few {
    /// These bytes, if they are few.
    #[inline(always)]
    pub(crate) fn new(bytes: &[u8]) -> Option<Few>
        ensures { MatchOption result (23 < length bytes.now) (λ few. few ≡ bytes.now) }
    {
        let count = bytes.len();
        if count > MOST {
            return None;
        }
        let mut room = [0; MOST];
        // Copying nothing is still a call.
        if count > 0 {
            room[..count].copy_from_slice(bytes);
        }
        Some(Few {
            count: count as u8,
            room,
        })
    }

    pub(crate) fn as_slice(&self) -> &[u8]
        ensures { result.now ≡ self.now }
    {
        &self.room[..usize::from(self.count)]
    }
}
