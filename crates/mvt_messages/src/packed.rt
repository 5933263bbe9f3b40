//! A packed body, number by number.

ghost use Rattle.std.specs.Prelude.{◌≤◌, length};

use crate::number::{BadChunk, Number};
use mvt_document::read_varint;

/// What is left of a packed body: all from `place` on.
#[derive(Clone, Copy, Debug)]
pub(crate) struct Packed<'a> {
    pub bytes: &'a [u8],
    pub field: usize,
    pub place: usize,
    pub ghost within: { place ≤ length bytes.now },
}

impl<'a> Packed<'a> {
    ghost use Rattle.std.specs.Prelude.{◌≡◌, ◌<◌, ◌↔◌, ℕ, ◌∷◌, [], List, Err, Ok, IsTrue, Result, MatchResult};
    ghost use Rattle.mvt_messages.specs.Numbers.{Placed};
    ghost use Rattle.mvt_messages.specs.Seen.{placed_of, left_of};

    /// A body of which nothing is left.
    pub fn none() -> Packed<'a>
        ensures { left_of result ≡ [] }
    {
        Packed {
            bytes: &[],
            field: 0,
            place: 0,
        }
    }

    pub fn is_empty(self) -> bool
        ensures { IsTrue result ↔ (self.entry.place ≡ length self.entry.bytes.now) }
    {
        self.place == self.bytes.len()
    }

    /// The first number, and what is left after it.
    #[inline(always)]
    pub fn first(self) -> Result<(Number, Packed<'a>), BadChunk>
        requires { self.place < length self.bytes.now }
        ensures { MatchResult result
            (λ found. left_of self.entry ≡ Ok (placed_of found.0) ∷ left_of found.1)
            (λ bad. (more : List (Result Placed ℕ)) × (left_of self.entry ≡ Err bad.field ∷ more)) }
    {
        let Packed {
            bytes,
            field,
            place,
        } = self;
        let Some(varint) = read_varint(&bytes[place..]) else {
            return Err(BadChunk { field });
        };
        let number = Number {
            varint,
            field,
            place,
        };
        let following = Packed {
            bytes,
            field,
            place: place + usize::from(varint.width),
        };
        Ok((number, following))
    }
}
