//! How the values of a document are written, by one trait that each of its types has: from the last
//! byte to the first, so that the length of a message is known when it has to be written.

ghost use Rattle.std.specs.Prelude.{◌≤◌, ◌++◌, length, max};
ghost use Rattle.std.specs.List.{flat_map};
ghost use Rattle.mvt_document.specs.Wire.{spell, minimal_width, delimited};
ghost use Rattle.mvt_document.specs.Fills.{Fills};

use mvt_document::{Measured, Tag, Varint, least_width, put_number};

/// A value that is written as bytes.
pub(crate) trait Encode: Measured {
    /// Writes it at the end of the room, and returns how much of the room is left before it.
    fn fill(&self, room: &mut [u8]) -> usize
        requires { length (Self.bytes self.now) ≤ length room.old }
        ensures { Fills room.old room.new (Self.bytes self.now) result };
}

/// Writes the items at the end of the room, one after the other.
pub(crate) fn put_all<T: Encode>(items: &[T], room: &mut [u8]) -> usize
    requires { length (flat_map T.bytes items.now) ≤ length room.old }
    ensures { Fills room.old room.new (flat_map T.bytes items.now) result }
{
    let mut left = room.len();
    for index in (0..items.len()).rev() {
        left = items[index].fill(&mut room[..left]);
    }
    left
}

/// Writes the bytes at the end of the room.
pub(crate) fn put_bytes(bytes: &[u8], room: &mut [u8]) -> usize
    requires { length bytes.now ≤ length room.old }
    ensures { Fills room.old room.new bytes.now result }
{
    let start = room.len() - bytes.len();
    room[start..].copy_from_slice(bytes);
    start
}

/// Writes a length at the end of the room, in at least `width` bytes.
pub(crate) fn put_length(width: u8, count: usize, room: &mut [u8]) -> usize
    requires { max width (minimal_width count) ≤ length room.old }
    ensures { Fills room.old room.new (spell count (max width (minimal_width count))) result }
{
    let count = count as u64;
    put_number(count, width.max(least_width(count)), room)
}

/// Writes the items at the end of the room, their length before them, and the tag before that.
pub(crate) fn put_message<T: Encode>(tag: Tag, width: u8, items: &[T], room: &mut [u8]) -> usize
    requires { length (spell tag.value tag.width ++ delimited width (flat_map T.bytes items.now)) ≤ length room.old }
    ensures { Fills room.old room.new (spell tag.value tag.width ++ delimited width (flat_map T.bytes items.now)) result }
{
    let left = put_all(items, room);
    let length = room.len() - left;
    let left = put_length(width, length, &mut room[..left]);
    tag.to_varint().fill(&mut room[..left])
}

impl Encode for Varint {
    fn fill(&self, room: &mut [u8]) -> usize {
        put_number(self.value, self.width, room)
    }
}
