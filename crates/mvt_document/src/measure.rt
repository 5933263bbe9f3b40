//! How many bytes a value takes, in a trait of the values that a tile is made of.

ghost use Rattle.std.specs.Prelude.{ℕ, ◌+◌, ◌≤◌, List, [], ◌++◌, length, max};
ghost use Rattle.std.specs.Option.{SomeIff};
ghost use Rattle.std.specs.List.{flat_map};
ghost use Rattle.mvt_document.specs.declared.TheConstants.{MAX_FILE};
ghost use Rattle.mvt_document.specs.Wire.{spell, minimal_width};
ghost use Rattle.mvt_document.specs.Splicing.{splice};

use crate::MAX_FILE;
use crate::tag::Tag;
use crate::varint::{Varint, least_width};

/// A value that is written as bytes, of which it is known how many bytes those are.
pub trait Measured {
    ghost bytes: { Self → List ℕ };

    /// How many bytes it takes, if they are within the limit.
    fn size_within(&self, limit: usize) -> Option<usize>
        ensures { SomeIff result (length (bytes self.now) ≤ limit) (length (bytes self.now)) };

    /// The same, if that is within the limit of a file.
    fn size(&self) -> Option<usize>
        ensures { SomeIff result (length (bytes self.now) ≤ MAX_FILE) (length (bytes self.now)) }
    {
        self.size_within(MAX_FILE)
    }
}

/// The sum, if it is within the limit.
pub fn sum_within(size: usize, more: usize, limit: usize) -> Option<usize>
    ensures { SomeIff result (size + more ≤ limit) (size + more) }
{
    let sum = size.checked_add(more)?;
    if sum > limit {
        return None;
    }
    Some(sum)
}

/// The size of the items one after the other, if it is within the limit.
pub fn size_of_all<T: Measured>(items: &[T], limit: usize) -> Option<usize>
    ensures { SomeIff result (length (flat_map T.bytes items.now) ≤ limit) (length (flat_map T.bytes items.now)) }
{
    let mut size = 0;
    for item in items {
        size = sum_within(size, item.size_within(limit)?, limit)?;
    }
    Some(size)
}

/// The size of the items other than the `count` from `index`, if it is within the limit.
pub fn size_beside_part<T: Measured>(
    items: &[T],
    index: usize,
    count: usize,
    limit: usize,
) -> Option<usize>
    requires { index + count ≤ length items.now }
    ensures { let size = length (flat_map T.bytes (splice index count [] items.now)) in SomeIff result (size ≤ limit) size }
{
    let front = size_of_all(&items[..index], limit)?;
    let following = size_of_all(&items[index + count..], limit)?;
    sum_within(front, following, limit)
}

/// The size of `length` bytes after their length, if it is within the limit.
pub(crate) fn delimited_size(width: u8, length: usize, limit: usize) -> Option<usize>
    ensures { SomeIff result (max width (minimal_width length) + length ≤ limit) (max width (minimal_width length) + length) }
{
    let width = width.max(least_width(length as u64));
    sum_within(usize::from(width), length, limit)
}

/// The size of a tag, and after it `length` bytes with their length, if it is within the limit.
pub fn message_size(tag: Tag, width: u8, length: usize, limit: usize) -> Option<usize>
    ensures { let size = tag.width + (max width (minimal_width length) + length) in SomeIff result (size ≤ limit) size }
{
    sum_within(
        usize::from(tag.width()),
        delimited_size(width, length, limit)?,
        limit,
    )
}

impl Measured for Varint {
    ghost bytes = { λ n. spell n.value n.width };

    fn size_within(&self, limit: usize) -> Option<usize> {
        sum_within(usize::from(self.width), 0, limit)
    }
}
