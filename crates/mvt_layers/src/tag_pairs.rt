//! The tags of a feature in pairs, as an iterator.

ghost use Rattle.std.specs.Prelude.{◌≡◌};
ghost use Rattle.mvt_messages.specs.Seen.{number_seen};
ghost use Rattle.mvt_layers.specs.Seen.{tag_pair_seen};
ghost use Rattle.mvt_messages.specs.Tags.{ordinal_in, pair_in};

use crate::attributes::Pair;
use mvt_messages::{BadChunk, Number, Numbers};
use std::marker::Model;
use thiserror::Error;

/// How many keys and how many values a layer has.
#[derive(Clone, Copy, Debug, PartialEq, Eq)]
pub struct PoolSizes {
    pub keys: usize,
    pub values: usize,
}

/// A pair of tags, and the two numbers that make it, each with its field and its place there.
#[derive(Clone, Copy, Debug, PartialEq, Eq)]
pub struct TagPair {
    pub pair: Pair,
    pub key: Number,
    pub value: Number,
}

/// Two tags are not a pair: one of them is not a number, the value is missing, or a number names no key or no
/// value.
#[derive(Clone, Copy, Debug, PartialEq, Eq, Error)]
#[error("two tags are not a pair of a key and a value")]
pub struct BadPair;

/// The tags of a feature in pairs, in order. Contracts see those that are left.
#[derive(Clone, Debug, Drop)]
pub struct TagPairs<'a> {
    numbers: Numbers<'a>,
    sizes: PoolSizes,
}

impl<'a> Model for TagPairs<'a> {
    ghost use Rattle.std.specs.Prelude.{List, Result};
    ghost use Rattle.mvt_messages.specs.Tags.{PlacedPair, tag_pairs};

    ghost Value = { List (Result PlacedPair (Unit {0})) };

    ghost view = { λ l. tag_pairs l.sizes.keys l.sizes.values l.numbers };
}

impl<'a> TagPairs<'a> {
    ghost use Rattle.std.specs.Prelude.{◌≡◌};
    ghost use Rattle.mvt_messages.specs.Tags.{tag_pairs};

    pub(crate) fn of(numbers: Numbers<'a>, sizes: PoolSizes) -> TagPairs<'a>
        ensures { result ≡ tag_pairs sizes.keys sizes.values numbers.entry }
    {
        TagPairs { numbers, sizes }
    }
}

impl<'a> Iterator for TagPairs<'a> {
    ghost use Rattle.std.specs.Iterator.{YieldsFirstBy, item_count};
    ghost use Rattle.mvt_layers.specs.Seen.{tag_pair_seen};

    type Item = Result<TagPair, BadPair>;

    ghost next_gives = { YieldsFirstBy tag_pair_seen (λ left. left) };

    ghost remaining = { item_count (λ left. left) };

    #[inline(always)]
    fn next(&mut self) -> Option<Result<TagPair, BadPair>> {
        let key = self.numbers.next()?;
        let Some(value) = self.numbers.next() else {
            return Some(Err(BadPair));
        };
        Some(pair_of(key, value, self.sizes))
    }
}

/// The pair that two tags make.
#[inline(always)]
fn pair_of(
    key: Result<Number, BadChunk>,
    value: Result<Number, BadChunk>,
    sizes: PoolSizes,
) -> Result<TagPair, BadPair>
    ensures { tag_pair_seen result ≡ pair_in sizes.keys sizes.values (number_seen key) (number_seen value) }
{
    let (Ok(key), Ok(value)) = (key, value) else {
        return Err(BadPair);
    };
    let pair = Pair {
        key: ordinal(key.varint.value, sizes.keys).ok_or(BadPair)?,
        value: ordinal(value.varint.value, sizes.values).ok_or(BadPair)?,
    };
    Ok(TagPair { pair, key, value })
}

/// The number as an ordinal, if it is below `count` and has at most 32 bits.
fn ordinal(number: u64, count: usize) -> Option<u32>
    ensures { result ≡ ordinal_in count number }
{
    if number >= count as u64 {
        return None;
    }
    u32::try_from(number).ok()
}
