//! The keys and values of a layer with where they are, as an iterator, the first that equals given bytes,
//! and the last name.

ghost use Rattle.std.specs.Prelude.{◌≡◌, ◌+◌, ◌≤◌, ◌<◌, None, Some, IfErr, IfOk, length, map, option_map, slice_get};
ghost use Rattle.std.specs.List.{last_or};
ghost use Rattle.std.specs.Option.{option_copied};
ghost use Rattle.std.specs.Result.{result_ok};
ghost use Rattle.mvt_document.specs.declared.run.Kind.TheVariants as kind;
ghost use Rattle.mvt_document.specs.Kinds.{in_layer_of_kind, is_entry};
ghost use Rattle.mvt_document.specs.Runs.{IsRunOf};
ghost use Rattle.mvt_document.specs.Stands.{layer_item_of};
ghost use Rattle.mvt_messages.specs.Found.{found_from, placed_from};
ghost use Rattle.mvt_layers.specs.Pools.{entry_in as is_entry_in, first_equal, found_entries};
ghost use Rattle.mvt_layers.specs.Seen.{found_entry_seen};
ghost use Rattle.mvt_messages.specs.Views.{contents, plain_fields};

use crate::fields::{entry_in, features_from, first_entry};
use crate::found::FoundEntry;
use mvt_document::tags::NAME;
use mvt_document::{Layer, LayerItem, Message, Run};
use std::marker::Model;

/// The LEN fields of one number in a layer, in order, as its keys or its values, each with its ordinal and its
/// position. Contracts see those that are left.
#[derive(Clone, Debug, Drop)]
pub struct Entries<'a> {
    items: &'a [LayerItem],
    number: u64,
    // The run of features, none of which is an entry.
    features: Run,
    // Where the search for the next one starts, and its ordinal.
    position: usize,
    ordinal: usize,
}

impl<'a> Model for Entries<'a> {
    ghost use Rattle.std.specs.Prelude.{ℕ, ◌≤◌, List, length, map};
    ghost use Rattle.mvt_document.specs.declared.run.Kind.TheVariants.{Message};
    ghost use Rattle.mvt_document.specs.Kinds.{in_layer_of_kind};
    ghost use Rattle.mvt_document.specs.Runs.{IsRunOf};
    ghost use Rattle.mvt_document.specs.Stands.{layer_item_of};
    ghost use Rattle.mvt_messages.specs.Found.{found_from};
    ghost use Rattle.mvt_layers.specs.Pools.{entry_in};

    ghost Value = { List (ℕ × (ℕ × List ℕ)) };

    ghost view = { λ l. found_from (entry_in l.number) l.ordinal l.position (map layer_item_of l.items.now) };

    ghost invariant = { λ l. (l.ordinal ≤ l.position) × (l.position ≤ length l.items.now) × IsRunOf (in_layer_of_kind Message) l.features l.items.now };
}

impl<'a> Entries<'a> {
    ghost use Rattle.std.specs.Prelude.{◌+◌, ◌<◌, ◌^◌, length};
    ghost use Rattle.mvt_document.specs.Stands.{layer_of};
    ghost use Rattle.mvt_messages.specs.Found.{found_from};
    ghost use Rattle.mvt_layers.specs.Pools.{entry_in, found_entries};

    pub(crate) fn of(layer: &'a Layer, number: u64) -> Entries<'a>
        ensures items { result ≡ found_entries number (layer_of layer.now).items }
        ensures bound { length result < 2 ^ 64 }
    {
        Entries::beside(layer.items.as_slice(), layer.items.runs().messages, number)
    }

    fn beside(items: &'a [LayerItem], features: Run, number: u64) -> Entries<'a>
        requires { IsRunOf (in_layer_of_kind kind.Message) features items.now }
        ensures items { result ≡ found_entries number (map layer_item_of items.now) }
        ensures bound { length result < 2 ^ 64 }
    {
        Entries {
            items,
            number,
            features,
            position: 0,
            ordinal: 0,
        }
    }

    /// Those that are not in the run of the first of them.
    pub(crate) fn following(
        items: &'a [LayerItem],
        entries: Run,
        features: Run,
        number: u64,
    ) -> Entries<'a>
        requires entries { IsRunOf (is_entry number) entries items.now }
        requires features { IsRunOf (in_layer_of_kind kind.Message) features items.now }
        ensures items { result ≡ found_from (entry_in number) entries.count entries.until (map layer_item_of items.now) }
        ensures bound { entries.count + length result < 2 ^ 64 }
    {
        Entries {
            items,
            number,
            features,
            position: entries.until,
            ordinal: entries.count,
        }
    }
}

impl<'a> Iterator for Entries<'a> {
    ghost use Rattle.std.specs.Iterator.{YieldsFirstBy, item_count};

    type Item = FoundEntry<'a>;

    ghost next_gives = { YieldsFirstBy found_entry_seen (λ left. left) };

    ghost remaining = { item_count (λ left. left) };

    fn next(&mut self) -> Option<FoundEntry<'a>> {
        let (position, bytes) = first_entry(self.items, self.features, self.number, self.position)?;
        let ordinal = self.ordinal;
        self.position = position + 1;
        self.ordinal = ordinal + 1;
        Some(FoundEntry {
            ordinal,
            position,
            bytes,
        })
    }
}

/// The entry with this ordinal, where these are the run of the first of them and that of the features.
pub(crate) fn entry(
    items: &[LayerItem],
    entries: Run,
    features: Run,
    number: u64,
    ordinal: usize,
) -> Option<&[u8]>
    requires entries { IsRunOf (is_entry number) entries items.now }
    requires features { IsRunOf (in_layer_of_kind kind.Message) features items.now }
    ensures { option_copied result ≡ slice_get (contents number (plain_fields (map layer_item_of items.now))) ordinal }
{
    if ordinal < entries.count {
        return entry_in(&items[entries.first + ordinal], number);
    }
    let found = Entries::following(items, entries, features, number).nth(ordinal - entries.count)?;
    Some(found.bytes)
}

/// The entry with this ordinal, which is one of the run, with where it is.
fn entry_in_run(
    items: &[LayerItem],
    entries: Run,
    number: u64,
    ordinal: usize,
) -> Option<FoundEntry<'_>>
    requires run { IsRunOf (is_entry number) entries items.now }
    requires there { ordinal < entries.count }
    ensures { option_map found_entry_seen result ≡ slice_get (found_entries number (map layer_item_of items.now)) ordinal }
{
    let position = entries.first + ordinal;
    let bytes = entry_in(&items[position], number)?;
    Some(FoundEntry {
        ordinal,
        position,
        bytes,
    })
}

/// The last entry, where these are the run of the first of them and that of the features.
fn last_entry(
    items: &[LayerItem],
    entries: Run,
    features: Run,
    number: u64,
) -> Option<FoundEntry<'_>>
    requires entries { IsRunOf (is_entry number) entries items.now }
    requires features { IsRunOf (in_layer_of_kind kind.Message) features items.now }
    ensures { option_map found_entry_seen result ≡ last_or None (found_entries number (map layer_item_of items.now)) }
{
    if let Some(found) = Entries::following(items, entries, features, number).last() {
        return Some(found);
    }
    if entries.count == 0 {
        return None;
    }
    entry_in_run(items, entries, number, entries.count - 1)
}

/// The last name of a layer, which is the one that counts, with where it is.
pub fn last_name(items: &Message<LayerItem>) -> Option<FoundEntry<'_>>
    ensures { option_map found_entry_seen result ≡ last_or None (found_entries 1 (map layer_item_of items.now.items)) }
{
    let runs = items.runs();
    last_entry(items.as_slice(), runs.names, runs.messages, NAME)
}

/// How many entries there are, where these are the run of the first of them and that of the features.
pub(crate) fn entry_count(items: &[LayerItem], entries: Run, features: Run, number: u64) -> usize
    requires entries { IsRunOf (is_entry number) entries items.now }
    requires features { IsRunOf (in_layer_of_kind kind.Message) features items.now }
    ensures { result ≡ length (contents number (plain_fields (map layer_item_of items.now))) }
{
    entries.count + entries_from(items, features, number, entries.until)
}

/// How many entries there are from `start` on. The run of features is skipped.
fn entries_from(items: &[LayerItem], features: Run, number: u64, start: usize) -> usize
    requires there { start ≤ length items.now }
    requires features { IsRunOf (in_layer_of_kind kind.Message) features items.now }
    ensures { result ≡ length (placed_from (is_entry_in number) start (map layer_item_of items.now)) }
{
    let (end, following) = features_from(items, features, start);
    let before = entries_before(items, number, start, end);
    before + entries_before(items, number, following, items.len())
}

/// How many entries there are from `start` to `end`.
fn entries_before(items: &[LayerItem], number: u64, start: usize, end: usize) -> usize
    requires order { start ≤ end }
    requires there { end ≤ length items.now }
    ensures count { result + length (placed_from (is_entry_in number) end (map layer_item_of items.now)) ≡ length (placed_from (is_entry_in number) start (map layer_item_of items.now)) }
    ensures few { start + result ≤ end }
{
    let mut count = 0;
    for position in start..end {
        count += usize::from(entry_in(&items[position], number).is_some());
    }
    count
}

/// The first entry that is these bytes, or how many entries there are, where these are the run of the first of
/// them and that of the features.
pub(crate) fn first_equal<'a>(
    items: &'a [LayerItem],
    entries: Run,
    features: Run,
    number: u64,
    bytes: &[u8],
) -> Result<FoundEntry<'a>, usize>
    requires entries { IsRunOf (is_entry number) entries items.now }
    requires features { IsRunOf (in_layer_of_kind kind.Message) features items.now }
    ensures found { option_map found_entry_seen (result_ok result) ≡ first_equal bytes.now (found_entries number (map layer_item_of items.now)) }
    ensures count { IfErr result (λ count. count ≡ length (contents number (plain_fields (map layer_item_of items.now)))) }
{
    let end = entries.first + entries.count;
    match equal_before(items, number, bytes, entries.first, 0, end) {
        Ok(found) => Ok(found),
        Err(count) => equal_beside(items, features, number, bytes, entries.until, count),
    }
}

/// The same from `start` on, where the first from there on has the ordinal `first`. The run of
/// features is skipped.
fn equal_beside<'a>(
    items: &'a [LayerItem],
    features: Run,
    number: u64,
    bytes: &[u8],
    start: usize,
    first: usize,
) -> Result<FoundEntry<'a>, usize>
    requires there { start ≤ length items.now }
    requires before { first ≤ start }
    requires features { IsRunOf (in_layer_of_kind kind.Message) features items.now }
    ensures found { option_map found_entry_seen (result_ok result) ≡ first_equal bytes.now (found_from (is_entry_in number) first start (map layer_item_of items.now)) }
    ensures count { IfErr result (λ count. count ≡ first + length (placed_from (is_entry_in number) start (map layer_item_of items.now))) }
{
    let (end, following) = features_from(items, features, start);
    match equal_before(items, number, bytes, start, first, end) {
        Ok(found) => Ok(found),
        Err(next) => equal_before(items, number, bytes, following, next, items.len()),
    }
}

/// The same from `start` to `end`; if there is none, the ordinal that the first from `end` on has.
fn equal_before<'a>(
    items: &'a [LayerItem],
    number: u64,
    bytes: &[u8],
    start: usize,
    first: usize,
    end: usize,
) -> Result<FoundEntry<'a>, usize>
    requires order { start ≤ end }
    requires there { end ≤ length items.now }
    requires before { first ≤ start }
    ensures found { IfOk result (λ found. first_equal bytes.now (found_from (is_entry_in number) first start (map layer_item_of items.now)) ≡ Some (found_entry_seen found)) }
    ensures none { IfErr result (λ next. first_equal bytes.now (found_from (is_entry_in number) first start (map layer_item_of items.now)) ≡ first_equal bytes.now (found_from (is_entry_in number) next end (map layer_item_of items.now))) }
    ensures count { IfErr result (λ next. first + length (placed_from (is_entry_in number) start (map layer_item_of items.now)) ≡ next + length (placed_from (is_entry_in number) end (map layer_item_of items.now))) }
    ensures within { IfErr result (λ next. next ≤ end) }
{
    let mut ordinal = first;
    for position in start..end {
        if let Some(content) = entry_in(&items[position], number) {
            if content == bytes {
                return Ok(FoundEntry {
                    ordinal,
                    position,
                    bytes: content,
                });
            }
            ordinal += 1;
        }
    }
    Err(ordinal)
}
