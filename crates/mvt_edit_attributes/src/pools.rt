//! Where a key and a value are among the keys and the values of a layer, and the entries for them
//! that it lacks.

ghost use Rattle.std.specs.Prelude.{◌≡◌, [], ◌∷◌, ◌++◌, IfOk, map};
ghost use Rattle.std.specs.Str.{bytes_eq};
ghost use Rattle.mvt_document.specs.Plain.{PlainInLayer};
ghost use Rattle.mvt_document.specs.Shape.{IsTag};
ghost use Rattle.mvt_document.specs.Stands.{layer_item_of};
ghost use Rattle.mvt_meaning.specs.Fields.{new_content};
ghost use Rattle.mvt_layers.specs.Seen.{layer_seen};
ghost use Rattle.mvt_messages.specs.Views.{keys, values};
ghost use Rattle.mvt_edit_attributes.specs.Attribute.{AreFound, IsSought, entries_for};

use mvt_document::tags::{KEYS, LEN, VALUES};
use mvt_document::{Body, Field, FieldParts, Items, LayerItem, Tag};
use mvt_edit_steps::named_keys;
use mvt_layers::{FoundEntry, LayerView};
use std::alloc::{AllocError, Global};

const KEY_TAG: u64 = 8 * KEYS + LEN;

const VALUE_TAG: u64 = 8 * VALUES + LEN;

/// The ordinal of the first entry that is some bytes, or that of a further one if there is none; whether
/// there is one; and how many entries there are.
#[derive(Clone, Copy)]
pub(crate) struct Sought {
    pub(crate) ordinal: u64,
    pub(crate) is_there: bool,
    pub(crate) count: usize,
}

/// A key and a value that were looked up in a layer.
#[derive(Clone, Copy)]
pub(crate) struct Ordinals {
    pub(crate) key: Sought,
    pub(crate) value: Sought,
}

impl Sought {
    ghost use Rattle.std.specs.Prelude.{◌≡◌, true, false};

    /// That of an entry that is there, among `count` entries.
    fn there(found: FoundEntry<'_>, count: usize) -> Sought
        ensures { result ≡ record { ordinal = found.entry.ordinal; is_there = true; count = count } }
    {
        Sought {
            ordinal: found.ordinal as u64,
            is_there: true,
            count,
        }
    }

    /// That of a further entry after `count` entries.
    fn further(count: usize) -> Sought
        ensures { result ≡ record { ordinal = count; is_there = false; count = count } }
    {
        Sought {
            ordinal: count as u64,
            is_there: false,
            count,
        }
    }
}

/// Looks up the first entries that are this key and this value.
pub(crate) fn look_for(layer: LayerView<'_>, key: &[u8], value: &[u8]) -> Ordinals
    ensures { AreFound key.now value.now (layer_seen layer.entry) result }
{
    Ordinals {
        key: look_for_key(layer, key),
        value: look_for_value(layer, value),
    }
}

fn look_for_key(layer: LayerView<'_>, key: &[u8]) -> Sought
    ensures { IsSought key.now (keys (layer_seen layer.entry)) result }
{
    match layer.find_key(key) {
        Ok(found) => Sought::there(found, layer.key_count()),
        Err(count) => Sought::further(count),
    }
}

fn look_for_value(layer: LayerView<'_>, value: &[u8]) -> Sought
    ensures { IsSought value.now (values (layer_seen layer.entry)) result }
{
    match layer.find_value(value) {
        Ok(found) => Sought::there(found, layer.value_count()),
        Err(count) => Sought::further(count),
    }
}

/// For each key of the layer, in order, whether it is these bytes. If none is, or only the last, the keys are
/// not gone through again.
pub(crate) fn keys_that_are(
    alloc: Global,
    layer: LayerView<'_>,
    key: &[u8],
    sought: Sought,
) -> Result<Vec<bool>, AllocError>
    requires { IsSought key.now (keys (layer_seen layer)) sought }
    ensures { IfOk result (λ named. named.items ≡ map (bytes_eq key.now) (keys (layer_seen layer.entry))) }
{
    let first = sought.ordinal as usize;
    if sought.count.saturating_sub(first) > 1 {
        return named_keys(alloc, layer, key);
    }
    let mut named = Vec::with_capacity(alloc, sought.count)?;
    named.resize(first, false)?;
    if sought.is_there {
        named.push(true)?;
    }
    Ok(named)
}

/// The entries for the key and for the value that the layer lacks.
pub(crate) fn missing_entries(
    alloc: Global,
    ordinals: Ordinals,
    key: &[u8],
    value: Items<u8>,
) -> Result<Vec<LayerItem>, AllocError>
    ensures { IfOk result (λ entries. map layer_item_of entries.items ≡ entries_for key.now value.items ordinals) }
{
    let mut entries = Vec::new(alloc);
    if !ordinals.key.is_there {
        push_key(alloc, key, &mut entries)?;
    }
    if !ordinals.value.is_there {
        entries.push(entry(VALUE_TAG, value))?;
    }
    Ok(entries)
}

/// Puts the entry for the key after the others.
fn push_key(alloc: Global, key: &[u8], entries: &mut Vec<LayerItem>) -> Result<(), AllocError>
    ensures { IfOk result (λ done. map layer_item_of entries.new.items ≡ map layer_item_of entries.old.items ++ PlainInLayer (new_content 26 key.now) ∷ []) }
{
    let key = Items::from_vec(Vec::from_slice(alloc, key)?);
    entries.push(entry(KEY_TAG, key))?;
    Ok(())
}

/// The entry of these bytes with this tag.
fn entry(tag: u64, bytes: Items<u8>) -> LayerItem
    requires { IsTag tag 2 }
    ensures { layer_item_of result ≡ PlainInLayer (new_content tag bytes.items) }
{
    LayerItem::Plain(Field::new(FieldParts {
        tag: Tag::minimal(tag),
        body: Body::Bytes { width: 1, bytes },
    }))
}
