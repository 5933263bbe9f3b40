//! The lines of the attributes of a feature.

ghost use Rattle.std.specs.Prelude.{◌≡◌, ◌++◌, All, IsTrue, OnOk, length, map};
ghost use Rattle.mvt_messages.specs.Attributes.{attribute_at, is_pair};
ghost use Rattle.mvt_layers.specs.Seen.{feature_seen, layer_seen, pair_seen};
ghost use Rattle.mvt_messages.specs.Views.{keys, values};
ghost use Rattle.tile_lines.specs.Lines.{with_feed};
ghost use Rattle.tile_listing.specs.Listing.{attribute_line, attribute_lines, joined_lines};
ghost use Rattle.tile_listing.specs.ListingStands.{contents_of, named_by};

use crate::words::put_shown_value;
use mvt_layers::{FeatureView, LayerView, Pair, PairsError, pairs};
use std::alloc::{AllocError, Global};
use tile_text::put_text;

/// How many pairs are looked up one by one at most. Each look-up may go through all keys and values
/// of the layer.
const FEW_PAIRS: usize = 32;

/// Adds a line for each attribute of the feature of this layer.
pub(crate) fn put_attributes(
    alloc: Global,
    text: &mut Vec<u8>,
    layer: LayerView,
    feature: FeatureView,
) -> Result<(), AllocError>
    ensures { OnOk result (text.new.items ≡ text.old.items
        ++ joined_lines (attribute_lines (layer_seen layer.entry) (feature_seen feature.entry))) }
{
    match pairs(alloc, &layer, &feature) {
        Ok(pairs) => put_pairs(alloc, text, layer, pairs.as_slice()),
        Err(PairsError::BadTags) => text.extend_from_slice(b"attributes unreadable\n"),
        Err(PairsError::NoMemory) => Err(AllocError),
    }
}

/// Adds a line for each pair of a key and a value of the layer.
fn put_pairs(
    alloc: Global,
    text: &mut Vec<u8>,
    layer: LayerView,
    pairs: &[Pair],
) -> Result<(), AllocError>
    requires { All (λ pair. IsTrue (is_pair (length (keys (layer_seen layer))) (length (values (layer_seen layer))) (pair_seen pair))) pairs.now }
    ensures { OnOk result (text.new.items ≡ text.old.items
        ++ joined_lines (map (λ pair. attribute_line (attribute_at (layer_seen layer.entry) pair)) (map pair_seen pairs.now))) }
{
    if pairs.len() <= FEW_PAIRS {
        put_few_pairs(text, layer, pairs)
    } else {
        put_many_pairs(alloc, text, layer, pairs)
    }
}

/// The same for few pairs.
fn put_few_pairs(text: &mut Vec<u8>, layer: LayerView, pairs: &[Pair]) -> Result<(), AllocError>
    requires { All (λ pair. IsTrue (is_pair (length (keys (layer_seen layer))) (length (values (layer_seen layer))) (pair_seen pair))) pairs.now }
    ensures { OnOk result (text.new.items ≡ text.old.items
        ++ joined_lines (map (λ pair. attribute_line (attribute_at (layer_seen layer.entry) pair)) (map pair_seen pairs.now))) }
{
    for pair in pairs {
        put_pair(text, layer, *pair)?;
    }
    Ok(())
}

fn put_pair(text: &mut Vec<u8>, layer: LayerView, pair: Pair) -> Result<(), AllocError>
    requires { IsTrue (is_pair (length (keys (layer_seen layer))) (length (values (layer_seen layer))) (pair_seen pair)) }
    ensures { OnOk result (text.new.items
        ≡ text.old.items ++ with_feed (attribute_line (attribute_at (layer_seen layer.entry) (pair_seen pair)))) }
{
    let key = layer.key(pair.key as usize).unwrap();
    let value = layer.value(pair.value as usize).unwrap();
    put_attribute_line(text, key, value)
}

/// The same for many pairs. It goes through the keys and the values of the layer once.
fn put_many_pairs(
    alloc: Global,
    text: &mut Vec<u8>,
    layer: LayerView,
    pairs: &[Pair],
) -> Result<(), AllocError>
    requires { All (λ pair. IsTrue (is_pair (length (keys (layer_seen layer))) (length (values (layer_seen layer))) (pair_seen pair))) pairs.now }
    ensures { OnOk result (text.new.items ≡ text.old.items
        ++ joined_lines (map (λ pair. attribute_line (attribute_at (layer_seen layer.entry) pair)) (map pair_seen pairs.now))) }
{
    let keys: Vec<&[u8]> = layer.keys().collect(alloc)?;
    let values: Vec<&[u8]> = layer.values().collect(alloc)?;
    put_named(text, &keys, &values, pairs)
}

/// Adds a line for each pair, which names a key and a value of these.
fn put_named(
    text: &mut Vec<u8>,
    keys: &[&[u8]],
    values: &[&[u8]],
    pairs: &[Pair],
) -> Result<(), AllocError>
    requires { All (λ pair. IsTrue (is_pair (length keys.now) (length values.now) (pair_seen pair))) pairs.now }
    ensures { OnOk result (text.new.items ≡ text.old.items
        ++ joined_lines (map (λ pair. attribute_line (named_by (contents_of keys.now) (contents_of values.now) pair)) (map pair_seen pairs.now))) }
{
    for pair in pairs {
        put_attribute_line(text, keys[pair.key as usize], values[pair.value as usize])?;
    }
    Ok(())
}

fn put_attribute_line(text: &mut Vec<u8>, key: &[u8], value: &[u8]) -> Result<(), AllocError>
    ensures { OnOk result (text.new.items
        ≡ text.old.items ++ with_feed (attribute_line (key.now, value.now))) }
{
    text.extend_from_slice(b"attribute ")?;
    put_text(text, key)?;
    text.extend_from_slice(b" ")?;
    put_shown_value(text, value)?;
    text.extend_from_slice(b"\n")
}
