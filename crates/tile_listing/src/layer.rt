//! The lines that show a layer.

ghost use Rattle.std.specs.Prelude.{◌≡◌, ◌∷◌, ◌++◌, OnOk};
ghost use Rattle.mvt_messages.specs.Views.{features, keys, values};
ghost use Rattle.mvt_layers.specs.Seen.{layer_seen};
ghost use Rattle.tile_lines.specs.Lines.{with_feed};
ghost use Rattle.tile_listing.specs.Listing.{feature_line, joined_lines, key_line, layer_line, layer_numbers, lines_of_layer, numbered, value_line};

use crate::feature::put_feature_line;
use crate::words::{put_name, put_number, put_shown_value};
use mvt_layers::LayerView;
use std::alloc::AllocError;
use tile_text::put_text;

/// Adds the lines that show the layer.
pub(crate) fn put_layer(
    text: &mut Vec<u8>,
    ordinal: usize,
    layer: LayerView,
) -> Result<(), AllocError>
    ensures { OnOk result (text.new.items
        ≡ text.old.items ++ joined_lines (lines_of_layer ordinal (layer_seen layer.entry))) }
{
    put_layer_line(text, ordinal, layer)?;
    put_key_lines(text, layer)?;
    put_value_lines(text, layer)?;
    put_feature_lines(text, layer)
}

/// Adds the line of the layer itself.
pub(crate) fn put_layer_line(
    text: &mut Vec<u8>,
    ordinal: usize,
    layer: LayerView,
) -> Result<(), AllocError>
    ensures { OnOk result (text.new.items
        ≡ text.old.items ++ with_feed (layer_line ordinal (layer_seen layer.entry))) }
{
    put_number(text, b"layer ", ordinal as u64)?;
    text.extend_from_slice(b" ")?;
    put_name(text, layer.name())?;
    put_layer_numbers(text, layer)?;
    text.extend_from_slice(b"\n")
}

/// Adds the layer's version and extent, and its counts.
fn put_layer_numbers(text: &mut Vec<u8>, layer: LayerView) -> Result<(), AllocError>
    ensures { OnOk result (text.new.items ≡ text.old.items ++ 32 ∷ layer_numbers (layer_seen layer.entry)) }
{
    put_number(text, b" version ", layer.version())?;
    put_number(text, b" extent ", layer.extent())?;
    put_number(text, b" features ", layer.feature_count() as u64)?;
    put_number(text, b" keys ", layer.key_count() as u64)?;
    put_number(text, b" values ", layer.value_count() as u64)
}

/// Adds a line for each key.
fn put_key_lines(text: &mut Vec<u8>, layer: LayerView) -> Result<(), AllocError>
    ensures { OnOk result (text.new.items
        ≡ text.old.items ++ joined_lines (numbered key_line (keys (layer_seen layer.entry)))) }
{
    for (ordinal, key) in layer.keys().enumerate() {
        put_key_line(text, ordinal, key)?;
    }
    Ok(())
}

fn put_key_line(text: &mut Vec<u8>, ordinal: usize, key: &[u8]) -> Result<(), AllocError>
    ensures { OnOk result (text.new.items ≡ text.old.items ++ with_feed (key_line ordinal key.now)) }
{
    put_number(text, b"key ", ordinal as u64)?;
    text.extend_from_slice(b" ")?;
    put_text(text, key)?;
    text.extend_from_slice(b"\n")
}

/// Adds a line for each value.
fn put_value_lines(text: &mut Vec<u8>, layer: LayerView) -> Result<(), AllocError>
    ensures { OnOk result (text.new.items
        ≡ text.old.items ++ joined_lines (numbered value_line (values (layer_seen layer.entry)))) }
{
    for (ordinal, value) in layer.values().enumerate() {
        put_value_line(text, ordinal, value)?;
    }
    Ok(())
}

fn put_value_line(text: &mut Vec<u8>, ordinal: usize, value: &[u8]) -> Result<(), AllocError>
    ensures { OnOk result (text.new.items ≡ text.old.items ++ with_feed (value_line ordinal value.now)) }
{
    put_number(text, b"value ", ordinal as u64)?;
    text.extend_from_slice(b" ")?;
    put_shown_value(text, value)?;
    text.extend_from_slice(b"\n")
}

/// Adds a line for each feature.
fn put_feature_lines(text: &mut Vec<u8>, layer: LayerView) -> Result<(), AllocError>
    ensures { OnOk result (text.new.items
        ≡ text.old.items ++ joined_lines (numbered feature_line (features (layer_seen layer.entry)))) }
{
    for found in layer.features() {
        put_feature_line(text, found.ordinal, found.view())?;
    }
    Ok(())
}
