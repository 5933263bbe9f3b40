//! The lines that show a feature.

ghost use Rattle.std.specs.Prelude.{◌≡◌, ◌++◌, OnOk};
ghost use Rattle.mvt_layers.specs.Seen.{feature_seen, layer_seen};
ghost use Rattle.tile_lines.specs.Lines.{with_feed};
ghost use Rattle.tile_listing.specs.Listing.{feature_line, geometry_line, joined_lines, lines_of_feature};

use crate::attributes::put_attributes;
use crate::words::{put_id, put_kind, put_number};
use mvt_geometry::GeometryError;
use mvt_layers::{FeatureView, LayerView};
use mvt_view::geometry;
use std::alloc::{AllocError, Global};
use tile_text::put_geometry;

/// Adds the lines that show the feature of the layer.
pub(crate) fn put_feature(
    alloc: Global,
    text: &mut Vec<u8>,
    layer: LayerView,
    ordinal: usize,
    feature: FeatureView,
) -> Result<(), AllocError>
    ensures { OnOk result (text.new.items ≡ text.old.items
        ++ joined_lines (lines_of_feature (layer_seen layer.entry) ordinal (feature_seen feature.entry))) }
{
    put_feature_line(text, ordinal, feature)?;
    put_attributes(alloc, text, layer, feature)?;
    put_geometry_line(alloc, text, feature)
}

/// Adds the line of the feature itself.
pub(crate) fn put_feature_line(
    text: &mut Vec<u8>,
    ordinal: usize,
    feature: FeatureView,
) -> Result<(), AllocError>
    ensures { OnOk result (text.new.items
        ≡ text.old.items ++ with_feed (feature_line ordinal (feature_seen feature.entry))) }
{
    put_number(text, b"feature ", ordinal as u64)?;
    text.extend_from_slice(b" id ")?;
    put_id(text, feature.id())?;
    text.extend_from_slice(b" ")?;
    put_kind(text, feature.kind())?;
    text.extend_from_slice(b"\n")
}

/// Adds the line of the feature's geometry.
fn put_geometry_line(
    alloc: Global,
    text: &mut Vec<u8>,
    feature: FeatureView,
) -> Result<(), AllocError>
    ensures { OnOk result (text.new.items
        ≡ text.old.items ++ with_feed (geometry_line (feature_seen feature.entry))) }
{
    match geometry(alloc, &feature) {
        Ok(geometry) => {
            text.extend_from_slice(b"geometry ")?;
            put_geometry(text, &geometry)?;
            text.extend_from_slice(b"\n")
        }
        Err(GeometryError::BadGeometry) => text.extend_from_slice(b"geometry unreadable\n"),
        Err(GeometryError::NoMemory) => Err(AllocError),
    }
}
