//! A layer of a tile, and a feature, a key or a value of a layer, each with where it is.

use crate::views::{FeatureView, LayerView};
use mvt_document::{Feature, Layer};

/// A layer of a tile.
#[derive(Clone, Copy, Debug)]
pub struct FoundLayer<'a> {
    /// The ordinal among the layers.
    pub ordinal: usize,
    /// The position among all items of the tile.
    pub position: usize,
    pub layer: &'a Layer,
}

impl<'a> FoundLayer<'a> {
    ghost use Rattle.std.specs.Prelude.{◌≡◌};
    ghost use Rattle.mvt_document.specs.Stands.{layer_of};
    ghost use Rattle.mvt_layers.specs.Seen.{layer_seen};

    /// The layer as it is seen.
    pub fn view(self) -> LayerView<'a>
        ensures { layer_seen result ≡ layer_of self.entry.layer.now }
    {
        LayerView::of(self.layer)
    }
}

/// A feature of a layer.
#[derive(Clone, Copy, Debug)]
pub struct FoundFeature<'a> {
    /// The ordinal among the features.
    pub ordinal: usize,
    /// The position among all items of the layer.
    pub position: usize,
    pub feature: &'a Feature,
}

impl<'a> FoundFeature<'a> {
    ghost use Rattle.std.specs.Prelude.{◌≡◌};
    ghost use Rattle.mvt_document.specs.Stands.{feature_of};
    ghost use Rattle.mvt_layers.specs.Seen.{feature_seen};

    /// The feature as it is seen.
    pub fn view(self) -> FeatureView<'a>
        ensures { feature_seen result ≡ feature_of self.entry.feature.now }
    {
        FeatureView::of(self.feature)
    }
}

/// A key or a value of a layer.
#[derive(Clone, Copy, Debug, PartialEq, Eq)]
pub struct FoundEntry<'a> {
    /// The ordinal among the keys, or among the values.
    pub ordinal: usize,
    /// The position among all items of the layer.
    pub position: usize,
    pub bytes: &'a [u8],
}
