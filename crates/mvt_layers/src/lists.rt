//! The layers of a tile, and the features, keys and values of a layer, as iterators.

use crate::fields::{beside_features, first_content, first_feature, first_layer};
use crate::found::{FoundFeature, FoundLayer};
use mvt_document::{Layer, LayerItem, Run, TileItem};
use std::marker::Model;

/// The layers of a tile, in order, each with its ordinal and its position. Contracts see those that
/// are left.
#[derive(Clone, Debug, Drop)]
pub struct LayerViews<'a> {
    items: &'a [TileItem],
    // Where the search for the next one starts, and its ordinal.
    position: usize,
    ordinal: usize,
}

impl<'a> Model for LayerViews<'a> {
    ghost use Rattle.std.specs.Prelude.{ℕ, ◌≤◌, List, length, map};
    ghost use Rattle.mvt_document.specs.Plain.{Layer};
    ghost use Rattle.mvt_document.specs.Stands.{tile_item_of};
    ghost use Rattle.mvt_messages.specs.Found.{found_from};
    ghost use Rattle.mvt_messages.specs.Views.{layer_in};

    ghost Value = { List (ℕ × (ℕ × Layer)) };

    ghost view = { λ l. found_from layer_in l.ordinal l.position (map tile_item_of l.items.now) };

    ghost invariant = { λ l. (l.ordinal ≤ l.position) × (l.position ≤ length l.items.now) };
}

impl<'a> LayerViews<'a> {
    ghost use Rattle.std.specs.Prelude.{◌≡◌, ◌+◌, ◌<◌, ◌^◌, length, map};
    ghost use Rattle.mvt_document.specs.Stands.{tile_item_of};
    ghost use Rattle.mvt_document.specs.declared.run.Kind.TheVariants.{Message};
    ghost use Rattle.mvt_document.specs.Kinds.{in_tile_of_kind};
    ghost use Rattle.mvt_document.specs.Runs.{IsRunOf};
    ghost use Rattle.mvt_messages.specs.Found.{found_from, found_layers};
    ghost use Rattle.mvt_messages.specs.Views.{layer_in};

    pub(crate) fn of(items: &'a [TileItem]) -> LayerViews<'a>
        ensures items { result ≡ found_layers (map tile_item_of items.now) }
        ensures bound { length result < 2 ^ 64 }
    {
        LayerViews {
            items,
            position: 0,
            ordinal: 0,
        }
    }

    /// Those that are not in the run of the first of them.
    pub(crate) fn following(items: &'a [TileItem], layers: Run) -> LayerViews<'a>
        requires { IsRunOf (in_tile_of_kind Message) layers items.now }
        ensures items { result ≡ found_from layer_in layers.count layers.until (map tile_item_of items.now) }
        ensures bound { layers.count + length result < 2 ^ 64 }
    {
        LayerViews {
            items,
            position: layers.until,
            ordinal: layers.count,
        }
    }
}

impl<'a> Iterator for LayerViews<'a> {
    ghost use Rattle.std.specs.Iterator.{YieldsFirstBy, item_count};
    ghost use Rattle.mvt_layers.specs.Seen.{found_layer_seen};

    type Item = FoundLayer<'a>;

    ghost next_gives = { YieldsFirstBy found_layer_seen (λ left. left) };

    ghost remaining = { item_count (λ left. left) };

    fn next(&mut self) -> Option<FoundLayer<'a>> {
        let (position, layer) = first_layer(self.items, self.position)?;
        let ordinal = self.ordinal;
        self.position = position + 1;
        self.ordinal = ordinal + 1;
        Some(FoundLayer {
            ordinal,
            position,
            layer,
        })
    }
}

/// The features of a layer, in order, each with its ordinal and its position. Contracts see those that
/// are left.
#[derive(Clone, Debug, Drop)]
pub struct FeatureViews<'a> {
    items: &'a [LayerItem],
    // Where the search for the next one starts, and its ordinal.
    position: usize,
    ordinal: usize,
}

impl<'a> Model for FeatureViews<'a> {
    ghost use Rattle.std.specs.Prelude.{ℕ, ◌≤◌, List, length, map};
    ghost use Rattle.mvt_document.specs.Plain.{Feature};
    ghost use Rattle.mvt_document.specs.Stands.{layer_item_of};
    ghost use Rattle.mvt_messages.specs.Found.{found_from};
    ghost use Rattle.mvt_messages.specs.Views.{feature_in};

    ghost Value = { List (ℕ × (ℕ × Feature)) };

    ghost view = { λ l. found_from feature_in l.ordinal l.position (map layer_item_of l.items.now) };

    ghost invariant = { λ l. (l.ordinal ≤ l.position) × (l.position ≤ length l.items.now) };
}

impl<'a> FeatureViews<'a> {
    ghost use Rattle.std.specs.Prelude.{◌≡◌, ◌<◌, ◌^◌, length, map};
    ghost use Rattle.mvt_document.specs.Stands.{layer_item_of};
    ghost use Rattle.std.specs.Prelude.{◌+◌};
    ghost use Rattle.mvt_document.specs.declared.run.Kind.TheVariants.{Message};
    ghost use Rattle.mvt_document.specs.Kinds.{in_layer_of_kind};
    ghost use Rattle.mvt_document.specs.Runs.{IsRunOf};
    ghost use Rattle.mvt_messages.specs.Found.{found_features, found_from};
    ghost use Rattle.mvt_messages.specs.Views.{feature_in};

    pub(crate) fn of(items: &'a [LayerItem]) -> FeatureViews<'a>
        ensures items { result ≡ found_features (map layer_item_of items.now) }
        ensures bound { length result < 2 ^ 64 }
    {
        FeatureViews {
            items,
            position: 0,
            ordinal: 0,
        }
    }

    /// Those that are not in the run of the first of them.
    pub(crate) fn following(items: &'a [LayerItem], features: Run) -> FeatureViews<'a>
        requires { IsRunOf (in_layer_of_kind Message) features items.now }
        ensures items { result ≡ found_from feature_in features.count features.until (map layer_item_of items.now) }
        ensures bound { features.count + length result < 2 ^ 64 }
    {
        FeatureViews {
            items,
            position: features.until,
            ordinal: features.count,
        }
    }
}

impl<'a> Iterator for FeatureViews<'a> {
    ghost use Rattle.std.specs.Iterator.{YieldsFirstBy, item_count};
    ghost use Rattle.mvt_layers.specs.Seen.{found_feature_seen};

    type Item = FoundFeature<'a>;

    ghost next_gives = { YieldsFirstBy found_feature_seen (λ left. left) };

    ghost remaining = { item_count (λ left. left) };

    fn next(&mut self) -> Option<FoundFeature<'a>> {
        let (position, feature) = first_feature(self.items, self.position)?;
        let ordinal = self.ordinal;
        self.position = position + 1;
        self.ordinal = ordinal + 1;
        Some(FoundFeature {
            ordinal,
            position,
            feature,
        })
    }
}

/// The contents of the LEN fields of one number in a layer, in order, as its keys or its values.
/// Contracts see those that are left.
#[derive(Clone, Debug, Drop)]
pub struct Contents<'a> {
    rest: &'a [LayerItem],
    // The items after the features, until it reaches them.
    back: &'a [LayerItem],
    number: u64,
}

impl<'a> Model for Contents<'a> {
    ghost use Rattle.std.specs.Prelude.{ℕ, ◌++◌, List, map};
    ghost use Rattle.mvt_document.specs.Stands.{layer_item_of};
    ghost use Rattle.mvt_messages.specs.Views.{contents, plain_fields};

    ghost Value = { List (List ℕ) };

    ghost view = { λ l. contents l.number (plain_fields (map layer_item_of l.rest.now)) ++ contents l.number (plain_fields (map layer_item_of l.back.now)) };
}

impl<'a> Contents<'a> {
    ghost use Rattle.std.specs.Prelude.{◌≡◌, ◌<◌, ◌^◌, length};
    ghost use Rattle.mvt_document.specs.Stands.{layer_of};
    ghost use Rattle.mvt_messages.specs.Views.{contents, plain_fields};

    pub(crate) fn of(layer: &'a Layer, number: u64) -> Contents<'a>
        ensures items { result ≡ contents number (plain_fields (layer_of layer.now).items) }
        ensures bound { length result < 2 ^ 64 }
    {
        let (rest, back) = beside_features(layer);
        Contents { rest, back, number }
    }
}

impl<'a> Iterator for Contents<'a> {
    ghost use Rattle.std.specs.Iterator.{YieldsFirstRef, item_count};

    type Item = &'a [u8];

    ghost next_gives = { YieldsFirstRef (λ left. left) };

    ghost remaining = { item_count (λ left. left) };

    fn next(&mut self) -> Option<&'a [u8]> {
        if let Some((content, following)) = first_content(self.rest, self.number) {
            self.rest = following;
            return Some(content);
        }
        let (content, following) = first_content(self.back, self.number)?;
        self.rest = following;
        self.back = &[];
        Some(content)
    }
}
