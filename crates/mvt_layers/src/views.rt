//! A layer and a feature, as they are seen.

ghost use Rattle.std.specs.Prelude.{◌≡◌, ◌<◌, ◌^◌, IfErr, length, option_map, slice_get};
ghost use Rattle.std.specs.Option.{option_copied};
ghost use Rattle.std.specs.Result.{result_ok};
ghost use Rattle.mvt_document.specs.Stands.{feature_of, layer_of};
ghost use Rattle.mvt_messages.specs.Numbers.{numbers};
ghost use Rattle.mvt_messages.specs.Views.{extent_of, features, id_of, keys, kind_of, name_of, values, version_of};
ghost use Rattle.mvt_messages.specs.Found.{found_features};
ghost use Rattle.mvt_layers.specs.Pools.{first_equal, found_keys, found_values};
ghost use Rattle.mvt_layers.specs.Seen.{feature_seen, found_entry_seen, found_feature_seen, layer_seen};
ghost use Rattle.mvt_messages.specs.Tags.{tag_pairs};

use crate::entries::{Entries, entry, entry_count, first_equal, last_name};
use crate::fields::{feature_in_run, last_value_in_layer, up_to_features};
use crate::found::{FoundEntry, FoundFeature};
use crate::hashed::HashedFeatures;
use crate::lists::{Contents, FeatureViews};
use crate::tag_pairs::{PoolSizes, TagPairs};
use mvt_document::tags::{EXTENT, GEOMETRY, KEYS, KIND, TAGS, VALUES, VERSION};
use mvt_document::{Feature, Layer, last_value};
use mvt_messages::Numbers;

const DEFAULT_VERSION: u64 = 1;

const DEFAULT_EXTENT: u64 = 4096;

const DEFAULT_KIND: u64 = 0;

/// A layer of a document.
#[derive(Clone, Copy, Debug)]
pub struct LayerView<'a> {
    layer: &'a Layer,
}

impl<'a> LayerView<'a> {
    /// The view of a layer.
    pub fn of(layer: &'a Layer) -> LayerView<'a>
        ensures { layer_seen result ≡ layer_of layer.now }
    {
        LayerView { layer }
    }

    /// The last name is the one that counts.
    pub fn name(self) -> Option<&'a [u8]>
        ensures { option_copied result ≡ name_of (layer_seen self.entry) }
    {
        let found = last_name(&self.layer.items)?;
        Some(found.bytes)
    }

    /// The last version is the one that counts.
    pub fn version(self) -> u64
        ensures { result ≡ version_of (layer_seen self.entry) }
    {
        last_value_in_layer(self.layer, VERSION).unwrap_or(DEFAULT_VERSION)
    }

    /// The last extent is the one that counts.
    pub fn extent(self) -> u64
        ensures { result ≡ extent_of (layer_seen self.entry) }
    {
        last_value_in_layer(self.layer, EXTENT).unwrap_or(DEFAULT_EXTENT)
    }

    /// The features, in order.
    pub fn features(self) -> FeatureViews<'a>
        ensures items { result ≡ found_features (layer_seen self.entry).items }
        ensures bound { length result < 2 ^ 64 }
    {
        let items = self.layer.items.as_slice();
        FeatureViews::of(up_to_features(items, self.layer.items.runs().messages))
    }

    /// The features, in order, to be looked up by their ids.
    pub(crate) fn hashed_features(self) -> HashedFeatures<'a>
        ensures { result ≡ found_features (layer_seen self.entry).items }
    {
        HashedFeatures::of(self.layer)
    }

    /// The keys, in order.
    pub fn keys(self) -> Contents<'a>
        ensures items { result ≡ keys (layer_seen self.entry) }
        ensures bound { length result < 2 ^ 64 }
    {
        Contents::of(self.layer, KEYS)
    }

    /// The values, in order. Each is the bytes of a Value message.
    pub fn values(self) -> Contents<'a>
        ensures items { result ≡ values (layer_seen self.entry) }
        ensures bound { length result < 2 ^ 64 }
    {
        Contents::of(self.layer, VALUES)
    }

    /// The keys, in order, each with its ordinal and its position.
    pub fn key_entries(self) -> Entries<'a>
        ensures items { result ≡ found_keys (layer_seen self.entry) }
        ensures bound { length result < 2 ^ 64 }
    {
        Entries::of(self.layer, KEYS)
    }

    /// The values, in order, each with its ordinal and its position.
    pub fn value_entries(self) -> Entries<'a>
        ensures items { result ≡ found_values (layer_seen self.entry) }
        ensures bound { length result < 2 ^ 64 }
    {
        Entries::of(self.layer, VALUES)
    }

    /// The first key that is these bytes.
    pub fn first_key(self, key: &[u8]) -> Option<FoundEntry<'a>>
        ensures { option_map found_entry_seen result ≡ first_equal key.now (found_keys (layer_seen self.entry)) }
    {
        self.find_key(key).ok()
    }

    /// The first value that is these bytes.
    pub fn first_value(self, value: &[u8]) -> Option<FoundEntry<'a>>
        ensures { option_map found_entry_seen result ≡ first_equal value.now (found_values (layer_seen self.entry)) }
    {
        self.find_value(value).ok()
    }

    /// The first key that is these bytes, or how many keys there are.
    pub fn find_key(self, key: &[u8]) -> Result<FoundEntry<'a>, usize>
        ensures found { option_map found_entry_seen (result_ok result) ≡ first_equal key.now (found_keys (layer_seen self.entry)) }
        ensures count { IfErr result (λ count. count ≡ length (keys (layer_seen self.entry))) }
    {
        let items = self.layer.items.as_slice();
        let runs = self.layer.items.runs();
        first_equal(items, runs.keys, runs.messages, KEYS, key)
    }

    /// The first value that is these bytes, or how many values there are.
    pub fn find_value(self, value: &[u8]) -> Result<FoundEntry<'a>, usize>
        ensures found { option_map found_entry_seen (result_ok result) ≡ first_equal value.now (found_values (layer_seen self.entry)) }
        ensures count { IfErr result (λ count. count ≡ length (values (layer_seen self.entry))) }
    {
        let items = self.layer.items.as_slice();
        let runs = self.layer.items.runs();
        first_equal(items, runs.values, runs.messages, VALUES, value)
    }

    pub fn feature_count(self) -> usize
        ensures { result ≡ length (features (layer_seen self.entry)) }
    {
        let features = self.layer.items.runs().messages;
        features.count + FeatureViews::following(self.layer.items.as_slice(), features).count()
    }

    pub fn key_count(self) -> usize
        ensures { result ≡ length (keys (layer_seen self.entry)) }
    {
        let items = self.layer.items.as_slice();
        let runs = self.layer.items.runs();
        entry_count(items, runs.keys, runs.messages, KEYS)
    }

    pub fn value_count(self) -> usize
        ensures { result ≡ length (values (layer_seen self.entry)) }
    {
        let items = self.layer.items.as_slice();
        let runs = self.layer.items.runs();
        entry_count(items, runs.values, runs.messages, VALUES)
    }

    /// How many keys and how many values there are.
    pub fn pool_sizes(self) -> PoolSizes
        ensures keys { result.keys ≡ length (keys (layer_seen self.entry)) }
        ensures values { result.values ≡ length (values (layer_seen self.entry)) }
    {
        PoolSizes {
            keys: self.key_count(),
            values: self.value_count(),
        }
    }

    /// The feature with this ordinal.
    pub fn feature(self, ordinal: usize) -> Option<FoundFeature<'a>>
        ensures { option_map found_feature_seen result ≡ slice_get (found_features (layer_seen self.entry).items) ordinal }
    {
        let items = self.layer.items.as_slice();
        let features = self.layer.items.runs().messages;
        if ordinal < features.count {
            return feature_in_run(items, features, ordinal);
        }
        FeatureViews::following(items, features).nth(ordinal - features.count)
    }

    /// The key with this ordinal.
    pub fn key(self, ordinal: usize) -> Option<&'a [u8]>
        ensures { option_copied result ≡ slice_get (keys (layer_seen self.entry)) ordinal }
    {
        let items = self.layer.items.as_slice();
        let runs = self.layer.items.runs();
        entry(items, runs.keys, runs.messages, KEYS, ordinal)
    }

    /// The value with this ordinal.
    pub fn value(self, ordinal: usize) -> Option<&'a [u8]>
        ensures { option_copied result ≡ slice_get (values (layer_seen self.entry)) ordinal }
    {
        let items = self.layer.items.as_slice();
        let runs = self.layer.items.runs();
        entry(items, runs.values, runs.messages, VALUES, ordinal)
    }
}

/// A feature of a layer.
#[derive(Clone, Copy, Debug)]
pub struct FeatureView<'a> {
    feature: &'a Feature,
}

impl<'a> FeatureView<'a> {
    /// The view of a feature.
    pub fn of(feature: &'a Feature) -> FeatureView<'a>
        ensures { feature_seen result ≡ feature_of feature.now }
    {
        FeatureView { feature }
    }

    /// The last id is the one that counts.
    pub fn id(self) -> Option<u64>
        ensures { result ≡ id_of (feature_seen self.entry) }
    {
        self.feature.id()
    }

    /// The last kind is the one that counts.
    pub fn kind(self) -> u64
        ensures { result ≡ kind_of (feature_seen self.entry) }
    {
        last_value(self.feature.fields(), KIND).unwrap_or(DEFAULT_KIND)
    }

    /// The tags, in order: keys and values in turn, by their ordinals.
    pub fn tags(self) -> Numbers<'a>
        ensures { result ≡ numbers 2 (feature_seen self.entry).fields }
    {
        Numbers::of(self.feature.fields(), TAGS)
    }

    /// The tags in pairs, in order, where `sizes` is how many keys and values the layer has.
    pub fn tag_pairs(self, sizes: PoolSizes) -> TagPairs<'a>
        ensures { result ≡ tag_pairs sizes.keys sizes.values (numbers 2 (feature_seen self.entry).fields) }
    {
        TagPairs::of(self.tags(), sizes)
    }

    /// The numbers of the geometry, in order.
    pub fn geometry_numbers(self) -> Numbers<'a>
        ensures { result ≡ numbers 4 (feature_seen self.entry).fields }
    {
        Numbers::of(self.feature.fields(), GEOMETRY)
    }
}
