//! The features of a layer that have an id, by the hashes of the ids.

ghost use Rattle.std.specs.Prelude.{◌≡◌, ◌+◌, ◌-◌, ◌<◌, ◌≤◌, ◌∷◌, [], Some, length, map, option_map, IfSome, MatchOption};
ghost use Rattle.mvt_document.specs.declared.run.Kind.TheVariants.{Message};
ghost use Rattle.mvt_document.specs.Hashes.{AreHashes, hash_of};
ghost use Rattle.mvt_document.specs.Kinds.{in_layer_of_kind, layer_item_hash};
ghost use Rattle.mvt_document.specs.Runs.{IsRunOf};
ghost use Rattle.mvt_document.specs.Stands.{feature_of, layer_item_of};
ghost use Rattle.mvt_messages.specs.Found.{found_from, with_id};
ghost use Rattle.mvt_messages.specs.Views.{feature_in};
ghost use Rattle.mvt_layers.specs.Seen.{found_feature_seen};
ghost use Rattle.mvt_layers.specs.WithId.{feature_with_id, with_id_from, IsFirstWithId, IsPlacedIn};

use crate::fields::{first_with_id, has_id};
use crate::found::FoundFeature;
use mvt_document::{Feature, Layer, LayerItem, Run, hash_of};
use std::marker::Model;

/// The features of a layer, in order, to be looked up by their ids: those of the run by the hashes of the ids, so
/// that only those with the same hash are looked at. Contracts see those that are left.
#[derive(Drop)]
pub(crate) struct HashedFeatures<'a> {
    items: &'a [LayerItem],
    features: Run,
    hashes: &'a [u32],
    // Where the search for the next one starts, and its ordinal.
    position: usize,
    ordinal: usize,
}

impl<'a> Model for HashedFeatures<'a> {
    ghost use Rattle.std.specs.Prelude.{ℕ, ◌≤◌, List, length, map};
    ghost use Rattle.mvt_document.specs.declared.run.Kind.TheVariants.{Message};
    ghost use Rattle.mvt_document.specs.Hashes.{AreHashes};
    ghost use Rattle.mvt_document.specs.Kinds.{in_layer_of_kind, layer_item_hash};
    ghost use Rattle.mvt_document.specs.Plain.{Feature};
    ghost use Rattle.mvt_document.specs.Runs.{IsRunOf};
    ghost use Rattle.mvt_document.specs.Stands.{layer_item_of};
    ghost use Rattle.mvt_messages.specs.Found.{found_from};
    ghost use Rattle.mvt_messages.specs.Views.{feature_in};

    ghost Value = { List (ℕ × (ℕ × Feature)) };

    ghost view = { λ l. found_from feature_in l.ordinal l.position (map layer_item_of l.items.now) };

    ghost invariant = { λ l. (l.ordinal ≤ l.position) × (l.position ≤ length l.items.now) × IsRunOf (in_layer_of_kind Message) l.features l.items.now × AreHashes layer_item_hash l.hashes.now l.items.now };
}

impl<'a> HashedFeatures<'a> {
    ghost use Rattle.mvt_document.specs.Stands.{layer_of};
    ghost use Rattle.mvt_messages.specs.Found.{found_features};

    pub(crate) fn of(layer: &'a Layer) -> HashedFeatures<'a>
        ensures { result ≡ found_features (layer_of layer.now).items }
    {
        let features = layer.items.runs().messages;
        HashedFeatures {
            items: layer.items.as_slice(),
            features,
            hashes: layer.items.id_hashes(),
            position: features.first,
            ordinal: 0,
        }
    }

    /// The next one that has this id. Those before it are skipped.
    pub(crate) fn next_with_id(&mut self, id: u64) -> Option<FoundFeature<'a>>
        ensures { MatchOption result (with_id id self.old ≡ []) (λ found. with_id id self.old ≡ found_feature_seen found ∷ with_id id self.new) }
    {
        let (items, features) = (self.items, self.features);
        let found = first_of_id(
            items,
            features,
            self.hashes,
            id,
            self.position,
            self.ordinal,
        )?;
        self.position = found.position + 1;
        self.ordinal = found.ordinal + 1;
        Some(found)
    }
}

/// The first feature that has this id from `start` on, where the first from there on has the
/// ordinal `first`.
fn first_of_id<'a>(
    items: &'a [LayerItem],
    features: Run,
    hashes: &[u32],
    id: u64,
    start: usize,
    first: usize,
) -> Option<FoundFeature<'a>>
    requires there { start ≤ length items.now }
    requires before { first ≤ start }
    requires run { IsRunOf (in_layer_of_kind Message) features items.now }
    requires hashes { AreHashes layer_item_hash hashes.now items.now }
    ensures found { IsFirstWithId id first start (map layer_item_of items.now) [] result }
    ensures within { IfSome result (IsPlacedIn items.now) }
{
    let end = hashes.len().min(features.first + features.count);
    if start < features.first || start >= end {
        return first_beside(items, features, id, start, first);
    }
    match first_hashed(items, features, hashes, id, start, end, first) {
        Some(found) => Some(found),
        None => first_beside(items, features, id, end, first + (end - start)),
    }
}

/// The same, with a look at each feature. Between the end of the run and the end of what is known there is none.
fn first_beside(
    items: &[LayerItem],
    features: Run,
    id: u64,
    start: usize,
    first: usize,
) -> Option<FoundFeature<'_>>
    requires there { start ≤ length items.now }
    requires before { first ≤ start }
    requires run { IsRunOf (in_layer_of_kind Message) features items.now }
    ensures found { IsFirstWithId id first start (map layer_item_of items.now) [] result }
    ensures within { IfSome result (IsPlacedIn items.now) }
{
    if start == features.first + features.count {
        return first_with_id(items, id, features.until, first);
    }
    first_with_id(items, id, start, first)
}

/// The same before a position up to which all are features of the run and have hashes.
fn first_hashed<'a>(
    items: &'a [LayerItem],
    features: Run,
    hashes: &[u32],
    id: u64,
    start: usize,
    end: usize,
    first: usize,
) -> Option<FoundFeature<'a>>
    requires before { first ≤ start }
    requires within { features.first ≤ start }
    requires order { start ≤ end }
    requires hashed { end ≤ length hashes.now }
    requires known { end ≤ features.first + features.count }
    requires run { IsRunOf (in_layer_of_kind Message) features items.now }
    requires hashes { AreHashes layer_item_hash hashes.now items.now }
    ensures found { let all = map layer_item_of items.now in IsFirstWithId id first start all (with_id_from id (first + (end - start)) end all) result }
    ensures within { IfSome result (IsPlacedIn items.now) }
{
    let wanted = hash_of(Some(id));
    for position in start..end {
        if let Some(feature) = hashed_feature(&items[position], hashes[position], wanted, id) {
            return Some(FoundFeature {
                ordinal: first + (position - start),
                position,
                feature,
            });
        }
    }
    None
}

/// The feature that an item is, if it has this id. The hash of the item's id and that of this one are known.
#[inline(always)]
fn hashed_feature(item: &LayerItem, hash: u32, wanted: u32, id: u64) -> Option<&Feature>
    requires item { hash ≡ layer_item_hash item.now }
    requires id { wanted ≡ hash_of (Some id) }
    ensures { option_map (λ feature. feature_of feature.now) result ≡ feature_with_id id (layer_item_of item.now) }
{
    if hash != wanted {
        return None;
    }
    match item {
        LayerItem::Feature(feature) if has_id(feature, id) => Some(feature),
        _ => None,
    }
}
