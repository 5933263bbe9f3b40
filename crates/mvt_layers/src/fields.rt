//! What a field holds, and the items of a message that hold something.

ghost use Rattle.std.specs.Prelude.{◌≡◌, ℕ, ◌+◌, ◌^◌, ◌<◌, ◌≤◌, ◌∷◌, [], ◌++◌, length, map, max, option_map, slice_get, IfSome, MatchOption};
ghost use Rattle.std.specs.List.{filter_map, last_or};
ghost use Rattle.std.specs.Option.{option_copied};
ghost use Rattle.mvt_document.specs.declared.run.Kind.TheVariants.{Message};
ghost use Rattle.mvt_document.specs.Kinds.{in_layer_of_kind, in_tile_of_kind};
ghost use Rattle.mvt_document.specs.Runs.{IsRunOf};
ghost use Rattle.mvt_document.specs.Stands.{feature_of, field_of, layer_item_of, layer_of, tile_item_of};
ghost use Rattle.mvt_messages.specs.Found.{found_features, found_in, placed_from};
ghost use Rattle.mvt_layers.specs.Pools.{entry_in};
ghost use Rattle.mvt_layers.specs.Seen.{found_feature_seen, found_layer_seen};
ghost use Rattle.mvt_layers.specs.WithId.{IsFirstWithId, IsPlacedIn};
ghost use Rattle.mvt_messages.specs.Views.{content_in, contents, feature_in, has_id, last_value, layer_in, plain_fields, value_in};

use crate::found::{FoundFeature, FoundLayer};
use mvt_document::{BodyRef, Feature, Field, Layer, LayerItem, Run, TileItem, value_in};

/// The content of a LEN field of this number.
fn content_in(field: &Field, number: u64) -> Option<&[u8]>
    ensures { option_copied result ≡ content_in number (field_of field.now) }
{
    if field.number() != number {
        return None;
    }
    match field.body() {
        BodyRef::Bytes { bytes, .. } => Some(bytes),
        _ => None,
    }
}

/// The items of a layer before the run of its features and those after it.
pub(crate) fn beside_features(layer: &Layer) -> (&[LayerItem], &[LayerItem])
    ensures items { plain_fields (layer_of layer.now).items ≡ plain_fields (map layer_item_of result.0.now) ++ plain_fields (map layer_item_of result.1.now) }
    ensures fits { length result.0.now + length result.1.now < 2 ^ 64 }
{
    beside_run(layer.items.as_slice(), layer.items.runs().messages)
}

/// The items before this run of features and those after it.
#[tactic(auto, using(crate::proofs::InRun::run_within))]
fn beside_run(items: &[LayerItem], features: Run) -> (&[LayerItem], &[LayerItem])
    requires { IsRunOf (in_layer_of_kind Message) features items.now }
    ensures items { plain_fields (map layer_item_of items.now) ≡ plain_fields (map layer_item_of result.0.now) ++ plain_fields (map layer_item_of result.1.now) }
    ensures fits { length result.0.now + length result.1.now < 2 ^ 64 }
{
    (
        &items[..features.first],
        &items[features.first + features.count..],
    )
}

/// The value of the last VARINT field of this number among the fields of a layer.
pub(crate) fn last_value_in_layer(layer: &Layer, number: u64) -> Option<u64>
    ensures { result ≡ last_value number (plain_fields (layer_of layer.now).items) }
{
    let (front, back) = beside_features(layer);
    let last = last_value_in_items(None, front, number);
    last_value_in_items(last, back, number)
}

/// The same among items of a layer; the previous one if there is none.
fn last_value_in_items(before: Option<u64>, items: &[LayerItem], number: u64) -> Option<u64>
    ensures { result ≡ last_or before (filter_map (value_in number) (plain_fields (map layer_item_of items.now))) }
{
    let mut last = before;
    for item in items {
        if let LayerItem::Plain(plain) = item {
            last = value_in(plain, number).or(last);
        }
    }
    last
}

/// The first layer from `start` on, and its position.
pub(crate) fn first_layer(items: &[TileItem], start: usize) -> Option<(usize, &Layer)>
    requires { start ≤ length items.now }
    ensures found { MatchOption result (placed_from layer_in start (map tile_item_of items.now) ≡ []) (λ found. placed_from layer_in start (map tile_item_of items.now) ≡ (found.0, layer_of found.1.now) ∷ placed_from layer_in (found.0 + 1) (map tile_item_of items.now)) }
    ensures within { IfSome result (λ found. (start ≤ found.0) × (found.0 < length items.now)) }
{
    for position in start..items.len() {
        if let TileItem::Layer(layer) = &items[position] {
            return Some((position, layer));
        }
    }
    None
}

/// The first feature from `start` on, and its position.
pub(crate) fn first_feature(items: &[LayerItem], start: usize) -> Option<(usize, &Feature)>
    requires { start ≤ length items.now }
    ensures found { MatchOption result (placed_from feature_in start (map layer_item_of items.now) ≡ []) (λ found. placed_from feature_in start (map layer_item_of items.now) ≡ (found.0, feature_of found.1.now) ∷ placed_from feature_in (found.0 + 1) (map layer_item_of items.now)) }
    ensures within { IfSome result (λ found. (start ≤ found.0) × (found.0 < length items.now)) }
{
    for position in start..items.len() {
        if let LayerItem::Feature(feature) = &items[position] {
            return Some((position, feature));
        }
    }
    None
}

/// The items up to the last feature, if it is known which that is; else all.
#[tactic(auto, using(crate::proofs::InRun::run_within))]
pub(crate) fn up_to_features(items: &[LayerItem], features: Run) -> &[LayerItem]
    requires { IsRunOf (in_layer_of_kind Message) features items.now }
    ensures { found_features (map layer_item_of result.now) ≡ found_features (map layer_item_of items.now) }
{
    if features.until < items.len() {
        return items;
    }
    &items[..features.first + features.count]
}

/// The first feature that has this id from `start` on, where the first from there on has the
/// ordinal `first`.
pub(crate) fn first_with_id(
    items: &[LayerItem],
    id: u64,
    start: usize,
    first: usize,
) -> Option<FoundFeature<'_>>
    requires there { start ≤ length items.now }
    requires before { first ≤ start }
    ensures found { IsFirstWithId id first start (map layer_item_of items.now) [] result }
    ensures within { IfSome result (IsPlacedIn items.now) }
{
    let mut ordinal = first;
    for position in start..items.len() {
        if let LayerItem::Feature(feature) = &items[position] {
            if has_id(feature, id) {
                return Some(FoundFeature {
                    ordinal,
                    position,
                    feature,
                });
            }
            ordinal += 1;
        }
    }
    None
}

#[inline(always)]
pub(crate) fn has_id(feature: &Feature, id: u64) -> bool
    ensures { result ≡ has_id id (feature_of feature.now) }
{
    match feature.id() {
        Some(found) => found == id,
        None => false,
    }
}

/// The feature with this ordinal, which is one of the run.
pub(crate) fn feature_in_run(
    items: &[LayerItem],
    features: Run,
    ordinal: usize,
) -> Option<FoundFeature<'_>>
    requires run { IsRunOf (in_layer_of_kind Message) features items.now }
    requires there { ordinal < features.count }
    ensures { option_map found_feature_seen result ≡ slice_get (found_features (map layer_item_of items.now)) ordinal }
{
    let position = features.first + ordinal;
    match &items[position] {
        LayerItem::Feature(feature) => Some(FoundFeature {
            ordinal,
            position,
            feature,
        }),
        LayerItem::Plain(_) => None,
    }
}

/// The layer with this ordinal, which is one of the run.
pub(crate) fn layer_in_run(
    items: &[TileItem],
    layers: Run,
    ordinal: usize,
) -> Option<FoundLayer<'_>>
    requires run { IsRunOf (in_tile_of_kind Message) layers items.now }
    requires there { ordinal < layers.count }
    ensures { option_map found_layer_seen result ≡ slice_get (found_in layer_in (map tile_item_of items.now)) ordinal }
{
    let position = layers.first + ordinal;
    match &items[position] {
        TileItem::Layer(layer) => Some(FoundLayer {
            ordinal,
            position,
            layer,
        }),
        TileItem::Plain(_) => None,
    }
}

/// The content of an item that is a LEN field of this number.
pub(crate) fn entry_in(item: &LayerItem, number: u64) -> Option<&[u8]>
    ensures { option_copied result ≡ entry_in number (layer_item_of item.now) }
{
    match item {
        LayerItem::Plain(field) => content_in(field, number),
        LayerItem::Feature(_) => None,
    }
}

/// Where the run of features begins and where it ends, or `start` where that is further on. No item
/// in between is an entry.
#[tactic(auto, using(crate::proofs::InRun::run_within))]
pub(crate) fn features_from(items: &[LayerItem], features: Run, start: usize) -> (usize, usize)
    requires there { start ≤ length items.now }
    requires run { IsRunOf (in_layer_of_kind Message) features items.now }
    ensures first { result.0 ≡ max start features.first }
    ensures end { result.1 ≡ max start (features.first + features.count) }
    ensures within { result.1 ≤ length items.now }
    ensures passed { (number : ℕ) → placed_from (entry_in number) result.0 (map layer_item_of items.now) ≡ placed_from (entry_in number) result.1 (map layer_item_of items.now) }
{
    (
        start.max(features.first),
        start.max(features.first + features.count),
    )
}

/// The content of the first LEN field of this number from `start` on, and its position. The run of
/// features is skipped.
pub(crate) fn first_entry(
    items: &[LayerItem],
    features: Run,
    number: u64,
    start: usize,
) -> Option<(usize, &[u8])>
    requires there { start ≤ length items.now }
    requires features { IsRunOf (in_layer_of_kind Message) features items.now }
    ensures found { MatchOption result (placed_from (entry_in number) start (map layer_item_of items.now) ≡ []) (λ found. placed_from (entry_in number) start (map layer_item_of items.now) ≡ (found.0, found.1.now) ∷ placed_from (entry_in number) (found.0 + 1) (map layer_item_of items.now)) }
    ensures within { IfSome result (λ found. (start ≤ found.0) × (found.0 < length items.now)) }
{
    let (end, following) = features_from(items, features, start);
    match entry_before(items, number, start, end) {
        Some(found) => Some(found),
        None => entry_before(items, number, following, items.len()),
    }
}

/// The same from `start` to `end`.
fn entry_before(
    items: &[LayerItem],
    number: u64,
    start: usize,
    end: usize,
) -> Option<(usize, &[u8])>
    requires order { start ≤ end }
    requires there { end ≤ length items.now }
    ensures found { MatchOption result (placed_from (entry_in number) start (map layer_item_of items.now) ≡ placed_from (entry_in number) end (map layer_item_of items.now)) (λ found. placed_from (entry_in number) start (map layer_item_of items.now) ≡ (found.0, found.1.now) ∷ placed_from (entry_in number) (found.0 + 1) (map layer_item_of items.now)) }
    ensures within { IfSome result (λ found. (start ≤ found.0) × (found.0 < end)) }
{
    for position in start..end {
        if let Some(content) = entry_in(&items[position], number) {
            return Some((position, content));
        }
    }
    None
}

/// The content of the first LEN field of this number, and the items after it.
pub(crate) fn first_content(items: &[LayerItem], number: u64) -> Option<(&[u8], &[LayerItem])>
    ensures { MatchOption result (contents number (plain_fields (map layer_item_of items.now)) ≡ []) (λ found. contents number (plain_fields (map layer_item_of items.now)) ≡ found.0.now ∷ contents number (plain_fields (map layer_item_of found.1.now))) }
{
    let mut rest = items;
    while let Some((item, following)) = rest.split_first() {
        if let LayerItem::Plain(field) = item {
            if let Some(content) = content_in(field, number) {
                return Some((content, following));
            }
        }
        rest = following;
    }
    None
}
