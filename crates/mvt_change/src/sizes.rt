//! `fits_after`, and what a file can hold if a list has items of a given size: the sizes of a tile,
//! of a layer and of a feature with a part of their items exchanged, or with others of a known
//! size. Nothing is carried out: of a list whose size is kept, only the part that a step exchanges
//! is measured.

ghost use Rattle.std.specs.Prelude.{◌≡◌, ℕ, ◌+◌, ◌<◌, List, ◌++◌, Some, IfSome, IsSome, length, map, nat_lt, not, slice_get};
ghost use Rattle.std.specs.List.{flat_map};
ghost use Rattle.std.specs.Option.{IsSomeAnd};
ghost use Rattle.mvt_document.specs.declared.TheConstants.{MAX_FILE};
ghost use Rattle.mvt_document.specs.Plain as plain;
ghost use Rattle.mvt_document.specs.Wire.{bytes_of, field_bytes, layer_item_bytes};
ghost use Rattle.mvt_document.specs.Stands.{document_of, feature_of, field_of, layer_item_of, layer_of};
ghost use Rattle.mvt_document.specs.Kept.{bytes_beside};
ghost use Rattle.mvt_document.specs.Splicing.{splice};
ghost use Rattle.mvt_document.specs.Lists.{HasPart, change_at};
ghost use Rattle.mvt_document.specs.Places.{change_fields, change_items, fields_at, fields_in_at, in_feature, items_at};
ghost use Rattle.mvt_change.specs.ChangeStands.{step_of};
ghost use Rattle.mvt_change.specs.Changes.{FitsStep, go_step};
ghost use Rattle.mvt_change.specs.FileSizes.{IsFileSize};

use crate::change::Step;
use mvt_document::{
    Document, Feature, Field, Item, Layer, LayerItem, MAX_FILE, Measured, Message, TileItem,
    message_size, size_beside_part, size_of_all, sum_within,
};

/// A file can hold the tile once the step is carried out on it.
pub fn fits_after(document: &Document, step: &Step) -> bool
    requires { FitsStep (step_of step.now) (document_of document.now) }
    ensures { result ≡ not (nat_lt MAX_FILE (length (bytes_of (go_step (step_of step.now) (document_of document.now))))) }
{
    size_after(document, step).is_some()
}

/// A file can hold the tile once the layer at this position has items of this size, whichever they
/// are. `None` stands for a size that no file can hold.
pub fn fits_with_items(document: &Document, layer: usize, items: Option<usize>) -> bool
    requires { IsSome (items_at layer (document_of document.now)) }
    ensures { (change : List plain.LayerItem → List plain.LayerItem) → IfSome (items_at layer (document_of document.now)) (λ old. IsFileSize items (length (flat_map layer_item_bytes (change old)))) →
        result ≡ not (nat_lt MAX_FILE (length (bytes_of (change_items change layer (document_of document.now))))) }
{
    tile_size(document, layer, items).is_some()
}

/// How many bytes the items of the layer take once the feature at this position has fields of this
/// size and items of that size come at the layer's end, if that is within the limit of a file.
pub fn size_with_fields(
    layer: &Layer,
    item: usize,
    fields: Option<usize>,
    following: Option<usize>,
) -> Option<usize>
    requires { IsSome (fields_in_at item (layer_of layer.now).items) }
    ensures { (change : List plain.Field → List plain.Field) (more : List plain.LayerItem) →
        IfSome (fields_in_at item (layer_of layer.now).items) (λ old. IsFileSize fields (length (flat_map field_bytes (change old)))) → IsFileSize following (length (flat_map layer_item_bytes more)) →
        IsFileSize result (length (flat_map layer_item_bytes (change_at (in_feature change) item (layer_of layer.now).items ++ more))) }
{
    sum_within(items_size(layer, item, fields)?, following?, MAX_FILE)
}

/// How many bytes the tile takes once the step is carried out on it, if that is within the limit of
/// a file.
fn size_after(document: &Document, step: &Step) -> Option<usize>
    requires { FitsStep (step_of step.now) (document_of document.now) }
    ensures { IsFileSize result (length (bytes_of (go_step (step_of step.now) (document_of document.now)))) }
{
    match step {
        Step::InTile { index, take, put } => {
            let beside = document
                .items
                .size_beside_part(*index as usize, *take, MAX_FILE);
            size_and(beside, put.as_slice())
        }
        Step::InLayer {
            layer,
            index,
            take,
            put,
        } => tile_with_items(document, *layer, *index, *take, put.as_slice()),
        Step::InFeature {
            layer,
            item,
            index,
            take,
            put,
        } => tile_with_fields(document, *layer, *item, *index, *take, put.as_slice()),
        Step::Move { .. } => document.items.size(),
    }
}

/// How many bytes the tile takes once `taken` items of a layer from `index` are exchanged for the
/// ones to put, if that is within the limit of a file.
fn tile_with_items(
    document: &Document,
    layer: usize,
    index: usize,
    taken: usize,
    put: &[LayerItem],
) -> Option<usize>
    requires { IsSomeAnd (items_at layer (document_of document.now)) (HasPart index taken) }
    ensures { IsFileSize result (length (bytes_of (change_items (splice index taken (map layer_item_of put.now)) layer (document_of document.now)))) }
{
    let holder = layer_at(document, layer);
    let beside = holder.items.size_beside_part(index, taken, MAX_FILE);
    tile_size(document, layer, size_and(beside, put))
}

/// How many bytes the tile takes once `taken` fields of a feature from `index` are exchanged for
/// the ones to put, if that is within the limit of a file.
fn tile_with_fields(
    document: &Document,
    layer: usize,
    item: usize,
    index: usize,
    taken: usize,
    put: &[Field],
) -> Option<usize>
    requires { IsSomeAnd (fields_at layer item (document_of document.now)) (HasPart index taken) }
    ensures { IsFileSize result (length (bytes_of (change_fields (splice index taken (map field_of put.now)) layer item (document_of document.now)))) }
{
    let holder = layer_at(document, layer);
    let fields = feature_at(holder, item).fields();
    let beside = size_beside_part(fields, index, taken, MAX_FILE);
    let items = items_size(holder, item, size_and(beside, put));
    tile_size(document, layer, items)
}

/// The sum of `beside` and the size of the items to put, if it is within the limit of a file.
fn size_and<T: Measured>(beside: Option<usize>, put: &[T]) -> Option<usize>
    ensures { (size : ℕ) → IsFileSize beside size → IsFileSize result (size + length (flat_map T.bytes put.now)) }
{
    sum_within(beside?, size_of_all(put, MAX_FILE)?, MAX_FILE)
}

/// How many bytes the tile takes once the layer at this position has items of this size, if that is
/// within the limit of a file.
fn tile_size(document: &Document, layer: usize, items: Option<usize>) -> Option<usize>
    requires { IsSome (items_at layer (document_of document.now)) }
    ensures { (change : List plain.LayerItem → List plain.LayerItem) → IfSome (items_at layer (document_of document.now)) (λ old. IsFileSize items (length (flat_map layer_item_bytes (change old)))) →
        IsFileSize result (length (bytes_of (change_items change layer (document_of document.now)))) }
{
    let holder = layer_at(document, layer);
    let size = message_size(holder.tag.to_tag(), holder.width, items?, MAX_FILE)?;
    size_with(&document.items, layer, size)
}

/// How many bytes the items of the layer take once the feature at this position has fields of this
/// size, if that is within the limit of a file.
fn items_size(layer: &Layer, item: usize, fields: Option<usize>) -> Option<usize>
    requires { IsSome (fields_in_at item (layer_of layer.now).items) }
    ensures { (change : List plain.Field → List plain.Field) → IfSome (fields_in_at item (layer_of layer.now).items) (λ old. IsFileSize fields (length (flat_map field_bytes (change old)))) →
        IsFileSize result (length (flat_map layer_item_bytes (change_at (in_feature change) item (layer_of layer.now).items))) }
{
    let holder = feature_at(layer, item);
    let size = message_size(holder.tag(), holder.width(), fields?, MAX_FILE)?;
    size_with(&layer.items, item, size)
}

/// How many bytes the items take once the one at this index takes `size`, if that is within the
/// limit of a file.
fn size_with<T: Item>(items: &Message<T>, index: usize, size: usize) -> Option<usize>
    requires { index < length items.now.items }
    ensures { IsFileSize result (bytes_beside T.bytes index items.now.items + size) }
{
    let beside = items.size_beside_part(index, 1, MAX_FILE)?;
    sum_within(beside, size, MAX_FILE)
}

/// The layer at this position of the tile.
fn layer_at(document: &Document, position: usize) -> &Layer
    requires { IsSome (items_at position (document_of document.now)) }
    ensures { slice_get (document_of document.now) position ≡ Some (plain.OfLayer (layer_of result.now)) }
{
    match &document.items.as_slice()[position] {
        TileItem::Layer(layer) => layer,
        TileItem::Plain(_) => unreachable!(),
    }
}

/// The feature at this position of the layer.
fn feature_at(layer: &Layer, position: usize) -> &Feature
    requires { IsSome (fields_in_at position (layer_of layer.now).items) }
    ensures { slice_get (layer_of layer.now).items position ≡ Some (plain.OfFeature (feature_of result.now)) }
{
    match &layer.items.as_slice()[position] {
        LayerItem::Feature(feature) => feature,
        LayerItem::Plain(_) => unreachable!(),
    }
}
