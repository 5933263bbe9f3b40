//! The items of a message, read in one pass by one loop for all three kinds of message.

ghost use Rattle.std.specs.Prelude.{◌≡◌, ℕ, ◌++◌, List, length, refl, IfOk, IfErr, IsErrOf};
ghost use Rattle.std.specs.List.{flat_map, AllByRecursion};
ghost use Rattle.mvt_document.specs.Plain.{Field as PlainField};
ghost use Rattle.mvt_document.specs.Wire.{field_bytes};
ghost use Rattle.mvt_document.specs.Parts.{IsWholeField, IsWholeLayerItem, IsWholeTileItem, layer_item_field, tile_item_field, MakesLayerItem, MakesTileItem};
ghost use Rattle.mvt_wire.specs.Stops.{EndsAt, IsReadError};
ghost use Rattle.mvt_wire.specs.Fronts.{front_of};
ghost use Rattle.mvt_wire.specs.declared.decode.Fault.TheVariants as faults;
ghost use Rattle.mvt_document.specs.declared.document.LayerItem.TheVariants as in_layer;
ghost use Rattle.mvt_document.specs.declared.document.TileItem.TheVariants as in_tile;
ghost use Rattle.mvt_document.specs.Stands.{field_of, layer_item_of, tile_item_of};

use crate::faults::ReadError;
use crate::front::{FieldRef, field_at_front};
use mvt_document::tags::{FEATURE_TAG, LAYER_TAG};
use mvt_document::{
    BodyRef, Feature, FeatureParts, Field, Items, Layer, LayerItem, Measured, Message, MessageTag,
    TileItem,
};
use std::alloc::{AllocError, Global};

/// How many bytes the shortest field takes: one for its tag, and one for its body.
const SHORTEST_FIELD: usize = 2;

/// How many fields of a feature there is room for at first, if its bytes can hold that many:
/// usually it has an id, tags, a kind and a geometry.
const FIRST_FIELDS: usize = 4;

/// The same for the items of a layer, or of a tile: usually a layer has a name, a version and an extent in
/// addition to its features, keys and values.
pub(crate) const FIRST_ITEMS: usize = 8;

/// The least number of items of a long list.
const LONG_LIST: usize = 1024;

/// Why an item of a message could not be made.
#[derive(Debug, Drop)]
pub(crate) enum Fault {
    /// The bytes of the item are not those of one of its kind.
    Broken,
    NoMemory,
}

impl From<AllocError> for Fault {
    ghost from_gives = { λ _ e. e ≡ faults.NoMemory };

    fn from(_e: AllocError) -> Fault {
        Fault::NoMemory
    }
}

/// An item of a message, made of the field in its place.
pub(crate) trait Decode: Measured + Drop + Sized {
    /// The field that the item is.
    ghost as_field: { Self → PlainField };

    /// It is valid, and each of its lengths is spelled in its stored width.
    ghost is_whole: { Self → Type 0 };

    /// The field is such an item.
    ghost makes: { PlainField → Type 0 };

    fn decode(alloc: Global, front: FieldRef<'_>) -> Result<Self, Fault>
        requires { IsWholeField (front_of front) }
        ensures made { IfOk result (λ item. as_field item ≡ front_of front.entry) }
        ensures whole { IfOk result is_whole }
        ensures broken { IsErrOf result Fault.Broken → makes (front_of front.entry) → ⊥ };

    /// Its bytes are those of the field.
    ghost same_bytes: { (item : Self) → field_bytes (as_field item) ≡ Self.bytes item };
}

/// The items whose bytes are the content of a message, with room for `room` of them at first, if
/// the content can hold that many. The place of a fault is where the first thing that is not an
/// item begins.
pub(crate) fn decode_all<T: Decode>(
    alloc: Global,
    content: &[u8],
    room: usize,
) -> Result<Vec<T>, ReadError>
    ensures spelled { IfOk result (λ items. content.now ≡ flat_map (λ i. field_bytes (T.as_field i)) items.items) }
    ensures whole { IfOk result (λ items. AllByRecursion T.is_whole items.items) }
    ensures stops { IfErr result (IsReadError (EndsAt T.as_field T.is_whole T.makes content.now)) }
{
    let most = content.len() / SHORTEST_FIELD;
    let mut items = Vec::with_capacity(alloc, most.min(room))?;
    let mut place = 0;
    while place < content.len() {
        // Room first, so that an item is made where it stays.
        items.reserve(1)?;
        let Some((front, length)) = field_at_front(&content[place..]) else {
            return Err(ReadError::BadWire { place });
        };
        match T::decode(alloc, front) {
            Ok(item) => items.push_reserved(item),
            Err(Fault::Broken) => return Err(ReadError::BadWire { place }),
            Err(Fault::NoMemory) => return Err(ReadError::NoMemory),
        }
        place += length;
    }
    give_back(&mut items);
    Ok(items)
}

/// Gives back the unused room of a long list, so that splices of it stay in the memory that its items fill.
fn give_back<T>(items: &mut Vec<T>)
    ensures { items.new.items ≡ items.old.items }
{
    if items.len() >= LONG_LIST {
        items.shrink_to_fit();
    }
}

/// The items of a message inside an item.
fn decode_inside<T: Decode>(alloc: Global, content: &[u8], room: usize) -> Result<Vec<T>, Fault>
    ensures spelled { IfOk result (λ items. content.now ≡ flat_map (λ i. field_bytes (T.as_field i)) items.items) }
    ensures whole { IfOk result (λ items. AllByRecursion T.is_whole items.items) }
    ensures broken { IsErrOf result Fault.Broken → (fields : List PlainField) → AllByRecursion IsWholeField fields → AllByRecursion T.makes fields → content.now ≡ flat_map field_bytes fields → ⊥ }
{
    match decode_all(alloc, content, room) {
        Ok(items) => Ok(items),
        Err(ReadError::NoMemory) => Err(Fault::NoMemory),
        Err(_) => Err(Fault::Broken),
    }
}

impl Decode for Field {
    ghost as_field = { field_of };

    ghost is_whole = { λ f. IsWholeField (field_of f) };

    ghost makes = { IsWholeField };

    fn decode(alloc: Global, front: FieldRef<'_>) -> Result<Self, Fault> {
        Ok(front.to_field(alloc)?)
    }

    ghost same_bytes = { λ _. refl };
}

impl Decode for LayerItem {
    ghost as_field = { λ i. layer_item_field (layer_item_of i) };

    ghost is_whole = { λ i. IsWholeLayerItem (layer_item_of i) };

    ghost makes = { MakesLayerItem };

    fn decode(alloc: Global, front: FieldRef<'_>) -> Result<Self, Fault> {
        match front.body {
            BodyRef::Bytes { width, bytes } if front.tag.value == FEATURE_TAG => {
                Ok(LayerItem::Feature(Feature::new(FeatureParts {
                    tag: MessageTag::new(front.tag),
                    width,
                    fields: Items::from_vec(decode_inside(alloc, bytes, FIRST_FIELDS)?),
                })))
            }
            _ => Ok(LayerItem::Plain(front.to_field(alloc)?)),
        }
    }

    ghost same_bytes = { elim [ in_layer.Feature _ ↦ refl | in_layer.Plain _ ↦ refl ] };
}

impl Decode for TileItem {
    ghost as_field = { λ i. tile_item_field (tile_item_of i) };

    ghost is_whole = { λ i. IsWholeTileItem (tile_item_of i) };

    ghost makes = { MakesTileItem };

    fn decode(alloc: Global, front: FieldRef<'_>) -> Result<Self, Fault> {
        match front.body {
            BodyRef::Bytes { width, bytes } if front.tag.value == LAYER_TAG => {
                Ok(TileItem::Layer(Layer {
                    tag: MessageTag::new(front.tag),
                    width,
                    items: Message::of_size(decode_inside(alloc, bytes, FIRST_ITEMS)?, bytes.len()),
                }))
            }
            _ => Ok(TileItem::Plain(front.to_field(alloc)?)),
        }
    }

    ghost same_bytes = { elim [ in_tile.Layer _ ↦ refl | in_tile.Plain _ ↦ refl ] };
}
