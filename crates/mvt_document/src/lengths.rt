//! The sizes of the messages of a tile, the kinds of items, and the hashes of their ids. The size of a layer comes from the one
//! that its message keeps.

ghost use Rattle.std.specs.Prelude.{◌≡◌, false, Some};
ghost use Rattle.mvt_document.specs.Wire.{body_bytes, field_bytes, feature_bytes, layer_item_bytes, layer_bytes, tile_item_bytes};
ghost use Rattle.mvt_document.specs.Bodies.{body_seen};
ghost use Rattle.mvt_document.specs.Stands.{field_of, feature_of, layer_item_of, layer_of, tile_item_of};
ghost use Rattle.mvt_document.specs.KindLaws.{one_in_layer, one_in_tile};
ghost use Rattle.mvt_document.specs.Kinds.{in_layer_of_kind, in_tile_of_kind, is_delimited_field, layer_item_has_id, layer_item_hash};

use crate::body::BodyRef;
use crate::document::{Layer, LayerItem, TileItem};
use crate::feature::{Feature, hash_of};
use crate::field::Field;
use crate::item::Item;
use crate::measure::{Measured, delimited_size, message_size, size_of_all, sum_within};
use crate::run::Kind;
use crate::tags::{KEYS, NAME, VALUES};

impl Measured for BodyRef<'_> {
    ghost bytes = { λ b. body_bytes (body_seen b) };

    fn size_within(&self, limit: usize) -> Option<usize> {
        match self {
            BodyRef::Number(number) => number.size_within(limit),
            BodyRef::Eight(bytes) => sum_within(bytes[..].len(), 0, limit),
            BodyRef::Four(bytes) => sum_within(bytes[..].len(), 0, limit),
            BodyRef::Bytes { width, bytes } => delimited_size(*width, bytes.len(), limit),
            BodyRef::Group(bytes) => sum_within(bytes.len(), 0, limit),
        }
    }
}

impl Measured for Field {
    ghost bytes = { λ f. field_bytes (field_of f) };

    fn size_within(&self, limit: usize) -> Option<usize> {
        sum_within(
            self.tag().to_varint().size_within(limit)?,
            self.body().size_within(limit)?,
            limit,
        )
    }
}

impl Measured for Feature {
    ghost bytes = { λ f. feature_bytes (feature_of f) };

    fn size_within(&self, limit: usize) -> Option<usize> {
        message_size(
            self.tag(),
            self.width(),
            size_of_all(self.fields(), limit)?,
            limit,
        )
    }
}

impl Measured for LayerItem {
    ghost bytes = { λ i. layer_item_bytes (layer_item_of i) };

    #[inline(always)]
    fn size_within(&self, limit: usize) -> Option<usize> {
        match self {
            LayerItem::Feature(feature) => feature.size_within(limit),
            LayerItem::Plain(field) => field.size_within(limit),
        }
    }
}

impl Item for LayerItem {
    ghost of_kind = { in_layer_of_kind };

    ghost one_kind = { one_in_layer };

    ghost has_id = { layer_item_has_id };

    ghost id_hash = { layer_item_hash };

    #[inline(always)]
    fn is_of(&self, kind: Kind) -> bool {
        match (self, kind) {
            (LayerItem::Plain(field), Kind::Name) => is_delimited_field(field, NAME),
            (LayerItem::Feature(_), Kind::Message) => true,
            (LayerItem::Plain(field), Kind::Key) => is_delimited_field(field, KEYS),
            (LayerItem::Plain(field), Kind::Value) => is_delimited_field(field, VALUES),
            _ => false,
        }
    }

    fn has_id(&self) -> bool {
        match self {
            LayerItem::Feature(feature) => feature.id().is_some(),
            LayerItem::Plain(_) => false,
        }
    }

    fn id_hash(&self) -> Option<u32>
        ensures { result ≡ Some (layer_item_hash self.now) }
    {
        match self {
            LayerItem::Feature(feature) => Some(hash_of(feature.id())),
            LayerItem::Plain(_) => Some(0),
        }
    }
}

impl Measured for Layer {
    ghost bytes = { λ l. layer_bytes (layer_of l) };

    fn size_within(&self, limit: usize) -> Option<usize> {
        message_size(
            self.tag.to_tag(),
            self.width,
            self.items.size_within(limit)?,
            limit,
        )
    }
}

impl Measured for TileItem {
    ghost bytes = { λ i. tile_item_bytes (tile_item_of i) };

    fn size_within(&self, limit: usize) -> Option<usize> {
        match self {
            TileItem::Layer(layer) => layer.size_within(limit),
            TileItem::Plain(field) => field.size_within(limit),
        }
    }
}

impl Item for TileItem {
    ghost of_kind = { in_tile_of_kind };

    ghost one_kind = { one_in_tile };

    ghost has_id = { λ _. false };

    ghost id_hash = { λ _. 0 };

    #[inline(always)]
    fn is_of(&self, kind: Kind) -> bool {
        matches!((self, kind), (TileItem::Layer(_), Kind::Message))
    }

    fn has_id(&self) -> bool {
        false
    }
}

/// Whether a field is a LEN field of this number.
fn is_delimited_field(field: &Field, number: u64) -> bool
    ensures { result ≡ is_delimited_field number field.now }
{
    match field.body() {
        BodyRef::Bytes { .. } => field.number() == number,
        _ => false,
    }
}
