//! The bytes of the messages of a tile.

use crate::encode::{Encode, put_bytes, put_length, put_message};
use mvt_document::{BodyRef, Feature, Field, Layer, LayerItem, TileItem};

impl Encode for BodyRef<'_> {
    fn fill(&self, room: &mut [u8]) -> usize {
        match self {
            BodyRef::Number(number) => number.fill(room),
            BodyRef::Eight(bytes) => put_bytes(bytes, room),
            BodyRef::Four(bytes) => put_bytes(bytes, room),
            BodyRef::Bytes { width, bytes } => {
                let left = put_bytes(bytes, room);
                put_length(*width, bytes.len(), &mut room[..left])
            }
            BodyRef::Group(bytes) => put_bytes(bytes, room),
        }
    }
}

impl Encode for Field {
    fn fill(&self, room: &mut [u8]) -> usize {
        let left = self.body().fill(room);
        self.tag().to_varint().fill(&mut room[..left])
    }
}

impl Encode for Feature {
    fn fill(&self, room: &mut [u8]) -> usize {
        put_message(self.tag(), self.width(), self.fields(), room)
    }
}

impl Encode for LayerItem {
    fn fill(&self, room: &mut [u8]) -> usize {
        match self {
            LayerItem::Feature(feature) => feature.fill(room),
            LayerItem::Plain(field) => field.fill(room),
        }
    }
}

impl Encode for Layer {
    fn fill(&self, room: &mut [u8]) -> usize {
        put_message(self.tag.to_tag(), self.width, self.items.as_slice(), room)
    }
}

impl Encode for TileItem {
    fn fill(&self, room: &mut [u8]) -> usize {
        match self {
            TileItem::Layer(layer) => layer.fill(room),
            TileItem::Plain(field) => field.fill(room),
        }
    }
}
