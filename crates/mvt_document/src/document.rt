//! The messages of a tile, with everything that is needed to write each byte again: layers, the
//! tile.

ghost use Rattle.std.specs.Prelude.{◌≡◌};
ghost use Rattle.mvt_document.specs.Shape.{IsWidth};

use crate::feature::Feature;
use crate::field::Field;
use crate::message::Message;
use crate::message_tag::MessageTag;
use std::mem::size_of;

#[derive(Debug, Drop)]
pub enum LayerItem {
    Feature(Feature),
    Plain(Field),
}

/// A layer of the tile. The width is the least in which its length is spelled.
#[derive(Debug, Drop)]
pub struct Layer {
    pub tag: MessageTag,
    pub width: u8,
    pub items: Message<LayerItem>,
    pub ghost is_layer: { tag.value ≡ 26 },
    pub ghost is_width: { IsWidth width },
}

#[derive(Debug, Drop)]
pub enum TileItem {
    Layer(Layer),
    Plain(Field),
}

/// A whole tile.
#[derive(Debug, Drop)]
pub struct Document {
    pub items: Message<TileItem>,
}

// A tile may have millions of items, so the memory that one takes is asserted here.
const _: () = prove!(size_of::<Field>() == 32);

const _: () = prove!(size_of::<LayerItem>() == 40);

const _: () = prove!(size_of::<Layer>() == 48);

const _: () = prove!(size_of::<TileItem>() == 56);
