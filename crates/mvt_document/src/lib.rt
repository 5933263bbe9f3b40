//! A tile as a document that keeps every byte: the types, their numbers, and the laws of the bytes
//! of a document.
//!
//! - A number is read in the width in which it is spelled, and is found whenever there is one:
//!   `read_varint`. It is written in the width that is asked for, at the end of a room that has
//!   that many bytes, or after the bytes of a vector: `put_number`, `Varint::put`. The shortest
//!   spelling of a number has the least width in which it fits: `Varint::minimal`. A signed number
//!   has one ZigZag, and each ZigZag is that of one number: `to_zigzag`, `from_zigzag`.
//! - The tag of a field is a number below 2^32, held in half the memory of a number, and returns
//!   that number: `Tag`. That of a layer or of a feature is below 2^8, and takes two bytes:
//!   `MessageTag`.
//! - A field holds its tag and its body in four words, and in these up to 23 bytes that were read;
//!   it returns both, the body with its bytes where they are, and is made of a body with a list, or
//!   with bytes that are copied, or of the bytes of a LEN body in a vector, which is kept
//!   if they are more than 23: `Field::tag`, `body`, `new`, `copied`, `delimited`.
//! - The value of a VARINT field of a given number, and that of the last one in a list, are those of the
//!   definitions: `value_in`, `last_value`. The id of a feature is kept beside its fields, and is right after
//!   every change, which their type ensures: `Feature::id`.
//! - How many bytes a value takes, if they are within the limit of a file, or within any limit:
//!   `Measured::size` and `size_within`, those of `Message`, and `size_of_all`. Likewise the bytes
//!   other than those of a part of a list (`size_beside_part`), and those of a message with a
//!   content of a given length (`message_size`). A message may keep that number; if it does, the
//!   number is right after every change, which its type ensures (`IsKept`).
//! - The names, the features, the keys and the values of a layer, and the layers of a tile, may each be known
//!   to stand in one run, with nothing between them, up to some position. Before that position exactly the
//!   items of the run are of the kind, after every change too, which the type of the list ensures
//!   (`AreRunsOf`): `Message::runs`.
//! - The hash of an id is its last four bytes, and that of an item of a layer is that of its id (`hash_of`,
//!   `Item::id_hash`). A layer may keep the hashes of the items at its front; those that it keeps are right
//!   after every change, which the type of the list ensures (`AreHashes`): `Message::id_hashes`.
//! - Items of a list change places with as many, more or fewer of another, and an item moves within
//!   its list: `exchange` and `move_item` of `Items` and of `Message`. If memory runs out nothing
//!   has changed, and it does not run out if both lists have the room (`succeeds`).
//! - What changes places with a part of a list holds one item in the value itself, and more in a
//!   vector: it is made of either and returns either, has the room of that vector, and makes room
//!   for more (`Put`).
//! - The list of a layer, or of a feature, is changed in place, everything else is kept, and the sizes
//!   are right afterwards: `Document::change_items`, `Document::change_fields`, and in the items of a
//!   layer `change_fields_in`.
//! - A list makes room for a number of items and for no more, or lends the vector that it is in,
//!   and ends as what that vector ends as (`writes_back`): `reserve_exact` and `as_vec_mut` of
//!   `Items`, and `as_vec_mut`, `known_size` and `know_size` of `Message`, whose size is given back
//!   with it.
//! - A list that is made of a vector has the room of that vector and returns it, and none is lost
//!   when an item is added, which a list with room never refuses: `from_vec`, `into_vec` and `push`
//!   of `Items` (`room`, `succeeds`).
//! - The bytes of a group are fields, groups among them, and then an end tag of its own number,
//!   with at most 100 groups open at one place (`IsGroup`); the type of a field ensures that
//!   (`is_group`).
//! - Conditions: there is a list at the place, and the change takes it (`change_items`, `change_fields`,
//!   `change_fields_in`); a part and both positions are within the list (`exchange`, `move_item`,
//!   `size_beside_part`); a size that is given is that of the items (`Message::of_size`, `know_size`); at most
//!   one item is traded for another, and a vector is taken out if there is room for more than one
//!   (`Put::trade`, `take_vec`); a width is at least 1, and the room has that many bytes (`put_number`); a number
//!   that becomes a tag is below 2^32 (`Tag::new`, `Tag::minimal`), or below 2^8 (`MessageTag::new`); a tag and
//!   a body that are copied are those of a field (`Field::copied`); the tag of a LEN field that is made is one of
//!   that wire type, and its width is 1 to 10 (`Field::delimited`).
#![tactic(auto)]

mod body;
mod document;
mod exchange;
mod feature;
mod few;
mod field;
mod item;
mod items;
mod kept;
pub mod laws;
mod lengths;
mod measure;
mod message;
mod message_tag;
mod places;
mod put;
mod run;
mod tag;
pub mod tags;
mod values;
mod varint;
mod zigzag;

pub use body::{Body, BodyRef};
pub use document::{Document, Layer, LayerItem, TileItem};
pub use feature::{Feature, FeatureParts, hash_of};
pub use field::{Field, FieldParts};
pub use item::Item;
pub use items::Items;
pub use measure::{Measured, message_size, size_beside_part, size_of_all, sum_within};
pub use message::Message;
pub use message_tag::MessageTag;
pub use places::change_fields_in;
pub use put::Put;
pub use run::{Kind, Run, Runs};
pub use tag::Tag;
pub use values::{last_value, value_in};
pub use varint::{Varint, least_width, put_number, read_varint};
pub use zigzag::{from_zigzag, to_zigzag};

/// The longest tile in bytes.
pub const MAX_FILE: usize = 67_108_864;

/// How many groups may be open at one place.
pub const MAX_GROUPS: usize = 100;
