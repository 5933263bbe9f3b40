//! The wire format: the document that a file opens as, its size, and its bytes.
//!
//! - A file is read as the one document that it opens as (`opens`), unless memory runs out
//!   (`only`); or it is refused: as too large exactly when it is longer than 67,108,864 bytes
//!   (`too_large`), otherwise with the length of its longest prefix that is a tile (`place`), and
//!   only if it opens as no document (`bad_wire`): `read_document`.
//! - A field that is read at the beginning of bytes is spelled there, and is found whenever there
//!   is one (`none`): `field_at_front`. A field may be a group, with groups inside.
//! - A document is written as its bytes (`bytes`), so one that was read is written as the file that
//!   it was read from. It is refused as too large exactly when there are more than 67,108,864 of them
//!   (`too_large`): `write_document`. `write_document_into` says the same, writes into memory that is
//!   already there, and asks for none if that is enough (`no_memory`). The size of a document is that
//!   of its bytes, if there are no more than that: `size`.
//!
//! The document itself is that of `mvt_document`, whose public names and definitions are re-exported:
//! `Rattle.mvt_wire.specs.Plain` is its Plain. The types are in `Rattle.mvt_wire.specs.declared`, by
//! their public names, and `MAX_FILE` is in `Rattle.mvt_wire.specs.TheConstants`. Left out are
//! `change_fields_in`, `hash_of`, `to_zigzag` and `from_zigzag`, for which a crate names `mvt_document`,
//! and what that has only for the reader and the writer, such as the definitions in its Parts.
#![tactic(auto)]

mod decode;
mod encode;
mod faults;
mod front;
mod groups;
mod messages;
mod read;
mod write;

pub use faults::{ReadError, WriteError};
pub use front::{FieldRef, field_at_front};
pub use mvt_document::{
    Body, BodyRef, Document, Feature, FeatureParts, Field, FieldParts, Item, Items, Kind, Layer,
    LayerItem, MAX_FILE, MAX_GROUPS, Measured, Message, MessageTag, Put, Run, Runs, Tag, TileItem,
    Varint, last_value, laws, least_width, message_size, put_number, read_varint, size_beside_part,
    size_of_all, sum_within, tags, value_in,
};
pub use read::read_document;
pub use write::{size, write_document, write_document_into};
