//! What is found when repeated numbers are read: a number with its field and its place there, or a
//! bad chunk.

use mvt_document::Varint;
use thiserror::Error;

/// A number of a field that may be repeated. `field` is the position of its field among those of the message,
/// and `place` the byte of a packed body at which it begins: 0 if it is not packed.
#[derive(Clone, Copy, Debug, PartialEq, Eq)]
pub struct Number {
    pub varint: Varint,
    pub field: usize,
    pub place: usize,
}

/// A packed body does not continue with a number. `field` is the position of its field.
#[derive(Clone, Copy, Debug, PartialEq, Eq, Error)]
#[error("field {field} packs something that is no number")]
pub struct BadChunk {
    pub field: usize,
}
