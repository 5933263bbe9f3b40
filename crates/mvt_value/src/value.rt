//! The types of values: what is shown for a value of a layer, and a new one.

use mvt_document::Items;

/// What the bytes of a value are. Floats are bytes in the order of the file.
#[derive(Clone, Copy, Debug)]
pub enum Value<'a> {
    Text(&'a [u8]),
    Float4([u8; 4]),
    Double8([u8; 8]),
    Int(i64),
    Uint(u64),
    Sint(i64),
    Bool(bool),
    /// All the bytes, if they are not one field with a value.
    Raw(&'a [u8]),
}

/// A value to be written. Floats are bytes in the order of the file.
#[derive(Debug, Drop)]
pub enum NewValue {
    Text(Items<u8>),
    Float4([u8; 4]),
    Double8([u8; 8]),
    Int(i64),
    Uint(u64),
    Sint(i64),
    Bool(bool),
}
