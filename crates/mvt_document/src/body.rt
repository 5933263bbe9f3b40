//! The body of a field: what follows its tag.

use crate::items::Items;
use crate::varint::Varint;

/// The body of a field, by its wire type.
#[derive(Debug, Drop)]
pub enum Body {
    /// VARINT
    Number(Varint),
    /// I64
    Eight([u8; 8]),
    /// I32
    Four([u8; 4]),
    /// LEN: the bytes, and the least width in which their length is spelled.
    Bytes { width: u8, bytes: Items<u8> },
    /// SGROUP: all bytes up to the end of the group, including its end tag.
    Group(Items<u8>),
}

/// The same, whose bytes are where they were read, or in a field.
#[derive(Clone, Copy, Debug)]
pub enum BodyRef<'a> {
    /// VARINT
    Number(Varint),
    /// I64
    Eight([u8; 8]),
    /// I32
    Four([u8; 4]),
    /// LEN: the bytes, and the width in which their length is spelled, or the least one if the body is that of a
    /// field.
    Bytes { width: u8, bytes: &'a [u8] },
    /// SGROUP: all bytes up to the end of the group, including its end tag.
    Group(&'a [u8]),
}
