//! The field numbers of a value, and the tags of a new one.

use mvt_document::tags::{I32, I64, LEN, VARINT};

/// The number of a text.
pub const STRING: u64 = 1;

/// The number of a float of four bytes.
pub const FLOAT: u64 = 2;

/// The number of a float of eight bytes.
pub const DOUBLE: u64 = 3;

/// The number of a signed number in two's complement.
pub const INT: u64 = 4;

/// The number of an unsigned number.
pub const UINT: u64 = 5;

/// The number of a signed number in ZigZag.
pub const SINT: u64 = 6;

/// The number of a truth value.
pub const BOOL: u64 = 7;

/// The tag of a text.
pub const STRING_TAG: u8 = (8 * STRING + LEN) as u8;

/// The tag of a float of four bytes.
pub const FLOAT_TAG: u8 = (8 * FLOAT + I32) as u8;

/// The tag of a float of eight bytes.
pub const DOUBLE_TAG: u8 = (8 * DOUBLE + I64) as u8;

/// The tag of a signed number in two's complement.
pub const INT_TAG: u8 = (8 * INT + VARINT) as u8;

/// The tag of an unsigned number.
pub const UINT_TAG: u8 = (8 * UINT + VARINT) as u8;

/// The tag of a signed number in ZigZag.
pub const SINT_TAG: u8 = (8 * SINT + VARINT) as u8;

/// The tag of a truth value.
pub const BOOL_TAG: u8 = (8 * BOOL + VARINT) as u8;
