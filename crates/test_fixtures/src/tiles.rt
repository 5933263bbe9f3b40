//! The tile that most tests edit, and others near it.

/// A tile of one layer "a" with one point feature, one key, one value, and an extent.
pub const T0: [u8; 32] = [
    0x1a, 0x1e, 0x0a, 0x01, 0x61, 0x12, 0x0d, 0x08, 0x01, 0x12, 0x02, 0x00, 0x00, 0x18, 0x01, 0x22,
    0x03, 0x09, 0x32, 0x22, 0x1a, 0x01, 0x6b, 0x22, 0x02, 0x20, 0x05, 0x28, 0x80, 0x20, 0x78, 0x02,
];

/// `T0` with its layer named "roads".
pub const ROADS: [u8; 36] = [
    0x1a, 0x22, 0x0a, 0x05, 0x72, 0x6f, 0x61, 0x64, 0x73, 0x12, 0x0d, 0x08, 0x01, 0x12, 0x02, 0x00,
    0x00, 0x18, 0x01, 0x22, 0x03, 0x09, 0x32, 0x22, 0x1a, 0x01, 0x6b, 0x22, 0x02, 0x20, 0x05, 0x28,
    0x80, 0x20, 0x78, 0x02,
];

/// What follows the name in the layer of `T0`.
pub const BEHIND_NAME: [u8; 27] = [
    0x12, 0x0d, 0x08, 0x01, 0x12, 0x02, 0x00, 0x00, 0x18, 0x01, 0x22, 0x03, 0x09, 0x32, 0x22, 0x1a,
    0x01, 0x6b, 0x22, 0x02, 0x20, 0x05, 0x28, 0x80, 0x20, 0x78, 0x02,
];

/// The script that names the layer of `T0` "roads".
pub const RENAME: &[u8] = b"rename-layer \"a\" \"roads\"";

/// The layer of `T0` with a second feature, whose tags are one key and a value that the layer lacks.
pub const TWO_FEATURES: &[u8] = b"\
    \x1a\x2b\x0a\x01a\x12\x0d\x08\x01\x12\x02\x00\x00\x18\x01\x22\x03\x09\x32\x22\
    \x12\x0b\x12\x02\x00\x09\x18\x01\x22\x03\x09\x32\x22\
    \x1a\x01k\x22\x02\x20\x05\x28\x80\x20\x78\x02";

/// The layer of `T0` with its feature twice.
pub const SAME_FEATURES: &[u8] = b"\
    \x1a\x2d\x0a\x01a\x12\x0d\x08\x01\x12\x02\x00\x00\x18\x01\x22\x03\x09\x32\x22\
    \x12\x0d\x08\x01\x12\x02\x00\x00\x18\x01\x22\x03\x09\x32\x22\
    \x1a\x01k\x22\x02\x20\x05\x28\x80\x20\x78\x02";

/// `T0` with its layer named "b".
pub const OTHER: &[u8] = b"\
    \x1a\x1e\x0a\x01b\x12\x0d\x08\x01\x12\x02\x00\x00\x18\x01\x22\x03\x09\x32\x22\
    \x1a\x01k\x22\x02\x20\x05\x28\x80\x20\x78\x02";

/// The layer of `T0` with its feature twice, the second with id 2.
pub const TWO_IDS: &[u8] = b"\
    \x1a\x2d\x0a\x01a\x12\x0d\x08\x01\x12\x02\x00\x00\x18\x01\x22\x03\x09\x32\x22\
    \x12\x0d\x08\x02\x12\x02\x00\x00\x18\x01\x22\x03\x09\x32\x22\
    \x1a\x01k\x22\x02\x20\x05\x28\x80\x20\x78\x02";
