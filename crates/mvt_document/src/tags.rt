//! The wire types of fields, and the field numbers and tags of the messages of a tile.

/// The wire type of a number.
pub const VARINT: u64 = 0;

/// The wire type of eight bytes.
pub const I64: u64 = 1;

/// The wire type of a length and that many bytes.
pub const LEN: u64 = 2;

/// The wire type of a group's start.
pub const SGROUP: u64 = 3;

/// The wire type of a group's end.
pub const EGROUP: u64 = 4;

/// The wire type of four bytes.
pub const I32: u64 = 5;

/// The number of a tile's layers.
pub const LAYERS: u64 = 3;

/// The number of a layer's features.
pub const FEATURES: u64 = 2;

/// The number of a layer's name.
pub const NAME: u64 = 1;

/// The number of a layer's keys.
pub const KEYS: u64 = 3;

/// The number of a layer's values.
pub const VALUES: u64 = 4;

/// The number of a layer's extent.
pub const EXTENT: u64 = 5;

/// The number of a layer's version.
pub const VERSION: u64 = 15;

/// The number of a feature's id.
pub const ID: u64 = 1;

/// The number of a feature's tags.
pub const TAGS: u64 = 2;

/// The number of a feature's kind.
pub const KIND: u64 = 3;

/// The number of a feature's geometry.
pub const GEOMETRY: u64 = 4;

/// The tag of a layer.
pub const LAYER_TAG: u64 = 8 * LAYERS + LEN;

/// The tag of a feature.
pub const FEATURE_TAG: u64 = 8 * FEATURES + LEN;

/// The tag of a layer's name.
pub const NAME_TAG: u64 = 8 * NAME + LEN;

/// The tag of a feature's id.
pub const ID_TAG: u64 = 8 * ID + VARINT;

/// The tag of a feature's kind.
pub const KIND_TAG: u64 = 8 * KIND + VARINT;

/// The tag of a feature's geometry.
pub const GEOMETRY_TAG: u64 = 8 * GEOMETRY + LEN;
