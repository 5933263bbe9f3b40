//! Everything that is seen of a tile: the views of its layers and features, and the geometry of a
//! feature.
//!
//! - The geometry of a feature is read from its numbers, for its kind (`found`), and refused only
//!   if there is none (`bad`): a chunk is bad, or the numbers are not those of a geometry of the
//!   kind. Only an out-of-memory error may come in place of either, and not if a number can't be
//!   read (`unreadable`) or the kind is none (`no_kind`): `geometry`.
//!
//! `geometry` takes an allocator. The crate re-exports the names of `mvt_layers`, which has the
//! views, and most of those of `mvt_messages` and of `mvt_geometry`, so it has everything that is
//! seen of a tile, and the encoder of geometries. Some definitions have paths in this crate too:
//! `Rattle.mvt_view.specs.Views` is the Views of `mvt_messages`.
#![tactic(auto)]

mod geometries;

pub use geometries::geometry;
pub use mvt_geometry::{
    EncodeError, Geometry, GeometryError, Kind, Part, Point, encode_geometry, geometry_of,
};
pub use mvt_layers::{
    BadPair, Contents, Entries, FeatureError, FeatureView, FeatureViews, FoundEntry, FoundFeature,
    FoundLayer, LayerError, LayerView, LayerViews, Pair, PairsError, PoolSizes, TagPair, TagPairs,
    feature_by_id, last_name, laws, layer, layer_count, layer_named, layers, pairs,
};
pub use mvt_messages::{BadChunk, Number, Numbers};
