//! Views of the layers and of the features of a document: they borrow from it and copy nothing.
//!
//! - The layers of a document, the features of a layer, its keys and its values are those of the
//!   definitions, in order, by ordinal (none past the last), and counted: `layers`, `layer`,
//!   `layer_count`, and the calls of `LayerView`.
//! - The keys and the values of a layer with their ordinals and positions, and the first that is
//!   these bytes: `LayerView::key_entries`, `value_entries`, `first_key`, `first_value`; or how many
//!   there are, if none is: `find_key`, `find_value`. The last name of a layer with its position:
//!   `last_name`.
//! - The name, version and extent of a layer, and the id and kind of a feature, are those of the
//!   last field of the number and wire type, or the default: the calls of `LayerView` and
//!   `FeatureView`.
//! - A name selects the one layer that has it, and an id the one feature; otherwise the error says whether none
//!   has it or several do: `layer_named`, `feature_by_id`. No clause says how an id is looked up: by the hashes
//!   that its layer keeps, as far as it keeps them.
//! - The tags of a feature are the numbers of its fields of number 2, and those of its geometry are
//!   the numbers of its fields of number 4: `FeatureView::tags`, `FeatureView::geometry_numbers`.
//! - The tags of a feature come pair by pair, each with the ordinals of a key and of a value and
//!   with the two numbers that make it, or as an error in place of tags that are not such a pair: a
//!   chunk is bad, a key has no value, or an ordinal names no key, no value, or has more than 32
//!   bits. The keys and the values are counted once for a layer: `LayerView::pool_sizes`,
//!   `FeatureView::tag_pairs`.
//! - The same pairs in a list (`pairs`), refused only if one is an error (`bad_tags`). Only an
//!   out-of-memory error may come in place of either, and not before the first pair (`no_memory`):
//!   `pairs`.
//!
//! Only `pairs` takes an allocator. The crate re-exports the names of `mvt_messages`, which defines
//! what the messages say; the geometry of a feature is read in `mvt_view`. A value is returned as
//! its bytes: `mvt_value` says which value they are.
#![tactic(auto)]

mod attributes;
mod entries;
mod fields;
mod found;
mod hashed;
pub mod laws;
mod lists;
mod select;
mod tag_pairs;
mod views;

pub use attributes::{Pair, PairsError, pairs};
pub use entries::{Entries, last_name};
pub use found::{FoundEntry, FoundFeature, FoundLayer};
pub use lists::{Contents, FeatureViews, LayerViews};
pub use mvt_messages::{BadChunk, Number, Numbers};
pub use select::{
    FeatureError, LayerError, feature_by_id, layer, layer_count, layer_named, layers,
};
pub use tag_pairs::{BadPair, PoolSizes, TagPair, TagPairs};
pub use views::{FeatureView, LayerView};
