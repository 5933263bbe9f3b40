//! Which layer, which feature and which layers are selected, and where they are.
//!
//! - A layer is found by its ordinal or its name, and a feature of a layer by its ordinal or its
//!   id, as the definitions say, each with its ordinal and its position, or refused as they say:
//!   `find_layer`, `find_feature`.
//! - The selected layers, one or all, come in their order, each with its ordinal and its position,
//!   or are refused: `find_layers`.
//! - The position of the layer or the feature of an ordinal: `place_of_layer`, `place_of_feature`.
//! - The selected layer, and whether a layer of another ordinal has a name, in one walk if the layer is
//!   selected by its name: `find_and_taken`.
//! - The last name of a layer, which is the one that counts, is found by position: `last_name`.
#![tactic(auto)]

mod find;
mod last;
mod layers;
mod taken;

pub use find::{find_feature, find_layer, place_of_feature, place_of_layer};
pub use last::last_name;
pub use layers::{SelectedLayers, find_layers};
pub use mvt_layers::{FoundFeature, FoundLayer};
pub use mvt_meaning::{FeatureChoice, LayerChoice, LayersChoice, Refusal};
pub use taken::find_and_taken;
