//! The commands that change a tile, and how they select layers and features, as types; what they make of a
//! tile, which layers and features are selected, and which refusal comes first, as definitions.
#![tactic(auto)]

mod command;
mod refusal;

pub use command::{Command, FeatureChoice, LayerChoice, LayersChoice};
pub use refusal::Refusal;
