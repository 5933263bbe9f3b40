//! The changes of the commands on layers, on features and on their names and ids.
//!
//! - For each of these nine commands and every document: a command that is not refused is given the
//!   change that carries it out, and a refused one the first of its refusals, by the definition
//!   `Prepares`: `rename_layer`, `move_layer`, `drop_layer`, `keep_layers`, `insert_feature`,
//!   `move_feature`, `drop_feature`, `set_id`, `clear_id`.
#![tactic(auto)]

pub mod clear_id;
pub mod drop_feature;
pub mod drop_layer;
pub mod insert_feature;
pub mod keep_layers;
pub mod move_feature;
pub mod move_layer;
pub mod rename_layer;
pub mod set_id;
