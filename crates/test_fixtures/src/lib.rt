//! For tests: tiles, commands, documents with a change that fits, and the bytes that tables name.
#![tactic(auto)]

pub mod asked;
pub mod bytes;
pub mod edits;
pub mod pieces;
pub mod series;
pub mod tiles;
mod weights;
