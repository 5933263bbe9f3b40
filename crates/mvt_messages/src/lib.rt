//! The numbers of a field that may be repeated, packed or not, read where they are; and what the messages
//! of a tile say, as definitions.
//!
//! - The numbers in the fields of one number come in order, each with the position of its field and
//!   its place there: one from each VARINT field, and those that each LEN field packs. They end
//!   with the first bad chunk, which is returned with the position of its field: `Numbers::of`, and
//!   the contract of its iterator.
//! - Layers, their names, keys, values and features, and the ids, kinds and tags of these are
//!   definitions (`Views`, `Found`, `Attributes`, `Tags`).
#![tactic(auto)]

mod elements;
pub mod laws;
mod number;
mod numbers;
mod packed;

pub use number::{BadChunk, Number};
pub use numbers::Numbers;
