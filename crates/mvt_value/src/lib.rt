//! The values of a layer: what the bytes of one are, and how a new one is written.
//!
//! - Bytes are shown as the value that they have, that of one field with a number and a wire type
//!   from the table of values (`value`, `only`); all other bytes are shown as they are (`raw`):
//!   `value_of`.
//! - A new value is written with each number in its shortest spelling (`bytes`), and what is
//!   written has that value (`value`): `encode_value`.
#![tactic(auto)]

mod encode;
pub mod laws;
mod read;
pub mod tags;
mod value;

pub use encode::encode_value;
pub use read::value_of;
pub use value::{NewValue, Value};
