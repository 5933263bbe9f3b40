//! How names, values and geometries are written on a line of text, so that a script reads them
//! back.
//!
//! - Any bytes as a text (`put_text`, `quote`), what is shown of a value (`put_value`), and a
//!   geometry (`put_geometry`) are added to a line in their forms (`ok`). Where memory runs out,
//!   the line keeps what it had (`kept`), and has at most a prefix of the form after that (`err`).
//!   The same holds of `put_hex`, `put_decimal` and `put_signed_decimal`.
#![tactic(auto)]

mod geometries;
pub mod laws;
mod numbers;
mod texts;
mod values;

pub use geometries::put_geometry;
pub use numbers::{put_decimal, put_signed_decimal};
pub use texts::{put_hex, put_text, quote};
pub use values::put_value;
