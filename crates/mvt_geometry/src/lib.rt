//! Geometries as points, as the numbers of the geometry of a feature, and as bytes.
//!
//! - A geometry has one part of dots, or at least one line of at least two points, or at least one
//!   ring of at least three, and coordinates from -2^62 to 2^62: its type ensures that. It is made
//!   of parts exactly when this holds (`valid`), and consists of these parts (`ok`); otherwise the
//!   parts come back as they were (`err`): `Geometry::new`.
//! - Numbers are read as the geometry that has exactly these integers (`found`), and refused only
//!   if there is none of the kind (`bad`); only an out-of-memory error may come in place of either,
//!   and not if the kind is none (`no_kind`): `geometry_of`.
//! - A geometry is written as its integers, each in its shortest spelling (`bytes`), only if each
//!   delta from point to point and each count fits an integer of 32 bits (`in_range`). It is
//!   refused as out of range only if one does not (`out_of_range`); only an out-of-memory error may
//!   come in place of either: `encode_geometry`. Whether a delta fits: `is_delta`.
#![tactic(auto)]

mod encode;
mod faults;
mod geometry;
pub mod laws;
mod path;
mod read;
mod shapes;
mod steps;
mod valid;

pub use encode::{encode_geometry, is_delta};
pub use faults::{EncodeError, GeometryError};
pub use geometry::Geometry;
pub use read::geometry_of;
pub use shapes::{Kind, Part, Point};
