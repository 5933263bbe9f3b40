//! What a listing shows of a tile, of a layer and of a feature.
//!
//! - A tile is listed by a line for each layer, with its ordinal, name, version, extent and counts;
//!   a layer by its line and one for each key, value and feature; a feature by its line, its
//!   attributes and its geometry. Names are shown as texts, values by type and value or else as
//!   their bytes, geometries as points. Where attributes or a geometry cannot be read, a line says
//!   so. A listing is just these lines, or is refused because no layer or feature is selected, or
//!   several are. Only in place of the lines may out of memory be answered, never in place of a
//!   refusal: `listing`.
#![tactic(auto)]

mod attributes;
mod feature;
pub mod laws;
mod layer;
mod show;
mod tile;
mod words;

pub use show::listing;
