//! The changes of the commands on the geometry of a feature.
//!
//! - For each of these commands and every document: a command that is not refused is given the
//!   change that carries it out, and a refused one the first of its refusals, by the definition
//!   `Prepares`: `shift`, `set_geometry`.
#![tactic(auto)]

mod fits;
pub mod set_geometry;
pub mod shift;
