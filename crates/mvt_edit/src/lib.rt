//! The change that carries a command out.
//!
//! - For each of the nineteen commands and every document: a command that is not refused is given the
//!   change that turns the document into exactly what the command makes of it by its definition; a
//!   refused one is given the first of its refusals. Only out of memory may come in place of either,
//!   and only where the command asks for memory (`AsksForMemory`). The change fits the document, so
//!   `flip` carries it out; it holds no more bytes than the command puts in, what leads back no more
//!   than the command takes out, and its steps are at most one plus half as many as these bytes
//!   together; seven commands have exactly one (`is_one_step`). The document is not touched:
//!   `prepare`.
//!
//! The crate passes on what a change is carried out with, and several are made one: `Change`, `flip`
//! and `join` of `mvt_change`.
#![tactic(auto)]

mod commands;

pub use commands::prepare;
pub use mvt_change::{Change, flip, join};
pub use mvt_meaning::{Command, FeatureChoice, LayerChoice, LayersChoice, Refusal};
