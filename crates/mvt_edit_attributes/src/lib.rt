//! The changes by which features get and lose attributes, and by which the keys of a layer are renamed.
//!
//! - For each of these commands and every document: a command that is not refused is given the
//!   change that carries it out, and a refused one the first of its refusals, by the definition
//!   `Prepares`: `set_attribute`, `unset`, `exclude`, `exclude_all`, `rename_key`.
#![tactic(auto)]

pub mod exclude;
pub mod exclude_all;
mod pools;
pub mod rename_key;
pub mod set_attribute;
mod tags_run;
pub mod unset;
