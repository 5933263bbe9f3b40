//! The changes of the commands that remove keys and values from layers if no feature uses them.
//!
//! - For each of these commands and every document: a command that is not refused is given the
//!   change that carries it out, and a refused one the first of its refusals, by the definition
//!   `Prepares`: `compact`, for the pools that are to be compacted (`Pools`).
//! - In each layer the steps on features come first, then those that take the entries out. The work
//!   is proportional to the number of items, fields and pairs. No clause says either.
#![tactic(auto)]

pub mod compact;
mod entries;
mod repoint;
mod used;
