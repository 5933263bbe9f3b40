//! The request that the words of a line make.
//!
//! - A line asks for what its definition says, or is refused for the first of its faults; only out
//!   of memory may be answered instead (`answer`), and never to a line that is too long or not
//!   UTF-8, a blank line, a comment, a single word, or a line in which something is not a word
//!   (`no_memory`): `parse_line`, and `parse_cut` for a line as it was cut, or the one that a cut
//!   holds (`line`, `line_no_memory`).
#![tactic(auto)]

mod commands;
pub mod laws;
mod parse;
mod requests;

pub use parse::{parse_cut, parse_line};
pub use tile_arguments::{Request, What};
pub use tile_lines::ParseError;
