//! The command line of the program: its words, read by `clap`.
//!
//! - Whenever the command line is accepted, `--depth` has a numeral of a number from 1 to 10,000
//!   (`matched`), and `depth_in` returns that number, so the condition of `run` is met. That it is
//!   the numeral that was written, or 100 where none was, is tested.
#![tactic(auto)]

mod command_line;
mod help;

pub use command_line::{depth_in, matched};
