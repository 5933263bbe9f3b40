//! A run over the files that the words of a command line name: the program as a function.
//!
//! - `shell` is the program, from its words to its status: it opens the files that the command line
//!   names, and calls `run` on them. Which status goes with which outcome is a definition
//!   (`Status`), by the contract of a private function. That the run has the depth that is asked for
//!   is tested, and so are the texts and statuses of the program.
#![tactic(auto)]

mod created;
mod program;

pub use program::shell;
