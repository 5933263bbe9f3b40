//! A script cut into its lines, the words of a line, and why a line is refused.
//!
//! - A cutter that takes bytes one by one holds the line that the definition says (`push`), returns
//!   it where it is complete (`line`), and otherwise what it has of it (`rest`). A new one holds
//!   nothing (`new`): the contracts of `LineCutter`.
//! - The words of a line are those of the definition, or something in it is not a word (`answer`);
//!   out of memory may be answered in place of words, and of nothing else (`no_memory`): `words_of`.
//!   A line of a single word is read without memory: `lone_word`. The text of a quoted word, and
//!   what follows blanks, are as defined: `text`, `after_blanks`. `is_utf8` says whether bytes are
//!   UTF-8.
#![tactic(auto)]

mod cutter;
pub mod laws;
mod parse_error;
mod utf8;
mod words;

pub use cutter::{Cut, LineCutter};
pub use parse_error::ParseError;
pub use utf8::is_utf8;
pub use words::{Word, after_blanks, lone_word, text, words_of};

/// The bytes that a line may have before its line feed.
pub const LINE_LIMIT: usize = 65_536;
