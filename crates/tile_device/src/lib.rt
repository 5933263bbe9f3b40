//! What is read and written: sources and sinks, calls that are made again, whole inputs and
//! outputs, and the readers and writers of the standard library as devices.
//!
//! - Readers and writers of the standard library keep the laws of `Source` and `Sink`: what they
//!   gave or took until their first trouble, where they tell it, and how often they were in
//!   trouble: `FromRead`, `FromWrite`.
//! - A device counts its interruptions and its failures, each up to 2^64 - 1: `Counts::count`. A
//!   budget of retries begins with a number of them, and says how many are left: `Retries::new`,
//!   `left`.
//! - A piece is read into a buffer, and is known to be the end only where nothing was read and
//!   there was room: `read_some` (`reads`). An input is read up to a limit: fewer bytes are all
//!   that there were, and a fault loses them: `read_to_limit`. Bytes are written, and passed on, as
//!   a whole, or, before a trouble, a prefix of them: `write_all` (`sends`) and `write_and_flush`;
//!   the trouble of a write comes before the last byte (`prefix` of `write_all`).
//! - In all four an interrupted call is made again as long as the budget has a retry left, and
//!   takes one; an interruption ends the calls only where none is left. The same clauses say so
//!   (`Pays`).
#![tactic(auto)]

mod counts;
mod device;
mod retries;
mod std_device;
mod transfer;

pub use counts::Counts;
pub use device::{Sink, Source, Trouble};
pub use retries::Retries;
pub use std_device::{FromRead, FromStd, FromWrite};
pub use transfer::{ReadFault, read_some, read_to_limit, write_all, write_and_flush};
