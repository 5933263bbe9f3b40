//! What a history is; the marks of a session, and its steps along the changes that it keeps for undo
//! and redo.
//!
//! - A history is a definition (`History`): the steps of commands, how many of them stand, the marks,
//!   and what each request makes of these. Where the changes of a session lead (`Reached`) and what a
//!   session answers (`Session`) are definitions too. No command is carried out here.
//! - Marks are in the order of the bytes of their names. The point that a name marks is looked up,
//!   set and removed: `find_point`, `bind`, `unbind`. Memory is taken only for a new name
//!   (`no_memory`), and an `Err` changes nothing.
//! - A new change is kept for undo, and no change is kept for redo any longer. If there is no room
//!   for one more, the oldest goes, and the marks whose points are still reached stay: `keep`.
//! - In which direction one point is from another, and by how many steps: `way`. Each step carries
//!   out a change of one list, and keeps what leads back in the other: `walk`. The changes of an
//!   open step are carried out and dropped: `take_back`. If memory runs out on the way, both say
//!   how far they got, and that stands (`err`).
//! - Conditions: the marks are in order (`find_point`, `bind`, `unbind`); the room for undo is from 1
//!   to 10,000, and holds what is kept (`keep`); the changes fit, one after the other (`walk`,
//!   `take_back`); there is one for each step, and the other list has room for them (`walk`).
#![tactic(auto)]

mod error;
pub mod laws;
mod marks;
mod steps;

pub use error::{HistoryError, StartError};
pub use marks::{Mark, bind, find_point, unbind};
pub use steps::{Direction, keep, take_back, walk, way};

/// The greatest depth that a session may have.
pub const MAX_DEPTH: u32 = 10_000;

/// The greatest number of marks that a session may have.
pub const MAX_MARKS: usize = 256;
