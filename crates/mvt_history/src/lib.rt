//! A document that commands edit, with undo and redo, marks, and steps of several
//! commands.
//!
//! - A session begins with the document and no history (`ok`), or hands the document back, as too
//!   large if no file can hold it, and else as out of memory (`err`): `Session::start`. It holds
//!   the standing document of its history: the tile at the start with the steps that stand applied
//!   in order, those of an open step last: `Session::document`.
//! - Each request makes exactly the step of the definition, or is refused with exactly its refusal
//!   (`answer`): `command`, `undo`, `redo`, `mark`, `unmark`, `back`, `begin`, `end`, `cancel`.
//!   Only out of memory may come in place of that, and only at `command`, `undo`, `redo`, `mark`
//!   and `end`: at `command` only where it asks for memory (`AsksForMemory`), at the last four never
//!   in place of a refusal, at `mark` only for a new name, at `end` only for a step of two commands
//!   or more (`no_memory`). `back` and `cancel` are stopped
//!   on the way instead, and say how many steps they made, or how many commands they took back;
//!   that stands. After every other refusal the session is as it was (`err`).
//! - How many steps undo and redo can go, the depth, the marks, and how many commands the open step
//!   has: `undo_len`, `redo_len`, `depth`, `mark_count`, `mark_at` and `open_len`.
//! - What is kept for undo and redo are changes, one for each step, and never a second document:
//!   each fits where it is carried out, and leads to the next document (`StandsFor`). Which ones
//!   is stated exactly (`kept`): a command adds what leads back over a change that is prepared for
//!   it (`CarriesOut`), the end of a step joins those of its commands (`IsEnded`), undo, redo and
//!   `back` turn the next ones (`IsMoved`), and marks change none. Each of the two lists of changes has room for as many as the depth from the start of a session, and
//!   together they never have more: its type keeps that. No contract says how much memory a change
//!   takes; what it weighs is the bytes of the items that it holds, as they are written.
//! - Conditions: the document is one (`IsDocument`), as everything that is read is, and the depth
//!   is from 1 to 10,000 (`Session::start`).
//!
//! It re-exports what its calls take and return, and what a command is made of.
#![tactic(auto)]

mod session;

pub use mvt_document::{Document, Items};
pub use mvt_edit::{Command, FeatureChoice, LayerChoice, LayersChoice, Refusal};
pub use mvt_geometry::{Geometry, Kind, Part, Point};
pub use mvt_history_steps::{HistoryError, MAX_DEPTH, MAX_MARKS, StartError};
pub use mvt_value::NewValue;
pub use session::Session;
