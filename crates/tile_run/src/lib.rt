//! A run over any devices: a tile and a script are read, the replies and the edited tile are
//! written.
//!
//! - `run` has the headline: docs/PROVED.md has its clauses and premises. It is for a program that
//!   ends after it, and leaves what it holds to the system. `run_and_free` frees that, and has the
//!   clause from which the headline follows (`course`).
//! - Private `Editor::carry_out_script` is the step on whose contract both rest: what the lines of
//!   a script come to as they are read.
//! - Private `carry_out_request` is how a session answers a request: it is carried out, or refused,
//!   as the definition says, with the lines that the definition says (`answer`). Only out of memory
//!   may be answered instead: as 60, but not to `unmark`, `back`, `begin` and `cancel`, to a `mark`
//!   of a name that is marked already, to an `end` of a step of fewer than two commands, to `marks`
//!   where there are none, to a command before it asks for memory (`AsksForMemory`), or to anything
//!   else that would be refused (`NeedsMemory`); and as a stop of `back` and `cancel`, which says
//!   how many steps, or commands, were taken (`MayStop`).
//!   After every refusal but a stop the session holds what it held before (`err`).
#![tactic(auto)]

mod answer;
mod editor;
mod printed;
mod runs;

pub use runs::{run, run_and_free};
pub use tile_course::{DeviceName, MAX_RETRIES, MAX_SCRIPT, Options, Outcome, TileFault};
