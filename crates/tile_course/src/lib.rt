//! Refusals and replies; what requests print and make of a history, and what a run comes to, as
//! definitions; and how a run ends.
//!
//! - The numbers and names of refusals are the stated ones: `Refused::number`, `Refused::name`.
//! - The reply to a line is its lines and then `ok`, or its refusal. It is sent as a whole, or,
//!   before a trouble, a prefix of it, and the budget of retries pays for it: `reply`.
//! - What a request prints and makes of a history is a definition (`Answering`), and so is how a
//!   session may answer it (`Answers`). What is printed is whole lines, none of which looks like a
//!   refusal; none is refused as out of memory by its definition; and a look leaves the history as it
//!   was: `laws`.
//! - A run over a document is a definition (`Run`): what each line of a script replies and makes of
//!   a history, and the outcome. So is what may result where devices fail or memory runs out
//!   (`Course`), and the headline that follows from this (`Headline`, `DeviceLaws`).
//! - How a run is asked for, how it ends, and how each step of it may stop: `Options`, `Outcome`. A
//!   stop becomes the outcome of its definition (`Outcomes`).
#![tactic(auto)]

pub mod laws;
mod limits;
mod outcome;
mod refused;
mod replies;

pub use limits::{MAX_RETRIES, MAX_SCRIPT};
pub use outcome::{
    DeviceName, LineStop, Options, Outcome, ScriptStop, TileFault, Unopened, Unwritten,
};
pub use refused::Refused;
pub use replies::reply;
