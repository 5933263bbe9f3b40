//! The numbers of a field that may be repeated, packed or not, given other values or taken out.
//!
//! - What becomes of a field by a decision for each of its numbers: the value that it gets, or none
//!   if it goes. It is exactly what the definition `renumbered_field` says (`fate`), a field that it
//!   becomes differs from the old one (`change`), and the decisions that are left are those for the
//!   fields after it (`left`). It fails only for a LEN field of this number (`packed`) whose content
//!   begins with numbers of which some change (`no_memory`): `renumber_field`.
#![tactic(auto)]

mod fate;
pub mod laws;
mod renumber;

pub use fate::Fate;
pub use renumber::renumber_field;
