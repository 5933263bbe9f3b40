//! Many splices of one list, carried out in one pass.
//!
//! - A list that is open at a gap has what it had (`Gap::open`), gets room for more if that is
//!   asked for (`Gap::reserve`), exchanges a part as the definition says (`Gap::exchange`), and is
//!   closed with what it then has (`Gap::close`).
//! - Of steps, each on what the ones before it made, the first that are on one list are carried out,
//!   all of them (`ends`) and no others (`run`), in one pass over the steps. The list is what they make of it
//!   (`items`), with the room for its greatest length on the way (`greatest`); each is turned into
//!   the one that leads back, with no less room (`are_turned`), and the others are as they were
//!   (`left`). If memory runs out at a step, those before it are taken back at the gap, and nothing
//!   has changed but room (`refused`): `splice_items`, and `splice_message`, where a size that is
//!   kept is the right one afterwards (`IsKept`).
//! - Conditions: the part is there, and both lists have room for what comes (`Gap::exchange`,
//!   `Splices::exchange`); the list that is filled is empty (`Gap::close`); each step takes out
//!   items that are there, for as long as the steps are on the list (`splice_items`,
//!   `splice_message`).
#![tactic(auto)]

mod gap;
mod run;
mod splices;

pub use gap::Gap;
pub use run::{splice_items, splice_message};
pub use splices::Splices;
