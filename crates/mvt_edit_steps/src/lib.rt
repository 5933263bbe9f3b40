//! What the changes of commands are made of: single steps, steps for what becomes of each item of a
//! list, and steps for what is decided on the tags of a feature.
//!
//! - The change of one step, with a variant that is refused exactly if a file cannot hold what the
//!   step makes of the document; and the change that takes one item out: `one_step`,
//!   `one_step_within_limit`, `item_out`.
//! - Where an item goes that takes the place of the last one that passes, or else goes to the end of
//!   the list: `Spot::of`. What gives the last VARINT field of a number a value in this way, in its
//!   old spelling if it has the value: `number_put`.
//! - What becomes of each item is carried out in steps added after the given ones: neighbours that
//!   change are one step, each step is on what the steps before it made, and how many items change
//!   is returned: `carry_out`. The same for a new item that takes the place of the first that
//!   passes, where the others that pass go: `put_once`; and for taking out the items that are
//!   picked, by a mark for each: `take_out`.
//! - The same for the fields of a feature whose numbers are decided on, and how many bytes they
//!   take then (`size`): `renumber_fields`. A run of such items is a step of a feature, of a layer
//!   or of the tile: `Run`.
//! - What is decided on the numbers of a feature's tags, pair by pair, and how many pairs count; a
//!   feature whose tags make no pairs is refused: `decide_pairs`. The same for the pairs of the keys
//!   that are some bytes, which go or get another value: `named_keys`, `name_keys`,
//!   `decide_or_refuse`. Which fields are tags: `is_tags`. The steps of such a feature, and how many
//!   bytes its fields take then (`size`): `renumber_feature`.
//! - After an `Err` a list that was borrowed for steps, decisions or names may hold a part of what was
//!   to be added to it, and no clause says which. The commands drop it.
//! - The definition `Prepares` says what it is that a change carries a command out, for all
//!   commands.
//! - Conditions: the step fits the document (`one_step_within_limit`); the tag is that of a VARINT
//!   field (`number_put`); what is given to `carry_out`, `take_out`, `put_once`, `renumber_fields`
//!   and `decide_pairs` answers for every item, every run and every pair.
#![tactic(auto)]

mod decide;
mod fates;
mod numbered;
mod pairs;
mod put_last;
mod steps;

pub use decide::{decide_or_refuse, is_tags, name_keys, named_keys};
pub use fates::{Run, carry_out, goes_if, put_once, renumber_fields, take_out};
pub use mvt_renumber::Fate;
pub use numbered::number_put;
pub use pairs::{decide_pairs, renumber_feature};
pub use put_last::Spot;
pub use steps::{item_out, one_step, one_step_within_limit};
