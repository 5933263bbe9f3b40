//! Changes of a document as values: what they make, what leads back, and how a change is carried
//! out in place; and whether a file can hold what a step makes.
//!
//! - A change is carried out in place as the definition says, and becomes the change that leads
//!   back, every field and every width equal. If memory runs out, neither the document nor the
//!   change has changed: `flip`.
//! - A list of changes becomes one change, which has the steps of the last one first and of the
//!   first one last, and the list is then empty. If memory runs out the list has what it had; with
//!   one change or none it never runs out: `join`.
//! - The bytes of all items that a change puts are counted: `weight`.
//! - Whether a file can hold a tile once a step is carried out on it is answered beforehand,
//!   exactly, for every document and each step that fits it: also for a tile that no file can hold,
//!   and if the length of a layer or of a feature comes to take more or fewer bytes: `fits_after`.
//! - For a change of several steps in one layer this follows from the size of what they make:
//!   whether a file can hold the tile if the layer has items of a given size, whichever they are,
//!   and what size its items have if one feature has fields of one size and items of another are
//!   added at the end: `fits_with_items`, `size_with_fields`.
//! - Conditions: the change fits the document (`flip`), or the step does (`fits_after`); there is a
//!   layer at the position (`fits_with_items`), or a feature (`size_with_fields`); the sum is below
//!   2^64 (`weight`).
#![tactic(auto)]

mod change;
mod features;
mod flip_change;
mod joining;
pub mod laws;
mod lists;
mod run;
mod sizes;
mod steps;
mod taking_back;
mod weigh;

pub use change::{Change, Place, Step};
pub use flip_change::flip;
pub use joining::join;
pub use sizes::{fits_after, fits_with_items, size_with_fields};
pub use weigh::weight;
