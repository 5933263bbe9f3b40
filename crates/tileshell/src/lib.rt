//! A line editor for one vector tile, with exact undo: a run over bytes in memory, and the program
//! as a function.
//!
//! - `edit` is `run` over bytes in memory, and frees what the run held; docs/PROVED.md has its
//!   clauses.
//! - `shell` is the program, from its words to its status; it is re-exported from `tile_files`.
//!
//! It re-exports `run`, `run_and_free` and the types that these take and return, what cuts a script
//! into its lines (`LineCutter`), `parse_line`, `read_document`, `listing`, `quote`, the commands with
//! what they are made of, requests and refusals with their limits, the devices of the standard library
//! and what other devices are made of, and modules of laws of the crates below it.
#![tactic(auto)]

mod in_memory;

pub use in_memory::{Edited, edit};
pub use mvt_document::{Document, Items, MAX_FILE, laws as wire_laws};
pub use mvt_geometry::{Geometry, Kind, Part, Point};
pub use mvt_history::{HistoryError, MAX_DEPTH, MAX_MARKS};
pub use mvt_meaning::{Command, FeatureChoice, LayerChoice, LayersChoice, Refusal};
pub use mvt_value::NewValue;
pub use mvt_wire::{ReadError, read_document};
pub use tile_arguments::{Request, What};
pub use tile_course::Refused;
pub use tile_device::{Counts, FromRead, FromWrite, Sink, Source, Trouble};
pub use tile_files::shell;
pub use tile_lines::{Cut, LINE_LIMIT, LineCutter, laws as line_laws};
pub use tile_listing::{laws as listing_laws, listing};
pub use tile_run::{
    DeviceName, MAX_RETRIES, MAX_SCRIPT, Options, Outcome, TileFault, run, run_and_free,
};
pub use tile_script::{ParseError, laws as script_laws, parse_line};
pub use tile_text::{laws as text_laws, quote};
