//! The texts of errors. An error is given as `Debug` prints it, and its text is answered.

use crate::calls::broken::{Answer, Broken};
use crate::calls::given::Given;
use crate::calls::scripts::REASONS;
use mvt_history_steps::StartError;
use mvt_view::{
    BadChunk, BadPair, EncodeError, FeatureError, GeometryError, LayerError, PairsError,
};
use mvt_wire::{ReadError, WriteError, read_document};
use std::alloc::Global;
use std::fmt;
use tile_course::{DeviceName, Outcome, TileFault};
use tile_device::{ReadFault, Trouble};

pub fn answer(alloc: Global, call: &str, given: Given<'_>) -> Answer {
    let shown = given.text()?;
    match call {
        "ReadError" => text_of(alloc, &READ_ERRORS, shown),
        "WriteError" => text_of(alloc, &[WriteError::TooLarge, WriteError::NoMemory], shown),
        "BadChunk" => text_of(alloc, &[BadChunk { field: 7 }], shown),
        "GeometryError" => text_of(alloc, &GEOMETRY_ERRORS, shown),
        "EncodeError" => text_of(
            alloc,
            &[EncodeError::OutOfRange, EncodeError::NoMemory],
            shown,
        ),
        "LayerError" => text_of(
            alloc,
            &[LayerError::NoLayer, LayerError::AmbiguousLayer],
            shown,
        ),
        "FeatureError" => text_of(alloc, &FEATURE_ERRORS, shown),
        "BadPair" => text_of(alloc, &[BadPair], shown),
        "PairsError" => text_of(alloc, &[PairsError::BadTags, PairsError::NoMemory], shown),
        "Trouble" => text_of(alloc, &[Trouble::Interrupted, Trouble::Failed], shown),
        "ReadFault" => text_of(alloc, &READ_FAULTS, shown),
        "Refused" => text_of(alloc, &REASONS, shown),
        "StartError" => start_text(alloc, shown),
        "Outcome" => text_of(alloc, &OUTCOMES, shown),
        _ => Err(Broken::NoCall),
    }
}

const READ_ERRORS: [ReadError; 3] = [
    ReadError::BadWire { place: 32 },
    ReadError::FileTooLarge,
    ReadError::NoMemory,
];

const GEOMETRY_ERRORS: [GeometryError; 2] = [GeometryError::BadGeometry, GeometryError::NoMemory];

const FEATURE_ERRORS: [FeatureError; 2] = [FeatureError::NoFeature, FeatureError::AmbiguousFeature];

const READ_FAULTS: [ReadFault; 2] = [ReadFault::Device(Trouble::Failed), ReadFault::NoMemory];

const OUTCOMES: [Outcome; 9] = [
    Outcome::Done,
    Outcome::SomeRefused,
    Outcome::StrictStop,
    Outcome::TileRefused(TileFault::BadWire { place: 32 }),
    Outcome::TileRefused(TileFault::FileTooLarge),
    Outcome::Device(DeviceName::Tile),
    Outcome::Device(DeviceName::Script),
    Outcome::Device(DeviceName::Replies),
    Outcome::NoMemory,
];

/// The text of the error that a session is not started with, which hands an empty document back.
fn start_text(alloc: Global, shown: &str) -> Answer {
    let too_large = StartError::TooLarge(read_document(alloc, &[])?);
    let no_memory = StartError::NoMemory(read_document(alloc, &[])?);
    text_of(alloc, &[too_large, no_memory], shown)
}

/// The text of the error that `Debug` prints so.
fn text_of<T: fmt::Debug + fmt::Display>(alloc: Global, errors: &[T], shown: &str) -> Answer {
    for error in errors {
        if format!(in alloc; "{error:?}")?.as_str() == shown {
            return Ok(format!(in alloc; "{error}")?.into_bytes());
        }
    }
    Err(Broken::BadGiven)
}
