//! The arguments of requests: texts, numbers, layers, features, values and geometries.

use crate::calls::broken::{Answer, Broken};
use crate::calls::geometries::geometry_shown;
use crate::calls::given::{Given, shown};
use crate::calls::values::{as_read, value_shown};
use mvt_meaning::LayerChoice;
use std::alloc::Global;
use tile_arguments::{
    distance, feature_choice, layer_choice, new_geometry, new_value, number, text_argument,
};

pub fn answer(alloc: Global, call: &str, given: Given<'_>) -> Answer {
    match call {
        "number" => shown(alloc, number(given.bytes)),
        "distance" => shown(alloc, distance(given.word(alloc)?)),
        "feature_choice" => shown(alloc, feature_choice(given.word(alloc)?)),
        "text_argument" => match text_argument(alloc, given.word(alloc)?) {
            Ok(text) => Ok(text.into_vec()),
            Err(error) => shown(alloc, error),
        },
        "layer_choice" => match layer_choice(alloc, given.word(alloc)?) {
            Ok(layer) => layer_shown(alloc, &layer),
            Err(error) => shown(alloc, error),
        },
        "new_value" => value_said(alloc, given),
        "new_geometry" => match new_geometry(alloc, &given.words(alloc)?) {
            Ok(geometry) => Ok(geometry_shown(alloc, &geometry)?),
            Err(error) => shown(alloc, error),
        },
        _ => Err(Broken::NoCall),
    }
}

/// What selects a layer: its ordinal, or its name in hexadecimal digits.
pub fn layer_shown(alloc: Global, layer: &LayerChoice) -> Answer {
    match layer {
        LayerChoice::Ordinal(ordinal) => {
            Ok(format!(in alloc; "Ordinal({ordinal})")?.into_bytes())
        }
        LayerChoice::Name(name) => {
            let digits = hex::encode(alloc, name.as_slice())?;
            Ok(format!(in alloc; "Name({digits})")?.into_bytes())
        }
    }
}

fn value_said(alloc: Global, given: Given<'_>) -> Answer {
    let words = given.words(alloc)?;
    let [name, value] = words.as_slice() else {
        return Err(Broken::BadGiven);
    };
    match new_value(alloc, *name, *value) {
        Ok(value) => Ok(value_shown(alloc, as_read(&value))?),
        Err(error) => shown(alloc, error),
    }
}
