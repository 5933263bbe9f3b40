//! What the calls answer, by their names.

use crate::calls::broken::{Answer, Broken};
use crate::calls::given::Given;
use crate::calls::{
    arguments, changes, errors, geometries, limits, numbers, scripts, sessions, texts, values,
    views, wire,
};
use std::alloc::Global;

/// What the call of this module and name answers.
pub fn answer(alloc: Global, call: &str, given: Given<'_>) -> Answer {
    let (module, name) = call.split_once(' ').ok_or(Broken::NoCall)?;
    match module {
        "wire" => wire::answer(alloc, name, given),
        "geometries" => geometries::answer(alloc, name, given),
        "numbers" => numbers::answer(alloc, name, given),
        "values" => values::answer(alloc, name, given),
        "views" => views::answer(alloc, name, given),
        "arguments" => arguments::answer(alloc, name, given),
        "scripts" => scripts::answer(alloc, name, given),
        "texts" => texts::answer(alloc, name, given),
        "sessions" => sessions::answer(alloc, name, given),
        "changes" => changes::answer(alloc, name, given),
        "limits" => limits::answer(alloc, name, given),
        "errors" => errors::answer(alloc, name, given),
        _ => Err(Broken::NoCall),
    }
}
