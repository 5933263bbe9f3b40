//! The numbers of the tags and the geometry of a tile's first feature, and its tags in pairs.

use crate::calls::broken::{Answer, Broken};
use crate::calls::given::{Given, shown};
use mvt_view::{BadChunk, LayerView, Number, Numbers, Pair, layer, pairs};
use mvt_wire::{Document, read_document};
use std::alloc::{AllocError, Global};

pub fn answer(alloc: Global, call: &str, given: Given<'_>) -> Answer {
    let document = read_document(alloc, given.tile)?;
    within_tile(alloc, call, &document)
}

/// What a call answers of the first layer of the tile.
fn within_tile(alloc: Global, call: &str, document: &Document) -> Answer {
    let seen = layer(document, 0).ok_or(Broken::BadTile)?.view();
    match call {
        "tags" => tags(alloc, seen),
        "geometry_numbers" => geometry_numbers(alloc, seen),
        "pairs" => paired(alloc, seen),
        _ => Err(Broken::NoCall),
    }
}

fn tags(alloc: Global, seen: LayerView<'_>) -> Answer {
    let feature = seen.feature(0).ok_or(Broken::BadTile)?.view();
    Ok(numbers_shown(alloc, feature.tags())?)
}

fn geometry_numbers(alloc: Global, seen: LayerView<'_>) -> Answer {
    let feature = seen.feature(0).ok_or(Broken::BadTile)?.view();
    Ok(numbers_shown(alloc, feature.geometry_numbers())?)
}

/// Each number with its width, the position of its field and its place there. A bad chunk has the
/// position of its field.
fn numbers_shown(alloc: Global, numbers: Numbers<'_>) -> Result<Vec<u8>, AllocError> {
    let mut line = Vec::new(alloc);
    for number in numbers {
        line.extend_from_slice(number_shown(alloc, number)?.as_bytes())?;
    }
    line.extend_from_slice(b"end")?;
    Ok(line)
}

fn number_shown(alloc: Global, number: Result<Number, BadChunk>) -> Result<String, AllocError> {
    match number {
        Ok(n) => {
            let (value, width) = (n.varint.value, n.varint.width);
            format!(in alloc;
                "{value} width {width} field {} place {}; ",
                n.field, n.place
            )
        }
        Err(chunk) => format!(in alloc; "bad chunk field {}; ", chunk.field),
    }
}

/// The pairs of a key and a value.
fn paired(alloc: Global, seen: LayerView<'_>) -> Answer {
    let feature = seen.feature(0).ok_or(Broken::BadTile)?.view();
    match pairs(alloc, &seen, &feature) {
        Ok(pairs) => Ok(pairs_shown(alloc, pairs.as_slice())?),
        Err(error) => shown(alloc, error),
    }
}

fn pairs_shown(alloc: Global, pairs: &[Pair]) -> Result<Vec<u8>, AllocError> {
    let mut line = b"pairs".to_vec(alloc)?;
    for pair in pairs {
        let shown = format!(in alloc; " {}={}", pair.key, pair.value)?;
        line.extend_from_slice(shown.as_bytes())?;
    }
    Ok(line)
}
