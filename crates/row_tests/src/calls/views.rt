//! Views of layers and features, and which of them is selected.
//!
//! A layer of the tile is given by its ordinal, and what is looked at within it after that.

use crate::calls::broken::{Answer, Broken};
use crate::calls::given::{Given, number_in, said, shown};
use mvt_select::{find_feature, find_layer};
use mvt_view::{
    Contents, FoundFeature, FoundLayer, LayerView, feature_by_id, layer, layer_count, layer_named,
    layers,
};
use mvt_wire::{Document, read_document};
use std::alloc::{AllocError, Global};
use tile_arguments::{feature_choice, layer_choice};
use tile_lines::{Word, words_of};

pub fn answer(alloc: Global, call: &str, given: Given<'_>) -> Answer {
    let document = read_document(alloc, given.tile)?;
    within_tile(alloc, call, &document, given)
}

/// What a call that looks at the tile answers.
fn within_tile(alloc: Global, call: &str, document: &Document, given: Given<'_>) -> Answer {
    match call {
        "layer_count" => shown(alloc, layer_count(document)),
        "layers" => extents(alloc, document),
        "layer" => match layer(document, given.ordinal()?) {
            Some(found) => layer_shown(alloc, found.view()),
            None => said(alloc, "none"),
        },
        "layer_named" => {
            let named = layer_named(document, given.bytes);
            shown(alloc, named.map(|found| found.ordinal))
        }
        "find_layer" => layer_selected(alloc, document, given.word(alloc)?),
        _ => {
            let (ordinal, rest) = given.ordinal_and_rest()?;
            let found = layer(document, ordinal).ok_or(Broken::BadTile)?;
            within_layer(alloc, call, found, rest)
        }
    }
}

/// The layer that the word of a script selects.
fn layer_selected(alloc: Global, document: &Document, word: Word<'_>) -> Answer {
    let choice = layer_choice(alloc, word).map_err(|_| Broken::BadGiven)?;
    shown(
        alloc,
        find_layer(document, &choice).map(|found| found.ordinal),
    )
}

/// What a call that looks at a layer answers.
fn within_layer(alloc: Global, call: &str, found: FoundLayer<'_>, rest: &str) -> Answer {
    let seen = found.view();
    match call {
        "key" => content_shown(alloc, seen.key(ordinal_in(rest)?)),
        "value" => content_shown(alloc, seen.value(ordinal_in(rest)?)),
        "keys" => Ok(barred(alloc, seen.keys())?),
        "values" => Ok(barred(alloc, seen.values())?),
        "feature" => feature_shown(alloc, seen.feature(ordinal_in(rest)?)),
        "features" => ids(alloc, seen),
        "feature_by_id" => {
            let found = feature_by_id(&seen, number_in(rest)?);
            shown(alloc, found.map(|found| found.ordinal))
        }
        "find_feature" => feature_selected(alloc, found, rest),
        _ => Err(Broken::NoCall),
    }
}

fn ordinal_in(text: &str) -> Result<usize, Broken> {
    text.parse().map_err(|_| Broken::BadGiven)
}

/// The name of a layer, its version, its extent, and how many features, keys and values it has.
fn layer_shown(alloc: Global, seen: LayerView<'_>) -> Answer {
    let name = match seen.name() {
        Some(name) => hex::encode(alloc, name)?,
        None => "none".to_owned(alloc)?,
    };
    let line = format!(in alloc;
        "name {name} version {} extent {} features {} keys {} values {}",
        seen.version(),
        seen.extent(),
        seen.feature_count(),
        seen.key_count(),
        seen.value_count()
    )?;
    Ok(line.into_bytes())
}

fn content_shown(alloc: Global, content: Option<&[u8]>) -> Answer {
    match content {
        Some(bytes) => Ok(format!(in alloc; "x:{}", hex::encode(alloc, bytes)?)?.into_bytes()),
        None => said(alloc, "none"),
    }
}

/// The id and the kind of a feature.
fn feature_shown(alloc: Global, feature: Option<FoundFeature<'_>>) -> Answer {
    match feature {
        Some(found) => {
            let seen = found.view();
            let (id, kind) = (seen.id(), seen.kind());
            Ok(format!(in alloc; "id {id:?} kind {kind}")?.into_bytes())
        }
        None => said(alloc, "none"),
    }
}

/// The feature that the word of a script selects.
fn feature_selected(alloc: Global, holder: FoundLayer<'_>, word: &str) -> Answer {
    match words_of(alloc, word.as_bytes())
        .map_err(|_| Broken::BadGiven)?
        .as_slice()
    {
        [word] => {
            let choice = feature_choice(*word).map_err(|_| Broken::BadGiven)?;
            shown(
                alloc,
                find_feature(holder.layer, &choice).map(|found| found.ordinal),
            )
        }
        _ => Err(Broken::BadGiven),
    }
}

/// The extents of the layers.
fn extents(alloc: Global, document: &Document) -> Answer {
    let mut line = Vec::new(alloc);
    for found in layers(document) {
        line.extend_from_slice(format!(in alloc; "{} ", found.view().extent())?.as_bytes())?;
    }
    Ok(line)
}

/// The ids of the features.
fn ids(alloc: Global, seen: LayerView<'_>) -> Answer {
    let mut line = Vec::new(alloc);
    for found in seen.features() {
        line.extend_from_slice(format!(in alloc; "{:?} ", found.view().id())?.as_bytes())?;
    }
    Ok(line)
}

/// Keys or values, each with a bar after it.
fn barred(alloc: Global, contents: Contents<'_>) -> Result<Vec<u8>, AllocError> {
    let mut all = Vec::new(alloc);
    for content in contents {
        all.extend_from_slice(content)?;
        all.push(b'|')?;
    }
    Ok(all)
}
