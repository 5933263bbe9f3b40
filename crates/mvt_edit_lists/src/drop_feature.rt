//! A feature is removed.

ghost use Rattle.mvt_document.specs.Stands.{document_of};
ghost use Rattle.mvt_meaning.specs.Command.{DropFeature};
ghost use Rattle.mvt_meaning.specs.CommandStands.{feature_choice_of, layer_choice_of};
ghost use Rattle.mvt_edit_steps.specs.Prepared.{Prepares};

use mvt_change::{Change, Place};
use mvt_document::Document;
use mvt_edit_steps::item_out;
use mvt_select::{FeatureChoice, LayerChoice, Refusal, find_feature, find_layer};
use std::alloc::Global;

/// Removes the feature.
pub fn drop_feature(
    alloc: Global,
    document: &Document,
    choice: &LayerChoice,
    feature: &FeatureChoice,
) -> Result<Change, Refusal>
    ensures { Prepares (DropFeature (layer_choice_of choice.now) (feature_choice_of feature.now)) (document_of document.now) result }
{
    let holder = find_layer(document, choice)?;
    let found = find_feature(holder.layer, feature)?;
    let place = Place::Layer {
        layer: holder.position,
    };
    Ok(item_out(alloc, place, found.position)?)
}
