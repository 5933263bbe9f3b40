//! A feature moves to another ordinal.

ghost use Rattle.mvt_document.specs.Stands.{document_of};
ghost use Rattle.mvt_meaning.specs.Command.{MoveFeature};
ghost use Rattle.mvt_meaning.specs.CommandStands.{feature_choice_of, layer_choice_of};
ghost use Rattle.mvt_edit_steps.specs.Prepared.{Prepares};

use mvt_change::{Change, Place, Step};
use mvt_document::Document;
use mvt_edit_steps::one_step;
use mvt_select::{FeatureChoice, LayerChoice, Refusal, find_feature, find_layer, place_of_feature};
use std::alloc::Global;

/// Moves the feature to this ordinal.
pub fn move_feature(
    alloc: Global,
    document: &Document,
    choice: &LayerChoice,
    feature: &FeatureChoice,
    index: u64,
) -> Result<Change, Refusal>
    ensures { Prepares (MoveFeature (layer_choice_of choice.now) (feature_choice_of feature.now) index) (document_of document.now) result }
{
    let found = find_layer(document, choice)?;
    let from = find_feature(found.layer, feature)?.position;
    let to = place_of_feature(found.layer, index).ok_or(Refusal::BadPlace)?;
    let place = Place::Layer {
        layer: found.position,
    };
    Ok(one_step(alloc, Step::Move { place, from, to })?)
}
