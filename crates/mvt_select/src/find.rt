//! The selected layer and the selected feature, each with where it is.

ghost use Rattle.std.specs.Prelude.{◌≡◌, Err, IfErr, IfOk, filter, slice_get};
ghost use Rattle.std.specs.Result.{result_map_both};
ghost use Rattle.mvt_document.specs.Stands.{document_of, layer_of};
ghost use Rattle.mvt_messages.specs.Found.{found_features, found_layers};
ghost use Rattle.mvt_layers.specs.Seen.{found_feature_seen, found_layer_seen};
ghost use Rattle.mvt_messages.specs.Views.{has_id, is_named, the_one};
ghost use Rattle.mvt_meaning.specs.CommandStands.{feature_choice_of, layer_choice_of};
ghost use Rattle.mvt_meaning.specs.Selection.{feature_positions, layer_positions, selected, selected_feature};
ghost use Rattle.mvt_meaning.specs.declared.refusal.Refusal.TheVariants.{AmbiguousFeature, AmbiguousLayer, NoFeature, NoLayer};
ghost use Rattle.mvt_select.specs.Found.{IsFoundFeature, IsFoundLayer};
ghost use Rattle.mvt_select.specs.Refused.{feature_refusal, layer_refusal};

use mvt_document::{Document, Layer};
use mvt_layers::{
    FeatureError, FoundFeature, FoundLayer, LayerError, LayerView, feature_by_id, layer,
    layer_named,
};
use mvt_meaning::{FeatureChoice, LayerChoice, Refusal};

/// The selected layer.
pub fn find_layer<'a>(
    document: &'a Document,
    choice: &LayerChoice,
) -> Result<FoundLayer<'a>, Refusal>
    ensures found { IfOk result (IsFoundLayer (layer_choice_of choice.now) (document_of document.now)) }
    ensures refused { IfErr result (λ refusal. selected (layer_choice_of choice.now) (document_of document.now) ≡ Err refusal) }
{
    match choice {
        LayerChoice::Ordinal(ordinal) => {
            layer(document, *ordinal as usize).ok_or(Refusal::NoLayer)
        }
        LayerChoice::Name(name) => find_named(document, name.as_slice()),
    }
}

/// The position in the tile of the layer of this ordinal.
pub fn place_of_layer(document: &Document, ordinal: u64) -> Option<usize>
    ensures { result ≡ slice_get (layer_positions (document_of document.now)) ordinal }
{
    match layer(document, ordinal as usize) {
        Some(found) => Some(found.position),
        None => None,
    }
}

/// The position in the layer of the feature of this ordinal.
pub fn place_of_feature(layer: &Layer, ordinal: u64) -> Option<usize>
    ensures { result ≡ slice_get (feature_positions (layer_of layer.now).items) ordinal }
{
    match LayerView::of(layer).feature(ordinal as usize) {
        Some(found) => Some(found.position),
        None => None,
    }
}

/// The one layer with this name.
pub(crate) fn find_named<'a>(document: &'a Document, name: &[u8]) -> Result<FoundLayer<'a>, Refusal>
    ensures { result_map_both found_layer_seen (λ refusal. refusal) result ≡ the_one NoLayer AmbiguousLayer (filter (λ found. is_named name.now found.1.1) (found_layers (document_of document.now))) }
{
    match layer_named(document, name) {
        Ok(found) => Ok(found),
        Err(error) => Err(layer_refusal(error)),
    }
}

fn layer_refusal(error: LayerError) -> Refusal
    ensures { result ≡ layer_refusal error }
{
    match error {
        LayerError::NoLayer => Refusal::NoLayer,
        LayerError::AmbiguousLayer => Refusal::AmbiguousLayer,
    }
}

/// The selected feature.
pub fn find_feature<'a>(
    layer: &'a Layer,
    choice: &FeatureChoice,
) -> Result<FoundFeature<'a>, Refusal>
    ensures found { IfOk result (IsFoundFeature (feature_choice_of choice.now) (layer_of layer.now)) }
    ensures refused { IfErr result (λ refusal. selected_feature (feature_choice_of choice.now) (layer_of layer.now) ≡ Err refusal) }
{
    match choice {
        FeatureChoice::Ordinal(ordinal) => LayerView::of(layer)
            .feature(*ordinal as usize)
            .ok_or(Refusal::NoFeature),
        FeatureChoice::Id(id) => find_with_id(layer, *id),
    }
}

/// The one feature with this id.
fn find_with_id<'a>(layer: &'a Layer, id: u64) -> Result<FoundFeature<'a>, Refusal>
    ensures { result_map_both found_feature_seen (λ refusal. refusal) result ≡ the_one NoFeature AmbiguousFeature (filter (λ found. has_id id found.1.1) (found_features (layer_of layer.now).items)) }
{
    match feature_by_id(&LayerView::of(layer), id) {
        Ok(found) => Ok(found),
        Err(error) => Err(feature_refusal(error)),
    }
}

fn feature_refusal(error: FeatureError) -> Refusal
    ensures { result ≡ feature_refusal error }
{
    match error {
        FeatureError::NoFeature => Refusal::NoFeature,
        FeatureError::AmbiguousFeature => Refusal::AmbiguousFeature,
    }
}
