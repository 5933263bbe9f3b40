//! The layers of a document; the layer that a name selects, and the feature that an id selects.

ghost use Rattle.std.specs.Prelude.{◌≡◌, ◌<◌, ◌^◌, ℕ, List, false, filter, length, option_map, slice_get};
ghost use Rattle.std.specs.Iterator.{AlwaysYields};
ghost use Rattle.std.specs.Option.{option_copied, option_map_or};
ghost use Rattle.std.specs.Result.{result_map_both};
ghost use Rattle.std.specs.Str.{bytes_eq};
ghost use Rattle.mvt_document.specs.Plain.{Layer};
ghost use Rattle.mvt_document.specs.Stands.{document_of};
ghost use Rattle.mvt_messages.specs.Found.{found_features, found_layers};
ghost use Rattle.mvt_messages.specs.Views.{has_id, is_named, layers, the_one};
ghost use Rattle.mvt_layers.specs.Seen.{found_feature_seen, found_layer_seen, layer_seen};
ghost use Rattle.mvt_layers.specs.declared.select.LayerError.TheVariants.{AmbiguousLayer, NoLayer};
ghost use Rattle.mvt_layers.specs.declared.select.FeatureError.TheVariants.{AmbiguousFeature, NoFeature};

use crate::fields::layer_in_run;
use crate::found::{FoundFeature, FoundLayer};
use crate::lists::LayerViews;
use crate::views::LayerView;
use mvt_document::Document;
use thiserror::Error;

/// Why a name selects no layer.
#[derive(Clone, Copy, Debug, PartialEq, Eq, Error)]
pub enum LayerError {
    #[error("there is no such layer")]
    NoLayer,
    #[error("several layers have the name")]
    AmbiguousLayer,
}

/// Why an id selects no feature.
#[derive(Clone, Copy, Debug, PartialEq, Eq, Error)]
pub enum FeatureError {
    #[error("there is no such feature")]
    NoFeature,
    #[error("several features have the id")]
    AmbiguousFeature,
}

/// The layers, in order.
pub fn layers(document: &Document) -> LayerViews<'_>
    ensures items { result ≡ found_layers (document_of document.now) }
    ensures bound { length result < 2 ^ 64 }
{
    LayerViews::of(document.items.as_slice())
}

pub fn layer_count(document: &Document) -> usize
    ensures { result ≡ length (layers (document_of document.now)) }
{
    let layers = document.items.runs().messages;
    layers.count + LayerViews::following(document.items.as_slice(), layers).count()
}

/// The layer with this ordinal.
pub fn layer(document: &Document, ordinal: usize) -> Option<FoundLayer<'_>>
    ensures { option_map found_layer_seen result ≡ slice_get (found_layers (document_of document.now)) ordinal }
{
    let items = document.items.as_slice();
    let layers = document.items.runs().messages;
    if ordinal < layers.count {
        return layer_in_run(items, layers, ordinal);
    }
    LayerViews::following(items, layers).nth(ordinal - layers.count)
}

/// The one layer with this name.
pub fn layer_named<'a>(document: &'a Document, name: &[u8]) -> Result<FoundLayer<'a>, LayerError>
    ensures { result_map_both found_layer_seen (λ error. error) result ≡ the_one NoLayer AmbiguousLayer (filter (λ found. is_named name.now found.1.1) (found_layers (document_of document.now))) }
{
    the_one_layer(layers(document).filter(|found| is_named(found.view(), name)))
}

/// The only layer that comes, or the error that there is none or that there are several.
fn the_one_layer<'a, I: Iterator<Item = FoundLayer<'a>>>(
    mut layers: I,
) -> Result<FoundLayer<'a>, LayerError>
    requires { I.can_next layers }
    ensures { (list : List (ℕ × (ℕ × Layer))) → AlwaysYields I.next_gives found_layer_seen layers list → result_map_both found_layer_seen (λ error. error) result ≡ the_one NoLayer AmbiguousLayer list }
{
    match layers.next() {
        None => Err(LayerError::NoLayer),
        Some(found) => match layers.next() {
            None => Ok(found),
            Some(_) => Err(LayerError::AmbiguousLayer),
        },
    }
}

/// The one feature with this id.
pub fn feature_by_id<'a>(layer: &LayerView<'a>, id: u64) -> Result<FoundFeature<'a>, FeatureError>
    ensures { result_map_both found_feature_seen (λ error. error) result ≡ the_one NoFeature AmbiguousFeature (filter (λ found. has_id id found.1.1) (found_features (layer_seen layer.now).items)) }
{
    let mut features = layer.hashed_features();
    match features.next_with_id(id) {
        None => Err(FeatureError::NoFeature),
        Some(found) => match features.next_with_id(id) {
            None => Ok(found),
            Some(_) => Err(FeatureError::AmbiguousFeature),
        },
    }
}

fn is_named(layer: LayerView, name: &[u8]) -> bool
    ensures { result ≡ is_named name.now (layer_seen layer.entry) }
{
    is_text(layer.name(), name)
}

fn is_text(text: Option<&[u8]>, name: &[u8]) -> bool
    ensures { result ≡ option_map_or (bytes_eq name.now) (option_copied text.entry) false }
{
    match text {
        Some(text) => text == name,
        None => false,
    }
}
