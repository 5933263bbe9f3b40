//! `listing`: the lines of a listing, and which layer or feature it is of.

ghost use Rattle.std.specs.Prelude.{◌≡◌};
ghost use Rattle.mvt_document.specs.Stands.{document_of, layer_of};
ghost use Rattle.mvt_meaning.specs.CommandStands.{feature_choice_of, layer_choice_of};
ghost use Rattle.tile_arguments.specs.RequestStands.{what_of};
ghost use Rattle.tile_listing.specs.Listing.{Shows, chosen_feature, chosen_layer};
ghost use Rattle.tile_listing.specs.ListingStands.{feature_found, layer_found};

use crate::feature::put_feature;
use crate::layer::put_layer;
use crate::tile::put_tile;
use mvt_document::{Document, Items, Layer};
use mvt_meaning::{FeatureChoice, LayerChoice};
use mvt_select::{FoundFeature, FoundLayer, Refusal, find_feature, find_layer};
use std::alloc::Global;
use tile_arguments::What;

/// The lines that show what is asked for, each with its line feed. To select takes no memory, so
/// only a listing that is not refused may be out of memory.
pub fn listing(alloc: Global, document: &Document, what: &What) -> Result<Items<u8>, Refusal>
    ensures { Shows (what_of what.now) (document_of document.now) result }
{
    let mut text = Vec::new(alloc);
    match what {
        What::Whole => put_tile(&mut text, document)?,
        What::OneLayer(choice) => {
            let found = chosen_layer(document, choice)?;
            put_layer(&mut text, found.ordinal, found.view())?;
        }
        What::OneFeature(layer_choice, choice) => {
            let holder = chosen_layer(document, layer_choice)?;
            let found = chosen_feature(holder.layer, choice)?;
            put_feature(alloc, &mut text, holder.view(), found.ordinal, found.view())?;
        }
    }
    Ok(Items::from_vec(text))
}

/// The selected layer, with its ordinal.
fn chosen_layer<'a>(document: &'a Document, choice: &LayerChoice) -> Result<FoundLayer<'a>, Refusal>
    ensures { layer_found result ≡ chosen_layer (layer_choice_of choice.now) (document_of document.now) }
{
    find_layer(document, choice)
}

/// The selected feature, with its ordinal.
fn chosen_feature<'a>(layer: &'a Layer, choice: &FeatureChoice) -> Result<FoundFeature<'a>, Refusal>
    ensures { feature_found result ≡ chosen_feature (feature_choice_of choice.now) (layer_of layer.now) }
{
    find_feature(layer, choice)
}
