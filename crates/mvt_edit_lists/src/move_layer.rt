//! A layer moves to another ordinal.

ghost use Rattle.mvt_document.specs.Stands.{document_of};
ghost use Rattle.mvt_meaning.specs.Command.{MoveLayer};
ghost use Rattle.mvt_meaning.specs.CommandStands.{layer_choice_of};
ghost use Rattle.mvt_edit_steps.specs.Prepared.{Prepares};

use mvt_change::{Change, Place, Step};
use mvt_document::Document;
use mvt_edit_steps::one_step;
use mvt_select::{LayerChoice, Refusal, find_layer, place_of_layer};
use std::alloc::Global;

/// Moves the layer to this ordinal.
pub fn move_layer(
    alloc: Global,
    document: &Document,
    choice: &LayerChoice,
    index: u64,
) -> Result<Change, Refusal>
    ensures { Prepares (MoveLayer (layer_choice_of choice.now) index) (document_of document.now) result }
{
    let from = find_layer(document, choice)?.position;
    let to = place_of_layer(document, index).ok_or(Refusal::BadPlace)?;
    let place = Place::Tile;
    Ok(one_step(alloc, Step::Move { place, from, to })?)
}
