//! A layer is removed.

ghost use Rattle.mvt_document.specs.Stands.{document_of};
ghost use Rattle.mvt_meaning.specs.Command.{DropLayer};
ghost use Rattle.mvt_meaning.specs.CommandStands.{layer_choice_of};
ghost use Rattle.mvt_edit_steps.specs.Prepared.{Prepares};

use mvt_change::{Change, Place};
use mvt_document::Document;
use mvt_edit_steps::item_out;
use mvt_select::{LayerChoice, Refusal, find_layer};
use std::alloc::Global;

/// Removes the layer.
pub fn drop_layer(
    alloc: Global,
    document: &Document,
    choice: &LayerChoice,
) -> Result<Change, Refusal>
    ensures { Prepares (DropLayer (layer_choice_of choice.now)) (document_of document.now) result }
{
    let found = find_layer(document, choice)?;
    Ok(item_out(alloc, Place::Tile, found.position)?)
}
