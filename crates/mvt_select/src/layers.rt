//! The selected layers: one, or all.

ghost use Rattle.std.specs.Prelude.{◌≡◌, Ok, Err, IfErr, IfOk};
ghost use Rattle.mvt_document.specs.Stands.{document_of};
ghost use Rattle.mvt_meaning.specs.CommandStands.{layers_choice_of};
ghost use Rattle.mvt_meaning.specs.Selection.{selected_layers};
ghost use Rattle.mvt_select.specs.Found.{layers_left};

use crate::find::find_layer;
use mvt_document::Document;
use mvt_layers::{FoundLayer, LayerViews, layers};
use mvt_meaning::{LayersChoice, Refusal};

/// The selected layers, in order, each with its ordinal and its position.
#[derive(Drop)]
pub enum SelectedLayers<'a> {
    /// The selected one, until it has been yielded.
    One(Option<FoundLayer<'a>>),
    All(LayerViews<'a>),
}

impl<'a> Iterator for SelectedLayers<'a> {
    ghost use Rattle.std.specs.Iterator.{YieldsFirstBy, item_count};
    ghost use Rattle.mvt_layers.specs.Seen.{found_layer_seen};

    type Item = FoundLayer<'a>;

    ghost next_gives = { YieldsFirstBy found_layer_seen layers_left };

    ghost remaining = { item_count layers_left };

    fn next(&mut self) -> Option<FoundLayer<'a>> {
        match self {
            SelectedLayers::One(found) => found.take(),
            SelectedLayers::All(layers) => layers.next(),
        }
    }
}

/// The selected layers.
pub fn find_layers<'a>(
    document: &'a Document,
    choice: &LayersChoice,
) -> Result<SelectedLayers<'a>, Refusal>
    ensures found { IfOk result (λ found. selected_layers (layers_choice_of choice.now) (document_of document.now) ≡ Ok (layers_left found)) }
    ensures refused { IfErr result (λ refusal. selected_layers (layers_choice_of choice.now) (document_of document.now) ≡ Err refusal) }
{
    match choice {
        LayersChoice::One(choice) => {
            Ok(SelectedLayers::One(Some(find_layer(document, choice)?)))
        }
        LayersChoice::All => Ok(SelectedLayers::All(layers(document))),
    }
}
