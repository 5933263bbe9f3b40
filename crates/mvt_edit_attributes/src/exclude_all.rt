//! All attributes are removed.

ghost use Rattle.std.specs.Prelude.{◌≡◌, ◌++◌, IfOk, map};
ghost use Rattle.mvt_document.specs.Stands.{document_of};
ghost use Rattle.mvt_change.specs.ChangeStands.{step_of};
ghost use Rattle.mvt_meaning.specs.Command.{ExcludeAll};
ghost use Rattle.mvt_meaning.specs.CommandStands.{layers_choice_of};
ghost use Rattle.mvt_layers.specs.Seen.{found_feature_seen, found_layer_seen};
ghost use Rattle.mvt_edit_steps.specs.Prepared.{Prepares};
ghost use Rattle.mvt_edit_steps.specs.EachFeature.{feature_steps, layer_steps};
ghost use Rattle.mvt_edit_attributes.specs.EachFeature.{tags_go};

use mvt_change::{Change, Step};
use mvt_document::Document;
use mvt_edit_steps::{carry_out, goes_if, is_tags};
use mvt_select::{FoundFeature, FoundLayer, LayersChoice, Refusal, find_layers};
use std::alloc::{AllocError, Global};

/// Each feature of the selected layers loses all its tags fields.
pub fn exclude_all(
    alloc: Global,
    document: &Document,
    choice: &LayersChoice,
) -> Result<Change, Refusal>
    ensures { Prepares (ExcludeAll (layers_choice_of choice.now)) (document_of document.now) result }
{
    let layers = find_layers(document, choice)?;
    let mut steps = Vec::new(alloc);
    for found in layers {
        untag_layer(alloc, found, &mut steps)?;
    }
    Ok(Change::new(steps))
}

/// Appends the steps by which each feature of the layer loses its tags fields.
fn untag_layer(
    alloc: Global,
    found: FoundLayer<'_>,
    steps: &mut Vec<Step>,
) -> Result<(), AllocError>
    ensures { IfOk result (λ done. map step_of steps.new.items ≡ map step_of steps.old.items ++ layer_steps (λ items. tags_go) (found_layer_seen found.entry)) }
{
    for feature in found.view().features() {
        untag(alloc, found.position, feature, steps)?;
    }
    Ok(())
}

/// Appends the steps by which the feature, in the layer at this position, loses its tags fields.
fn untag(
    alloc: Global,
    layer: usize,
    found: FoundFeature<'_>,
    steps: &mut Vec<Step>,
) -> Result<(), AllocError>
    ensures { IfOk result (λ done. map step_of steps.new.items ≡ map step_of steps.old.items ++ feature_steps tags_go layer (found_feature_seen found.entry)) }
{
    let item = found.position;
    carry_out(
        alloc,
        found.feature.fields(),
        |field| Ok(goes_if(is_tags(field))),
        |run| Ok(run.in_feature(layer, item)),
        steps,
    )?;
    Ok(())
}
