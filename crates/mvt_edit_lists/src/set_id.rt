//! A feature gets an id: its last one becomes that, or one is added at the end.

ghost use Rattle.std.specs.Prelude.{◌≡◌, IfOk};
ghost use Rattle.mvt_document.specs.Opens.{IsField};
ghost use Rattle.mvt_document.specs.Stands.{document_of, feature_of};
ghost use Rattle.mvt_document.specs.Wire.{field_bytes};
ghost use Rattle.mvt_change.specs.Changes.{FeatureStep};
ghost use Rattle.mvt_change.specs.ChangeStands.{step_of};
ghost use Rattle.mvt_meaning.specs.Command.{SetId};
ghost use Rattle.mvt_meaning.specs.CommandStands.{feature_choice_of, layer_choice_of};
ghost use Rattle.mvt_meaning.specs.Meaning.{identified, is_id};
ghost use Rattle.mvt_edit_steps.specs.Prepared.{Prepares};
ghost use Rattle.mvt_edit_steps.specs.PutsLast.{PutsLast};

use mvt_change::{Change, Step};
use mvt_document::tags::ID_TAG;
use mvt_document::{Document, Feature};
use mvt_edit_steps::{number_put, one_step_within_limit};
use mvt_select::{FeatureChoice, LayerChoice, Refusal, find_feature, find_layer};
use std::alloc::{AllocError, Global};

/// Gives the feature the id.
pub fn set_id(
    alloc: Global,
    document: &Document,
    choice: &LayerChoice,
    feature: &FeatureChoice,
    id: u64,
) -> Result<Change, Refusal>
    ensures { Prepares (SetId (layer_choice_of choice.now) (feature_choice_of feature.now) id) (document_of document.now) result }
{
    let holder = find_layer(document, choice)?;
    let found = find_feature(holder.layer, feature)?;
    let step = identifying(alloc, holder.position, found.position, found.feature, id)?;
    one_step_within_limit(alloc, document, step)
}

/// The step that gives the id to the feature at this position of a layer.
fn identifying(
    alloc: Global,
    layer: usize,
    item: usize,
    feature: &Feature,
    id: u64,
) -> Result<Step, AllocError>
    ensures { IfOk result (λ step. PutsLast IsField field_bytes is_id (FeatureStep layer item)
        (feature_of feature.now).fields (identified id (feature_of feature.now).fields) (step_of step)) }
{
    let run = number_put(alloc, feature.fields(), ID_TAG, id)?;
    Ok(run.in_feature(layer, item))
}
