//! A feature loses its id.

ghost use Rattle.std.specs.Prelude.{◌≡◌};
ghost use Rattle.mvt_document.specs.Stands.{document_of, field_of};
ghost use Rattle.mvt_meaning.specs.Command.{ClearId};
ghost use Rattle.mvt_meaning.specs.CommandStands.{feature_choice_of, layer_choice_of};
ghost use Rattle.mvt_meaning.specs.Meaning.{is_id};
ghost use Rattle.mvt_edit_steps.specs.Prepared.{Prepares};

use mvt_change::Change;
use mvt_document::tags::ID;
use mvt_document::{BodyRef, Document, Field};
use mvt_edit_steps::{carry_out, goes_if};
use mvt_select::{FeatureChoice, LayerChoice, Refusal, find_feature, find_layer};
use std::alloc::Global;

/// Removes each id field of the feature.
pub fn clear_id(
    alloc: Global,
    document: &Document,
    choice: &LayerChoice,
    feature: &FeatureChoice,
) -> Result<Change, Refusal>
    ensures { Prepares (ClearId (layer_choice_of choice.now) (feature_choice_of feature.now)) (document_of document.now) result }
{
    let holder = find_layer(document, choice)?;
    let found = find_feature(holder.layer, feature)?;
    let (layer, item) = (holder.position, found.position);
    let mut steps = Vec::new(alloc);
    carry_out(
        alloc,
        found.feature.fields(),
        |field| Ok(goes_if(is_id(field))),
        |run| Ok(run.in_feature(layer, item)),
        &mut steps,
    )?;
    Ok(Change::new(steps))
}

fn is_id(field: &Field) -> bool
    ensures { result ≡ is_id (field_of field.now) }
{
    field.number() == ID && matches!(field.body(), BodyRef::Number(_))
}
