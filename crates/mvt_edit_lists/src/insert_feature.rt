//! A feature is inserted at an ordinal.

ghost use Rattle.std.specs.Prelude.{◌≡◌, ◌<◌, [], ◌∷◌, map, IfNone, IfOk, IfSome, IsErrOf, OnOk, length};
ghost use Rattle.mvt_document.specs.Stands.{document_of, field_of, layer_item_of, layer_of};
ghost use Rattle.mvt_geometry.specs.Shapes.{kind_number};
ghost use Rattle.mvt_geometry.specs.Integers.{IsInRange};
ghost use Rattle.mvt_messages.specs.Views.{features_in};
ghost use Rattle.mvt_meaning.specs.Command.{InsertFeature};
ghost use Rattle.mvt_meaning.specs.CommandStands.{layer_choice_of};
ghost use Rattle.mvt_meaning.specs.Meaning.{new_content, new_feature, new_number};
ghost use Rattle.mvt_meaning.specs.Selection.{is_feature};
ghost use Rattle.mvt_edit_lists.specs.Placing.{IsPlaceFor};
ghost use Rattle.mvt_edit_steps.specs.Prepared.{Prepares};

use mvt_change::{Change, Step};
use mvt_document::tags::{FEATURE_TAG, GEOMETRY_TAG, KIND_TAG};
use mvt_document::{
    Body, Document, Feature, FeatureParts, Field, FieldParts, Items, Layer, LayerItem, MessageTag,
    Put, Tag, Varint,
};
use mvt_edit_steps::one_step_within_limit;
use mvt_geometry::{EncodeError, Geometry, Kind, encode_geometry};
use mvt_select::{LayerChoice, Refusal, find_layer, place_of_feature};
use std::alloc::{AllocError, Global};

/// Inserts a feature with this geometry into the layer.
pub fn insert_feature(
    alloc: Global,
    document: &Document,
    choice: &LayerChoice,
    index: u64,
    geometry: &Geometry,
) -> Result<Change, Refusal>
    ensures { Prepares (InsertFeature (layer_choice_of choice.now) index geometry.now) (document_of document.now) result }
{
    let found = find_layer(document, choice)?;
    let place = place_of_new(found.layer, index).ok_or(Refusal::BadPlace)?;
    let feature = new_feature(alloc, geometry)?;
    let step = Step::InLayer {
        layer: found.position,
        index: place,
        take: 0,
        put: Put::of_one(alloc, feature),
    };
    one_step_within_limit(alloc, document, step)
}

/// Where to put a new feature for it to have this ordinal: right before the feature that has it; if
/// none has it so far, right after the last feature, or at the end.
fn place_of_new(layer: &Layer, ordinal: u64) -> Option<usize>
    ensures place { IfSome result (IsPlaceFor is_feature ordinal (layer_of layer.now).items) }
    ensures none { IfNone result (length (features_in (layer_of layer.now).items) < ordinal) }
{
    if let Some(place) = place_of_feature(layer, ordinal) {
        return Some(place);
    }
    let end = layer.items.len();
    if ordinal == 0 {
        return Some(end);
    }
    let last = place_of_feature(layer, ordinal - 1)?;
    Some(last + 1)
}

/// A feature with this geometry, in its shortest spelling.
fn new_feature(alloc: Global, geometry: &Geometry) -> Result<LayerItem, EncodeError>
    ensures feature { IfOk result (λ item. layer_item_of item ≡ new_feature geometry.now) }
    ensures in_range { OnOk result (IsInRange geometry.now) }
    ensures out_of_range { IsErrOf result EncodeError.OutOfRange → ¬ IsInRange geometry.now }
{
    let bytes = encode_geometry(alloc, geometry)?;
    Ok(LayerItem::Feature(Feature::new(FeatureParts {
        tag: MessageTag::new(Varint::minimal(FEATURE_TAG)),
        width: 1,
        fields: fields_of(alloc, geometry.kind(), bytes)?,
    })))
}

/// The fields of a feature of this kind, whose geometry has these bytes.
fn fields_of(alloc: Global, kind: Kind, bytes: Items<u8>) -> Result<Items<Field>, AllocError>
    ensures { IfOk result (λ fields. map field_of fields.items
        ≡ new_number 24 (kind_number kind) ∷ new_content 34 bytes.items ∷ []) }
{
    let kind = Field::new(FieldParts {
        tag: Tag::minimal(KIND_TAG),
        body: Body::Number(Varint::minimal(kind.number())),
    });
    let geometry = Field::new(FieldParts {
        tag: Tag::minimal(GEOMETRY_TAG),
        body: Body::Bytes { width: 1, bytes },
    });
    Ok(Items::from_vec(vec![in alloc; kind, geometry]?))
}
