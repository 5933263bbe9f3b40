//! A feature gets another geometry.

ghost use Rattle.std.specs.Prelude.{◌≡◌, ◌+◌, ◌-◌, ◌≤◌, ◌∷◌, not, IfOk, IsErrOf, OnOk, filter, length, map};
ghost use Rattle.std.specs.List.{flat_map};
ghost use Rattle.mvt_document.specs.declared.TheConstants.{MAX_FILE};
ghost use Rattle.mvt_document.specs.Opens.{IsField};
ghost use Rattle.mvt_document.specs.Splicing.{splice};
ghost use Rattle.mvt_document.specs.Stands.{document_of, feature_of, field_of};
ghost use Rattle.mvt_document.specs.Wire.{field_bytes};
ghost use Rattle.mvt_geometry.specs.Integers.{IsInRange, encoded};
ghost use Rattle.mvt_geometry.specs.Shapes.{kind_number};
ghost use Rattle.mvt_change.specs.Changes.{FeatureStep};
ghost use Rattle.mvt_change.specs.ChangeStands.{change_of};
ghost use Rattle.mvt_change.specs.FileSizes.{IsFileSize};
ghost use Rattle.mvt_meaning.specs.Command.{SetGeometry};
ghost use Rattle.mvt_meaning.specs.CommandStands.{feature_choice_of, layer_choice_of};
ghost use Rattle.mvt_meaning.specs.Fields.{new_content};
ghost use Rattle.mvt_meaning.specs.Geometries.{is_geometry_field, is_kind, with_kind};
ghost use Rattle.mvt_meaning.specs.Ordinals.{put_once};
ghost use Rattle.mvt_edit_steps.specs.Once.{once_splices};
ghost use Rattle.mvt_edit_steps.specs.Prepared.{Prepares};
ghost use Rattle.mvt_edit_steps.specs.PutsLast.{ReplacesLast};

use crate::fits::fits_with_fields;
use mvt_change::Change;
use mvt_document::tags::{GEOMETRY, GEOMETRY_TAG, KIND_TAG};
use mvt_document::{
    Body, BodyRef, Document, Field, FieldParts, Items, MAX_FILE, Measured, Tag, sum_within,
};
use mvt_edit_steps::{Run, number_put, put_once};
use mvt_geometry::{EncodeError, Geometry, encode_geometry};
use mvt_select::{FeatureChoice, FoundFeature, LayerChoice, Refusal, find_feature, find_layer};
use std::alloc::{AllocError, Global};

/// The last kind of the feature becomes that of the geometry, and the first of its geometry fields
/// becomes the geometry; its other geometry fields go. A field that it lacks is added at the end.
pub fn set_geometry(
    alloc: Global,
    document: &Document,
    choice: &LayerChoice,
    feature: &FeatureChoice,
    geometry: &Geometry,
) -> Result<Change, Refusal>
    ensures { Prepares (SetGeometry (layer_choice_of choice.now) (feature_choice_of feature.now) geometry.now) (document_of document.now) result }
{
    let holder = find_layer(document, choice)?;
    let found = find_feature(holder.layer, feature)?;
    let fields = found.feature.fields();
    let drawing = redraw(alloc, fields, geometry)?;
    let size = size_drawn(fields, &drawing.kind, &drawing.field);
    if !fits_with_fields(document, holder, found, size) {
        return Err(Refusal::TooLarge);
    }
    Ok(steps_of(alloc, holder.position, found, drawing)?)
}

/// What the fields of a feature get with a geometry: the run that makes its kind their last, and the
/// field that holds it.
#[derive(Drop)]
struct Drawing {
    kind: Run<Field>,
    field: Field,
}

/// What these fields get with this geometry, which is refused if it is out of range.
fn redraw(alloc: Global, fields: &[Field], geometry: &Geometry) -> Result<Drawing, EncodeError>
    ensures kind { IfOk result (λ drawing. ReplacesLast IsField field_bytes is_kind (map field_of fields.now) (with_kind (kind_number geometry.now.kind) (map field_of fields.now)) drawing.kind.index drawing.kind.take (map field_of drawing.kind.put.items)) }
    ensures one { IfOk result (λ drawing. length drawing.kind.put.items ≡ 1) }
    ensures field { IfOk result (λ drawing. field_of drawing.field ≡ new_content 34 (encoded geometry.now)) }
    ensures in_range { OnOk result (IsInRange geometry.now) }
    ensures out_of_range { IsErrOf result EncodeError.OutOfRange → ¬ IsInRange geometry.now }
{
    let bytes = encode_geometry(alloc, geometry)?;
    let kind = number_put(alloc, fields, KIND_TAG, geometry.kind().number())?;
    Ok(Drawing {
        kind,
        field: geometry_field(bytes),
    })
}

/// A geometry field of these bytes, in its shortest spelling.
fn geometry_field(bytes: Items<u8>) -> Field
    ensures { field_of result ≡ new_content 34 bytes.items }
{
    Field::new(FieldParts {
        tag: Tag::minimal(GEOMETRY_TAG),
        body: Body::Bytes { width: 1, bytes },
    })
}

/// How many bytes the fields take once the run of the kind is carried out and they have this
/// geometry alone, if that is within the limit of a file.
fn size_drawn(fields: &[Field], kind: &Run<Field>, drawing: &Field) -> Option<usize>
    requires { kind.now.index + kind.now.take ≤ length fields.now }
    ensures { IsFileSize result (length (flat_map field_bytes (put_once is_geometry_field (field_of drawing.now) (splice kind.now.index kind.now.take (map field_of kind.now.put.items) (map field_of fields.now))))) }
{
    let size = drawing.size()?;
    let size = and_others(size, &fields[..kind.index])?;
    let size = and_others(size, kind.put.as_slice())?;
    and_others(size, &fields[kind.index + kind.take..])
}

/// The sum of `bytes` and of how many bytes the fields that are not geometry fields take, if that
/// is within the limit of a file.
fn and_others(bytes: usize, fields: &[Field]) -> Option<usize>
    requires { bytes ≤ MAX_FILE }
    ensures { IsFileSize result (bytes + length (flat_map field_bytes (filter (λ field. not (is_geometry_field field)) (map field_of fields.now)))) }
{
    let mut size = bytes;
    for field in fields {
        if !is_geometry(field) {
            size = sum_within(size, field.size()?, MAX_FILE)?;
        }
    }
    Some(size)
}

fn is_geometry(field: &Field) -> bool
    ensures { result ≡ is_geometry_field (field_of field.now) }
{
    field.number() == GEOMETRY && matches!(field.body(), BodyRef::Number(_) | BodyRef::Bytes { .. })
}

/// The change of the run of the kind and, after it, of this geometry in place of the others, on the
/// fields of the feature, in the layer at this position.
fn steps_of(
    alloc: Global,
    layer: usize,
    found: FoundFeature<'_>,
    drawing: Drawing,
) -> Result<Change, AllocError>
    requires { drawing.kind.take ≤ length (feature_of found.feature.now).fields }
    ensures { IfOk result (λ change. change_of change ≡ FeatureStep layer found.entry.position drawing.kind.index drawing.kind.take (map field_of drawing.kind.put.items)
        ∷ map (λ s. FeatureStep layer found.entry.position s.index s.taken s.put) (once_splices (map is_geometry_field (feature_of found.entry.feature.now).fields) (field_of drawing.field) (length (feature_of found.entry.feature.now).fields - drawing.kind.take + 1))) }
{
    let Drawing { kind, field } = drawing;
    let item = found.position;
    let fields = found.feature.fields();
    let end = fields.len() - kind.take + 1;
    let mut steps = Vec::new(alloc);
    steps.push(kind.in_feature(layer, item))?;
    put_once(
        alloc,
        fields,
        |field| is_geometry(field),
        field,
        end,
        |run| Ok(run.in_feature(layer, item)),
        &mut steps,
    )?;
    Ok(Change::new(steps))
}
