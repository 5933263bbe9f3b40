//! The last VARINT field of a number gets a value, or one is added at the end.

ghost use Rattle.std.specs.Prelude.{◌≡◌, true, None, [], ◌∷◌, IfOk, IfSome, map};
ghost use Rattle.std.specs.List.{last_or};
ghost use Rattle.std.specs.Option.{option_map_or};
ghost use Rattle.mvt_document.specs.Opens.{IsField};
ghost use Rattle.mvt_document.specs.Shape.{IsTag};
ghost use Rattle.mvt_document.specs.Bodies.{number_of};
ghost use Rattle.mvt_document.specs.Stands.{field_of};
ghost use Rattle.mvt_document.specs.Wire.{field_bytes};
ghost use Rattle.mvt_meaning.specs.Fields.{new_number, with_field_value, with_number};
ghost use Rattle.mvt_meaning.specs.Ordinals.{positions_of};
ghost use Rattle.mvt_edit_steps.specs.NumberPut.{is_numbered, with_last_number};
ghost use Rattle.mvt_edit_steps.specs.PutsLast.{ReplacesLast};

use crate::fates::Run;
use crate::put_last::Spot;
use mvt_document::{Body, BodyRef, Field, FieldParts, Tag, Varint};
use std::alloc::{AllocError, Global};

/// The run that gives the value to the last VARINT field of the number of this tag, or puts one
/// with the tag at the end. It puts one such field.
pub fn number_put(
    alloc: Global,
    fields: &[Field],
    tag: u64,
    value: u64,
) -> Result<Run<Field>, AllocError>
    requires { IsTag tag 0 }
    ensures puts { IfOk result (λ run. ReplacesLast IsField field_bytes (is_numbered tag) (map field_of fields.now)
        (with_last_number tag value (map field_of fields.now)) run.index run.take (map field_of run.put.items)) }
    ensures one { IfOk result (λ run. map (λ field. is_numbered tag (field_of field)) run.put.items ≡ true ∷ []) }
{
    let spot = Spot::of(last_number(fields, tag), fields.len());
    let field = number_field(fields.get(spot.index), tag, value);
    Ok(Run {
        index: spot.index,
        take: spot.take,
        put: vec![in alloc; field]?,
    })
}

/// The position of the last VARINT field of the number of this tag.
fn last_number(fields: &[Field], tag: u64) -> Option<usize>
    ensures { result ≡ last_or None (positions_of (is_numbered tag) (map field_of fields.now)) }
{
    let mut last = None;
    for (position, field) in fields.iter().enumerate() {
        if is_numbered(field, tag) {
            last = Some(position);
        }
    }
    last
}

fn is_numbered(field: &Field, tag: u64) -> bool
    ensures { result ≡ is_numbered tag (field_of field.now) }
{
    field.number() == tag / 8 && matches!(field.body(), BodyRef::Number(_))
}

/// A field of the number of this tag: the old one, if it has the value, or one with its tag, or one
/// in its shortest spelling.
fn number_field(old: Option<&Field>, tag: u64, value: u64) -> Field
    requires tag { IsTag tag 0 }
    requires old { IfSome old (λ field. is_numbered tag (field_of field.now) ≡ true) }
    ensures field { field_of result ≡ option_map_or (λ old. with_field_value value (field_of old.now)) old.entry (new_number tag value) }
    ensures valid { IsField (field_of result) }
{
    if let Some(field) = old {
        if let BodyRef::Number(number) = field.body() {
            return Field::new(FieldParts {
                tag: field.tag(),
                body: Body::Number(with_value(number, value)),
            });
        }
    }
    Field::new(FieldParts {
        tag: Tag::minimal(tag),
        body: Body::Number(Varint::minimal(value)),
    })
}

/// The number, in its old spelling if it was that number before.
fn with_value(old: Varint, value: u64) -> Varint
    ensures { number_of result ≡ with_number value (number_of old) }
{
    if old.value == value {
        old
    } else {
        Varint::minimal(value)
    }
}
