//! `value_of`: the value that bytes have.

ghost use Rattle.std.specs.Prelude.{◌≡◌, ◌/◌, Some, IfSome, IsSomeAnd, IfNone};
ghost use Rattle.mvt_document.specs.Plain.{Spelled};
ghost use Rattle.mvt_document.specs.Bodies.{number_of};
ghost use Rattle.mvt_wire.specs.Fronts.{front_of};
ghost use Rattle.mvt_value.specs.Values.{Value as PlainValue};
ghost use Rattle.mvt_value.specs.Messages.{BodyHas, FieldHas, HasValue};
ghost use Rattle.mvt_value.specs.Stands.{shown_by, raw_of};

use crate::tags::{BOOL, DOUBLE, FLOAT, INT, SINT, STRING, UINT};
use crate::value::Value;
use mvt_document::{BodyRef, Varint, from_zigzag};
use mvt_wire::{FieldRef, field_at_front};

/// The value whose bytes these are: those of one field with a number and a wire type that a value
/// may have. All other bytes are `Raw`.
pub fn value_of(bytes: &[u8]) -> Value<'_>
    ensures value { IfSome (shown_by result) (HasValue bytes.now) }
    ensures only { (value : PlainValue) → HasValue bytes.now value → shown_by result ≡ Some value }
    ensures raw { IfSome (raw_of result) (λ kept. kept ≡ bytes.now) }
{
    match field_at_front(bytes) {
        Some((field, length)) if length == bytes.len() => {
            field_value(field).unwrap_or(Value::Raw(bytes))
        }
        _ => Value::Raw(bytes),
    }
}

/// The value of the field, if it has one.
fn field_value(field: FieldRef<'_>) -> Option<Value<'_>>
    ensures found { IfSome result (λ shown. IsSomeAnd (shown_by shown) (FieldHas (front_of field.entry))) }
    ensures none { IfNone result ((value : PlainValue) → FieldHas (front_of field.entry) value → ⊥) }
{
    let number = field.tag.value / 8;
    match field.body {
        BodyRef::Bytes { bytes, .. } if number == STRING => Some(Value::Text(bytes)),
        BodyRef::Four(bytes) if number == FLOAT => Some(Value::Float4(bytes)),
        BodyRef::Eight(bytes) if number == DOUBLE => Some(Value::Double8(bytes)),
        BodyRef::Number(spelled) => number_value(number, spelled),
        _ => None,
    }
}

/// The value of a field of this number whose body is a number, if it has one.
fn number_value(number: u64, spelled: Varint) -> Option<Value<'static>>
    ensures found { IfSome result (λ shown. IsSomeAnd (shown_by shown) (BodyHas number (Spelled (number_of spelled)))) }
    ensures none { IfNone result ((value : PlainValue) → BodyHas number (Spelled (number_of spelled)) value → ⊥) }
{
    match number {
        INT => Some(Value::Int(spelled.value.cast_signed())),
        UINT => Some(Value::Uint(spelled.value)),
        SINT => Some(Value::Sint(from_zigzag(spelled.value))),
        BOOL => Some(Value::Bool(spelled.value != 0)),
        _ => None,
    }
}
