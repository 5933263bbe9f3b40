//! The values of the VARINT fields of a message.

ghost use Rattle.std.specs.Prelude.{◌≡◌, map};
ghost use Rattle.mvt_document.specs.Stands.{field_of};
ghost use Rattle.mvt_document.specs.Values.{last_value, value_in};

use crate::body::BodyRef;
use crate::field::Field;

/// The value of a VARINT field of this number.
pub fn value_in(field: &Field, number: u64) -> Option<u64>
    ensures { result ≡ value_in number (field_of field.now) }
{
    match field.body() {
        BodyRef::Number(value) if field.number() == number => Some(value.value),
        _ => None,
    }
}

/// The value of the last VARINT field of this number.
pub fn last_value(fields: &[Field], number: u64) -> Option<u64>
    ensures { result ≡ last_value number (map field_of fields.now) }
{
    let mut last = None;
    for field in fields {
        last = value_in(field, number).or(last);
    }
    last
}
