//! Values: what their bytes are, and how new ones are written.

use crate::calls::broken::{Answer, Broken};
use crate::calls::given::Given;
use mvt_value::{NewValue, Value, encode_value, value_of};
use std::alloc::{AllocError, Global};
use tile_arguments::new_value;

pub fn answer(alloc: Global, call: &str, given: Given<'_>) -> Answer {
    match call {
        "value_of" => Ok(value_shown(alloc, value_of(given.bytes))?),
        "encode_value" => encoded(alloc, given),
        _ => Err(Broken::NoCall),
    }
}

/// The bytes of the value that the words of a script say.
fn encoded(alloc: Global, given: Given<'_>) -> Answer {
    match given.words(alloc)?.as_slice() {
        [name, value] => {
            let value = new_value(alloc, *name, *value).map_err(|_| Broken::BadGiven)?;
            Ok(encode_value(alloc, &value)?.into_vec())
        }
        _ => Err(Broken::BadGiven),
    }
}

/// The kind of the value, and after it the value: a text or raw bytes as they are, the bytes of a
/// float as digits.
pub fn value_shown(alloc: Global, value: Value<'_>) -> Result<Vec<u8>, AllocError> {
    let line = match value {
        Value::Text(text) => return after_word(alloc, b"Text ", text),
        Value::Raw(bytes) => return after_word(alloc, b"Raw ", bytes),
        Value::Float4(bytes) => format!(in alloc; "Float4 {}", hex::encode(alloc, &bytes)?)?,
        Value::Double8(bytes) => format!(in alloc; "Double8 {}", hex::encode(alloc, &bytes)?)?,
        Value::Int(number) => format!(in alloc; "Int {number}")?,
        Value::Uint(number) => format!(in alloc; "Uint {number}")?,
        Value::Sint(number) => format!(in alloc; "Sint {number}")?,
        Value::Bool(truth) => format!(in alloc; "Bool {truth}")?,
    };
    Ok(line.into_bytes())
}

fn after_word(alloc: Global, word: &[u8], bytes: &[u8]) -> Result<Vec<u8>, AllocError> {
    let mut line = Vec::from_slice(alloc, word)?;
    line.extend_from_slice(bytes)?;
    Ok(line)
}

/// A new value as one that was read.
pub fn as_read(value: &NewValue) -> Value<'_> {
    match value {
        NewValue::Text(text) => Value::Text(text.as_slice()),
        NewValue::Float4(bytes) => Value::Float4(*bytes),
        NewValue::Double8(bytes) => Value::Double8(*bytes),
        NewValue::Int(number) => Value::Int(*number),
        NewValue::Uint(number) => Value::Uint(*number),
        NewValue::Sint(number) => Value::Sint(*number),
        NewValue::Bool(truth) => Value::Bool(*truth),
    }
}
