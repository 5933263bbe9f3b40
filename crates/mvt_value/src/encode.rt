//! `encode_value`: the bytes of a new value.

ghost use Rattle.std.specs.Prelude.{◌≡◌, ◌++◌, ◌∷◌, [], IfOk};
ghost use Rattle.mvt_document.specs.Wire.{shortest};
ghost use Rattle.mvt_value.specs.Messages.{HasValue, encoded_value};
ghost use Rattle.mvt_value.specs.Stands.{new_value_of};

use crate::tags::{BOOL_TAG, DOUBLE_TAG, FLOAT_TAG, INT_TAG, SINT_TAG, STRING_TAG, UINT_TAG};
use crate::value::NewValue;
use mvt_document::{Items, Varint, to_zigzag};
use std::alloc::{AllocError, Global};

/// The bytes of the value, each number in its shortest spelling.
#[tactic(auto, using(crate::proofs::Encoded::written))]
pub fn encode_value(alloc: Global, value: &NewValue) -> Result<Items<u8>, AllocError>
    ensures bytes { IfOk result (λ message. message.items ≡ encoded_value (new_value_of value.now)) }
    ensures value { IfOk result (λ message. HasValue message.items (new_value_of value.now)) }
{
    match value {
        NewValue::Text(text) => numbered(alloc, STRING_TAG, text.len() as u64, text.as_slice()),
        NewValue::Float4(bytes) => tagged(alloc, FLOAT_TAG, bytes),
        NewValue::Double8(bytes) => tagged(alloc, DOUBLE_TAG, bytes),
        NewValue::Int(number) => numbered(alloc, INT_TAG, number.cast_unsigned(), &[]),
        NewValue::Uint(number) => numbered(alloc, UINT_TAG, *number, &[]),
        NewValue::Sint(number) => numbered(alloc, SINT_TAG, to_zigzag(*number), &[]),
        NewValue::Bool(truth) => numbered(alloc, BOOL_TAG, u64::from(*truth), &[]),
    }
}

/// The tag, the number in its shortest spelling, and the bytes.
fn numbered(alloc: Global, tag: u8, number: u64, bytes: &[u8]) -> Result<Items<u8>, AllocError>
    ensures { IfOk result (λ message. message.items ≡ tag ∷ (shortest number ++ bytes.now)) }
{
    let number = Varint::minimal(number);
    let mut message = Vec::with_capacity(alloc, 1 + usize::from(number.width) + bytes.len())?;
    message.push(tag)?;
    number.put(&mut message)?;
    message.extend_from_slice(bytes)?;
    Ok(Items::from_vec(message))
}

/// The tag, and the bytes after it.
fn tagged(alloc: Global, tag: u8, bytes: &[u8]) -> Result<Items<u8>, AllocError>
    ensures { IfOk result (λ message. message.items ≡ tag ∷ bytes.now) }
{
    let mut message = Vec::with_capacity(alloc, 1 + bytes.len())?;
    message.push(tag)?;
    message.extend_from_slice(bytes)?;
    Ok(Items::from_vec(message))
}
