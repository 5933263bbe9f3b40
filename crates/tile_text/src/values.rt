//! Values, each as its type and a word.

ghost use Rattle.std.specs.Prelude.{◌≡◌, ◌++◌, OnErr, OnOk};
ghost use Rattle.tile_text.specs.Extends.{Extends};
ghost use Rattle.tile_text.specs.TextStands.{shown_form, type_word, rest_form};

use crate::numbers::{put_decimal, put_signed_decimal};
use crate::texts::{put_hex, put_text};
use mvt_value::Value;
use std::alloc::AllocError;

/// Adds the type and the value to the line, or `raw` and the bytes.
pub fn put_value(line: &mut Vec<u8>, value: Value<'_>) -> Result<(), AllocError>
    ensures ok { OnOk result (line.new.items ≡ line.old.items ++ shown_form value.entry) }
    ensures kept { Extends line.old.items line.new.items }
    ensures err { OnErr result (Extends line.new.items (line.old.items ++ shown_form value.entry)) }
{
    line.extend_from_slice(type_word(value))?;
    put_rest(line, value)
}

/// Adds what follows the type's word.
fn put_rest(line: &mut Vec<u8>, value: Value<'_>) -> Result<(), AllocError>
    ensures ok { OnOk result (line.new.items ≡ line.old.items ++ rest_form value.entry) }
    ensures kept { Extends line.old.items line.new.items }
    ensures err { OnErr result (Extends line.new.items (line.old.items ++ rest_form value.entry)) }
{
    match value {
        Value::Text(text) => put_text(line, text),
        Value::Float4(bytes) => put_hex(line, &bytes),
        Value::Double8(bytes) => put_hex(line, &bytes),
        Value::Int(number) | Value::Sint(number) => put_signed_decimal(line, number),
        Value::Uint(number) => put_decimal(line, number),
        Value::Bool(true) => line.extend_from_slice(b"true"),
        Value::Bool(false) => line.extend_from_slice(b"false"),
        Value::Raw(bytes) => put_hex(line, bytes),
    }
}

/// The type's word, and the space after it where something follows.
fn type_word(value: Value<'_>) -> &'static [u8]
    ensures { result.now ≡ type_word value.entry }
{
    match value {
        Value::Text(_) => b"string ",
        Value::Float4(_) => b"float ",
        Value::Double8(_) => b"double ",
        Value::Int(_) => b"int ",
        Value::Uint(_) => b"uint ",
        Value::Sint(_) => b"sint ",
        Value::Bool(_) => b"bool ",
        Value::Raw([]) => b"raw",
        Value::Raw(_) => b"raw ",
    }
}
