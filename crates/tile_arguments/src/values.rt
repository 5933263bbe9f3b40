//! Values, each by its type and a word.

ghost use Rattle.std.specs.Prelude.{◌≡◌, codes, IfOk, IsErr, IsSome, IsTrue, option_map};
ghost use Rattle.std.specs.Result.{IsErrOf};
ghost use Rattle.std.specs.Str.{bytes_eq};
ghost use Rattle.mvt_value.specs.Stands.{new_value_of};
ghost use Rattle.tile_lines.specs.Answers.{Gives};
ghost use Rattle.tile_lines.specs.Words.{Bare};
ghost use Rattle.tile_lines.specs.WordStands.{word_of};
ghost use Rattle.tile_arguments.specs.Arguments.{text_in, value_of, value_in, bare_value, pairs_in, integer_of, truth_in};

use crate::numbers::{number, signed};
use crate::texts::text_in;
use hex::FromHex;
use mvt_value::NewValue;
use std::alloc::{AllocError, Global};
use tile_lines::{ParseError, Word};

/// The value that a word says, of the type that the word before it names.
#[tactic(auto, unfolding(crate::specs::Arguments::value_of))]
pub fn new_value(alloc: Global, name: Word<'_>, value: Word<'_>) -> Result<NewValue, ParseError>
    ensures answer { Gives new_value_of result (value_of (word_of name.entry) (word_of value.entry)) }
    ensures no_memory { IsErrOf result ParseError.NoMemory → (word_of name.entry ≡ Bare (codes "string")) × IsSome (text_in (word_of value.entry)) }
{
    match name {
        Word::Bare(name) => value_in(alloc, name, value)?.ok_or(ParseError::BadValue),
        Word::Quoted(_) => Err(ParseError::BadValue),
    }
}

/// The value of the type with this name that a word says, where it says one.
#[tactic(auto, unfolding(crate::specs::Arguments::value_in))]
fn value_in(alloc: Global, name: &[u8], value: Word<'_>) -> Result<Option<NewValue>, AllocError>
    ensures said { IfOk result (λ said. option_map new_value_of said ≡ value_in name.now (word_of value.entry)) }
    ensures no_memory { IsErr result → (name.now ≡ codes "string") × IsSome (text_in (word_of value.entry)) }
{
    if name == b"string".as_slice() {
        return Ok(text_in(alloc, value)?.map(NewValue::Text));
    }
    match value {
        Word::Bare(bytes) => Ok(bare_value(name, bytes)),
        Word::Quoted(_) => Ok(None),
    }
}

/// The value of the type with this name that a bare word says, where it says one.
#[tactic(auto, unfolding(crate::specs::Arguments::bare_value))]
fn bare_value(name: &[u8], bytes: &[u8]) -> Option<NewValue>
    ensures { option_map new_value_of result ≡ bare_value name.now bytes.now }
{
    if name == b"float".as_slice() {
        pairs_in(bytes).map(NewValue::Float4)
    } else if name == b"double".as_slice() {
        pairs_in(bytes).map(NewValue::Double8)
    } else if name == b"int".as_slice() {
        integer(bytes).map(NewValue::Int)
    } else if name == b"uint".as_slice() {
        number(bytes).ok().map(NewValue::Uint)
    } else if name == b"sint".as_slice() {
        integer(bytes).map(NewValue::Sint)
    } else if name == b"bool".as_slice() {
        truth(bytes).map(NewValue::Bool)
    } else {
        None
    }
}

/// The bytes of `N` pairs of hexadecimal digits, where the digits are exactly such pairs.
fn pairs_in<const N: usize>(digits: &[u8]) -> Option<[u8; N]>
    ensures { result ≡ pairs_in N digits.now }
{
    <[u8; N]>::from_hex(digits).ok()
}

/// A signed number of 64 bits.
fn integer(bytes: &[u8]) -> Option<i64>
    ensures { result ≡ integer_of bytes.now }
{
    signed(1 << 63, (1 << 63) - 1, bytes)
}

fn truth(bytes: &[u8]) -> Option<bool>
    ensures { result ≡ truth_in bytes.now }
{
    if bytes == b"true".as_slice() {
        Some(true)
    } else if bytes == b"false".as_slice() {
        Some(false)
    } else {
        None
    }
}
