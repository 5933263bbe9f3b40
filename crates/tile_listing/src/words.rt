//! The words of a line: names, ids, kinds, values, numbers.

ghost use Rattle.std.specs.Prelude.{◌≡◌, ◌++◌, OnOk, decimal};
ghost use Rattle.std.specs.Option.{option_copied};
ghost use Rattle.tile_listing.specs.Listing.{id_word, kind_form, name_word, value_shown};

use mvt_geometry::Kind;
use mvt_value::value_of;
use std::alloc::AllocError;
use tile_arguments::kind_word;
use tile_text::{put_decimal, put_text, put_value};

const UNKNOWN: u64 = 0;

/// Adds some text and a number after it.
pub(crate) fn put_number(line: &mut Vec<u8>, front: &[u8], number: u64) -> Result<(), AllocError>
    ensures { OnOk result (line.new.items ≡ line.old.items ++ front.now ++ decimal number) }
{
    line.extend_from_slice(front)?;
    put_decimal(line, number)
}

/// Adds a layer's name.
pub(crate) fn put_name(line: &mut Vec<u8>, name: Option<&[u8]>) -> Result<(), AllocError>
    ensures { OnOk result (line.new.items
        ≡ line.old.items ++ name_word (option_copied name.entry)) }
{
    match name {
        Some(name) => put_text(line, name),
        None => line.extend_from_slice(b"-"),
    }
}

/// Adds a feature's id.
pub(crate) fn put_id(line: &mut Vec<u8>, id: Option<u64>) -> Result<(), AllocError>
    ensures { OnOk result (line.new.items ≡ line.old.items ++ id_word id) }
{
    match id {
        Some(id) => put_decimal(line, id),
        None => line.extend_from_slice(b"-"),
    }
}

/// Adds the kind with this number.
pub(crate) fn put_kind(line: &mut Vec<u8>, number: u64) -> Result<(), AllocError>
    ensures { OnOk result (line.new.items ≡ line.old.items ++ kind_form number) }
{
    match Kind::from_number(number) {
        Some(kind) => line.extend_from_slice(kind_word(kind)),
        None if number == UNKNOWN => line.extend_from_slice(b"unknown"),
        None => put_number(line, b"kind ", number),
    }
}

/// Adds the value that the bytes have, or the bytes where they have none.
pub(crate) fn put_shown_value(line: &mut Vec<u8>, bytes: &[u8]) -> Result<(), AllocError>
    ensures { OnOk result (line.new.items ≡ line.old.items ++ value_shown bytes.now) }
{
    put_value(line, value_of(bytes))
}
