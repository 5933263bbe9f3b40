//! Numbers, fields and documents at the limits of the wire format.

use crate::calls::broken::{Answer, Broken};
use crate::calls::given::{Given, said, shown};
use mvt_wire::{
    BodyRef, Document, ReadError, Varint, field_at_front, read_document, read_varint, size,
    write_document,
};
use std::alloc::Global;
use test_fixtures::bytes::joined;

pub fn answer(alloc: Global, call: &str, given: Given<'_>) -> Answer {
    match call {
        "read_varint" => number_read(alloc, given.bytes),
        "minimal" => shown(alloc, Varint::minimal(given.number()?).width),
        "field_at_front" => field_read(alloc, given.bytes),
        "read_document" => document_read(alloc, given.bytes),
        "write_document" => document_written(alloc, given.bytes),
        "cuts" => cuts_read(alloc, given.bytes, given.tile),
        _ => Err(Broken::NoCall),
    }
}

/// A number and its width.
fn number_read(alloc: Global, bytes: &[u8]) -> Answer {
    match read_varint(bytes) {
        Some(number) => {
            Ok(format!(in alloc; "{} width {}", number.value, number.width)?.into_bytes())
        }
        None => said(alloc, "none"),
    }
}

/// A field's tag, its length, and its body where that is a number or a group.
fn field_read(alloc: Global, bytes: &[u8]) -> Answer {
    let Some((field, length)) = field_at_front(bytes) else {
        return said(alloc, "none");
    };
    let tag = field.tag.value;
    let line = match field.body {
        BodyRef::Number(number) => {
            format!(in alloc;
                "tag {tag} length {length} number {} width {}",
                number.value, number.width
            )?
        }
        BodyRef::Group(inside) => {
            format!(in alloc;
                "tag {tag} length {length} group {}",
                hex::encode(alloc, inside)?
            )?
        }
        _ => format!(in alloc; "tag {tag} length {length}")?,
    };
    Ok(line.into_bytes())
}

/// How many items a document has, and how many bytes.
fn document_read(alloc: Global, file: &[u8]) -> Answer {
    match read_document(alloc, file) {
        Ok(document) => document_shown(alloc, &document),
        Err(error) => shown(alloc, error),
    }
}

fn document_shown(alloc: Global, document: &Document) -> Answer {
    let items = document.items.len();
    let size = size(document);
    Ok(format!(in alloc; "items {items} size {size:?}")?.into_bytes())
}

fn document_written(alloc: Global, file: &[u8]) -> Answer {
    let document = read_document(alloc, file)?;
    written(alloc, &document)
}

fn written(alloc: Global, document: &Document) -> Answer {
    match write_document(alloc, document) {
        Ok(bytes) => Ok(bytes),
        Err(error) => shown(alloc, error),
    }
}

/// For each prefix of the tile that is shorter than it, and not empty: up to where the bytes and
/// the prefix after them are a tile.
fn cuts_read(alloc: Global, before: &[u8], tile: &[u8]) -> Answer {
    let mut places = Vec::new(alloc);
    for end in 1..tile.len() {
        let file = joined(alloc, &[before, &tile[..end]])?;
        let Some(place) = bad_wire(alloc, &file) else {
            return said(alloc, "a cut tile is read");
        };
        places.extend_from_slice(format!(in alloc; "{place} ")?.as_bytes())?;
    }
    Ok(places)
}

/// Up to where the bytes are a tile, if they are not one.
fn bad_wire(alloc: Global, file: &[u8]) -> Option<usize> {
    match read_document(alloc, file) {
        Err(ReadError::BadWire { place }) => Some(place),
        _ => None,
    }
}
