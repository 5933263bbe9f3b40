//! A document past the limit of what a file can hold.

ghost use Rattle.std.specs.Prelude.{IfOk};
ghost use Rattle.mvt_wire.specs.Stands.{document_of};
ghost use Rattle.mvt_wire.specs.Opens.{IsDocument};

use crate::calls::broken::{Answer, Broken};
use crate::calls::given::Given;
use mvt_history::{Session, StartError};
use mvt_wire::{
    Body, BodyRef, Document, Field, FieldParts, Items, Tag, TileItem, read_document, size,
    write_document,
};
use std::alloc::Global;

pub fn answer(alloc: Global, call: &str, given: Given<'_>) -> Answer {
    match call {
        "start" => started(alloc, tile_and_zeros(alloc, given.tile, given.ordinal()?)?),
        _ => Err(Broken::NoCall),
    }
}

/// The tile and a field of `count` zeros, which no file need have room for.
fn tile_and_zeros(alloc: Global, tile: &[u8], count: usize) -> Result<Document, Broken>
    ensures { IfOk result (λ document. IsDocument (document_of document)) }
{
    let mut document = read_document(alloc, tile)?;
    let bytes = Items::from_vec(vec![in alloc; 0u8; count]?);
    let tag = Tag::minimal(130);
    let body = Body::Bytes { width: 4, bytes };
    let field = Field::new(FieldParts { tag, body });
    document.items.push(TileItem::Plain(field))?;
    Ok(document)
}

/// The size, why the document is not written, and how many zeros the document has that is handed
/// back where no session begins with it.
fn started(alloc: Global, document: Document) -> Answer
    requires { IsDocument (document_of document) }
{
    let size = size(&document);
    let written = write_document(alloc, &document).err();
    let zeros = zeros_refused(alloc, document);
    Ok(format!(in alloc; "size {size:?} write {written:?} start {zeros:?}")?.into_bytes())
}

/// How many zeros a document has that no session begins with.
fn zeros_refused(alloc: Global, document: Document) -> Option<usize>
    requires { IsDocument (document_of document) }
{
    let refused = Session::start(alloc, document, 100).err();
    refused.as_ref().and_then(zeros_handed_back)
}

/// How many bytes the field has that follows the one layer of a document that is handed back as too
/// large.
fn zeros_handed_back(error: &StartError) -> Option<usize> {
    let StartError::TooLarge(document) = error else {
        return None;
    };
    match document.items.as_slice() {
        [TileItem::Layer(_), TileItem::Plain(field)] => match field.body() {
            BodyRef::Bytes { bytes, .. } => Some(bytes.len()),
            _ => None,
        },
        _ => None,
    }
}
