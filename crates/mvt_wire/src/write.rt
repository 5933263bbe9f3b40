//! The size of a document and its bytes.

ghost use Rattle.std.specs.Prelude.{◌≡◌, ◌≤◌, ◌<◌, ◌↔◌, length, IfOk, IsErrOf, vec_capacity};
ghost use Rattle.std.specs.Option.{SomeIff};
ghost use Rattle.mvt_document.specs.declared.TheConstants.{MAX_FILE};
ghost use Rattle.mvt_document.specs.Wire.{bytes_of};
ghost use Rattle.mvt_document.specs.Stands.{document_of};

use crate::encode::put_all;
use crate::faults::WriteError;
use mvt_document::Document;
use std::alloc::Global;

/// How many bytes the document takes, where that is within the limit of a file.
pub fn size(document: &Document) -> Option<u64>
    ensures { SomeIff result (length (bytes_of (document_of document.now)) ≤ MAX_FILE) (length (bytes_of (document_of document.now))) }
{
    let size = document.items.size()?;
    Some(size as u64)
}

/// The bytes of the document.
pub fn write_document(alloc: Global, document: &Document) -> Result<Vec<u8>, WriteError>
    ensures bytes { IfOk result (λ file. file.items ≡ bytes_of (document_of document.now)) }
    ensures too_large { IsErrOf result WriteError.TooLarge ↔ (MAX_FILE < length (bytes_of (document_of document.now))) }
{
    write_document_into(alloc, document, Vec::new(alloc))
}

/// The bytes of the document, in the memory of a vector whose own items are dropped. Memory is asked
/// for only if that is too little, and the old memory is given back first.
pub fn write_document_into(
    alloc: Global,
    document: &Document,
    room: Vec<u8>,
) -> Result<Vec<u8>, WriteError>
    ensures bytes { IfOk result (λ file. file.items ≡ bytes_of (document_of document.now)) }
    ensures too_large { IsErrOf result WriteError.TooLarge ↔ (MAX_FILE < length (bytes_of (document_of document.now))) }
    ensures no_memory { IsErrOf result WriteError.NoMemory → vec_capacity room < length (bytes_of (document_of document.now)) }
{
    let Some(size) = document.items.size() else {
        return Err(WriteError::TooLarge);
    };
    let mut file = kept_for(alloc, size, room);
    file.resize(size, 0)?;
    put_all(document.items.as_slice(), &mut file);
    Ok(file)
}

/// The vector, if it has memory for `size` bytes, or else an empty one in its place.
fn kept_for(alloc: Global, size: usize, room: Vec<u8>) -> Vec<u8>
    ensures kept { size ≤ vec_capacity room → result ≡ room }
    ensures fresh { vec_capacity room < size → vec_capacity result ≡ 0 }
{
    if size <= room.capacity() {
        room
    } else {
        Vec::new(alloc)
    }
}
