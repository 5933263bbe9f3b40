//! The document that a file opens as.

ghost use Rattle.std.specs.Prelude.{◌≡◌, ℕ, ◌≤◌, ◌<◌, ◌↔◌, List, length, IfOk, IsErrOf, MatchResult};
ghost use Rattle.mvt_document.specs.declared.TheConstants.{MAX_FILE};
ghost use Rattle.mvt_document.specs.Plain.{Document as PlainDocument};
ghost use Rattle.mvt_document.specs.Opens.{OpensAs, OpensAsNothing, IsPlace};
ghost use Rattle.mvt_document.specs.Stands.{document_of};

use crate::decode::{FIRST_ITEMS, decode_all};
use crate::faults::ReadError;
use mvt_document::{Document, MAX_FILE, Message};
use std::alloc::Global;

/// The document that the file opens as. The place of a fault is the length of the longest
/// prefix of the file that is the bytes of some document.
pub fn read_document(alloc: Global, file: &[u8]) -> Result<Document, ReadError>
    ensures opens { IfOk result (λ document. OpensAs file.now (document_of document)) }
    ensures only { (document : PlainDocument) → OpensAs file.now document → MatchResult result (λ read. document_of read ≡ document) (λ e. e ≡ ReadError.NoMemory) }
    ensures too_large { IsErrOf result ReadError.FileTooLarge ↔ (MAX_FILE < length file.now) }
    ensures bad_wire { (place : ℕ) → IsErrOf result (ReadError.BadWire place) → OpensAsNothing file.now }
    ensures place { (place : ℕ) → IsErrOf result (ReadError.BadWire place) → IsPlace file.now place }
{
    if file.len() > MAX_FILE {
        return Err(ReadError::FileTooLarge);
    }
    let items = decode_all(alloc, file, FIRST_ITEMS)?;
    Ok(Document {
        items: Message::of_size(items, file.len()),
    })
}
