//! Laws of documents and their bytes. Each is the contract of a function that does nothing.

ghost use Rattle.std.specs.Prelude.{◌≡◌, ◌≤◌, length};
ghost use Rattle.mvt_document.specs.declared.TheConstants.{MAX_FILE, MAX_GROUPS};
ghost use Rattle.mvt_document.specs.Plain.{Document as PlainDocument};
ghost use Rattle.mvt_document.specs.Wire.{bytes_of};
ghost use Rattle.mvt_document.specs.Opens.{IsDocument, IsSettled, OpensAs};
ghost use Rattle.mvt_document.specs.Settle.{settle, HasShortLengths};

/// A tile has at most 67,108,864 bytes (`file`), and at most 100 groups are open at one place (`groups`).
pub fn limits()
    ensures file { MAX_FILE ≡ 67108864 }
    ensures groups { MAX_GROUPS ≡ 100 }
{}

/// Settled documents with the same bytes are equal, including the groups in them, so a file opens
/// as at most one document.
pub fn one_document()
    ensures { (d e : PlainDocument) → IsSettled d → IsSettled e → bytes_of d ≡ bytes_of e → d ≡ e }
{}

/// Raising the stored widths of a document to the written ones keeps its bytes (`bytes`), and
/// settles a valid document whose lengths are below 2^64 (`settled`).
pub fn settles()
    ensures settled { (d : PlainDocument) → IsDocument d → HasShortLengths d → IsSettled (settle d) }
    ensures bytes { (d : PlainDocument) → bytes_of (settle d) ≡ bytes_of d }
{}

/// Raising the stored widths of a settled document to the written ones leaves it as it is (`kept`).
/// The bytes of a valid document, if there are at most 67,108,864, open as the settled one
/// (`opens`).
pub fn opens_again()
    ensures kept { (d : PlainDocument) → IsSettled d → settle d ≡ d }
    ensures opens { (d : PlainDocument) → IsDocument d → length (bytes_of d) ≤ MAX_FILE → OpensAs (bytes_of d) (settle d) }
{}
