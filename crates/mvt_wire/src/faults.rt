//! Why a tile was not read, or not written.

ghost use Rattle.std.specs.Prelude.{◌≡◌};
ghost use Rattle.mvt_wire.specs.declared.faults.ReadError.TheVariants as read_errors;
ghost use Rattle.mvt_wire.specs.declared.faults.WriteError.TheVariants as write_errors;

use std::alloc::{AllocError, AllocFailed};
use thiserror::Error;

/// Why a file did not open as a document.
#[derive(Clone, Copy, Debug, PartialEq, Eq, Error)]
pub enum ReadError {
    /// The file is not a document. The place is the length of the longest prefix of it that is one.
    #[error("no tile from byte {place} on")]
    BadWire { place: usize },
    /// The file is longer than `MAX_FILE`.
    #[error("the tile is too large")]
    FileTooLarge,
    /// A growth was refused.
    #[error("no memory")]
    NoMemory,
}

impl From<AllocError> for ReadError {
    ghost from_gives = { λ _ e. e ≡ read_errors.NoMemory };

    fn from(_e: AllocError) -> ReadError {
        ReadError::NoMemory
    }
}

impl<T: Drop> From<AllocFailed<T>> for ReadError {
    ghost from_gives = { λ _ e. e ≡ read_errors.NoMemory };

    fn from(_e: AllocFailed<T>) -> ReadError {
        ReadError::NoMemory
    }
}

/// Why a document was not written.
#[derive(Clone, Copy, Debug, PartialEq, Eq, Error)]
pub enum WriteError {
    /// Its bytes would be more than `MAX_FILE`.
    #[error("the tile would be too large")]
    TooLarge,
    /// A growth was refused.
    #[error("no memory")]
    NoMemory,
}

impl From<AllocError> for WriteError {
    ghost from_gives = { λ _ e. e ≡ write_errors.NoMemory };

    fn from(_e: AllocError) -> WriteError {
        WriteError::NoMemory
    }
}
