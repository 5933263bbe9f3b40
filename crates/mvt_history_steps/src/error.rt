//! Why a session is not started, and why a request of a history is refused.

ghost use Rattle.std.specs.Prelude.{◌≡◌};
ghost use Rattle.mvt_history_steps.specs.declared.error.HistoryError.TheVariants.{NoMemory};

use mvt_document::Document;
use std::alloc::{AllocError, AllocFailed};
use thiserror::Error;

/// Why a session was not started. The document is handed back.
#[derive(Debug, Drop, Error)]
pub enum StartError {
    /// No file can hold it.
    #[error("the tile is too large for a file")]
    TooLarge(Document),
    /// Memory was refused for the lists of changes.
    #[error("out of memory")]
    NoMemory(Document),
}

/// Why a request was refused.
#[derive(Clone, Copy, Debug, PartialEq, Eq, Error)]
pub enum HistoryError {
    /// Undo goes back no further.
    #[error("there is nothing to undo")]
    NothingToUndo,
    /// There is no undone step that could stand again.
    #[error("there is nothing to redo")]
    NothingToRedo,
    /// The name marks nothing.
    #[error("there is no such mark")]
    NoMark,
    /// The name is a new one, and `MAX_MARKS` names are marked.
    #[error("there are too many marks")]
    TooManyMarks,
    /// Memory was refused on the way. `taken` undos or redos of a `back` were made, or the last
    /// `taken` commands of the open step were taken back by a `cancel`; that stands.
    #[error("out of memory on the way; taken so far: {taken}")]
    Stopped { taken: usize },
    /// A step is open, and this request has to wait for its end.
    #[error("a step is open")]
    GroupOpen,
    /// There is no open step to end or cancel.
    #[error("no step is open")]
    NoGroup,
    /// Memory was refused, and nothing has changed.
    #[error("out of memory")]
    NoMemory,
}

impl From<AllocError> for HistoryError {
    ghost from_gives = { λ _ e. e ≡ NoMemory };

    fn from(_e: AllocError) -> HistoryError {
        HistoryError::NoMemory
    }
}

impl<T: Drop> From<AllocFailed<T>> for HistoryError {
    ghost from_gives = { λ _ e. e ≡ NoMemory };

    fn from(_e: AllocFailed<T>) -> HistoryError {
        HistoryError::NoMemory
    }
}
