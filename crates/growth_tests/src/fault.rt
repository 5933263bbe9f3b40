//! What a trial can find wrong.

use mvt_edit::Refusal;
use mvt_wire::{ReadError, WriteError};
use std::alloc::AllocError;
use thiserror::Error;

/// Why a trial ends early.
#[derive(Clone, Copy, Debug, PartialEq, Eq, Error)]
pub enum Fault {
    /// This ends the first attempt at a trial whose refused growth is one of a call that the trial
    /// does not look at.
    #[error("a second growth was refused")]
    NoMemory,
    #[error("the tile of the trial does not open")]
    BadTile,
    #[error("a document is too large to be written")]
    TooLarge,
    #[error("the command of the trial cannot be made")]
    NoCommand,
    #[error("a command is refused, and not for memory")]
    OtherRefusal,
    #[error("a call is refused again, though there is memory")]
    RefusedAgain,
    #[error("a prepare that was refused changed something")]
    PrepareChanged,
    #[error("a flip that was refused changed something")]
    FlipChanged,
    #[error("a flip did not change the tile")]
    NothingFlipped,
    #[error("the sizes that lists keep are not those of their items")]
    WrongSize,
    #[error("two flips do not lead back")]
    NotBack,
    #[error("the change of the series has another number of steps")]
    WrongSteps,
}

impl From<AllocError> for Fault {
    fn from(_e: AllocError) -> Fault {
        Fault::NoMemory
    }
}

impl From<ReadError> for Fault {
    fn from(error: ReadError) -> Fault {
        match error {
            ReadError::NoMemory => Fault::NoMemory,
            ReadError::BadWire { .. } | ReadError::FileTooLarge => Fault::BadTile,
        }
    }
}

impl From<WriteError> for Fault {
    fn from(error: WriteError) -> Fault {
        match error {
            WriteError::NoMemory => Fault::NoMemory,
            WriteError::TooLarge => Fault::TooLarge,
        }
    }
}

impl From<Refusal> for Fault {
    fn from(refusal: Refusal) -> Fault {
        match refusal {
            Refusal::NoMemory => Fault::NoMemory,
            _ => Fault::OtherRefusal,
        }
    }
}
