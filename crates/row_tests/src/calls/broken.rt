//! Why a row cannot be tried.

use mvt_wire::ReadError;
use std::alloc::{AllocError, AllocFailed};
use thiserror::Error;

/// Why a row cannot be tried.
#[derive(Clone, Copy, Debug, Error)]
pub enum Broken {
    #[error("out of memory")]
    NoMemory,
    #[error("there is no such call")]
    NoCall,
    #[error("the call cannot be given this")]
    BadGiven,
    #[error("the tile does not open, or lacks what is looked at")]
    BadTile,
}

/// What a call answers.
pub type Answer = Result<Vec<u8>, Broken>;

impl From<AllocError> for Broken {
    fn from(_e: AllocError) -> Broken {
        Broken::NoMemory
    }
}

impl<T: Drop> From<AllocFailed<T>> for Broken {
    fn from(_e: AllocFailed<T>) -> Broken {
        Broken::NoMemory
    }
}

impl From<ReadError> for Broken {
    fn from(_e: ReadError) -> Broken {
        Broken::BadTile
    }
}
