//! Why a line is refused.

ghost use Rattle.std.specs.Prelude.{◌≡◌};
ghost use Rattle.tile_lines.specs.declared.parse_error.ParseError.TheVariants.{NoMemory};

use std::alloc::{AllocError, AllocFailed};
use thiserror::Error;

/// Why no request could be read from a line.
#[derive(Clone, Copy, Debug, PartialEq, Eq, Error)]
pub enum ParseError {
    #[error("the line has more than 65536 bytes")]
    LineTooLong,
    #[error("the line is not UTF-8")]
    BadUtf8,
    #[error("the line has something that is no word")]
    BadWord,
    #[error("no request begins with this word")]
    UnknownCommand,
    #[error("the arguments are not those of the request")]
    BadArguments,
    #[error("a number has other bytes than digits, or is too large")]
    BadNumber,
    #[error("a type and a value are not those of an attribute")]
    BadValue,
    #[error("the words are no geometry")]
    BadGeometryText,
    #[error("out of memory")]
    NoMemory,
}

impl From<AllocError> for ParseError {
    ghost from_gives = { λ _ e. e ≡ NoMemory };

    fn from(_e: AllocError) -> ParseError {
        ParseError::NoMemory
    }
}

impl<T: Drop> From<AllocFailed<T>> for ParseError {
    ghost from_gives = { λ _ e. e ≡ NoMemory };

    fn from(_e: AllocFailed<T>) -> ParseError {
        ParseError::NoMemory
    }
}
