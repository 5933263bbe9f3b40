//! Why numbers are not a geometry, and why a geometry has no numbers.

ghost use Rattle.std.specs.Prelude.{◌≡◌};
ghost use Rattle.mvt_geometry.specs.declared.faults.GeometryError.TheVariants as geometry_errors;
ghost use Rattle.mvt_geometry.specs.declared.faults.EncodeError.TheVariants as encode_errors;

use std::alloc::{AllocError, AllocFailed};
use thiserror::Error;

/// Why a geometry was not read.
#[derive(Clone, Copy, Debug, PartialEq, Eq, Error)]
pub enum GeometryError {
    #[error("the numbers are those of no geometry of this kind")]
    BadGeometry,
    /// A growth was refused.
    #[error("no memory")]
    NoMemory,
}

/// Why a geometry was not written.
#[derive(Clone, Copy, Debug, PartialEq, Eq, Error)]
pub enum EncodeError {
    /// A delta from (0, 0) to the first point, or from a point to the next, is too far from 0 for its
    /// number, or a count is too great: that of dots, or of the points after the first of a line or a
    /// ring.
    #[error("the geometry is out of range")]
    OutOfRange,
    /// A growth was refused.
    #[error("no memory")]
    NoMemory,
}

impl From<AllocError> for GeometryError {
    ghost from_gives = { λ _ e. e ≡ geometry_errors.NoMemory };

    fn from(_e: AllocError) -> GeometryError {
        GeometryError::NoMemory
    }
}

impl<T: Drop> From<AllocFailed<T>> for GeometryError {
    ghost from_gives = { λ _ e. e ≡ geometry_errors.NoMemory };

    fn from(_e: AllocFailed<T>) -> GeometryError {
        GeometryError::NoMemory
    }
}

impl From<AllocError> for EncodeError {
    ghost from_gives = { λ _ e. e ≡ encode_errors.NoMemory };

    fn from(_e: AllocError) -> EncodeError {
        EncodeError::NoMemory
    }
}
