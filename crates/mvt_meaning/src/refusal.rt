//! Why a command is refused.

ghost use Rattle.std.specs.Prelude.{◌≡◌};
ghost use Rattle.mvt_meaning.specs.Meaning.{geometry_refusal};
ghost use Rattle.mvt_meaning.specs.declared.refusal.Refusal.TheVariants.{NoMemory};

use mvt_geometry::EncodeError;
use std::alloc::{AllocError, AllocFailed};
use thiserror::Error;

/// Why a command was refused.
#[derive(Clone, Copy, Debug, PartialEq, Eq, Error)]
pub enum Refusal {
    #[error("there is no such layer")]
    NoLayer,
    #[error("several layers have the name")]
    AmbiguousLayer,
    #[error("there is no such feature")]
    NoFeature,
    #[error("several features have the id")]
    AmbiguousFeature,
    #[error("the layer has no such key")]
    NoKey,
    #[error("the place is past the last")]
    BadPlace,
    #[error("the tags of feature {feature} of layer {layer} cannot be read")]
    BadTags { layer: usize, feature: usize },
    #[error("the tags of feature {feature} of layer {layer} have the key more than once")]
    RepeatedKey { layer: usize, feature: usize },
    #[error("the geometry of feature {feature} of layer {layer} cannot be read")]
    BadGeometry { layer: usize, feature: usize },
    #[error("another layer has the name")]
    NameTaken,
    #[error("the layer has the key already")]
    KeyTaken,
    #[error("the geometry is out of range")]
    OutOfRange,
    #[error("the tile would be too large")]
    TooLarge,
    #[error("out of memory")]
    NoMemory,
}

impl From<AllocError> for Refusal {
    ghost from_gives = { λ _ e. e ≡ NoMemory };

    fn from(_e: AllocError) -> Refusal {
        Refusal::NoMemory
    }
}

impl<T: Drop> From<AllocFailed<T>> for Refusal {
    ghost from_gives = { λ _ e. e ≡ NoMemory };

    fn from(_e: AllocFailed<T>) -> Refusal {
        Refusal::NoMemory
    }
}

impl From<EncodeError> for Refusal {
    ghost from_gives = { λ error refusal. refusal ≡ geometry_refusal error };

    fn from(error: EncodeError) -> Refusal {
        match error {
            EncodeError::OutOfRange => Refusal::OutOfRange,
            EncodeError::NoMemory => Refusal::NoMemory,
        }
    }
}
