//! `pairs`: the tags of a feature in pairs.

ghost use Rattle.std.specs.Prelude.{◌≡◌, Some, None, length, map, slice_get, IfOk, IsOk, IsSomeAnd};
ghost use Rattle.std.specs.Result.{IsErrOf};
ghost use Rattle.mvt_messages.specs.Attributes.{pairs_of};
ghost use Rattle.mvt_messages.specs.Numbers.{numbers};
ghost use Rattle.mvt_messages.specs.Tags.{tag_pairs};
ghost use Rattle.mvt_messages.specs.Views.{keys, values};
ghost use Rattle.mvt_layers.specs.Seen.{feature_seen, layer_seen, pair_seen};
ghost use Rattle.mvt_layers.specs.declared.attributes.PairsError.TheVariants.{BadTags, NoMemory};

use crate::tag_pairs::BadPair;
use crate::views::{FeatureView, LayerView};
use mvt_document::Items;
use std::alloc::{AllocError, AllocFailed, Global};
use thiserror::Error;

/// The ordinals of a key and of a value of the layer.
#[derive(Clone, Copy, Debug, PartialEq, Eq)]
pub struct Pair {
    pub key: u32,
    pub value: u32,
}

/// Why there are no pairs.
#[derive(Clone, Copy, Debug, PartialEq, Eq, Error)]
pub enum PairsError {
    /// Something is not a number, a key has no value, or a number names no key or no value.
    #[error("the tags are not pairs of a key and a value")]
    BadTags,
    #[error("out of memory")]
    NoMemory,
}

impl From<BadPair> for PairsError {
    ghost from_gives = { λ _ e. e ≡ BadTags };

    fn from(_e: BadPair) -> PairsError {
        PairsError::BadTags
    }
}

impl From<AllocError> for PairsError {
    ghost from_gives = { λ _ e. e ≡ NoMemory };

    fn from(_e: AllocError) -> PairsError {
        PairsError::NoMemory
    }
}

impl<T: Drop> From<AllocFailed<T>> for PairsError {
    ghost from_gives = { λ _ e. e ≡ NoMemory };

    fn from(_e: AllocFailed<T>) -> PairsError {
        PairsError::NoMemory
    }
}

/// The pairs that the tags of a feature of this layer make. The layer's keys and values are counted once, before
/// the tags are read. No memory is asked for before the first pair is read.
pub fn pairs(
    alloc: Global,
    layer: &LayerView,
    feature: &FeatureView,
) -> Result<Items<Pair>, PairsError>
    ensures pairs { IfOk result (λ pairs. pairs_of (layer_seen layer.now) (feature_seen feature.now) ≡ Some (map pair_seen pairs.items)) }
    ensures bad_tags { IsErrOf result PairsError.BadTags → pairs_of (layer_seen layer.now) (feature_seen feature.now) ≡ None }
    ensures no_memory { IsErrOf result PairsError.NoMemory → IsSomeAnd (slice_get (tag_pairs (length (keys (layer_seen layer.now))) (length (values (layer_seen layer.now))) (numbers 2 (feature_seen feature.now).fields)) 0) IsOk }
{
    let mut pairs = Vec::new(alloc);
    for tags in feature.tag_pairs(layer.pool_sizes()) {
        pairs.push(tags?.pair)?;
    }
    Ok(Items::from_vec(pairs))
}
