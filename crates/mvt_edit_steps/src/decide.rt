//! What is decided on each number of the tags of a feature by which keys of its layer are named;
//! and which fields are tags.

ghost use Rattle.std.specs.Prelude.{◌≡◌, ℕ, ◌⊎◌, false, None, Some, IfErr, IfOk, map, option_map, slice_get};
ghost use Rattle.std.specs.Option.{unwrap_or};
ghost use Rattle.std.specs.Str.{bytes_eq};
ghost use Rattle.mvt_document.specs.Stands.{field_of};
ghost use Rattle.mvt_messages.specs.Numbers.{numbers};
ghost use Rattle.mvt_meaning.specs.Ordinals.{count};
ghost use Rattle.mvt_meaning.specs.Tagging.{is_tags};
ghost use Rattle.mvt_meaning.specs.declared.refusal.Refusal.TheVariants.{BadTags, NoMemory};
ghost use Rattle.mvt_messages.specs.Tags.{plain_pairs, tag_pairs};
ghost use Rattle.mvt_layers.specs.Seen.{found_feature_seen, layer_seen, pair_seen};
ghost use Rattle.mvt_messages.specs.Views.{keys};
ghost use Rattle.mvt_edit_steps.specs.Decided.{pairs_decided, said_of};

use crate::pairs::decide_pairs;
use mvt_document::tags::TAGS;
use mvt_document::{BodyRef, Field};
use mvt_layers::{FoundFeature, LayerView, Pair, PoolSizes};
use mvt_meaning::Refusal;
use std::alloc::{AllocError, Global};

/// For each key of the layer, in order, whether it is these bytes.
pub fn named_keys(alloc: Global, layer: LayerView<'_>, key: &[u8]) -> Result<Vec<bool>, AllocError>
    ensures { IfOk result (λ named. named.items ≡ map (bytes_eq key.now) (keys (layer_seen layer.entry))) }
{
    let mut named = Vec::new(alloc);
    name_keys(layer, key, &mut named)?;
    Ok(named)
}

/// The same in place of what was in the list before, whose memory is kept.
pub fn name_keys(layer: LayerView<'_>, key: &[u8], named: &mut Vec<bool>) -> Result<(), AllocError>
    ensures { IfOk result (λ done. named.new.items ≡ map (bytes_eq key.now) (keys (layer_seen layer.entry))) }
{
    named.clear();
    for other in layer.keys() {
        named.push(key == other)?;
    }
    Ok(())
}

/// Decides on each number of the tags of a feature, in place of what was decided before: the pairs
/// of the keys that are named go, or get this value, and all others stay. Returns how many pairs
/// are named. A feature whose tags make no pairs is refused, by its ordinal and that of its layer.
pub fn decide_or_refuse(
    layer: usize,
    found: FoundFeature<'_>,
    sizes: PoolSizes,
    named: &[bool],
    to: Option<u64>,
    decisions: &mut Vec<Option<u64>>,
) -> Result<usize, Refusal>
    ensures decided { IfOk result (λ n. option_map (pairs_decided (λ key. unwrap_or (slice_get named.now key) false) to) (plain_pairs (tag_pairs sizes.keys sizes.values (numbers 2 (found_feature_seen found.entry).1.1.fields))) ≡ Some decisions.new.items) }
    ensures counted { IfOk result (λ n. option_map (count (λ pair. unwrap_or (slice_get named.now pair.0) false)) (plain_pairs (tag_pairs sizes.keys sizes.values (numbers 2 (found_feature_seen found.entry).1.1.fields))) ≡ Some n) }
    ensures refused { IfErr result (λ refusal. (refusal ≡ NoMemory) ⊎ ((refusal ≡ BadTags layer found.entry.ordinal) × (plain_pairs (tag_pairs sizes.keys sizes.values (numbers 2 (found_feature_seen found.entry).1.1.fields)) ≡ None))) }
{
    decide_pairs(
        layer,
        found,
        sizes,
        |pair| decided(pair, named, to),
        decisions,
    )
}

/// The key of this ordinal is named.
fn is_named(named: &[bool], key: u32) -> bool
    ensures { result ≡ unwrap_or (slice_get named.now key) false }
{
    named.get(key as usize).copied().unwrap_or(false)
}

/// What is decided on the two numbers of a pair: they stay, and if the pair is named both go, or
/// the second becomes this one; and whether it is named.
fn decided(pair: Pair, named: &[bool], to: Option<u64>) -> (Option<u64>, Option<u64>, bool)
    ensures { result ≡ said_of (λ key. unwrap_or (slice_get named.now key) false) to (pair_seen pair) }
{
    let key = u64::from(pair.key);
    if !is_named(named, pair.key) {
        return (Some(key), Some(u64::from(pair.value)), false);
    }
    match to {
        Some(value) => (Some(key), Some(value), true),
        None => (None, None, true),
    }
}

/// A field of tags, packed or not.
pub fn is_tags(field: &Field) -> bool
    ensures { result ≡ is_tags (field_of field.now) }
{
    field.number() == TAGS && matches!(field.body(), BodyRef::Number(_) | BodyRef::Bytes { .. })
}
