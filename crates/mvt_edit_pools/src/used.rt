//! Which keys and which values of a layer stay, and the new ordinal of each.

ghost use Rattle.std.specs.Prelude.{◌≡◌, ◌+◌, ◌^◌, ◌<◌, ◌≤◌, ◌⊎◌, [], ◌∷◌, ◌++◌, if◌then◌else◌, None, Some, Err, IfErr, IfOk, length, map, option_map, replicate, take};
ghost use Rattle.std.specs.Result.{IsErrOf};
ghost use Rattle.mvt_document.specs.Stands.{layer_of};
ghost use Rattle.mvt_messages.specs.Numbers.{numbers};
ghost use Rattle.mvt_meaning.specs.Compaction.{all_pairs, is_key_used, is_value_used};
ghost use Rattle.mvt_meaning.specs.Meaning.{refuse_first};
ghost use Rattle.mvt_meaning.specs.Tagging.{unreadable};
ghost use Rattle.mvt_meaning.specs.declared.refusal.Refusal.TheVariants.{BadTags, NoMemory};
ghost use Rattle.mvt_messages.specs.Found.{found_features};
ghost use Rattle.mvt_layers.specs.Seen.{feature_seen, found_feature_seen, found_layer_seen, pair_seen};
ghost use Rattle.mvt_messages.specs.Tags.{plain_pairs, tag_pairs};
ghost use Rattle.mvt_messages.specs.Views.{keys, values};
ghost use Rattle.mvt_edit_pools.specs.Marks.{is_one, marked, names_key, names_value, numbered_from, pair_counts};

use mvt_layers::{FeatureView, Pair, PairsError, PoolSizes};
use mvt_select::{FoundFeature, FoundLayer, Refusal};
use std::alloc::{AllocError, Global};

/// How many entries of a pool a pair can name: its ordinals take half a word.
const MOST_NAMED: usize = 1 << 32;

/// What was read of the tags of a layer: for each of its keys and values, in order, whether it stays;
/// the pairs of its features, one feature after the other; and how many each feature has.
#[derive(Drop)]
pub(crate) struct Marks {
    pub(crate) keys: Vec<bool>,
    pub(crate) values: Vec<bool>,
    pub(crate) pairs: Vec<Pair>,
    pub(crate) counts: Vec<usize>,
}

/// Marks each key and each value that a pair of a feature of the layer names, and keeps the pairs.
/// The first feature whose tags make no pairs is refused.
pub(crate) fn mark_used(
    found: FoundLayer<'_>,
    sizes: PoolSizes,
    marks: &mut Marks,
) -> Result<(), Refusal>
    requires keys { sizes.keys ≡ length (keys (layer_of found.layer.now)) }
    requires values { sizes.values ≡ length (values (layer_of found.layer.now)) }
    ensures keys { IfOk result (λ done. marks.new.keys.items ≡ marked (is_key_used (layer_of found.entry.layer.now).items) 0 marks.old.keys.items) }
    ensures values { IfOk result (λ done. marks.new.values.items ≡ marked (is_value_used (layer_of found.entry.layer.now).items) 0 marks.old.values.items) }
    ensures pairs { IfOk result (λ done. map pair_seen marks.new.pairs.items ≡ map pair_seen marks.old.pairs.items ++ all_pairs (layer_of found.entry.layer.now).items) }
    ensures counts { IfOk result (λ done. marks.new.counts.items ≡ marks.old.counts.items ++ pair_counts (layer_of found.entry.layer.now).items (found_features (layer_of found.entry.layer.now).items)) }
    ensures readable { IfOk result (λ done. unreadable (found_layer_seen found.entry ∷ []) ≡ []) }
    ensures refused { IfErr result (λ refusal. (refusal ≡ NoMemory) ⊎ (refuse_first (unreadable (found_layer_seen found.entry ∷ [])) ≡ Err refusal)) }
{
    for feature in found.view().features() {
        mark_or_refuse(found.ordinal, feature, sizes, marks)?;
    }
    Ok(())
}

/// Marks the key and the value of each pair of the feature, keeps the pairs and their number, or
/// refuses the feature, which is in the layer of this ordinal.
fn mark_or_refuse(
    layer: usize,
    found: FoundFeature<'_>,
    sizes: PoolSizes,
    marks: &mut Marks,
) -> Result<(), Refusal>
    ensures keys { IfOk result (λ done. option_map (λ pairs. marked (names_key pairs) 0 marks.old.keys.items) (plain_pairs (tag_pairs sizes.keys sizes.values (numbers 2 (found_feature_seen found.entry).1.1.fields))) ≡ Some marks.new.keys.items) }
    ensures values { IfOk result (λ done. option_map (λ pairs. marked (names_value pairs) 0 marks.old.values.items) (plain_pairs (tag_pairs sizes.keys sizes.values (numbers 2 (found_feature_seen found.entry).1.1.fields))) ≡ Some marks.new.values.items) }
    ensures pairs { IfOk result (λ done. option_map (λ pairs. map pair_seen marks.old.pairs.items ++ pairs) (plain_pairs (tag_pairs sizes.keys sizes.values (numbers 2 (found_feature_seen found.entry).1.1.fields))) ≡ Some (map pair_seen marks.new.pairs.items)) }
    ensures counts { IfOk result (λ done. option_map (λ pairs. marks.old.counts.items ++ length pairs ∷ []) (plain_pairs (tag_pairs sizes.keys sizes.values (numbers 2 (found_feature_seen found.entry).1.1.fields))) ≡ Some marks.new.counts.items) }
    ensures refused { IfErr result (λ refusal. (refusal ≡ NoMemory) ⊎ ((refusal ≡ BadTags layer found.entry.ordinal) × (plain_pairs (tag_pairs sizes.keys sizes.values (numbers 2 (found_feature_seen found.entry).1.1.fields)) ≡ None))) }
{
    match mark_and_count(found.view(), sizes, marks) {
        Ok(()) => Ok(()),
        Err(PairsError::BadTags) => Err(Refusal::BadTags {
            layer,
            feature: found.ordinal,
        }),
        Err(PairsError::NoMemory) => Err(Refusal::NoMemory),
    }
}

/// Marks the key and the value of each pair of the feature, if its tags make pairs, and keeps the
/// pairs and their number.
fn mark_and_count(
    feature: FeatureView<'_>,
    sizes: PoolSizes,
    marks: &mut Marks,
) -> Result<(), PairsError>
    ensures keys { IfOk result (λ done. option_map (λ pairs. marked (names_key pairs) 0 marks.old.keys.items) (plain_pairs (tag_pairs sizes.keys sizes.values (numbers 2 (feature_seen feature.entry).fields))) ≡ Some marks.new.keys.items) }
    ensures values { IfOk result (λ done. option_map (λ pairs. marked (names_value pairs) 0 marks.old.values.items) (plain_pairs (tag_pairs sizes.keys sizes.values (numbers 2 (feature_seen feature.entry).fields))) ≡ Some marks.new.values.items) }
    ensures pairs { IfOk result (λ done. option_map (λ pairs. map pair_seen marks.old.pairs.items ++ pairs) (plain_pairs (tag_pairs sizes.keys sizes.values (numbers 2 (feature_seen feature.entry).fields))) ≡ Some (map pair_seen marks.new.pairs.items)) }
    ensures counts { IfOk result (λ done. option_map (λ pairs. marks.old.counts.items ++ length pairs ∷ []) (plain_pairs (tag_pairs sizes.keys sizes.values (numbers 2 (feature_seen feature.entry).fields))) ≡ Some marks.new.counts.items) }
    ensures bad_tags { IsErrOf result PairsError.BadTags → plain_pairs (tag_pairs sizes.keys sizes.values (numbers 2 (feature_seen feature.entry).fields)) ≡ None }
{
    let before = marks.pairs.len();
    mark_pairs(feature, sizes, marks)?;
    marks.counts.push(marks.pairs.len() - before)?;
    Ok(())
}

/// The same, leaving the counts as they are.
#[inline(never)]
fn mark_pairs(
    feature: FeatureView<'_>,
    sizes: PoolSizes,
    marks: &mut Marks,
) -> Result<(), PairsError>
    ensures keys { IfOk result (λ done. option_map (λ pairs. marked (names_key pairs) 0 marks.old.keys.items) (plain_pairs (tag_pairs sizes.keys sizes.values (numbers 2 (feature_seen feature.entry).fields))) ≡ Some marks.new.keys.items) }
    ensures values { IfOk result (λ done. option_map (λ pairs. marked (names_value pairs) 0 marks.old.values.items) (plain_pairs (tag_pairs sizes.keys sizes.values (numbers 2 (feature_seen feature.entry).fields))) ≡ Some marks.new.values.items) }
    ensures pairs { IfOk result (λ done. option_map (λ pairs. map pair_seen marks.old.pairs.items ++ pairs) (plain_pairs (tag_pairs sizes.keys sizes.values (numbers 2 (feature_seen feature.entry).fields))) ≡ Some (map pair_seen marks.new.pairs.items)) }
    ensures counts { IfOk result (λ done. marks.new.counts.items ≡ marks.old.counts.items) }
    ensures bad_tags { IsErrOf result PairsError.BadTags → plain_pairs (tag_pairs sizes.keys sizes.values (numbers 2 (feature_seen feature.entry).fields)) ≡ None }
{
    for tags in feature.tag_pairs(sizes) {
        let pair = tags?.pair;
        mark_pair(pair, marks)?;
    }
    Ok(())
}

/// Marks the key and the value of the pair, and keeps it.
fn mark_pair(pair: Pair, marks: &mut Marks) -> Result<(), AllocError>
    ensures keys { marks.new.keys.items ≡ marked (is_one pair.key) 0 marks.old.keys.items }
    ensures values { marks.new.values.items ≡ marked (is_one pair.value) 0 marks.old.values.items }
    ensures pairs { IfOk result (λ done. marks.new.pairs.items ≡ marks.old.pairs.items ++ pair ∷ []) }
    ensures counts { marks.new.counts.items ≡ marks.old.counts.items }
{
    mark(&mut marks.keys, pair.key);
    mark(&mut marks.values, pair.value);
    marks.pairs.push(pair)?;
    Ok(())
}

/// Marks the entry of this ordinal.
fn mark(marks: &mut Vec<bool>, ordinal: u32)
    ensures { marks.new.items ≡ marked (is_one ordinal) 0 marks.old.items }
{
    let index = ordinal as usize;
    if index < marks.len() {
        marks[index] = true;
    }
}

/// `count` marks, all of them this one.
pub(crate) fn same_marks(alloc: Global, count: usize, mark: bool) -> Result<Vec<bool>, AllocError>
    ensures { IfOk result (λ marks. marks.items ≡ replicate count mark) }
{
    vec![in alloc; mark; count]
}

/// The marks of the entries that a pair can name.
pub(crate) fn nameable(marks: &[bool]) -> &[bool]
    ensures first { result.now ≡ take (2 ^ 32) marks.now }
    ensures few { length result.now ≤ 2 ^ 32 }
{
    &marks[..marks.len().min(MOST_NAMED)]
}

/// For each entry, by the marks of those that stay, how many before it stay: its new ordinal, if it
/// stays.
pub(crate) fn number(alloc: Global, marks: &[bool]) -> Result<Vec<u32>, AllocError>
    requires few { length marks.now ≤ 2 ^ 32 }
    ensures { IfOk result (λ ordinals. ordinals.items ≡ numbered_from 0 marks.now) }
{
    let mut ordinals = Vec::with_capacity(alloc, marks.len())?;
    let mut next = 0_u64;
    for stays in marks {
        ordinals.push_reserved(next as u32);
        next = next_ordinal(next, *stays);
    }
    Ok(ordinals)
}

/// How many entries stay before the next one, where `ordinal` of them stay before this one, and
/// `stays` says whether this one does.
fn next_ordinal(ordinal: u64, stays: bool) -> u64
    requires fits { ordinal < 18446744073709551615 }
    ensures { result ≡ ordinal + (if stays then 1 else 0) }
{
    ordinal + u64::from(stays)
}
