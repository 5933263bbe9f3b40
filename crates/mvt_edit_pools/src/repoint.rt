//! The tags of the features of a layer, with the new ordinals of what they name.

ghost use Rattle.std.specs.Prelude.{◌≡◌, ◌<◌, [], ◌∷◌, ◌++◌, IfOk, map, slice_get};
ghost use Rattle.mvt_document.specs.Stands.{layer_of};
ghost use Rattle.mvt_change.specs.ChangeStands.{step_of};
ghost use Rattle.mvt_meaning.specs.Compaction.{all_pairs};
ghost use Rattle.mvt_messages.specs.Found.{found_features};
ghost use Rattle.mvt_layers.specs.Seen.{found_feature_seen, found_layer_seen, pair_seen};
ghost use Rattle.mvt_edit_steps.specs.Decided.{counted_by, decided_by, field_fates};
ghost use Rattle.mvt_edit_steps.specs.EachFeature.{feature_steps, layer_steps};
ghost use Rattle.mvt_edit_pools.specs.Marks.{keeps_ordinal, pair_counts, pair_repointed, pairs_repointed};

use crate::used::Marks;
use mvt_change::Step;
use mvt_document::tags::TAGS;
use mvt_edit_steps::renumber_feature;
use mvt_layers::Pair;
use mvt_select::{FoundFeature, FoundLayer};
use std::alloc::{AllocError, Global};

/// Appends the steps by which the tags of each feature of the layer name what they named by its new
/// ordinal, given the new ordinals of the keys and of the values. The pairs are those that were
/// kept as the layer was read. A feature none of whose numbers changes has no step, and its tags
/// are not read again.
pub(crate) fn repoint(
    alloc: Global,
    found: FoundLayer<'_>,
    marks: &Marks,
    key_ordinals: &[u32],
    value_ordinals: &[u32],
    decisions: &mut Vec<Option<u64>>,
    steps: &mut Vec<Step>,
) -> Result<(), AllocError>
    requires pairs { map pair_seen marks.now.pairs.items ≡ all_pairs (layer_of found.layer.now).items }
    requires counts { marks.now.counts.items ≡ pair_counts (layer_of found.layer.now).items (found_features (layer_of found.layer.now).items) }
    ensures { IfOk result (λ done. map step_of steps.new.items ≡ map step_of steps.old.items ++ layer_steps (pairs_repointed key_ordinals.now value_ordinals.now) (found_layer_seen found.entry)) }
{
    let mut pairs_left = marks.pairs.as_slice();
    let mut counts_left = marks.counts.as_slice();
    for feature in found.view().features() {
        let Some((count, counts_following)) = counts_left.split_first() else {
            unreachable!()
        };
        let (own, pairs_following) = pairs_left.split_at(*count);
        let changed = decide(own, key_ordinals, value_ordinals, decisions)?;
        renumber_changed(alloc, found, feature, changed, decisions.as_slice(), steps)?;
        pairs_left = pairs_following;
        counts_left = counts_following;
    }
    Ok(())
}

/// Appends the steps by which the numbers of the feature's tags become what is decided on them, if
/// some of its pairs change.
fn renumber_changed(
    alloc: Global,
    found: FoundLayer<'_>,
    feature: FoundFeature<'_>,
    changed: usize,
    decisions: &[Option<u64>],
    steps: &mut Vec<Step>,
) -> Result<(), AllocError>
    ensures none { changed ≡ 0 → map step_of steps.new.items ≡ map step_of steps.old.items }
    ensures some { 0 < changed → IfOk result (λ done. map step_of steps.new.items ≡ map step_of steps.old.items ++ feature_steps (field_fates 2 decisions.now) found.entry.position (found_feature_seen feature.entry)) }
{
    if changed > 0 {
        renumber_feature(alloc, found.position, feature, TAGS, decisions, steps, None)?;
    }
    Ok(())
}

/// Decides on the two numbers of each pair, in place of what was decided before, where the keys and
/// the values have these new ordinals. Returns how many pairs change.
fn decide(
    pairs: &[Pair],
    key_ordinals: &[u32],
    value_ordinals: &[u32],
    decisions: &mut Vec<Option<u64>>,
) -> Result<usize, AllocError>
    ensures decided { IfOk result (λ changed. decisions.new.items ≡ decided_by (pair_repointed key_ordinals.now value_ordinals.now) (map pair_seen pairs.now)) }
    ensures counted { IfOk result (λ changed. changed ≡ counted_by (pair_repointed key_ordinals.now value_ordinals.now) (map pair_seen pairs.now)) }
{
    decisions.clear();
    let mut changed = 0_usize;
    for pair in pairs {
        let changes = decide_pair(*pair, key_ordinals, value_ordinals, decisions)?;
        changed += usize::from(changes);
    }
    Ok(changed)
}

/// Decides on the two numbers of the pair, after what was decided before. Returns whether one of them
/// changes.
fn decide_pair(
    pair: Pair,
    key_ordinals: &[u32],
    value_ordinals: &[u32],
    decisions: &mut Vec<Option<u64>>,
) -> Result<bool, AllocError>
    ensures decided { IfOk result (λ changes. decisions.new.items ≡ decisions.old.items ++ decided_by (pair_repointed key_ordinals.now value_ordinals.now) (pair_seen pair ∷ [])) }
    ensures changes { IfOk result (λ changes. changes ≡ (pair_repointed key_ordinals.now value_ordinals.now (pair_seen pair)).2) }
{
    let (key, value, changes) = repointed(pair, key_ordinals, value_ordinals);
    decisions.reserve(2)?;
    decisions.push_reserved(key);
    decisions.push_reserved(value);
    Ok(changes)
}

/// What becomes of the two numbers of a pair, where the keys and the values have these new ordinals;
/// and whether one of them changes.
fn repointed(
    pair: Pair,
    key_ordinals: &[u32],
    value_ordinals: &[u32],
) -> (Option<u64>, Option<u64>, bool)
    ensures { result ≡ pair_repointed key_ordinals.now value_ordinals.now (pair_seen pair) }
{
    let key = new_ordinal(key_ordinals, pair.key);
    let value = new_ordinal(value_ordinals, pair.value);
    let keeps = keeps_ordinal(pair.key, key) && keeps_ordinal(pair.value, value);
    (key, value, !keeps)
}

/// The new ordinal of the entry of this ordinal.
fn new_ordinal(ordinals: &[u32], ordinal: u32) -> Option<u64>
    ensures { result ≡ slice_get ordinals.now ordinal }
{
    let new = ordinals.get(ordinal as usize)?;
    Some(u64::from(*new))
}

/// The new ordinal is the old one.
fn keeps_ordinal(ordinal: u32, new: Option<u64>) -> bool
    ensures { result ≡ keeps_ordinal ordinal new }
{
    match new {
        Some(new) => new == u64::from(ordinal),
        None => false,
    }
}
