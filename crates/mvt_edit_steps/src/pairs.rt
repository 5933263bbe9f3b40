//! What is decided on the numbers of a feature's tags, pair by pair, and the steps by which the
//! numbers of a feature become what is decided on them.

ghost use Rattle.std.specs.Prelude.{◌≡◌, ◌⊎◌, ◌++◌, ℕ, Bool, Option, None, IfErr, IfOk, length, map};
ghost use Rattle.std.specs.Fn.{FnReturns};
ghost use Rattle.std.specs.List.{flat_map};
ghost use Rattle.std.specs.Result.{IsErrOf};
ghost use Rattle.mvt_document.specs.Wire.{field_bytes};
ghost use Rattle.mvt_messages.specs.Numbers.{numbers};
ghost use Rattle.mvt_renumber.specs.Renumbering.{renumber};
ghost use Rattle.mvt_change.specs.ChangeStands.{step_of};
ghost use Rattle.mvt_meaning.specs.declared.refusal.Refusal.TheVariants.{BadTags, NoMemory};
ghost use Rattle.mvt_messages.specs.Tags.{plain_pairs, tag_pairs};
ghost use Rattle.mvt_layers.specs.Seen.{feature_seen, found_feature_seen, pair_seen};
ghost use Rattle.mvt_edit_steps.specs.Decided.{IsDecided, IsSizeBeside, field_fates};
ghost use Rattle.mvt_edit_steps.specs.EachFeature.{feature_steps};
ghost use Rattle.mvt_edit_steps.specs.Fates.{Means};

use crate::fates::renumber_fields;
use mvt_change::Step;
use mvt_layers::{FeatureView, FoundFeature, Pair, PairsError, PoolSizes};
use mvt_meaning::Refusal;
use std::alloc::{AllocError, Global};

/// Decides on each number of the tags of a feature, in place of what was decided before: on the two
/// of each pair, and whether the pair counts. Returns how many pairs count.
fn decide_all<D: Fn(Pair) -> (Option<u64>, Option<u64>, bool)>(
    feature: FeatureView<'_>,
    sizes: PoolSizes,
    decide: &D,
    decisions: &mut Vec<Option<u64>>,
) -> Result<usize, PairsError>
    requires { D.IsAlwaysCallable decide.now }
    ensures decided { (said : ℕ × ℕ → Option ℕ × Option ℕ × Bool) → Means (λ pair made. FnReturns D.Fn decide.now (pair, tt) made) (λ made. made) (λ pair. said (pair_seen pair)) →
        IfOk result (λ n. IsDecided said (plain_pairs (tag_pairs sizes.keys sizes.values (numbers 2 (feature_seen feature.entry).fields))) decisions.new.items n) }
    ensures bad_tags { IsErrOf result PairsError.BadTags → plain_pairs (tag_pairs sizes.keys sizes.values (numbers 2 (feature_seen feature.entry).fields)) ≡ None }
{
    decisions.clear();
    let mut count = 0_usize;
    for tags in feature.tag_pairs(sizes) {
        let pair = tags?.pair;
        let (key, value, counts) = decide(pair);
        decisions.reserve(2)?;
        decisions.push_reserved(key);
        decisions.push_reserved(value);
        count += usize::from(counts);
    }
    Ok(count)
}

/// The same for a feature that was found in the layer of this ordinal, which is refused if its tags
/// make no pairs.
pub fn decide_pairs<D: Fn(Pair) -> (Option<u64>, Option<u64>, bool)>(
    layer: usize,
    found: FoundFeature<'_>,
    sizes: PoolSizes,
    decide: D,
    decisions: &mut Vec<Option<u64>>,
) -> Result<usize, Refusal>
    requires { D.IsAlwaysCallable decide }
    ensures decided { (said : ℕ × ℕ → Option ℕ × Option ℕ × Bool) → Means (λ pair made. FnReturns D.Fn decide (pair, tt) made) (λ made. made) (λ pair. said (pair_seen pair)) →
        IfOk result (λ n. IsDecided said (plain_pairs (tag_pairs sizes.keys sizes.values (numbers 2 (found_feature_seen found.entry).1.1.fields))) decisions.new.items n) }
    ensures refused { IfErr result (λ refusal. (refusal ≡ NoMemory) ⊎ ((refusal ≡ BadTags layer found.entry.ordinal) × (plain_pairs (tag_pairs sizes.keys sizes.values (numbers 2 (found_feature_seen found.entry).1.1.fields)) ≡ None))) }
{
    match decide_all(found.view(), sizes, &decide, decisions) {
        Ok(count) => Ok(count),
        Err(PairsError::BadTags) => Err(Refusal::BadTags {
            layer,
            feature: found.ordinal,
        }),
        Err(PairsError::NoMemory) => Err(Refusal::NoMemory),
    }
}

/// Appends the steps by which the numbers in the fields of this number of the feature, in the layer
/// at this position, become what is decided on them. Returns the sum of `beside` and of how many
/// bytes the fields take then, if that is within the limit of a file; none where `beside` is none.
pub fn renumber_feature(
    alloc: Global,
    layer: usize,
    found: FoundFeature<'_>,
    number: u64,
    decisions: &[Option<u64>],
    steps: &mut Vec<Step>,
    beside: Option<usize>,
) -> Result<Option<usize>, AllocError>
    ensures steps { IfOk result (λ size. map step_of steps.new.items ≡ map step_of steps.old.items ++ feature_steps (field_fates number decisions.now) layer (found_feature_seen found.entry)) }
    ensures size { IfOk result (IsSizeBeside beside (length (flat_map field_bytes (renumber number decisions.now (found_feature_seen found.entry).1.1.fields)))) }
{
    let item = found.position;
    renumber_fields(
        alloc,
        found.feature.fields(),
        number,
        decisions,
        |run| Ok(run.in_feature(layer, item)),
        steps,
        beside,
    )
}
