//! The attributes of one key are removed.

ghost use Rattle.std.specs.Prelude.{◌≡◌, ℕ, ◌⊎◌, ◌++◌, true, false, List, [], ◌∷◌, is_some, length, Err, IfErr, IfOk, map};
ghost use Rattle.std.specs.Str.{bytes_eq};
ghost use Rattle.mvt_document.specs.Stands.{document_of, feature_of, layer_of};
ghost use Rattle.mvt_messages.specs.Numbers.{numbers};
ghost use Rattle.mvt_change.specs.ChangeStands.{step_of};
ghost use Rattle.mvt_meaning.specs.Command.{Exclude};
ghost use Rattle.mvt_meaning.specs.CommandStands.{layers_choice_of};
ghost use Rattle.mvt_meaning.specs.Meaning.{refuse_first};
ghost use Rattle.mvt_meaning.specs.Tagging.{pairs_among, unreadable};
ghost use Rattle.mvt_meaning.specs.declared.refusal.Refusal.TheVariants.{BadTags, NoMemory};
ghost use Rattle.mvt_layers.specs.Seen.{feature_seen, found_feature_seen, found_layer_seen};
ghost use Rattle.mvt_messages.specs.Tags.{plain_pairs, tag_pairs};
ghost use Rattle.mvt_messages.specs.Views.{keys, values};
ghost use Rattle.mvt_edit_steps.specs.Prepared.{Prepares};
ghost use Rattle.mvt_edit_steps.specs.EachFeature.{feature_steps, layer_steps};
ghost use Rattle.mvt_edit_attributes.specs.EachFeature.{pairs_go};

use crate::unset::is_any;
use mvt_change::{Change, Step};
use mvt_document::Document;
use mvt_document::tags::TAGS;
use mvt_edit_steps::{decide_or_refuse, name_keys, renumber_feature};
use mvt_layers::{FeatureView, PoolSizes};
use mvt_select::{FoundFeature, FoundLayer, LayersChoice, Refusal, find_layers};
use std::alloc::Global;

/// Each feature of the selected layers loses each pair of the key, whichever of its layer's keys of
/// these bytes it names.
pub fn exclude(
    alloc: Global,
    document: &Document,
    choice: &LayersChoice,
    key: &[u8],
) -> Result<Change, Refusal>
    ensures { Prepares (Exclude (layers_choice_of choice.now) key.now) (document_of document.now) result }
{
    let layers = find_layers(document, choice)?;
    let mut named = Vec::new(alloc);
    let mut decisions = Vec::new(alloc);
    let mut steps = Vec::new(alloc);
    for found in layers {
        exclude_from(alloc, found, key, &mut named, &mut decisions, &mut steps)?;
    }
    Ok(Change::new(steps))
}

/// Appends the steps by which each feature of the layer loses the pairs of the key. The first
/// feature whose tags make no pairs is refused.
fn exclude_from(
    alloc: Global,
    found: FoundLayer<'_>,
    key: &[u8],
    named: &mut Vec<bool>,
    decisions: &mut Vec<Option<u64>>,
    steps: &mut Vec<Step>,
) -> Result<(), Refusal>
    ensures steps { IfOk result (λ done. map step_of steps.new.items ≡ map step_of steps.old.items ++ layer_steps (pairs_go key.now) (found_layer_seen found.entry)) }
    ensures readable { IfOk result (λ done. unreadable (found_layer_seen found.entry ∷ []) ≡ []) }
    ensures refused { IfErr result (λ refusal. (refusal ≡ NoMemory) ⊎ (refuse_first (unreadable (found_layer_seen found.entry ∷ [])) ≡ Err refusal)) }
{
    let layer = found.view();
    name_keys(layer, key, named)?;
    let sizes = PoolSizes {
        keys: named.len(),
        values: layer.value_count(),
    };
    if !is_any(named.as_slice()) {
        return see_layer(found, sizes);
    }
    for feature in layer.features() {
        exclude_pairs(
            alloc,
            found,
            feature,
            sizes,
            named.as_slice(),
            decisions,
            steps,
        )?;
    }
    Ok(())
}

/// Appends the steps by which the feature of this layer loses the pairs of the keys that are named.
/// It is refused if its tags make no pairs.
fn exclude_pairs(
    alloc: Global,
    found: FoundLayer<'_>,
    feature: FoundFeature<'_>,
    sizes: PoolSizes,
    named: &[bool],
    decisions: &mut Vec<Option<u64>>,
    steps: &mut Vec<Step>,
) -> Result<(), Refusal>
    requires keys { sizes.keys ≡ length (keys (layer_of found.layer.now)) }
    requires values { sizes.values ≡ length (values (layer_of found.layer.now)) }
    ensures steps { IfOk result (λ done. (key : List ℕ) → named.now ≡ map (bytes_eq key) (keys (layer_of found.entry.layer.now)) →
        map step_of steps.new.items ≡ map step_of steps.old.items ++ feature_steps (pairs_go key (layer_of found.entry.layer.now).items) found.entry.position (found_feature_seen feature.entry)) }
    ensures readable { IfOk result (λ done. is_some (pairs_among (layer_of found.entry.layer.now).items (feature_of feature.entry.feature.now).fields) ≡ true) }
    ensures refused { IfErr result (λ refusal. (refusal ≡ NoMemory)
        ⊎ ((refusal ≡ BadTags found.entry.ordinal feature.entry.ordinal) × (is_some (pairs_among (layer_of found.entry.layer.now).items (feature_of feature.entry.feature.now).fields) ≡ false))) }
{
    let lost = decide_or_refuse(found.ordinal, feature, sizes, named, None, decisions)?;
    if lost > 0 {
        renumber_feature(
            alloc,
            found.position,
            feature,
            TAGS,
            decisions.as_slice(),
            steps,
            None,
        )?;
    }
    Ok(())
}

/// Refuses the first feature of the layer whose tags make no pairs.
fn see_layer(found: FoundLayer<'_>, sizes: PoolSizes) -> Result<(), Refusal>
    requires keys { sizes.keys ≡ length (keys (layer_of found.layer.now)) }
    requires values { sizes.values ≡ length (values (layer_of found.layer.now)) }
    ensures readable { IfOk result (λ done. unreadable (found_layer_seen found.entry ∷ []) ≡ []) }
    ensures refused { IfErr result (λ refusal. refuse_first (unreadable (found_layer_seen found.entry ∷ [])) ≡ Err refusal) }
{
    for feature in found.view().features() {
        if !makes_pairs(feature.view(), sizes) {
            return Err(Refusal::BadTags {
                layer: found.ordinal,
                feature: feature.ordinal,
            });
        }
    }
    Ok(())
}

/// Whether the tags of the feature make pairs.
fn makes_pairs(feature: FeatureView<'_>, sizes: PoolSizes) -> bool
    ensures { result ≡ is_some (plain_pairs (tag_pairs sizes.keys sizes.values (numbers 2 (feature_seen feature.entry).fields))) }
{
    for tags in feature.tag_pairs(sizes) {
        if tags.is_err() {
            return false;
        }
    }
    true
}
