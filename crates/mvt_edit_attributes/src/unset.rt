//! A feature loses an attribute.

ghost use Rattle.std.specs.Prelude.{◌≡◌, ◌⊎◌, true, false, IfErr, IfOk, is_some};
ghost use Rattle.std.specs.List.{list_any};
ghost use Rattle.mvt_document.specs.Stands.{document_of, feature_of, layer_of};
ghost use Rattle.mvt_change.specs.ChangeStands.{change_of};
ghost use Rattle.mvt_meaning.specs.Command.{UnsetAttribute};
ghost use Rattle.mvt_meaning.specs.CommandStands.{feature_choice_of, layer_choice_of};
ghost use Rattle.mvt_layers.specs.Seen.{found_feature_seen};
ghost use Rattle.mvt_meaning.specs.Tagging.{is_key, pairs_among, removals};
ghost use Rattle.mvt_meaning.specs.declared.refusal.Refusal.TheVariants.{BadTags, NoKey, NoMemory};
ghost use Rattle.mvt_edit_steps.specs.Decided.{field_fates};
ghost use Rattle.mvt_edit_steps.specs.Prepared.{Prepares};
ghost use Rattle.mvt_edit_steps.specs.EachFeature.{feature_steps};

use mvt_change::Change;
use mvt_document::Document;
use mvt_document::tags::TAGS;
use mvt_edit_steps::{decide_or_refuse, named_keys, renumber_feature};
use mvt_layers::PoolSizes;
use mvt_select::{
    FeatureChoice, FoundFeature, FoundLayer, LayerChoice, Refusal, find_feature, find_layer,
};
use std::alloc::{AllocError, Global};

/// The feature loses each pair of the key, whichever of the layer's keys of these bytes it names.
pub fn unset(
    alloc: Global,
    document: &Document,
    choice: &LayerChoice,
    feature: &FeatureChoice,
    key: &[u8],
) -> Result<Change, Refusal>
    ensures { Prepares (UnsetAttribute (layer_choice_of choice.now) (feature_choice_of feature.now) key.now) (document_of document.now) result }
{
    let holder = find_layer(document, choice)?;
    let found = find_feature(holder.layer, feature)?;
    let decisions = decide(alloc, holder, found, key)?;
    Ok(removing(alloc, holder.position, found, decisions.as_slice())?)
}

/// What is decided on the numbers of the feature's tags, where the pairs of the key go. It is refused
/// if the layer lacks the key, and if the tags make no pairs.
fn decide(
    alloc: Global,
    holder: FoundLayer<'_>,
    found: FoundFeature<'_>,
    key: &[u8],
) -> Result<Vec<Option<u64>>, Refusal>
    ensures has { IfOk result (λ decisions. list_any (is_key key.now) (layer_of holder.entry.layer.now).items ≡ true) }
    ensures readable { IfOk result (λ decisions. is_some (pairs_among (layer_of holder.entry.layer.now).items (feature_of found.entry.feature.now).fields) ≡ true) }
    ensures decided { IfOk result (λ decisions. decisions.items ≡ removals key.now (layer_of holder.entry.layer.now).items (feature_of found.entry.feature.now).fields) }
    ensures refused { IfErr result (λ refusal. (refusal ≡ NoMemory)
        ⊎ (((refusal ≡ NoKey) × (list_any (is_key key.now) (layer_of holder.entry.layer.now).items ≡ false))
        ⊎ ((refusal ≡ BadTags holder.entry.ordinal found.entry.ordinal) × (list_any (is_key key.now) (layer_of holder.entry.layer.now).items ≡ true)
        × (is_some (pairs_among (layer_of holder.entry.layer.now).items (feature_of found.entry.feature.now).fields) ≡ false)))) }
{
    let layer = holder.view();
    let named = named_keys(alloc, layer, key)?;
    if !is_any(named.as_slice()) {
        return Err(Refusal::NoKey);
    }
    let sizes = PoolSizes {
        keys: named.len(),
        values: layer.value_count(),
    };
    let mut decisions = Vec::new(alloc);
    decide_or_refuse(
        holder.ordinal,
        found,
        sizes,
        named.as_slice(),
        None,
        &mut decisions,
    )?;
    Ok(decisions)
}

/// The change by which the tags of the feature, in the layer at this position, become what is
/// decided on their numbers.
fn removing(
    alloc: Global,
    layer: usize,
    found: FoundFeature<'_>,
    decisions: &[Option<u64>],
) -> Result<Change, AllocError>
    ensures { IfOk result (λ change. change_of change ≡ feature_steps (field_fates 2 decisions.now) layer (found_feature_seen found.entry)) }
{
    let mut steps = Vec::new(alloc);
    renumber_feature(alloc, layer, found, TAGS, decisions, &mut steps, None)?;
    Ok(Change::new(steps))
}

/// Some key is named.
pub(crate) fn is_any(named: &[bool]) -> bool
    ensures { result ≡ list_any (λ is. is) named.now }
{
    named.iter().any(|is| *is)
}
