//! A feature gets an attribute.

ghost use Rattle.std.specs.Prelude.{◌≡◌, ◌≤◌, ◌+◌, ◌⊎◌, ℕ, List, [], ◌++◌, Some, None, Ok, Err, false, IfErr, IfOk, IfSome, length, map, nat_lt, not, option_map, slice_get};
ghost use Rattle.std.specs.List.{cons_option};
ghost use Rattle.std.specs.Option.{unwrap_or};
ghost use Rattle.std.specs.Str.{bytes_eq};
ghost use Rattle.mvt_document.specs.declared.TheConstants.{MAX_FILE};
ghost use Rattle.mvt_document.specs.Lists.{change_at};
ghost use Rattle.mvt_document.specs.Places.{change_items, in_feature};
ghost use Rattle.mvt_document.specs.Plain as plain;
ghost use Rattle.mvt_document.specs.Wire.{bytes_of};
ghost use Rattle.mvt_document.specs.Stands.{document_of, feature_of, field_of, layer_item_of, layer_of};
ghost use Rattle.mvt_value.specs.Stands.{new_value_of};
ghost use Rattle.mvt_change.specs.Changes.{FeatureStep, LayerStep};
ghost use Rattle.mvt_change.specs.ChangeStands.{change_of, step_of};
ghost use Rattle.mvt_meaning.specs.Command.{SetAttribute};
ghost use Rattle.mvt_meaning.specs.CommandStands.{feature_choice_of, layer_choice_of};
ghost use Rattle.mvt_layers.specs.Seen.{found_feature_seen};
ghost use Rattle.mvt_messages.specs.Tags.{plain_pairs, tag_pairs};
ghost use Rattle.mvt_messages.specs.Views.{keys, values};
ghost use Rattle.mvt_messages.specs.Numbers.{numbers};
ghost use Rattle.mvt_meaning.specs.declared.refusal.Refusal.TheVariants.{BadTags, NoMemory};
ghost use Rattle.mvt_meaning.specs.Ordinals.{count};
ghost use Rattle.mvt_meaning.specs.Tagging.{revalued};
ghost use Rattle.mvt_edit_steps.specs.Fates.{seen, splice_of};
ghost use Rattle.mvt_edit_steps.specs.Prepared.{Prepares};
ghost use Rattle.mvt_edit_attributes.specs.Attribute.{AreFound, GivesAttribute, IsSought, attribute_checked, appended, fields_with};

use crate::pools::{Ordinals, keys_that_are, look_for, missing_entries};
use crate::tags_run::{and_pair, first_renumbered, size_with};
use mvt_change::{Change, Step, fits_with_items, size_with_fields};
use mvt_document::{Document, Field, LayerItem, MAX_FILE, Put, size_of_all};
use mvt_edit_steps::{Run, decide_or_refuse};
use mvt_layers::PoolSizes;
use mvt_select::{
    FeatureChoice, FoundFeature, FoundLayer, LayerChoice, Refusal, find_feature, find_layer,
};
use mvt_value::{NewValue, encode_value};
use std::alloc::{AllocError, Global};

/// The feature's one pair of the key gets the value, or a further pair is added if there is none.
/// What the layer lacks of both is added at its end.
pub fn set_attribute(
    alloc: Global,
    document: &Document,
    choice: &LayerChoice,
    feature: &FeatureChoice,
    key: &[u8],
    value: &NewValue,
) -> Result<Change, Refusal>
    ensures { Prepares (SetAttribute (layer_choice_of choice.now) (feature_choice_of feature.now) key.now (new_value_of value.now)) (document_of document.now) result }
{
    let holder = find_layer(document, choice)?;
    let found = find_feature(holder.layer, feature)?;
    let value = encode_value(alloc, value)?;
    let ordinals = look_for(holder.view(), key, value.as_slice());
    let run = run_of_tags(alloc, holder, found, key, ordinals)?;
    let entries = missing_entries(alloc, ordinals, key, value)?;
    if !fits_with(document, holder, found, &run, entries.as_slice()) {
        return Err(Refusal::TooLarge);
    }
    Ok(steps_of(alloc, holder, found.position, run, entries)?)
}

/// A file can hold the tile once the run, if there is one, is carried out on the fields of the
/// feature, and the layer has the entries after its items.
fn fits_with(
    document: &Document,
    holder: FoundLayer<'_>,
    found: FoundFeature<'_>,
    run: &Option<Run<Field>>,
    entries: &[LayerItem],
) -> bool
    requires layer { slice_get (document_of document.now) holder.position ≡ Some (plain.OfLayer (layer_of holder.layer.now)) }
    requires feature { slice_get (layer_of holder.layer.now).items found.position ≡ Some (plain.OfFeature (feature_of found.feature.now)) }
    requires run { IfSome run.now (λ run. run.index + run.take ≤ length (feature_of found.feature.now).fields) }
    ensures { (given : List plain.Field → List plain.Field) → given (feature_of found.entry.feature.now).fields ≡ fields_with (feature_of found.entry.feature.now).fields (option_map (λ run. seen field_of (splice_of run)) run.now) →
        result ≡ not (nat_lt MAX_FILE (length (bytes_of (change_items (λ items. change_at (in_feature given) found.entry.position items ++ map layer_item_of entries.now) holder.entry.position (document_of document.now))))) }
{
    let fields = size_with(found.feature.fields(), run);
    let following = size_of_all(entries, MAX_FILE);
    let items = size_with_fields(holder.layer, found.position, fields, following);
    fits_with_items(document, holder.position, items)
}

/// What becomes of the fields of the feature. It is refused if its tags make no pairs, and if
/// several of them have the key.
fn run_of_tags(
    alloc: Global,
    holder: FoundLayer<'_>,
    found: FoundFeature<'_>,
    key: &[u8],
    ordinals: Ordinals,
) -> Result<Option<Run<Field>>, Refusal>
    requires key { IsSought key.now (keys (layer_of holder.layer.now)) ordinals.key }
    requires values { ordinals.value.count ≡ length (values (layer_of holder.layer.now)) }
    ensures gives { (value : List ℕ) → AreFound key.now value (layer_of holder.entry.layer.now) ordinals →
        IfOk result (λ run. GivesAttribute key.now value (layer_of holder.entry.layer.now).items (feature_of found.entry.feature.now).fields (option_map (λ run. seen field_of (splice_of run)) run)) }
    ensures checked { IfOk result (λ run. attribute_checked key.now holder.entry.ordinal found.entry.ordinal (layer_of holder.entry.layer.now).items (feature_of found.entry.feature.now).fields ≡ Ok tt) }
    ensures refused { IfErr result (λ refusal. (refusal ≡ NoMemory)
        ⊎ (attribute_checked key.now holder.entry.ordinal found.entry.ordinal (layer_of holder.entry.layer.now).items (feature_of found.entry.feature.now).fields ≡ Err refusal)) }
{
    let mut decisions = Vec::new(alloc);
    let count = decide_by_key(alloc, holder, found, key, ordinals, &mut decisions)?;
    let fields = found.feature.fields();
    match count {
        0 => Ok(Some(and_pair(alloc, fields, ordinals.key.ordinal, ordinals.value.ordinal)?)),
        1 => Ok(first_renumbered(alloc, fields, decisions.as_slice())?),
        _ => Err(Refusal::RepeatedKey {
            layer: holder.ordinal,
            feature: found.ordinal,
        }),
    }
}

/// Decides on the numbers of the tags of the feature: in a pair of the key the second becomes that of
/// the value. Returns how many pairs have the key.
fn decide_by_key(
    alloc: Global,
    holder: FoundLayer<'_>,
    found: FoundFeature<'_>,
    key: &[u8],
    ordinals: Ordinals,
    decisions: &mut Vec<Option<u64>>,
) -> Result<usize, Refusal>
    requires { IsSought key.now (keys (layer_of holder.layer.now)) ordinals.key }
    ensures decided { IfOk result (λ count. option_map (revalued (λ ordinal. unwrap_or (slice_get (map (bytes_eq key.now) (keys (layer_of holder.entry.layer.now))) ordinal) false) ordinals.value.ordinal) (plain_pairs (tag_pairs ordinals.key.count ordinals.value.count (numbers 2 (found_feature_seen found.entry).1.1.fields))) ≡ Some decisions.new.items) }
    ensures counted { IfOk result (λ n. option_map (count (λ pair. unwrap_or (slice_get (map (bytes_eq key.now) (keys (layer_of holder.entry.layer.now))) pair.0) false)) (plain_pairs (tag_pairs ordinals.key.count ordinals.value.count (numbers 2 (found_feature_seen found.entry).1.1.fields))) ≡ Some n) }
    ensures refused { IfErr result (λ refusal. (refusal ≡ NoMemory) ⊎ ((refusal ≡ BadTags holder.entry.ordinal found.entry.ordinal) × (plain_pairs (tag_pairs ordinals.key.count ordinals.value.count (numbers 2 (found_feature_seen found.entry).1.1.fields)) ≡ None))) }
{
    let sizes = PoolSizes {
        keys: ordinals.key.count,
        values: ordinals.value.count,
    };
    let named = keys_that_are(alloc, holder.view(), key, ordinals.key)?;
    decide_or_refuse(
        holder.ordinal,
        found,
        sizes,
        named.as_slice(),
        Some(ordinals.value.ordinal),
        decisions,
    )
}

/// The change of the run on the fields of the feature at this position of the layer, and of the
/// entries at the layer's end, if there are any.
fn steps_of(
    alloc: Global,
    holder: FoundLayer<'_>,
    item: usize,
    run: Option<Run<Field>>,
    entries: Vec<LayerItem>,
) -> Result<Change, AllocError>
    ensures { IfOk result (λ change. change_of change ≡
        map (λ s. FeatureStep holder.entry.position item s.index s.taken s.put) (cons_option (option_map (λ run. seen field_of (splice_of run)) run) [])
        ++ appended holder.entry.position (layer_of holder.entry.layer.now).items (map layer_item_of entries.items)) }
{
    let layer = holder.position;
    let mut steps = Vec::new(alloc);
    if let Some(run) = run {
        steps.push(run.in_feature(layer, item))?;
    }
    if !entries.is_empty() {
        steps.push(appended(holder, entries))?;
    }
    Ok(Change::new(steps))
}

/// The step that puts the entries after all items of the layer.
fn appended(holder: FoundLayer<'_>, entries: Vec<LayerItem>) -> Step
    ensures { step_of result ≡ LayerStep holder.entry.position (length (layer_of holder.entry.layer.now).items) 0 (map layer_item_of entries.items) }
{
    Step::InLayer {
        layer: holder.position,
        index: holder.layer.items.len(),
        take: 0,
        put: Put::from_vec(entries),
    }
}
