//! The keys and values of a layer that do not stay, taken out.

ghost use Rattle.std.specs.Prelude.{◌≡◌, ◌+◌, ◌<◌, ◌++◌, ◌∷◌, IfOk, Some, drop, length, map, option_map, slice_get};
ghost use Rattle.mvt_document.specs.Kinds.{in_layer_of_kind, is_entry as is_entry_of};
ghost use Rattle.mvt_document.specs.Runs.{AreRunsOf, IsRunOf};
ghost use Rattle.mvt_document.specs.Stands.{layer_item_of, layer_of};
ghost use Rattle.mvt_change.specs.ChangeStands.{step_of};
ghost use Rattle.mvt_meaning.specs.Compaction.{is_entry};
ghost use Rattle.mvt_edit_pools.specs.Marks.{entry_steps, first_goes, gone_by};

use mvt_change::Step;
use mvt_document::tags::{KEYS, VALUES};
use mvt_document::{BodyRef, Layer, LayerItem, Run, Runs};
use mvt_edit_steps::take_out;
use mvt_select::FoundLayer;
use std::alloc::{AllocError, Global};

/// Appends the steps by which the layer loses its keys and values that do not stay, by a mark for
/// each that does.
pub(crate) fn take_entries(
    alloc: Global,
    found: FoundLayer<'_>,
    keys: &[bool],
    values: &[bool],
    steps: &mut Vec<Step>,
) -> Result<(), AllocError>
    ensures { IfOk result (λ done. map step_of steps.new.items ≡ map step_of steps.old.items ++ entry_steps found.entry.position (gone_by keys.now values.now (layer_of found.entry.layer.now).items)) }
{
    let layer = found.position;
    let gone = gone(alloc, found.layer, keys, values)?;
    take_out(
        alloc,
        gone.as_slice(),
        |run: mvt_edit_steps::Run<LayerItem>| Ok(run.in_layer(layer)),
        steps,
    )?;
    Ok(())
}

/// For each item of the layer, in order, whether it is a key or a value that does not stay, by a mark for each
/// key and each value that does.
fn gone(
    alloc: Global,
    layer: &Layer,
    keys: &[bool],
    values: &[bool],
) -> Result<Vec<bool>, AllocError>
    ensures { IfOk result (λ gone. gone.items ≡ gone_by keys.now values.now (layer_of layer.now).items) }
{
    let items = layer.items.as_slice();
    let runs = layer.items.runs();
    let mut gone = Vec::with_capacity(alloc, items.len())?;
    let mut keys_left = keys;
    let mut values_left = values;
    for index in 0..items.len() {
        let (goes, keys_following, values_following) = item_goes(
            items,
            index,
            &runs,
            keys_left,
            values_left,
        );
        gone.push_reserved(goes);
        keys_left = keys_following;
        values_left = values_following;
    }
    Ok(gone)
}

/// Whether the item at this index is a key or a value that does not stay, by the marks of those from it on,
/// and the marks of the keys and of the values after it.
fn item_goes<'a>(
    items: &[LayerItem],
    index: usize,
    runs: &Runs,
    keys: &'a [bool],
    values: &'a [bool],
) -> (bool, &'a [bool], &'a [bool])
    requires runs { AreRunsOf in_layer_of_kind runs.now items.now }
    requires there { index < length items.now }
    ensures { gone_by keys.now values.now (map layer_item_of (drop index items.now)) ≡ result.0 ∷ gone_by result.1.now result.2.now (map layer_item_of (drop (index + 1) items.now)) }
{
    if is_entry_at(items, index, runs.keys, KEYS) {
        return (first_goes(keys), after_first(keys), values);
    }
    if is_entry_at(items, index, runs.values, VALUES) {
        return (first_goes(values), keys, after_first(values));
    }
    (false, keys, values)
}

/// The item at this index is one of the entries that are LEN fields of this number, where this is the run of the
/// first of them. The item is read only if the run does not show it.
fn is_entry_at(items: &[LayerItem], index: usize, entries: Run, number: u64) -> bool
    requires run { IsRunOf (is_entry_of number) entries items.now }
    requires there { index < length items.now }
    ensures { option_map (λ item. is_entry number (layer_item_of item)) (slice_get items.now index) ≡ Some result }
{
    if index >= entries.until {
        return is_entry(&items[index], number);
    }
    if index < entries.first {
        return false;
    }
    index - entries.first < entries.count
}

/// The item is one of the entries that are LEN fields of this number.
fn is_entry(item: &LayerItem, number: u64) -> bool
    ensures { result ≡ is_entry number (layer_item_of item.now) }
{
    match item {
        LayerItem::Plain(field) => {
            field.number() == number && matches!(field.body(), BodyRef::Bytes { .. })
        }
        LayerItem::Feature(_) => false,
    }
}

/// The first of the marks is there, and its entry does not stay.
fn first_goes(marks: &[bool]) -> bool
    ensures { result ≡ first_goes marks.now }
{
    match marks.first() {
        Some(stays) => !*stays,
        None => false,
    }
}

/// The marks after the first.
fn after_first(marks: &[bool]) -> &[bool]
    ensures { result.now ≡ drop 1 marks.now }
{
    match marks.split_first() {
        Some((_, following)) => following,
        None => marks,
    }
}
