//! Steps on features of one layer, carried out in one visit to that layer.

ghost use Rattle.std.specs.Prelude.{◌≡◌, ℕ, ◌/◌, ◌<◌, ◌≤◌, length, map, take, is_ok, if◌then◌else◌, is_some, IfOk, OnErr, OnOk};
ghost use Rattle.std.specs.List.{AllByRecursion};
ghost use Rattle.std.specs.Option.{IsSomeAnd};
ghost use Rattle.mvt_document.specs.Stands.{document_of};
ghost use Rattle.mvt_document.specs.HeldPlaces.{change_held_fields, held_fields_at, held_fields_in_at};
ghost use Rattle.mvt_change.specs.Changes.{Fits};
ghost use Rattle.mvt_change.specs.ChangeStands.{step_of};
ghost use Rattle.mvt_change.specs.Room.{KeepsDocument, KeepsField};
ghost use Rattle.mvt_change.specs.HeldChanges.{ExchangesFirst, HasHeldPart, IsTurned, TakesOut, exchanged, go_held_step};
ghost use Rattle.mvt_change.specs.Underway.{Advances, AdvancesIn, FindsFields, FitInLayer, InEach, IsInFeatureOf, IsVisit, item_at, layer_in, steps_made};

use crate::change::Step;
use mvt_document::{Document, Field, LayerItem, Message, Put, change_fields_in};
use std::alloc::AllocError;
use std::slice;

/// Carries out the first steps that are on features of this layer, each on another than the step before, and turns
/// each into the step that leads back. Returns their number, as an `Err` if memory ran out at the next.
pub(crate) fn visit_layer(
    document: &mut Document,
    layer: usize,
    steps: &mut [Step],
) -> Result<usize, usize>
    requires first { AllByRecursion (IsInFeatureOf layer) (take 1 steps.old) }
    requires some { 0 < length steps.old }
    requires fits { Fits (map step_of steps.old) (document_of document.old) }
    ensures some { IfOk result (λ n. 0 < n) }
    ensures visit { IfOk result (λ n. IsVisit layer n steps.old) }
    ensures within { steps_made result ≤ length steps.old }
    ensures made { Advances (steps_made result) steps.old steps.new document.old document.new }
{
    document.change_items(
        layer,
        steps,
        |items, steps|
            requires { FitInLayer layer steps.old items.old }
            ensures { AdvancesIn layer items.old items.new result steps.old steps.new }
        { flip_features(items, layer, steps) },
    )
}

/// The same in the items of the layer. If many of them change, they are measured once, at the end, rather than
/// before and after each step.
fn flip_features(
    items: &mut Message<LayerItem>,
    layer: usize,
    steps: &mut [Step],
) -> Result<usize, usize>
    requires { FitInLayer layer steps.old items.old }
    ensures { AdvancesIn layer items.old items.new result steps.old steps.new }
{
    let few = few_of(steps, layer, items.len());
    let flipped = flip_each(items, layer, few, steps);
    items.measure();
    flipped
}

/// The same, one step after the other. Once `few` steps are made and another follows, the size of the items is given
/// up; if `few` is 0, it never is.
fn flip_each(
    items: &mut Message<LayerItem>,
    layer: usize,
    few: usize,
    steps: &mut [Step],
) -> Result<usize, usize>
    requires { FitInLayer layer steps.old items.old }
    ensures { AdvancesIn layer items.old items.new result steps.old steps.new }
{
    let mut at = 0;
    let mut item = item_of_step(steps, layer, at);
    loop {
        if flip_fields(items, &mut steps[at]).is_err() {
            return Err(at);
        }
        at += 1;
        let next = item_of_step(steps, layer, at);
        if next.is_none() || next == item {
            return Ok(at);
        }
        item = next;
        forget_size_after(items, few, at);
    }
}

/// Which item of this layer the step at a position is on, if there is a step there and it is on a
/// feature of this layer.
fn item_of_step(steps: &[Step], layer: usize, at: usize) -> Option<usize>
    ensures { result ≡ item_at layer steps.now at }
{
    match steps.get(at)? {
        Step::InFeature {
            layer: other,
            item,
            ..
        } if *other == layer => Some(*item),
        _ => None,
    }
}

/// How many steps of a visit to a layer with so many items are few: a sixteenth of the items if the step at the
/// position of half of them is on a feature of the layer, and otherwise all.
fn few_of(steps: &[Step], layer: usize, items: usize) -> usize
    ensures { result ≡ (if is_some (item_at layer steps.now (items / 2)) then items / 16 else length steps.now) }
{
    match item_of_step(steps, layer, items / 2) {
        Some(_) => items / 16,
        None => steps.len(),
    }
}

/// Gives up the size of the items once `few` steps are made, and at no other count.
fn forget_size_after(items: &mut Message<LayerItem>, few: usize, made: usize)
    ensures { items.new ≡ items.old }
{
    if made == few {
        items.forget_size();
    }
}

/// Carries out a step on a feature of the layer with these items, and turns it into the step that leads
/// back.
fn flip_fields(items: &mut Message<LayerItem>, step: &mut Step) -> Result<(), AllocError>
    requires { FindsFields items.old step.old }
    ensures kept { InEach (layer_in step.old) items.old items.new (λ before after. KeepsDocument (if is_ok result then go_held_step step.old before else before) after) }
    ensures turned { InEach (layer_in step.old) items.old items.new (λ before after. OnOk result (IsTurned step.old before step.new)) }
    ensures same { OnErr result (step_of step.new ≡ step_of step.old) }
{
    let Step::InFeature {
        item,
        index,
        take,
        put,
        ..
    } = step
    else {
        unreachable!()
    };
    let given = put.len();
    exchange_fields(items, *item, *index, *take, put)?;
    *take = given;
    Ok(())
}

/// In the feature at position `item` of a layer with these items, `taken` fields from `index`
/// change places with the ones to put.
fn exchange_fields(
    items: &mut Message<LayerItem>,
    item: usize,
    index: usize,
    taken: usize,
    put: &mut Put<Field>,
) -> Result<(), AllocError>
    requires { IsSomeAnd (held_fields_in_at item items.old) (HasHeldPart index taken) }
    ensures kept { (layer : ℕ) → InEach layer items.old items.new (λ before after. KeepsDocument (if is_ok result then change_held_fields (exchanged index taken put.old) layer item before else before) after) }
    ensures given { (layer : ℕ) → InEach layer items.old items.new (λ before after. TakesOut index taken (is_ok result) (held_fields_at layer item before) put.old put.new) }
    ensures same { OnErr result (put.new.items ≡ put.old.items) }
{
    change_fields_in(
        items,
        item,
        slice::from_mut(put),
        |list, put|
            requires { HasHeldPart index taken list.old × (0 < length put.old) }
            ensures { ExchangesFirst KeepsField index taken (is_ok result) list.old list.new put.old put.new }
        { list.exchange(index, taken, &mut put[0]) },
    )
}
