//! The list at a place of a document: an item of it moves, some items change places with those of a
//! step, or steps are carried out in one pass.

ghost use Rattle.std.specs.Prelude.{◌<◌, ◌≤◌, length, map, take, drop, is_ok, if◌then◌else◌, IfOk};
ghost use Rattle.std.specs.List.{AllByRecursion};
ghost use Rattle.std.specs.Option.{IsSomeAnd};
ghost use Rattle.mvt_document.specs.Stands.{document_of};
ghost use Rattle.mvt_document.specs.HeldPlaces.{change_held_fields, change_held_items, held_fields_at, held_items_at};
ghost use Rattle.mvt_splices.specs.Splices.{CarriesOut, FitRun, StartElsewhere};
ghost use Rattle.mvt_change.specs.Changes.{Fits, OfTheFeature, OfTheLayer};
ghost use Rattle.mvt_change.specs.ChangeStands.{place_of, step_of};
ghost use Rattle.mvt_change.specs.Room.{KeepsDocument, KeepsField, KeepsLayerItem, KeepsList};
ghost use Rattle.mvt_change.specs.HeldLists.{change_held_list, held_list_at};
ghost use Rattle.mvt_change.specs.HeldChanges.{CanMoveHeld, ExchangesFirst, HasHeldPart, TakesOut, exchanged, held_moved};
ghost use Rattle.mvt_change.specs.Runs.{IsOn, IsRoomierStep, feature_splice, layer_splice, turned_in_feature, turned_in_layer};
ghost use Rattle.mvt_change.specs.Underway.{Advances, carried_out};

use crate::change::{Place, Step};
use mvt_document::{Document, Field, LayerItem, Put};
use mvt_splices::{splice_items, splice_message};
use std::alloc::{AllocError, Global};
use std::slice;

/// Moves an item of the list at this place.
pub(crate) fn move_at(document: &mut Document, place: Place, from: usize, to: usize)
    requires { IsSomeAnd (held_list_at (place_of place) document.old) (CanMoveHeld from to) }
    ensures { KeepsDocument (change_held_list (place_of place) (held_moved from to) document.old) document.new }
{
    match place {
        Place::Tile => document.items.move_item(from, to),
        Place::Layer { layer } => move_in_layer(document, layer, from, to),
        Place::Feature { layer, item } => move_in_feature(document, layer, item, from, to),
    }
}

fn move_in_layer(document: &mut Document, layer: usize, from: usize, to: usize)
    requires { IsSomeAnd (held_items_at layer document.old) (CanMoveHeld from to) }
    ensures { KeepsDocument (change_held_items (held_moved from to) layer document.old) document.new }
{
    let none: &mut [()] = &mut [];
    document.change_items(
        layer,
        none,
        |list, _none|
            requires { CanMoveHeld from to list.old }
            ensures { KeepsList KeepsLayerItem (held_moved from to list.old) list.new }
        {
            list.move_item(from, to);
        },
    );
}

fn move_in_feature(document: &mut Document, layer: usize, item: usize, from: usize, to: usize)
    requires { IsSomeAnd (held_fields_at layer item document.old) (CanMoveHeld from to) }
    ensures { KeepsDocument (change_held_fields (held_moved from to) layer item document.old) document.new }
{
    let none: &mut [()] = &mut [];
    document.change_fields(
        layer,
        item,
        none,
        |list, _none|
            requires { CanMoveHeld from to list.old }
            ensures { KeepsList KeepsField (held_moved from to list.old) list.new }
        {
            list.move_item(from, to);
        },
    );
}

/// In the layer at position `layer` of the tile, `taken` items from `index` change places with the
/// ones to put.
pub(crate) fn exchange_in_layer(
    document: &mut Document,
    layer: usize,
    index: usize,
    taken: usize,
    put: &mut Put<LayerItem>,
) -> Result<(), AllocError>
    requires { IsSomeAnd (held_items_at layer document.old) (HasHeldPart index taken) }
    ensures kept { KeepsDocument (if is_ok result then change_held_items (exchanged index taken put.old) layer document.old else document.old) document.new }
    ensures given { TakesOut index taken (is_ok result) (held_items_at layer document.old) put.old put.new }
{
    document.change_items(
        layer,
        slice::from_mut(put),
        |list, put|
            requires { HasHeldPart index taken list.old × (0 < length put.old) }
            ensures { ExchangesFirst KeepsLayerItem index taken (is_ok result) list.old list.new put.old put.new }
        { list.exchange(index, taken, &mut put[0]) },
    )
}

/// In the feature at position `item` of the layer at position `layer` of the tile, `taken` fields
/// from `index` change places with the ones to put.
pub(crate) fn exchange_in_feature(
    document: &mut Document,
    layer: usize,
    item: usize,
    index: usize,
    taken: usize,
    put: &mut Put<Field>,
) -> Result<(), AllocError>
    requires { IsSomeAnd (held_fields_at layer item document.old) (HasHeldPart index taken) }
    ensures kept { KeepsDocument (if is_ok result then change_held_fields (exchanged index taken put.old) layer item document.old else document.old) document.new }
    ensures given { TakesOut index taken (is_ok result) (held_fields_at layer item document.old) put.old put.new }
{
    document.change_fields(
        layer,
        item,
        slice::from_mut(put),
        |list, put|
            requires { HasHeldPart index taken list.old × (0 < length put.old) }
            ensures { ExchangesFirst KeepsField index taken (is_ok result) list.old list.new put.old put.new }
        { list.exchange(index, taken, &mut put[0]) },
    )
}

/// Carries out the first steps that are on the list of the layer at this position, in one pass over
/// it, and turns each into the step that leads back. Returns their number. An `Err` changes nothing
/// but room.
pub(crate) fn run_in_layer(
    alloc: Global,
    document: &mut Document,
    layer: usize,
    steps: &mut [Step],
) -> Result<usize, AllocError>
    requires some { 0 < length steps.old }
    requires first { AllByRecursion (IsOn (OfTheLayer layer)) (take 1 steps.old) }
    requires fits { Fits (map step_of steps.old) (document_of document.old) }
    ensures some { IfOk result (λ n. 0 < n) }
    ensures ends { IfOk result (λ n. StartElsewhere (IsOn (OfTheLayer layer)) (drop n steps.old)) }
    ensures within { carried_out result ≤ length steps.old }
    ensures made { Advances (carried_out result) steps.old steps.new document.old document.new }
{
    document.change_items(
        layer,
        steps,
        |list, steps|
            requires { FitRun (IsOn (OfTheLayer layer)) layer_splice steps.old (length list.old.items) }
            ensures { CarriesOut (IsOn (OfTheLayer layer)) layer_splice turned_in_layer IsRoomierStep result steps.old steps.new list.old list.new }
        { splice_message(alloc, list, &Place::Layer { layer }, steps) },
    )
}

/// Carries out the first steps that are on the fields of the feature at this position of a layer, in
/// one pass over them, and turns each into the step that leads back. Returns their number. An `Err`
/// changes nothing but room.
pub(crate) fn run_in_feature(
    alloc: Global,
    document: &mut Document,
    layer: usize,
    item: usize,
    steps: &mut [Step],
) -> Result<usize, AllocError>
    requires some { 0 < length steps.old }
    requires first { AllByRecursion (IsOn (OfTheFeature layer item)) (take 1 steps.old) }
    requires fits { Fits (map step_of steps.old) (document_of document.old) }
    ensures some { IfOk result (λ n. 0 < n) }
    ensures ends { IfOk result (λ n. StartElsewhere (IsOn (OfTheFeature layer item)) (drop n steps.old)) }
    ensures within { carried_out result ≤ length steps.old }
    ensures made { Advances (carried_out result) steps.old steps.new document.old document.new }
{
    document.change_fields(
        layer,
        item,
        steps,
        |list, steps|
            requires { FitRun (IsOn (OfTheFeature layer item)) feature_splice steps.old (length list.old.items) }
            ensures { CarriesOut (IsOn (OfTheFeature layer item)) feature_splice turned_in_feature IsRoomierStep result steps.old steps.new list.old list.new }
        { splice_items(alloc, list, &Place::Feature { layer, item }, steps) },
    )
}
