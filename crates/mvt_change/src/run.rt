//! Consecutive steps on one list: as splices of their list, and carried out in one pass.

ghost use Rattle.std.specs.Prelude.{◌≡◌, ◌≢◌, ℕ, ◌<◌, ◌≤◌, ◌↔◌, None, length, map, option_map, take, drop, IfOk, IfSome, IsTrue};
ghost use Rattle.std.specs.List.{AllByRecursion};
ghost use Rattle.mvt_document.specs.Stands.{document_of};
ghost use Rattle.mvt_splices.specs.Splices.{StartElsewhere};
ghost use Rattle.mvt_change.specs.Changes.{Fits, OfTheTile, Place as PlainPlace};
ghost use Rattle.mvt_change.specs.ChangeStands.{action_of, place_of, spliced_place, step_of};
ghost use Rattle.mvt_change.specs.Runs.{IsOn};
ghost use Rattle.mvt_change.specs.Underway.{Advances, IsInFeatureOf, IsVisit, carried_out, item_at, steps_made};

use crate::change::{Place, Step};
use crate::features::visit_layer;
use crate::lists::{run_in_feature, run_in_layer};
use crate::steps::flip_step;
use mvt_document::{Document, Field, LayerItem, TileItem};
use mvt_splices::{Gap, Splices, splice_message};
use std::alloc::{AllocError, Global};

impl Splices<TileItem> for Step {
    type Place = Place;

    ghost use Rattle.mvt_change.specs.Runs.{tile_splice, turned_in_tile, IsOn, IsRoomierStep};
    ghost use Rattle.mvt_change.specs.ChangeStands.{place_of};
    ghost use Rattle.mvt_change.specs.RunLaws.{as_roomy as step_as_roomy, roomy_tile, turned_tile_splice, turned_tile_twice};

    ghost splice_of = { tile_splice };

    ghost turned = { turned_in_tile };

    ghost roomier = { IsRoomierStep };

    ghost on_list = { λ place step. IsOn (place_of place) step };

    fn is_on(&self, place: &Place) -> bool {
        is_in(self, place)
    }

    fn taken(&self) -> usize {
        match self {
            Step::InTile { take, .. } => *take,
            _ => 0,
        }
    }

    fn put(&self) -> &[TileItem] {
        match self {
            Step::InTile { put, .. } => put.as_slice(),
            _ => &[],
        }
    }

    fn reserve(&mut self) -> Result<(), AllocError> {
        match self {
            Step::InTile { take, put, .. } => put.reserve_exact(take.saturating_sub(put.len())),
            _ => Ok(()),
        }
    }

    fn exchange(&mut self, gap: &mut Gap<TileItem>) {
        if let Step::InTile { index, take, put } = self {
            let given = put.len();
            gap.exchange(*index as usize, *take, put);
            *take = given;
        }
    }

    ghost roomy_splice = { roomy_tile };

    ghost as_roomy = { step_as_roomy };

    ghost turned_splice = { turned_tile_splice };

    ghost turned_twice = { turned_tile_twice };
}

impl Splices<LayerItem> for Step {
    type Place = Place;

    ghost use Rattle.mvt_change.specs.Runs.{layer_splice, turned_in_layer, IsOn, IsRoomierStep};
    ghost use Rattle.mvt_change.specs.ChangeStands.{place_of};
    ghost use Rattle.mvt_change.specs.RunLaws.{as_roomy as step_as_roomy, roomy_layer, turned_layer_splice, turned_layer_twice};

    ghost splice_of = { layer_splice };

    ghost turned = { turned_in_layer };

    ghost roomier = { IsRoomierStep };

    ghost on_list = { λ place step. IsOn (place_of place) step };

    fn is_on(&self, place: &Place) -> bool {
        is_in(self, place)
    }

    fn taken(&self) -> usize {
        match self {
            Step::InLayer { take, .. } => *take,
            _ => 0,
        }
    }

    fn put(&self) -> &[LayerItem] {
        match self {
            Step::InLayer { put, .. } => put.as_slice(),
            _ => &[],
        }
    }

    fn reserve(&mut self) -> Result<(), AllocError> {
        match self {
            Step::InLayer { take, put, .. } => put.reserve_exact(take.saturating_sub(put.len())),
            _ => Ok(()),
        }
    }

    fn exchange(&mut self, gap: &mut Gap<LayerItem>) {
        if let Step::InLayer {
            index,
            take,
            put,
            ..
        } = self
        {
            let given = put.len();
            gap.exchange(*index, *take, put);
            *take = given;
        }
    }

    ghost roomy_splice = { roomy_layer };

    ghost as_roomy = { step_as_roomy };

    ghost turned_splice = { turned_layer_splice };

    ghost turned_twice = { turned_layer_twice };
}

impl Splices<Field> for Step {
    type Place = Place;

    ghost use Rattle.mvt_change.specs.Runs.{feature_splice, turned_in_feature, IsOn, IsRoomierStep};
    ghost use Rattle.mvt_change.specs.ChangeStands.{place_of};
    ghost use Rattle.mvt_change.specs.RunLaws.{as_roomy as step_as_roomy, roomy_feature, turned_feature_splice, turned_feature_twice};

    ghost splice_of = { feature_splice };

    ghost turned = { turned_in_feature };

    ghost roomier = { IsRoomierStep };

    ghost on_list = { λ place step. IsOn (place_of place) step };

    fn is_on(&self, place: &Place) -> bool {
        is_in(self, place)
    }

    fn taken(&self) -> usize {
        match self {
            Step::InFeature { take, .. } => *take,
            _ => 0,
        }
    }

    fn put(&self) -> &[Field] {
        match self {
            Step::InFeature { put, .. } => put.as_slice(),
            _ => &[],
        }
    }

    fn reserve(&mut self) -> Result<(), AllocError> {
        match self {
            Step::InFeature { take, put, .. } => put.reserve_exact(take.saturating_sub(put.len())),
            _ => Ok(()),
        }
    }

    fn exchange(&mut self, gap: &mut Gap<Field>) {
        if let Step::InFeature {
            index,
            take,
            put,
            ..
        } = self
        {
            let given = put.len();
            gap.exchange(*index, *take, put);
            *take = given;
        }
    }

    ghost roomy_splice = { roomy_feature };

    ghost as_roomy = { step_as_roomy };

    ghost turned_splice = { turned_feature_splice };

    ghost turned_twice = { turned_feature_twice };
}

/// Whether the step exchanges items of the list at this place.
fn is_in(step: &Step, place: &Place) -> bool
    ensures { IsTrue result ↔ IsOn (place_of place.now) step.now }
{
    match (step, place) {
        (Step::InTile { .. }, Place::Tile) => true,
        (Step::InLayer { layer, .. }, Place::Layer { layer: other }) => layer == other,
        (
            Step::InFeature { layer, item, .. },
            Place::Feature {
                layer: other_layer,
                item: other_item,
            },
        ) => layer == other_layer && item == other_item,
        _ => false,
    }
}

/// The place of the list that the step exchanges items of; none where it moves one.
fn list_of(step: &Step) -> Option<Place>
    ensures { option_map place_of result ≡ spliced_place (action_of step.now) }
{
    match *step {
        Step::InTile { .. } => Some(Place::Tile),
        Step::InLayer { layer, .. } => Some(Place::Layer { layer }),
        Step::InFeature { layer, item, .. } => Some(Place::Feature { layer, item }),
        Step::Move { .. } => None,
    }
}

/// The place of the list that both the first step and the next one exchange items of; none where the
/// first is alone on its list.
fn list_of_run(steps: &[Step]) -> Option<Place>
    ensures some { IfSome result (λ place. AllByRecursion (IsOn (place_of place)) (take 2 steps.now)) }
    ensures two { IfSome result (λ _. 2 ≤ length steps.now) }
    ensures none { result ≡ None → 2 ≤ length steps.now → (place : PlainPlace) → AllByRecursion (IsOn place) (take 2 steps.now) → ⊥ }
{
    let place = list_of(steps.first()?)?;
    if is_in(steps.get(1)?, &place) {
        Some(place)
    } else {
        None
    }
}

/// Carries out the first steps, and turns each into the step that leads back: those on one list in one
/// pass over it, and those on features of one layer in one visit to their layer. Returns their number,
/// as an `Err` if memory ran out: in a visit, or at a step alone, at the next; in a pass, at any of its
/// steps, and the number is 0, since those before it are taken back.
pub(crate) fn flip_first(
    alloc: Global,
    document: &mut Document,
    steps: &mut [Step],
) -> Result<usize, usize>
    requires some { 0 < length steps.old }
    requires fits { Fits (map step_of steps.old) (document_of document.old) }
    ensures some { IfOk result (λ n. 0 < n) }
    ensures run { IfOk result (λ n. (place : PlainPlace) → AllByRecursion (IsOn place) (take 2 steps.old) → StartElsewhere (IsOn place) (drop n steps.old)) }
    ensures visit { IfOk result (λ n. (layer : ℕ) → AllByRecursion (IsInFeatureOf layer) (take 1 steps.old) → item_at layer steps.old 0 ≢ item_at layer steps.old 1 → IsVisit layer n steps.old) }
    ensures within { steps_made result ≤ length steps.old }
    ensures made { Advances (steps_made result) steps.old steps.new document.old document.new }
{
    let Some(place) = list_of_run(steps) else {
        return flip_alone(document, steps);
    };
    match flip_run(alloc, document, place, steps) {
        Ok(made) => Ok(made),
        Err(_) => Err(0),
    }
}

/// Carries out the first steps that are on the list at this place, in one pass over it, and turns each into the step
/// that leads back. Returns their number. An `Err` changes nothing but room.
fn flip_run(
    alloc: Global,
    document: &mut Document,
    place: Place,
    steps: &mut [Step],
) -> Result<usize, AllocError>
    requires some { 0 < length steps.old }
    requires first { AllByRecursion (IsOn (place_of place)) (take 1 steps.old) }
    requires fits { Fits (map step_of steps.old) (document_of document.old) }
    ensures some { IfOk result (λ n. 0 < n) }
    ensures ends { IfOk result (λ n. StartElsewhere (IsOn (place_of place)) (drop n steps.old)) }
    ensures within { carried_out result ≤ length steps.old }
    ensures made { Advances (carried_out result) steps.old steps.new document.old document.new }
{
    match place {
        Place::Tile => run_in_tile(alloc, document, steps),
        Place::Layer { layer } => run_in_layer(alloc, document, layer, steps),
        Place::Feature { layer, item } => run_in_feature(alloc, document, layer, item, steps),
    }
}

/// The same where the first step is alone on its list.
fn flip_alone(document: &mut Document, steps: &mut [Step]) -> Result<usize, usize>
    requires some { 0 < length steps.old }
    requires fits { Fits (map step_of steps.old) (document_of document.old) }
    ensures some { IfOk result (λ n. 0 < n) }
    ensures visit { IfOk result (λ n. (layer : ℕ) → AllByRecursion (IsInFeatureOf layer) (take 1 steps.old) → IsVisit layer n steps.old) }
    ensures within { steps_made result ≤ length steps.old }
    ensures made { Advances (steps_made result) steps.old steps.new document.old document.new }
{
    match steps[0] {
        Step::InFeature { layer, .. } => visit_layer(document, layer, steps),
        _ => flip_one(document, steps),
    }
}

/// Carries out the first step, and no other.
fn flip_one(document: &mut Document, steps: &mut [Step]) -> Result<usize, usize>
    requires some { 0 < length steps.old }
    requires fits { Fits (map step_of steps.old) (document_of document.old) }
    ensures one { IfOk result (λ n. n ≡ 1) }
    ensures within { steps_made result ≤ length steps.old }
    ensures made { Advances (steps_made result) steps.old steps.new document.old document.new }
{
    match flip_step(document, &mut steps[0]) {
        Ok(()) => Ok(1),
        Err(_) => Err(0),
    }
}

/// Carries out the first steps that are on the tile's own list, in one pass over it, and turns each into the step
/// that leads back. Returns their number. An `Err` changes nothing but room.
pub(crate) fn run_in_tile(
    alloc: Global,
    document: &mut Document,
    steps: &mut [Step],
) -> Result<usize, AllocError>
    requires some { 0 < length steps.old }
    requires first { AllByRecursion (IsOn OfTheTile) (take 1 steps.old) }
    requires fits { Fits (map step_of steps.old) (document_of document.old) }
    ensures some { IfOk result (λ n. 0 < n) }
    ensures ends { IfOk result (λ n. StartElsewhere (IsOn OfTheTile) (drop n steps.old)) }
    ensures within { carried_out result ≤ length steps.old }
    ensures made { Advances (carried_out result) steps.old steps.new document.old document.new }
{
    splice_message(alloc, &mut document.items, &Place::Tile, steps)
}
