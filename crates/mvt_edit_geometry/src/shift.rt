//! The geometry of a feature moves.

ghost use Rattle.std.specs.Prelude.{◌≡◌, ◌⊎◌, [], ◌∷◌, true, false, IfErr, IfOk, IfSome, drop, is_some, length, map, option_map, slice_get};
ghost use Rattle.std.specs.List.{flat_map};
ghost use Rattle.std.specs.Option.{option_and_then};
ghost use Rattle.std.specs.Result.{result_ok};
ghost use Rattle.mvt_document.specs.Signed.{zigzag};
ghost use Rattle.mvt_document.specs.Stands.{document_of, feature_of, field_of};
ghost use Rattle.mvt_document.specs.Wire.{field_bytes};
ghost use Rattle.mvt_geometry.specs.Checks.{is_delta};
ghost use Rattle.mvt_renumber.specs.Renumbering.{renumber};
ghost use Rattle.mvt_change.specs.Changes.{FeatureStep};
ghost use Rattle.mvt_change.specs.ChangeStands.{step_of};
ghost use Rattle.mvt_change.specs.FileSizes.{IsFileSize};
ghost use Rattle.mvt_meaning.specs.Command.{Shift};
ghost use Rattle.mvt_meaning.specs.CommandStands.{feature_choice_of, layer_choice_of};
ghost use Rattle.mvt_layers.specs.Seen.{feature_seen};
ghost use Rattle.mvt_meaning.specs.Geometries.{can_move, can_move_integers, further, geometry_among, moved_integers, moves};
ghost use Rattle.mvt_meaning.specs.declared.refusal.Refusal.TheVariants.{BadGeometry, NoMemory, OutOfRange};
ghost use Rattle.mvt_edit_steps.specs.Decided.{field_fates};
ghost use Rattle.mvt_edit_steps.specs.Fates.{splices_of};
ghost use Rattle.mvt_edit_steps.specs.Prepared.{Prepares};

use crate::fits::fits_with_fields;
use mvt_change::{Change, Step};
use mvt_document::tags::GEOMETRY;
use mvt_document::{Document, from_zigzag, to_zigzag};
use mvt_edit_steps::renumber_feature;
use mvt_geometry::is_delta;
use mvt_layers::FeatureView;
use mvt_messages::Numbers;
use mvt_select::{FeatureChoice, FoundFeature, LayerChoice, Refusal, find_feature, find_layer};
use mvt_view::{GeometryError, geometry};
use std::alloc::{AllocError, Global};

/// Moves the geometry of the feature by these deltas. Of its integers the first two parameters
/// change, and all else stays as it is spelled.
pub fn shift(
    alloc: Global,
    document: &Document,
    choice: &LayerChoice,
    feature: &FeatureChoice,
    dx: i64,
    dy: i64,
) -> Result<Change, Refusal>
    ensures { Prepares (Shift (layer_choice_of choice.now) (feature_choice_of feature.now) dx dy) (document_of document.now) result }
{
    let holder = find_layer(document, choice)?;
    let found = find_feature(holder.layer, feature)?;
    let decisions = decided(alloc, holder.ordinal, found, dx, dy)?;
    let (steps, fields) = moving(alloc, holder.position, found, &decisions)?;
    if !fits_with_fields(document, holder, found, fields) {
        return Err(Refusal::TooLarge);
    }
    Ok(Change::new(steps))
}

/// What is decided on the first integers of the feature's geometry. It is refused if the feature,
/// which is in the layer of this ordinal, has none, and if the geometry cannot move so far.
fn decided(
    alloc: Global,
    layer: usize,
    found: FoundFeature<'_>,
    dx: i64,
    dy: i64,
) -> Result<[Option<u64>; 3], Refusal>
    ensures drawn { IfOk result (λ decisions. is_some (geometry_among (feature_of found.entry.feature.now).fields) ≡ true) }
    ensures able { IfOk result (λ decisions. can_move dx dy (feature_of found.entry.feature.now).fields ≡ true) }
    ensures decided { IfOk result (λ decisions. decisions ≡ moves dx dy (feature_of found.entry.feature.now).fields) }
    ensures refused { IfErr result (λ refusal. (refusal ≡ NoMemory)
        ⊎ (((refusal ≡ BadGeometry layer found.entry.ordinal) × (is_some (geometry_among (feature_of found.entry.feature.now).fields) ≡ false))
        ⊎ ((refusal ≡ OutOfRange) × (is_some (geometry_among (feature_of found.entry.feature.now).fields) ≡ true) × (can_move dx dy (feature_of found.entry.feature.now).fields ≡ false)))) }
{
    check(alloc, layer, found)?;
    decide(found.view(), dx, dy).ok_or(Refusal::OutOfRange)
}

/// The feature has a geometry. If it has none it is refused, with its ordinal and that of its
/// layer.
fn check(alloc: Global, layer: usize, found: FoundFeature<'_>) -> Result<(), Refusal>
    ensures drawn { IfOk result (λ ok. is_some (geometry_among (feature_of found.entry.feature.now).fields) ≡ true) }
    ensures refused { IfErr result (λ refusal. (refusal ≡ NoMemory)
        ⊎ ((refusal ≡ BadGeometry layer found.entry.ordinal) × (is_some (geometry_among (feature_of found.entry.feature.now).fields) ≡ false))) }
{
    match geometry(alloc, &found.view()) {
        Ok(_) => Ok(()),
        Err(GeometryError::BadGeometry) => Err(Refusal::BadGeometry {
            layer,
            feature: found.ordinal,
        }),
        Err(GeometryError::NoMemory) => Err(Refusal::NoMemory),
    }
}

/// What is decided on the first integers of the feature's geometry: the command stays, and the two
/// parameters lead further. None if one of them cannot.
fn decide(feature: FeatureView<'_>, dx: i64, dy: i64) -> Option<[Option<u64>; 3]>
    requires { is_some (geometry_among (feature_seen feature).fields) ≡ true }
    ensures decided { IfSome result (λ decisions. decisions ≡ moves dx dy (feature_seen feature.entry).fields) }
    ensures able { is_some result ≡ can_move dx dy (feature_seen feature.entry).fields }
{
    let mut numbers = feature.geometry_numbers();
    let command = next_value(&mut numbers)?;
    let x = next_value(&mut numbers)?;
    let y = next_value(&mut numbers)?;
    moved(command, x, y, dx, dy)
}

/// What is decided on a command and its parameters: it stays, and they lead further, if they can.
fn moved(command: u64, x: u64, y: u64, dx: i64, dy: i64) -> Option<[Option<u64>; 3]>
    ensures decided { IfSome result (λ decisions. decisions ≡ moved_integers dx dy (command ∷ x ∷ y ∷ [])) }
    ensures able { is_some result ≡ can_move_integers dx dy (command ∷ x ∷ y ∷ []) }
{
    Some([Some(command), Some(further(x, dx)?), Some(further(y, dy)?)])
}

/// The value of the next number, if there is one.
fn next_value(numbers: &mut Numbers<'_>) -> Option<u64>
    ensures value { result ≡ option_map (λ p. p.number.value) (option_and_then result_ok (slice_get numbers.old 0)) }
    ensures following { numbers.new ≡ drop 1 numbers.old }
{
    match numbers.next()? {
        Ok(number) => Some(number.varint.value),
        Err(_) => None,
    }
}

/// The parameter that holds the delta of this one plus `more`, if one can hold it.
fn further(parameter: u64, more: i64) -> Option<u64>
    ensures held { is_some result ≡ is_delta (further more parameter) }
    ensures holds { IfSome result (λ made. made ≡ zigzag (further more parameter)) }
{
    let delta = from_zigzag(parameter).checked_add(more)?;
    if is_delta(delta) {
        Some(to_zigzag(delta))
    } else {
        None
    }
}

/// The steps by which the integers of the feature, in the layer at this position, become what is
/// decided on them, and how many bytes the fields take then, if that is within the limit of a file.
fn moving(
    alloc: Global,
    layer: usize,
    found: FoundFeature<'_>,
    decisions: &[Option<u64>],
) -> Result<(Vec<Step>, Option<usize>), AllocError>
    ensures steps { IfOk result (λ made. map step_of made.0.items ≡ map (λ s. FeatureStep layer found.entry.position s.index s.taken s.put) (splices_of (field_fates 4 decisions.now (feature_of found.entry.feature.now).fields))) }
    ensures size { IfOk result (λ made. IsFileSize made.1 (length (flat_map field_bytes (renumber 4 decisions.now (feature_of found.entry.feature.now).fields)))) }
{
    let mut steps = Vec::new(alloc);
    let size = renumber_feature(
        alloc,
        layer,
        found,
        GEOMETRY,
        decisions,
        &mut steps,
        Some(0),
    )?;
    Ok((steps, size))
}
