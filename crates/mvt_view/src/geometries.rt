//! `geometry`: the geometry that the numbers of a feature have.

ghost use Rattle.std.specs.Prelude.{◌≡◌, Some, None, IfOk, is_some};
ghost use Rattle.std.specs.Result.{IsErrOf};
ghost use Rattle.mvt_messages.specs.Numbers.{numbers};
ghost use Rattle.mvt_messages.specs.Seen.{number_seen};
ghost use Rattle.mvt_messages.specs.Views.{kind_of};
ghost use Rattle.mvt_geometry.specs.Shapes.{Geometry as PlainGeometry, kind_number};
ghost use Rattle.mvt_view.specs.FeatureGeometry.{HasFeatureGeometry, integer_in, integers_in};
ghost use Rattle.mvt_layers.specs.Seen.{feature_seen};

use mvt_geometry::{Geometry, GeometryError, Kind, geometry_of};
use mvt_layers::FeatureView;
use mvt_messages::{BadChunk, Number, Numbers};
use std::alloc::Global;

/// The geometry whose numbers the feature has, for its kind. If there is no such kind, or one of the
/// numbers can't be read or has more than 32 bits, no memory is asked for.
pub fn geometry(alloc: Global, feature: &FeatureView) -> Result<Geometry, GeometryError>
    ensures found { IfOk result (HasFeatureGeometry (feature_seen feature.now)) }
    ensures bad { IsErrOf result GeometryError.BadGeometry → (geometry : PlainGeometry) → HasFeatureGeometry (feature_seen feature.now) geometry → ⊥ }
    ensures unreadable { integers_in (numbers 4 (feature_seen feature.now).fields) ≡ None → IsErrOf result GeometryError.BadGeometry }
    ensures no_kind { ((k : Kind) → kind_number k ≡ kind_of (feature_seen feature.now) → ⊥) → IsErrOf result GeometryError.BadGeometry }
{
    let kind = feature.kind();
    if Kind::from_number(kind).is_none() {
        return Err(GeometryError::BadGeometry);
    }
    if !are_integers(feature.geometry_numbers()) {
        return Err(GeometryError::BadGeometry);
    }
    let integers = integers(alloc, feature.geometry_numbers())?;
    geometry_of(alloc, kind, integers.as_slice())
}

/// Whether all the numbers are integers of 32 bits.
fn are_integers(numbers: Numbers<'_>) -> bool
    ensures { result ≡ is_some (integers_in numbers.entry) }
{
    for number in numbers {
        if integer(number).is_none() {
            return false;
        }
    }
    true
}

/// The numbers as integers of 32 bits.
fn integers(alloc: Global, numbers: Numbers<'_>) -> Result<Vec<u32>, GeometryError>
    ensures found { IfOk result (λ integers. integers_in numbers.entry ≡ Some integers.items) }
    ensures bad { IsErrOf result GeometryError.BadGeometry → integers_in numbers.entry ≡ None }
{
    let mut integers = Vec::new(alloc);
    for number in numbers {
        integers.push(integer(number).ok_or(GeometryError::BadGeometry)?)?;
    }
    Ok(integers)
}

/// The integer that a number is, if it has 32 bits.
fn integer(number: Result<Number, BadChunk>) -> Option<u32>
    ensures { result ≡ integer_in (number_seen number) }
{
    match number {
        Ok(number) => u32::try_from(number.varint.value).ok(),
        Err(_) => None,
    }
}
