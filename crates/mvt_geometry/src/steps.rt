//! The points that parameters lead to.

ghost use Rattle.std.specs.Prelude.{◌≡◌, ◌≤◌, ◌^◌, ℤ, List, unsigned_abs, IfSome, IfNone, IfOk, IsErrOf};
ghost use Rattle.mvt_geometry.specs.Shapes.{Point as PlainPoint, IsPlaced};
ghost use Rattle.mvt_geometry.specs.Integers.{last_from};
ghost use Rattle.mvt_geometry.specs.Walks.{IsStep, IsMove, GoesOn};

use crate::faults::GeometryError;
use crate::shapes::Point;
use crate::valid::MAX_COORDINATE;
use mvt_document::from_zigzag;
use std::alloc::Global;

/// The one parameter that leads too far: the ZigZag of -2^31.
const TOO_FAR: u32 = u32::MAX;

/// The coordinate that the parameter leads to.
fn step(from: i64, parameter: u32) -> Option<i64>
    requires { unsigned_abs from ≤ 2 ^ 62 }
    ensures found { IfSome result (IsStep from parameter) }
    ensures none { IfNone result ((to : ℤ) → IsStep from parameter to → ⊥) }
{
    if parameter == TOO_FAR {
        return None;
    }
    let to = from + from_zigzag(u64::from(parameter));
    if to.unsigned_abs() > MAX_COORDINATE {
        return None;
    }
    Some(to)
}

/// The point that two parameters lead to.
pub(crate) fn moved(from: Point, x: u32, y: u32) -> Option<Point>
    requires { IsPlaced from }
    ensures found { IfSome result (IsMove from x y) }
    ensures none { IfNone result ((to : PlainPoint) → IsMove from x y to → ⊥) }
{
    let x = step(from.x, x)?;
    let y = step(from.y, y)?;
    Some(Point { x, y })
}

/// This point and those that the parameters lead to from it, and the last of them.
pub(crate) fn points_from(
    alloc: Global,
    first: Point,
    parameters: &[u32],
) -> Result<(Vec<Point>, Point), GeometryError>
    requires { IsPlaced first }
    ensures points { IfOk result (λ found. GoesOn first parameters.now found.0.items) }
    ensures last { IfOk result (λ found. found.1 ≡ last_from first found.0.items) }
    ensures bad { IsErrOf result GeometryError.BadGeometry → (points : List PlainPoint) → GoesOn first parameters.now points → ⊥ }
{
    let mut points = Vec::with_capacity(alloc, 1 + parameters.len() / 2)?;
    points.push(first)?;
    let mut last = first;
    let mut rest = parameters;
    while let [x, y, following @ ..] = rest {
        let Some(next) = moved(last, *x, *y) else {
            return Err(GeometryError::BadGeometry);
        };
        points.push(next)?;
        last = next;
        rest = following;
    }
    if !rest.is_empty() {
        return Err(GeometryError::BadGeometry);
    }
    Ok((points, last))
}
