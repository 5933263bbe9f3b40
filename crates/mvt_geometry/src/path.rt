//! The path of one part, at the beginning of numbers.

ghost use Rattle.std.specs.Prelude.{◌≡◌, ℕ, ◌≤◌, List, [], IfOk, IsErrOf};
ghost use Rattle.mvt_geometry.specs.Shapes.{Point as PlainPoint, IsPlaced};
ghost use Rattle.mvt_geometry.specs.Integers.{last_from};
ghost use Rattle.mvt_geometry.specs.Walks.{BeginsWithPart};

use crate::faults::GeometryError;
use crate::shapes::Point;
use crate::steps::{moved, points_from};
use std::alloc::Global;

/// MoveTo, once.
pub(crate) const MOVE_TO_ONE: u32 = 9;

pub(crate) const LINE_TO: u32 = 2;

/// A part whose path numbers begin with.
#[derive(Drop)]
pub(crate) struct Front<'a> {
    pub(crate) points: Vec<Point>,
    /// The last point, from which the next part continues.
    pub(crate) last: Point,
    /// The numbers after the path.
    pub(crate) rest: &'a [u32],
}

/// The part of at least `least` points whose path the numbers begin with.
pub(crate) fn path_at_front(
    alloc: Global,
    least: usize,
    from: Point,
    numbers: &[u32],
) -> Result<Front<'_>, GeometryError>
    requires some { 1 ≤ least }
    requires placed { IsPlaced from }
    ensures found { IfOk result (λ front. BeginsWithPart least [] from numbers.now front.points.items front.rest.now) }
    ensures last { IfOk result (λ front. front.last ≡ last_from from front.points.items) }
    ensures bad { IsErrOf result GeometryError.BadGeometry → (points : List PlainPoint) (rest : List ℕ) → BeginsWithPart least [] from numbers.now points rest → ⊥ }
{
    let [MOVE_TO_ONE, x, y, command, following @ ..] = numbers else {
        return Err(GeometryError::BadGeometry);
    };
    let count = (*command / 8) as usize;
    if *command % 8 != LINE_TO || 1 + count < least || following.len() < 2 * count {
        return Err(GeometryError::BadGeometry);
    }
    let Some(first) = moved(from, *x, *y) else {
        return Err(GeometryError::BadGeometry);
    };
    let (parameters, rest) = following.split_at(2 * count);
    let (points, last) = points_from(alloc, first, parameters)?;
    Ok(Front { points, last, rest })
}
