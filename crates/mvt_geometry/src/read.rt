//! `geometry_of`: the geometry that numbers have.

ghost use Rattle.std.specs.Prelude.{◌≡◌, ℕ, List, [], ◌∷◌, IfOk, IsErrOf};
ghost use Rattle.mvt_geometry.specs.Shapes.{Point as PlainPoint, Geometry as PlainGeometry, kind_number, least_points, IsPlaced};
ghost use Rattle.mvt_geometry.specs.Integers.{last_from, closing_of, HasGeometry};
ghost use Rattle.mvt_geometry.specs.Walks.{BeginsWithPart, IsDrawn};
ghost use Rattle.mvt_geometry.specs.Stands.{geometry_with};

use crate::faults::GeometryError;
use crate::geometry::Geometry;
use crate::path::{Front, path_at_front};
use crate::shapes::{Kind, ORIGIN, Part, Point};
use crate::steps::{moved, points_from};
use mvt_document::Items;
use std::alloc::Global;

pub(crate) const MOVE_TO: u32 = 1;

/// ClosePath, once.
pub(crate) const CLOSE_PATH: u32 = 15;

/// The geometry of this kind that has these numbers. Memory is reserved for what the numbers
/// hold, and not for what they only announce.
pub fn geometry_of(alloc: Global, kind: u64, numbers: &[u32]) -> Result<Geometry, GeometryError>
    ensures found { IfOk result (HasGeometry kind numbers.now) }
    ensures bad { IsErrOf result GeometryError.BadGeometry → (g : PlainGeometry) → HasGeometry kind numbers.now g → ⊥ }
    ensures no_kind { ((k : Kind) → kind_number k ≡ kind → ⊥) → IsErrOf result GeometryError.BadGeometry }
{
    let Some(kind) = Kind::from_number(kind) else {
        return Err(GeometryError::BadGeometry);
    };
    let parts = match kind {
        Kind::Dots => dots(alloc, numbers)?,
        Kind::Lines | Kind::Areas => paths(alloc, kind, numbers)?,
    };
    Ok(Geometry::of_parts(kind, Items::from_vec(parts)))
}

/// The one part of dots.
fn dots(alloc: Global, numbers: &[u32]) -> Result<Vec<Part>, GeometryError>
    ensures found { IfOk result (λ parts. HasGeometry 1 numbers.now (geometry_with Kind.Dots parts.items)) }
    ensures bad { IsErrOf result GeometryError.BadGeometry → (g : PlainGeometry) → HasGeometry 1 numbers.now g → ⊥ }
{
    let [command, x, y, following @ ..] = numbers else {
        return Err(GeometryError::BadGeometry);
    };
    let count = (*command / 8) as usize;
    if *command % 8 != MOVE_TO || 2 + following.len() != 2 * count {
        return Err(GeometryError::BadGeometry);
    }
    let Some(first) = moved(ORIGIN, *x, *y) else {
        return Err(GeometryError::BadGeometry);
    };
    let (points, _) = points_from(alloc, first, following)?;
    let mut parts = Vec::with_capacity(alloc, 1)?;
    parts.push(Part {
        points: Items::from_vec(points),
    })?;
    Ok(parts)
}

/// Lines, or the rings of areas.
fn paths(alloc: Global, kind: Kind, numbers: &[u32]) -> Result<Vec<Part>, GeometryError>
    requires { IsDrawn kind }
    ensures found { IfOk result (λ parts. HasGeometry (kind_number kind) numbers.now (geometry_with kind parts.items)) }
    ensures bad { IsErrOf result GeometryError.BadGeometry → (g : PlainGeometry) → HasGeometry (kind_number kind) numbers.now g → ⊥ }
{
    if numbers.is_empty() {
        return Err(GeometryError::BadGeometry);
    }
    let mut parts = Vec::new(alloc);
    let mut from = ORIGIN;
    let mut rest = numbers;
    while !rest.is_empty() {
        let Front {
            points,
            last,
            rest: following,
        } = part_at_front(alloc, kind, from, rest)?;
        parts.push(Part {
            points: Items::from_vec(points),
        })?;
        from = last;
        rest = following;
    }
    Ok(parts)
}

/// The part that the numbers begin with: a line, or a ring.
fn part_at_front(
    alloc: Global,
    kind: Kind,
    from: Point,
    numbers: &[u32],
) -> Result<Front<'_>, GeometryError>
    requires drawn { IsDrawn kind }
    requires placed { IsPlaced from }
    ensures found { IfOk result (λ front. BeginsWithPart (least_points kind) (closing_of kind) from numbers.now front.points.items front.rest.now) }
    ensures last { IfOk result (λ front. front.last ≡ last_from from front.points.items) }
    ensures bad { IsErrOf result GeometryError.BadGeometry → (points : List PlainPoint) (rest : List ℕ) → BeginsWithPart (least_points kind) (closing_of kind) from numbers.now points rest → ⊥ }
{
    match kind {
        Kind::Dots | Kind::Lines => path_at_front(alloc, kind.least_points(), from, numbers),
        Kind::Areas => ring_at_front(alloc, from, numbers),
    }
}

/// The ring that the numbers begin with: a path, and a ClosePath after it.
fn ring_at_front(alloc: Global, from: Point, numbers: &[u32]) -> Result<Front<'_>, GeometryError>
    requires { IsPlaced from }
    ensures found { IfOk result (λ front. BeginsWithPart 3 (15 ∷ []) from numbers.now front.points.items front.rest.now) }
    ensures last { IfOk result (λ front. front.last ≡ last_from from front.points.items) }
    ensures bad { IsErrOf result GeometryError.BadGeometry → (points : List PlainPoint) (rest : List ℕ) → BeginsWithPart 3 (15 ∷ []) from numbers.now points rest → ⊥ }
{
    let Front { points, last, rest } = path_at_front(
        alloc,
        Kind::Areas.least_points(),
        from,
        numbers,
    )?;
    let [CLOSE_PATH, rest @ ..] = rest else {
        return Err(GeometryError::BadGeometry);
    };
    Ok(Front { points, last, rest })
}
