//! Which parts are those of a geometry.

ghost use Rattle.std.specs.Prelude.{◌↔◌, IsTrue};
ghost use Rattle.std.specs.List.{AllByRecursion};
ghost use Rattle.mvt_geometry.specs.Shapes.{IsGeometry, IsPart, IsPartCount, IsPlaced};
ghost use Rattle.mvt_geometry.specs.Stands.{points_of, geometry_with};

use crate::shapes::{Kind, Part, Point};

/// How far a coordinate may be from 0.
pub(crate) const MAX_COORDINATE: u64 = 0x4000_0000_0000_0000;

pub(crate) fn is_geometry(kind: Kind, parts: &[Part]) -> bool
    ensures { IsTrue result ↔ IsGeometry (geometry_with kind parts.now) }
{
    is_part_count(kind, parts.len()) && are_parts(kind, parts)
}

fn is_part_count(kind: Kind, count: usize) -> bool
    ensures { IsTrue result ↔ IsPartCount kind count }
{
    match kind {
        Kind::Dots => count == 1,
        Kind::Lines | Kind::Areas => count >= 1,
    }
}

fn are_parts(kind: Kind, parts: &[Part]) -> bool
    ensures { IsTrue result ↔ AllByRecursion (λ part. IsPart kind (points_of part)) parts.now }
{
    parts
        .iter()
        .all(|part| is_part(kind, part.points.as_slice()))
}

fn is_part(kind: Kind, points: &[Point]) -> bool
    ensures { IsTrue result ↔ IsPart kind points.now }
{
    points.len() >= kind.least_points() && are_placed(points)
}

fn are_placed(points: &[Point]) -> bool
    ensures { IsTrue result ↔ AllByRecursion IsPlaced points.now }
{
    points.iter().all(|point| is_placed(*point))
}

fn is_placed(point: Point) -> bool
    ensures { IsTrue result ↔ IsPlaced point }
{
    point.x.unsigned_abs() <= MAX_COORDINATE && point.y.unsigned_abs() <= MAX_COORDINATE
}
