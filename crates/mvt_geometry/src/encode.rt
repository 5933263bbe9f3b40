//! `encode_geometry`: the bytes of a geometry, in one pass over its points.

ghost use Rattle.std.specs.Prelude.{◌≡◌, ◌+◌, ◌*◌, ◌^◌, ◌<◌, ◌≤◌, ◌-ℤ◌, [], ◌∷◌, ◌++◌, length, IfOk, OnOk, IsErrOf};
ghost use Rattle.std.specs.List.{AllByRecursion};
ghost use Rattle.mvt_document.specs.Signed.{zigzag};
ghost use Rattle.mvt_document.specs.Wire.{shortest};
ghost use Rattle.mvt_geometry.specs.Checks.{is_delta};
ghost use Rattle.mvt_geometry.specs.Integers.{deltas, parameters, last_from, IsDelta, IsInRange, packed, encoded};
ghost use Rattle.mvt_geometry.specs.Walks.{integers_of_part, IsPartInRange};

use crate::faults::EncodeError;
use crate::geometry::Geometry;
use crate::path::{LINE_TO, MOVE_TO_ONE};
use crate::read::{CLOSE_PATH, MOVE_TO};
use crate::shapes::{Kind, ORIGIN, Point};
use mvt_document::{Items, Varint, to_zigzag};
use std::alloc::{AllocError, Global};

/// How often a command may be carried out.
const MAX_COUNT: usize = 0x1fff_ffff;

/// How far from zero a delta may be.
const MAX_DELTA: u64 = 0x7fff_ffff;

/// The bytes of the geometry: its integers packed, each in its shortest spelling.
pub fn encode_geometry(alloc: Global, geometry: &Geometry) -> Result<Items<u8>, EncodeError>
    ensures bytes { IfOk result (λ bytes. bytes.items ≡ encoded geometry.now) }
    ensures in_range { OnOk result (IsInRange geometry.now) }
    ensures out_of_range { IsErrOf result EncodeError.OutOfRange → ¬ IsInRange geometry.now }
{
    let kind = geometry.kind();
    let mut bytes = Vec::new(alloc);
    let mut from = ORIGIN;
    for part in geometry.parts() {
        from = put_part(&mut bytes, kind, from, part.points.as_slice())?;
    }
    Ok(Items::from_vec(bytes))
}

/// Adds the integers of a part, and returns its last point.
fn put_part(
    bytes: &mut Vec<u8>,
    kind: Kind,
    from: Point,
    points: &[Point],
) -> Result<Point, EncodeError>
    requires { 1 ≤ length points.now }
    ensures bytes { OnOk result (bytes.new.items ≡ bytes.old.items ++ packed (integers_of_part kind from points.now)) }
    ensures in_range { OnOk result (IsPartInRange kind from points.now) }
    ensures last { IfOk result (λ last. last ≡ last_from from points.now) }
    ensures out_of_range { IsErrOf result EncodeError.OutOfRange → ¬ IsPartInRange kind from points.now }
{
    match kind {
        Kind::Dots => put_dots(bytes, from, points),
        Kind::Lines => put_path(bytes, from, points),
        Kind::Areas => {
            let last = put_path(bytes, from, points)?;
            put_integer(bytes, u64::from(CLOSE_PATH))?;
            Ok(last)
        }
    }
}

fn put_dots(bytes: &mut Vec<u8>, from: Point, points: &[Point]) -> Result<Point, EncodeError>
    ensures bytes { OnOk result (bytes.new.items ≡ bytes.old.items ++ packed (integers_of_part Kind.Dots from points.now)) }
    ensures in_range { OnOk result (IsPartInRange Kind.Dots from points.now) }
    ensures last { IfOk result (λ last. last ≡ last_from from points.now) }
    ensures out_of_range { IsErrOf result EncodeError.OutOfRange → ¬ IsPartInRange Kind.Dots from points.now }
{
    put_command(bytes, MOVE_TO, points.len())?;
    put_points(bytes, from, points)
}

/// Adds the path of a part, without what closes it.
fn put_path(bytes: &mut Vec<u8>, from: Point, points: &[Point]) -> Result<Point, EncodeError>
    requires { 1 ≤ length points.now }
    ensures bytes { OnOk result (bytes.new.items ≡ bytes.old.items ++ packed (integers_of_part Kind.Lines from points.now)) }
    ensures in_range { OnOk result (IsPartInRange Kind.Lines from points.now) }
    ensures last { IfOk result (λ last. last ≡ last_from from points.now) }
    ensures out_of_range { IsErrOf result EncodeError.OutOfRange → ¬ IsPartInRange Kind.Lines from points.now }
{
    put_integer(bytes, u64::from(MOVE_TO_ONE))?;
    let first = points[0];
    put_move(bytes, from, first)?;
    put_command(bytes, LINE_TO, points.len() - 1)?;
    put_points(bytes, first, &points[1..])
}

/// Adds the deltas to the points, from this one on, and returns the last point. Each point has two,
/// and each delta takes at least one byte.
fn put_points(bytes: &mut Vec<u8>, from: Point, points: &[Point]) -> Result<Point, EncodeError>
    ensures bytes { OnOk result (bytes.new.items ≡ bytes.old.items ++ packed (parameters from points.now)) }
    ensures short { OnOk result (AllByRecursion IsDelta (deltas from points.now)) }
    ensures last { IfOk result (λ last. last ≡ last_from from points.now) }
    ensures out_of_range { IsErrOf result EncodeError.OutOfRange → ¬ AllByRecursion IsDelta (deltas from points.now) }
{
    bytes.reserve(points.len().saturating_mul(2))?;
    let mut last = from;
    for point in points {
        put_move(bytes, last, *point)?;
        last = *point;
    }
    Ok(last)
}

/// Adds the deltas from one point to another.
fn put_move(bytes: &mut Vec<u8>, from: Point, to: Point) -> Result<(), EncodeError>
    ensures bytes { OnOk result (bytes.new.items ≡ bytes.old.items ++ packed (parameters from (to ∷ []))) }
    ensures short { OnOk result (AllByRecursion IsDelta (deltas from (to ∷ []))) }
    ensures out_of_range { IsErrOf result EncodeError.OutOfRange → ¬ AllByRecursion IsDelta (deltas from (to ∷ [])) }
{
    put_delta(bytes, from.x, to.x)?;
    put_delta(bytes, from.y, to.y)
}

/// Adds the delta from one coordinate to another.
fn put_delta(bytes: &mut Vec<u8>, from: i64, to: i64) -> Result<(), EncodeError>
    ensures bytes { OnOk result (bytes.new.items ≡ bytes.old.items ++ shortest (zigzag (to -ℤ from))) }
    ensures short { OnOk result (IsDelta (to -ℤ from)) }
    ensures out_of_range { IsErrOf result EncodeError.OutOfRange → ¬ IsDelta (to -ℤ from) }
{
    let Some(delta) = to.checked_sub(from) else {
        return Err(EncodeError::OutOfRange);
    };
    if !is_delta(delta) {
        return Err(EncodeError::OutOfRange);
    }
    put_integer(bytes, to_zigzag(delta))?;
    Ok(())
}

/// Whether an integer of 32 bits can hold the delta from one coordinate to another: it is from
/// -(2^31 - 1) to 2^31 - 1.
pub fn is_delta(delta: i64) -> bool
    ensures { result ≡ is_delta delta }
{
    delta.unsigned_abs() <= MAX_DELTA
}

/// Adds a command that is carried out this many times.
fn put_command(bytes: &mut Vec<u8>, id: u32, count: usize) -> Result<(), EncodeError>
    requires { id < 8 }
    ensures bytes { OnOk result (bytes.new.items ≡ bytes.old.items ++ shortest (id + 8 * count)) }
    ensures short { OnOk result (count < 2 ^ 29) }
    ensures out_of_range { IsErrOf result EncodeError.OutOfRange → ¬ (count < 2 ^ 29) }
{
    if count > MAX_COUNT {
        return Err(EncodeError::OutOfRange);
    }
    put_integer(bytes, u64::from(id) + 8 * count as u64)?;
    Ok(())
}

/// Adds an integer in its shortest spelling.
fn put_integer(bytes: &mut Vec<u8>, integer: u64) -> Result<(), AllocError>
    ensures { OnOk result (bytes.new.items ≡ bytes.old.items ++ shortest integer) }
{
    Varint::minimal(integer).put(bytes)
}
