//! Geometries, each as the word of its kind and its points.

ghost use Rattle.std.specs.Prelude.{◌≡◌, ◌++◌, map, OnErr, OnOk};
ghost use Rattle.std.specs.List.{flat_map};
ghost use Rattle.mvt_geometry.specs.Stands.{points_of};
ghost use Rattle.tile_text.specs.Extends.{Extends};
ghost use Rattle.tile_text.specs.Texts.{point_form, part_words, geometry_form};
ghost use Rattle.tile_text.specs.TextStands.{with_leading_spaces, other_part};

use crate::numbers::put_signed_decimal;
use mvt_geometry::{Geometry, Part, Point};
use std::alloc::AllocError;
use tile_arguments::kind_word;

/// Adds the word of the kind to the line, and the points after it.
pub fn put_geometry(line: &mut Vec<u8>, geometry: &Geometry) -> Result<(), AllocError>
    ensures ok { OnOk result (line.new.items ≡ line.old.items ++ geometry_form geometry.now) }
    ensures kept { Extends line.old.items line.new.items }
    ensures err { OnErr result (Extends line.new.items (line.old.items ++ geometry_form geometry.now)) }
{
    line.extend_from_slice(kind_word(geometry.kind()))?;
    put_parts(line, geometry.parts())
}

/// Adds the points of all parts, and what separates the parts.
fn put_parts(line: &mut Vec<u8>, parts: &[Part]) -> Result<(), AllocError>
    ensures ok { OnOk result (line.new.items ≡ line.old.items ++ with_leading_spaces (part_words (map points_of parts.now))) }
    ensures kept { Extends line.old.items line.new.items }
    ensures err { OnErr result (Extends line.new.items (line.old.items ++ with_leading_spaces (part_words (map points_of parts.now)))) }
{
    match parts {
        [] => Ok(()),
        [first, others @ ..] => {
            put_points(line, first.points.as_slice())?;
            put_other_parts(line, others)
        }
    }
}

/// Adds a separator before each part, and its points.
fn put_other_parts(line: &mut Vec<u8>, parts: &[Part]) -> Result<(), AllocError>
    ensures ok { OnOk result (line.new.items ≡ line.old.items ++ flat_map (λ part. other_part (points_of part)) parts.now) }
    ensures kept { Extends line.old.items line.new.items }
    ensures err { OnErr result (Extends line.new.items (line.old.items ++ flat_map (λ part. other_part (points_of part)) parts.now)) }
{
    for part in parts {
        put_other_part(line, part)?;
    }
    Ok(())
}

fn put_other_part(line: &mut Vec<u8>, part: &Part) -> Result<(), AllocError>
    ensures ok { OnOk result (line.new.items ≡ line.old.items ++ other_part (points_of part.now)) }
    ensures kept { Extends line.old.items line.new.items }
    ensures err { OnErr result (Extends line.new.items (line.old.items ++ other_part (points_of part.now))) }
{
    line.extend_from_slice(b" /")?;
    put_points(line, part.points.as_slice())
}

/// Adds a space before each point, and the point.
fn put_points(line: &mut Vec<u8>, points: &[Point]) -> Result<(), AllocError>
    ensures ok { OnOk result (line.new.items ≡ line.old.items ++ with_leading_spaces (map point_form points.now)) }
    ensures kept { Extends line.old.items line.new.items }
    ensures err { OnErr result (Extends line.new.items (line.old.items ++ with_leading_spaces (map point_form points.now))) }
{
    for point in points {
        line.push(b' ')?;
        put_point(line, *point)?;
    }
    Ok(())
}

fn put_point(line: &mut Vec<u8>, point: Point) -> Result<(), AllocError>
    ensures ok { OnOk result (line.new.items ≡ line.old.items ++ point_form point) }
    ensures kept { Extends line.old.items line.new.items }
    ensures err { OnErr result (Extends line.new.items (line.old.items ++ point_form point)) }
{
    put_signed_decimal(line, point.x)?;
    line.push(b',')?;
    put_signed_decimal(line, point.y)
}
