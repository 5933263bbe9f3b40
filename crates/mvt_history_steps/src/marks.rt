//! Names of points, in the order of the bytes of the names: looked up, bound, removed, and those
//! that stay.

ghost use Rattle.std.specs.Prelude.{◌≡◌, ◌↔◌, map, is_ok, None, IsSome, IsErr, if◌then◌else◌};
ghost use Rattle.mvt_history_steps.specs.Held.{mark_of};
ghost use Rattle.mvt_history_steps.specs.Marks.{InOrder, IsPlaceOf, between, bound, counted_from, point_of, unbound};

use std::alloc::{AllocError, Global};

/// A name, and the point that it marks, counted from the lowest one to which undo goes back.
#[derive(Drop)]
pub struct Mark {
    pub name: Vec<u8>,
    pub point: u32,
}

/// Where the mark with the name is, or where it belongs.
fn place_of(marks: &[Mark], name: &[u8]) -> Result<usize, usize>
    requires { InOrder (map mark_of marks.now) }
    ensures { IsPlaceOf name.now (map mark_of marks.now) result }
{
    marks.binary_search_by(|mark| mark.name.as_slice().cmp(name))
}

/// The point of the mark with the name.
pub fn find_point(marks: &[Mark], name: &[u8]) -> Option<u32>
    requires { InOrder (map mark_of marks.now) }
    ensures { result ≡ point_of name.now (map mark_of marks.now) }
{
    let place = place_of(marks, name).ok()?;
    Some(marks[place].point)
}

/// Makes the name mark the point. An `Err` changes nothing.
pub fn bind(alloc: Global, marks: &mut Vec<Mark>, name: &[u8], point: u32) -> Result<(), AllocError>
    requires { InOrder (map mark_of marks.old.items) }
    ensures marks { map mark_of marks.new.items ≡ (if is_ok result then bound name.now point (map mark_of marks.old.items) else map mark_of marks.old.items) }
    ensures no_memory { IsErr result → point_of name.now (map mark_of marks.old.items) ≡ None }
{
    match place_of(marks.as_slice(), name) {
        Ok(place) => marks[place].point = point,
        Err(place) => {
            let name = Vec::from_slice(alloc, name)?;
            marks.insert(place, Mark { name, point })?;
        },
    }
    Ok(())
}

/// Makes the name mark nothing. `None` if it marked nothing before.
pub fn unbind(marks: &mut Vec<Mark>, name: &[u8]) -> Option<()>
    requires { InOrder (map mark_of marks.old.items) }
    ensures there { IsSome result ↔ IsSome (point_of name.now (map mark_of marks.old.items)) }
    ensures marks { map mark_of marks.new.items ≡ unbound name.now (map mark_of marks.old.items) }
{
    let place = place_of(marks.as_slice(), name).ok()?;
    marks.remove(place);
    Some(())
}

/// Keeps the marks of the points from one to another, and counts the points from the first of them.
pub(crate) fn keep_between(marks: &mut Vec<Mark>, low: u32, high: u32)
    ensures { map (counted_from low) (map mark_of marks.new.items) ≡ between low high (map mark_of marks.old.items) }
{
    marks.retain(|mark| low <= mark.point && mark.point <= high);
    for mark in marks.iter_mut() {
        mark.point -= low;
    }
}
