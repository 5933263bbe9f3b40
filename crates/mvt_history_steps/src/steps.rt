//! The directions in which a session goes. Changes that are carried out from one list and kept in
//! another, one or many; a new change that is kept; those of an open step that are taken back.

ghost use Rattle.std.specs.Prelude.{◌≡◌, ◌+◌, ◌-◌, ◌<◌, ◌≤◌, [], ◌∷◌, map, length, drop, take, is_ok, IfErr, OnOk, OnErr, IfOk, if◌then◌else◌};
ghost use Rattle.circular_buffer.specs.Buffer.{buffer};
ghost use Rattle.mvt_document.specs.Stands.{document_of};
ghost use Rattle.mvt_change.specs.ChangeStands.{change_of};
ghost use Rattle.mvt_change.specs.Joining.{FitAlong, go_along};
ghost use Rattle.mvt_history_steps.specs.declared.TheConstants.{MAX_DEPTH};
ghost use Rattle.mvt_history_steps.specs.Held.{from_last, mark_of};
ghost use Rattle.mvt_history_steps.specs.Marks.{between, counted_from};
ghost use Rattle.mvt_history_steps.specs.Moves.{LeadsAlong, Track, stepped, taken_of, walked};

use crate::marks::{Mark, keep_between};
use circular_buffer::HeapCircularBuffer;
use mvt_change::{Change, flip};
use mvt_document::Document;
use std::alloc::{AllocError, Global};

/// The two directions along a history.
#[derive(Clone, Copy)]
pub enum Direction {
    Undo,
    Redo,
}

/// In which direction one point is from another, and by how many steps.
pub fn way(from: usize, to: usize) -> (Direction, usize)
    ensures { LeadsAlong result.0 result.1 from to }
{
    if to < from {
        (Direction::Undo, from - to)
    } else {
        (Direction::Redo, to - from)
    }
}

/// Keeps the change for undo, and no change for redo any longer. If undo has no room for one more,
/// the oldest goes. The marks whose points are still reached stay.
pub fn keep(
    undo: &mut HeapCircularBuffer<Change>,
    redo: &mut HeapCircularBuffer<Change>,
    marks: &mut Vec<Mark>,
    change: Change,
)
    requires { (1 ≤ undo.old.capacity) × (undo.old.capacity ≤ MAX_DEPTH) × (length undo.old.items ≤ undo.old.capacity) }
    ensures undo { from_last undo.new.items ≡ take undo.old.capacity (change_of change ∷ from_last undo.old.items) }
    ensures redo { redo.new ≡ buffer [] redo.old.capacity }
    ensures capacity { undo.new.capacity ≡ undo.old.capacity }
    ensures marks { let gone = length undo.old.items + 1 - undo.old.capacity in
        map (counted_from gone) (map mark_of marks.new.items) ≡ between gone (length undo.old.items) (map mark_of marks.old.items) }
{
    let present = undo.len() as u32;
    let gone = u32::from(undo.is_full());
    undo.push_back(change);
    redo.clear();
    keep_between(marks, gone, present);
}

/// Carries out the last change of one list, if there is one, and appends what leads back to the
/// other. An `Err` changes nothing.
fn step(
    alloc: Global,
    document: &mut Document,
    from: &mut HeapCircularBuffer<Change>,
    to: &mut HeapCircularBuffer<Change>,
) -> Result<(), AllocError>
    requires fits { FitAlong (from_last from.old.items) (document_of document.old) }
    requires room { length to.old.items < to.old.capacity }
    ensures capacities { (from.new.capacity ≡ from.old.capacity) × (to.new.capacity ≡ to.old.capacity) }
    ensures walk { let before : Track = record { document = document_of document.old; ahead = from_last from.old.items; behind = from_last to.old.items } in
        let after : Track = record { document = document_of document.new; ahead = from_last from.new.items; behind = from_last to.new.items } in
        after ≡ (if is_ok result then stepped before else before) }
{
    let count = from.len();
    if count == 0 {
        return Ok(());
    }
    if let Some(change) = from.get_mut(count - 1) {
        flip(alloc, document, change)?;
    }
    if let Some(change) = from.pop_back() {
        to.push_back(change);
    }
    Ok(())
}

/// Makes `count` of these steps. An `Err` says how many were made; these stand.
pub fn walk(
    alloc: Global,
    document: &mut Document,
    from: &mut HeapCircularBuffer<Change>,
    to: &mut HeapCircularBuffer<Change>,
    count: usize,
) -> Result<(), usize>
    requires fits { FitAlong (from_last from.old.items) (document_of document.old) }
    requires enough { count ≤ length from.old.items }
    requires room { length to.old.items + count ≤ to.old.capacity }
    ensures capacities { (from.new.capacity ≡ from.old.capacity) × (to.new.capacity ≡ to.old.capacity) }
    ensures ok { let before : Track = record { document = document_of document.old; ahead = from_last from.old.items; behind = from_last to.old.items } in
        let after : Track = record { document = document_of document.new; ahead = from_last from.new.items; behind = from_last to.new.items } in
        OnOk result (after ≡ walked count before) }
    ensures err { let before : Track = record { document = document_of document.old; ahead = from_last from.old.items; behind = from_last to.old.items } in
        let after : Track = record { document = document_of document.new; ahead = from_last from.new.items; behind = from_last to.new.items } in
        IfErr result (λ taken. (taken < count) × (after ≡ walked taken before)) }
{
    for taken in 0..count {
        if step(alloc, document, from, to).is_err() {
            return Err(taken);
        }
    }
    Ok(())
}

/// Carries the changes out, the last one first, and drops them. An `Err` says how many were carried
/// out; the others are left.
pub fn take_back(
    alloc: Global,
    document: &mut Document,
    changes: &mut Vec<Change>,
) -> Result<(), usize>
    requires { FitAlong (from_last changes.old.items) (document_of document.old) }
    ensures document { document_of document.new ≡ go_along (take (taken_of result (length changes.old.items)) (from_last changes.old.items)) (document_of document.old) }
    ensures changes { from_last changes.new.items ≡ drop (taken_of result (length changes.old.items)) (from_last changes.old.items) }
    ensures err { IfErr result (λ taken. taken < length changes.old.items) }
{
    let count = changes.len();
    for taken in 0..count {
        if let Some(change) = changes.last_mut() {
            if flip(alloc, document, change).is_err() {
                return Err(taken);
            }
        }
        changes.pop();
    }
    Ok(())
}
