//! `join`: a list of changes made into one, from the last to the first; their steps move, and the
//! room is made by growing once.

ghost use Rattle.std.specs.Prelude.{◌≡◌, ◌≤◌, [], ◌++◌, false, length, map, reverse, vec_len, IsOk, IfOk, OnOk, OnErr};
ghost use Rattle.mvt_change.specs.ChangeStands.{change_of};
ghost use Rattle.mvt_change.specs.Joining.{joined};

use crate::change::Change;
use std::alloc::{AllocError, Global};

/// Makes one change of all of them, the last one first, and leaves none in the list. No step is
/// copied. Memory is asked for at most once, while all is still in its place: room in the last
/// change for what the others have. An `Err` changes nothing but room.
pub fn join(alloc: Global, changes: &mut Vec<Change>) -> Result<Change, AllocError>
    ensures ok { IfOk result (λ change. change_of change ≡ joined (reverse (map change_of changes.old.items))) }
    ensures emptied { OnOk result (changes.new.items ≡ []) }
    ensures err { OnErr result (map change_of changes.new.items ≡ map change_of changes.old.items) }
    ensures succeeds { vec_len changes.old ≤ 1 → IsOk result }
{
    let Some(mut last) = changes.pop() else {
        return Ok(Change::new(Vec::new(alloc)));
    };
    last.in_order();
    if let Err(error) = reserve_for(&mut last, changes.as_slice()) {
        changes.push_reserved(last);
        return Err(error);
    }
    append_all(&mut last, changes);
    Ok(last)
}

/// Makes room in a change for the steps of others.
fn reserve_for(change: &mut Change, others: &[Change]) -> Result<(), AllocError>
    ensures change { change_of change.new ≡ change_of change.old }
    ensures order { change.new.backwards ≡ change.old.backwards }
    ensures ok { OnOk result (length (joined (map change_of others.now)) ≤ change.new.steps.room) }
    ensures succeeds { length others.now ≡ 0 → IsOk result }
{
    let mut count = 0usize;
    for other in others {
        count = count.checked_add(other.steps.len()).ok_or(AllocError)?;
    }
    change.steps.reserve_exact(count)
}

/// Moves the steps of the last of the others to the end of a change that has room for them, then
/// those of the one before it, and so on.
fn append_all(change: &mut Change, others: &mut Vec<Change>)
    requires room { length (joined (map change_of others.old.items)) ≤ change.old.steps.room }
    requires order { change.old.backwards ≡ false }
    ensures change { change_of change.new ≡ change_of change.old ++ joined (reverse (map change_of others.old.items)) }
    ensures emptied { others.new.items ≡ [] }
{
    while let Some(mut other) = others.pop() {
        other.in_order();
        let steps = change.steps.as_vec_mut();
        steps.append(other.steps.as_vec_mut()).unwrap();
    }
}
