//! Weights of changes that may be too large to add.

ghost use Rattle.std.specs.Prelude.{◌≡◌, IfSome, length};
ghost use Rattle.std.specs.List.{flat_map};
ghost use Rattle.mvt_change.specs.ChangeStands.{change_of, step_of};
ghost use Rattle.mvt_change.specs.Changes as plain;

use mvt_change::{Change, Step};
use mvt_wire::{Measured, size_of_all};

/// How much the change brings, where a `u64` holds it.
pub(crate) fn known_weight(change: &Change) -> Option<u64>
    ensures { IfSome result (λ known. plain.weight (change_of change.now) ≡ known) }
{
    let mut weight = 0u64;
    for step in change.steps.as_slice() {
        weight = weight.checked_add(known_step_weight(step)?)?;
    }
    Some(weight)
}

fn known_step_weight(step: &Step) -> Option<u64>
    ensures { IfSome result (λ known. plain.step_weight (step_of step.now) ≡ known) }
{
    match step {
        Step::InTile { put, .. } => known_bytes(put.as_slice()),
        Step::InLayer { put, .. } => known_bytes(put.as_slice()),
        Step::InFeature { put, .. } => known_bytes(put.as_slice()),
        Step::Move { .. } => Some(0),
    }
}

fn known_bytes<T: Measured>(items: &[T]) -> Option<u64>
    ensures { IfSome result (λ known. length (flat_map T.bytes items.now) ≡ known) }
{
    Some(size_of_all(items, usize::MAX)? as u64)
}
