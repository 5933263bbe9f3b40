//! `weight`: how many bytes a change puts.

ghost use Rattle.std.specs.Prelude.{◌≡◌, ◌^◌, ◌<◌, ℕ, length};
ghost use Rattle.std.specs.List.{flat_map};
ghost use Rattle.mvt_change.specs.ChangeStands.{change_of, step_of};
ghost use Rattle.mvt_change.specs.Changes.{step_weight, weight};

use crate::change::{Change, Step};
use mvt_document::{Measured, size_of_all};

/// How many bytes the items that the change puts take, over all its steps.
pub fn weight(change: &Change) -> u64
    requires { weight (change_of change.now) < 2 ^ 64 }
    ensures { result ≡ weight (change_of change.now) }
{
    let mut weight = 0;
    for step in change.steps.as_slice() {
        weight += step_weight(step);
    }
    weight
}

/// How many bytes the items that the step puts take.
fn step_weight(step: &Step) -> u64
    requires { step_weight (step_of step.now) < 2 ^ 64 }
    ensures { result ≡ step_weight (step_of step.now) }
{
    match step {
        Step::InTile { put, .. } => bytes_in(put.as_slice()),
        Step::InLayer { put, .. } => bytes_in(put.as_slice()),
        Step::InFeature { put, .. } => bytes_in(put.as_slice()),
        Step::Move { .. } => 0,
    }
}

/// How many bytes the items take, one after the other.
fn bytes_in<T: Measured>(items: &[T]) -> u64
    requires { length (flat_map T.bytes items.now) < 2 ^ 64 }
    ensures { result ≡ length (flat_map T.bytes items.now) }
{
    size_of_all(items, usize::MAX).unwrap() as u64
}
