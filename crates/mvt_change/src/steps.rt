//! A step carried out in place, and turned into the step that leads back.

ghost use Rattle.std.specs.Prelude.{◌≡◌, is_ok, if◌then◌else◌, IsOk, OnErr, OnOk};
ghost use Rattle.mvt_change.specs.ChangeStands.{action_of, step_of};
ghost use Rattle.mvt_change.specs.Room.{KeepsDocument};
ghost use Rattle.mvt_change.specs.HeldChanges.{ActionHasRoom, FindsAction, IsTurned, go_held_step};

use crate::change::Step;
use crate::lists::{exchange_in_feature, exchange_in_layer, move_at};
use mvt_document::Document;
use std::alloc::AllocError;
use std::mem;

/// Carries the step out, and turns it into the step that leads back: the items that it put are in
/// the document, and it holds the ones whose places they took. If a list cannot grow, nothing has
/// changed.
pub(crate) fn flip_step(document: &mut Document, step: &mut Step) -> Result<(), AllocError>
    requires { FindsAction (action_of step.old) document.old }
    ensures kept { KeepsDocument (if is_ok result then go_held_step step.old document.old else document.old) document.new }
    ensures turned { OnOk result (IsTurned step.old document.old step.new) }
    ensures same { OnErr result (step_of step.new ≡ step_of step.old) }
    ensures succeeds { ActionHasRoom (action_of step.old) document.old → IsOk result }
{
    match step {
        Step::InTile { index, take, put } => {
            let given = put.len();
            document.items.exchange(*index as usize, *take, put)?;
            *take = given;
        }
        Step::InLayer {
            layer,
            index,
            take,
            put,
        } => {
            let given = put.len();
            exchange_in_layer(document, *layer, *index, *take, put)?;
            *take = given;
        }
        Step::InFeature {
            layer,
            item,
            index,
            take,
            put,
        } => {
            let given = put.len();
            exchange_in_feature(document, *layer, *item, *index, *take, put)?;
            *take = given;
        }
        Step::Move { place, from, to } => {
            move_at(document, *place, *from, *to);
            mem::swap(from, to);
        }
    }
    Ok(())
}
