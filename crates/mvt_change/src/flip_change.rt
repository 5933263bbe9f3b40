//! `flip`: a change carried out in place, and turned into the change that leads back.

ghost use Rattle.std.specs.Prelude.{◌≡◌, map, reverse, is_ok, if◌then◌else◌};
ghost use Rattle.mvt_document.specs.Stands.{document_of};
ghost use Rattle.mvt_change.specs.ChangeStands.{change_of, step_of};
ghost use Rattle.mvt_change.specs.Changes.{Fits, go, turn};

use crate::change::{Change, Step};
use crate::run::flip_first;
use crate::taking_back::take_back;
use mvt_document::Document;
use std::alloc::{AllocError, Global};

/// Carries the change out, and turns it into the change that leads back. Consecutive steps on one
/// list are carried out in one pass over it, and consecutive steps on features of one layer in one
/// visit to that layer. If memory runs out, the steps that were made are taken back, and nothing has
/// changed.
pub fn flip(alloc: Global, document: &mut Document, change: &mut Change) -> Result<(), AllocError>
    requires { Fits (change_of change.old) (document_of document.old) }
    ensures document { document_of document.new ≡ (if is_ok result
        then go (change_of change.old) (document_of document.old)
        else document_of document.old) }
    ensures change { change_of change.new ≡ (if is_ok result
        then turn (change_of change.old) (document_of document.old)
        else change_of change.old) }
{
    change.in_order();
    flip_steps(alloc, document, change.steps.as_vec_mut().as_mut_slice())?;
    change.backwards = true;
    Ok(())
}

/// Carries the steps out, one after the other, and turns each in place.
fn flip_steps(alloc: Global, document: &mut Document, steps: &mut [Step]) -> Result<(), AllocError>
    requires { Fits (map step_of steps.old) (document_of document.old) }
    ensures document { document_of document.new ≡ (if is_ok result
        then go (map step_of steps.old) (document_of document.old)
        else document_of document.old) }
    ensures steps { map step_of steps.new ≡ (if is_ok result
        then reverse (turn (map step_of steps.old) (document_of document.old))
        else map step_of steps.old) }
{
    let mut made = 0;
    while made < steps.len() {
        match flip_first(alloc, document, &mut steps[made..]) {
            Ok(more) => made += more,
            Err(more) => {
                take_back(document, &mut steps[..made + more]);
                return Err(AllocError);
            }
        }
    }
    Ok(())
}
