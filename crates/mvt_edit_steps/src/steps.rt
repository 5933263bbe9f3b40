//! The change of one step, the same if a file can hold what it makes, and the change that takes one
//! item out.

ghost use Rattle.std.specs.Prelude.{◌≡◌, ◌⊎◌, ◌<◌, ◌≤◌, [], ◌∷◌, IfErr, IfOk, length};
ghost use Rattle.mvt_document.specs.declared.TheConstants.{MAX_FILE};
ghost use Rattle.mvt_document.specs.Stands.{document_of};
ghost use Rattle.mvt_document.specs.Wire.{bytes_of};
ghost use Rattle.mvt_change.specs.Changes.{FitsStep, go_step};
ghost use Rattle.mvt_change.specs.ChangeStands.{change_of, place_of, step_of};
ghost use Rattle.mvt_edit_steps.specs.Fates.{item_out, splice_of};
ghost use Rattle.mvt_meaning.specs.declared.refusal.Refusal.TheVariants.{NoMemory, TooLarge};

use crate::fates::Run;
use mvt_change::{Change, Place, Step, fits_after};
use mvt_document::Document;
use mvt_meaning::Refusal;
use std::alloc::{AllocError, Global};

/// The change of this step alone.
pub fn one_step(alloc: Global, step: Step) -> Result<Change, AllocError>
    ensures { IfOk result (λ change. change_of change ≡ step_of step ∷ []) }
{
    Ok(Change::new(vec![in alloc; step]?))
}

/// The same, if a file can hold what the step makes of the document.
pub fn one_step_within_limit(
    alloc: Global,
    document: &Document,
    step: Step,
) -> Result<Change, Refusal>
    requires { FitsStep (step_of step) (document_of document.now) }
    ensures made { IfOk result (λ change. change_of change ≡ step_of step ∷ []) }
    ensures within { IfOk result (λ change. length (bytes_of (go_step (step_of step) (document_of document.now))) ≤ MAX_FILE) }
    ensures refused { IfErr result (λ refusal. (refusal ≡ NoMemory)
        ⊎ ((refusal ≡ TooLarge) × (MAX_FILE < length (bytes_of (go_step (step_of step) (document_of document.now)))))) }
{
    if !fits_after(document, &step) {
        return Err(Refusal::TooLarge);
    }
    Ok(one_step(alloc, step)?)
}

/// The change that takes out the item at this position of a list.
pub fn item_out(alloc: Global, place: Place, index: usize) -> Result<Change, AllocError>
    ensures { IfOk result (λ change. change_of change ≡ item_out (place_of place) index ∷ []) }
{
    let step = match place {
        Place::Tile => one_out(alloc, index).in_tile()?,
        Place::Layer { layer } => one_out(alloc, index).in_layer(layer),
        Place::Feature { layer, item } => one_out(alloc, index).in_feature(layer, item),
    };
    one_step(alloc, step)
}

/// The run that takes out the item at this index.
fn one_out<T>(alloc: Global, index: usize) -> Run<T>
    ensures { splice_of result ≡ record { index = index; taken = 1; put = [] } }
{
    Run {
        index,
        take: 1,
        put: Vec::new(alloc),
    }
}
