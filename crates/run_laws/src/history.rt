//! Laws of histories and sessions, and of what changes weigh. Each function does nothing: its contract is the law.

ghost use Rattle.run_laws.specs.HistoryLaws.{BackToTheMark, CancelLeavesNoTrace, ChangesLead, EmptyStepLeavesNoTrace, FewSteps, FieldWeighs, HistoryFits, HistoryOfDocuments, KeptWithin, LayerItemWeighs, LayersHaveFewKeys, NothingPut, RedosUndoUndos, StaysSound, StaysValid, StepUndoesWhole, StoppedGoesOn, TileItemWeighs, UndoAfterEnd, UndoAtOnce, UndosUndoRedos};

/// The numbers and marks of a history (how many steps stand, how far undo goes back, which points
/// are marked) are in order at first, at a depth of at least 1, and stay so under each request.
pub fn stays_sound()
    ensures { StaysSound }
{}

/// The commands of a history are valid when it begins, and stay so under each valid request, as
/// each request of a script is (`requests_are_valid`).
pub fn stays_valid()
    ensures { StaysValid }
{}

/// Where the tile at the start is a document and the commands are valid, each tile of the history,
/// each within the open step, and the one that stands is a document.
pub fn history_of_documents()
    ensures { HistoryOfDocuments }
{}

/// Where the tile at the start is a document that a file can hold and the commands are valid, so is
/// each tile of the history, each within the open step, and the one that stands.
pub fn history_fits()
    ensures { HistoryFits }
{}

/// In a sound history where no step is open, an undo right after an accepted command is accepted,
/// and the document is the one before, stored widths included, so the bytes are the same whatever
/// their spelling.
pub fn undo_at_once()
    ensures { UndoAtOnce }
{}

/// In a sound history, ending an open step of one or more commands is accepted, and so is an undo
/// right after it, and the document is the one before all of them.
pub fn undo_after_end()
    ensures { UndoAfterEnd }
{}

/// Where a step is opened in a sound history, then anything is asked except to end or cancel it,
/// refused requests included, and one or more commands are accepted, ending it is accepted, and so
/// is an undo right after it, and the document is the one that stood when the step was opened.
pub fn step_undoes_whole()
    ensures { StepUndoesWhole }
{}

/// Where a step is opened, then anything is asked except to end or cancel it, and no command is
/// accepted, ending it is accepted, and leaves the very history from before it.
pub fn empty_step_leaves_no_trace()
    ensures { EmptyStepLeavesNoTrace }
{}

/// Where a number of undos are accepted in a sound history, so are as many redos after them, and
/// the history is the very one from before.
pub fn redos_undo_undos()
    ensures { RedosUndoUndos }
{}

/// Where a number of redos are accepted in a sound history, so are as many undos after them, and
/// the history is the very one from before.
pub fn undos_undo_redos()
    ensures { UndosUndoRedos }
{}

/// Where a mark is set in a sound history, and going back to it is accepted, the document is the
/// one that stood when it was set, whatever was asked in between, except to set it again.
pub fn back_to_the_mark()
    ensures { BackToTheMark }
{}

/// A step that is opened can be cancelled, whatever is asked in between, except to end or cancel
/// it, and that leaves the very history from before it.
pub fn cancel_leaves_no_trace()
    ensures { CancelLeavesNoTrace }
{}

/// A `back` or a `cancel` that was stopped on the way because memory ran out is accepted when it is
/// asked again with memory, and leads where it would have led.
pub fn stopped_goes_on()
    ensures { StoppedGoesOn }
{}

/// The changes that a session keeps lead down to each document to which undo goes back, up to each
/// to which redo goes, and in the open step to each document within it, back to the one that stood
/// when it was opened.
pub fn changes_lead()
    ensures { ChangesLead }
{}

/// The changes that a session keeps weigh no more than the sum of what the steps from the floor, to
/// which undo goes back, to the present took out, what those that were undone put in, and what the
/// commands of the open step took out.
pub fn kept_within()
    ensures { KeptWithin }
{}

/// The changes that a session keeps have, all together, no more steps than the sum of the number of
/// commands in the steps that undo and redo reach and in the open one, and half the number of bytes
/// that these commands took out and put in.
pub fn few_steps()
    ensures { FewSteps }
{}

/// Valid fields, items of a layer and items of a tile have at least two bytes (`fields`,
/// `layer_items`, `tile_items`), so a change that fits and weighs nothing puts in no item
/// (`nothing`).
#[tactic(auto, using(crate::proofs::Weighing::field_weighs, crate::proofs::Weighing::layer_item_weighs, crate::proofs::Weighing::tile_item_weighs, crate::proofs::Weighing::nothing_put))]
pub fn items_weigh()
    ensures fields { FieldWeighs }
    ensures layer_items { LayerItemWeighs }
    ensures tile_items { TileItemWeighs }
    ensures nothing { NothingPut }
{}

/// In a document that a file can hold, each layer has fewer than 2^32 keys and fewer than 2^32
/// values. So each of them has an ordinal that tags can name, as it is below 2^32.
#[tactic(auto, using(crate::proofs::Weighing::layers_have_few_keys))]
pub fn layers_have_few_keys()
    ensures { LayersHaveFewKeys }
{}
