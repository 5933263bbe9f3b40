//! Laws of whole runs and of histories. Each function does nothing: its contract is the law. Those of
//! histories and sessions are in the module `history`; they, and the laws of how requests are
//! answered, are re-exported.
#![tactic(auto)]

ghost use Rattle.tile_course.specs.DeviceLaws.{FailedDevicesAreNamed, WornOutRunsNameADevice, DevicesAreNamedForCause};
ghost use Rattle.tile_course.specs.RunLaws.{PrefixesHaveFirstLines, PrefixesStand, WalksNeverOutOfMemoryAreRuns};
ghost use Rattle.run_laws.specs.FaultLaws.{ScriptsAreReadByLines, OutFailsLast, ScriptFailsBetweenLines, StrictRunsReplyAlike, RepliesAreCutShort, WholeRepliesStand};
ghost use Rattle.run_laws.specs.RunLaws.{RepliesStand, RefusedLinesChangeNothing, SilentLinesChangeNothing, StrictRunsStop, AcceptedRunsAreAlike, StandingCommands, LinesAreRequests, UndoInARun, UndoInAScript, CancelInARun, StepUndoneInARun, BackInARun, RunsAreWalks, NoRunIsOutOfMemory, LookingChangesNothing, RequestsAreValid, TilesFit, TilesFitOnTheWay};

pub mod history;

pub use history::{
    back_to_the_mark, cancel_leaves_no_trace, changes_lead, empty_step_leaves_no_trace, few_steps,
    history_fits, history_of_documents, kept_within, redos_undo_undos, stays_sound, stays_valid,
    step_undoes_whole, stopped_goes_on, undo_after_end, undo_at_once, undos_undo_redos,
};
pub use tile_course::laws::{
    looks_leave_history, no_request_is_out_of_memory, requests_print_lines,
};

/// The lines of a prefix of a script that is empty or ends with a line feed are the first lines of
/// the script (`lines`). The run on it gets to where the whole run is after those lines, and the
/// other lines go on from there (`progress`). What was replied to it stays (`replies`).
pub fn prefixes_stand()
    ensures lines { PrefixesHaveFirstLines }
    ensures progress { PrefixesStand }
    ensures replies { RepliesStand }
{}

/// A line that is refused leaves the tile and the history as they were (`refused`), and so does a
/// line without a reply (`silent`).
pub fn refused_lines_change_nothing()
    ensures refused { RefusedLinesChangeNothing }
    ensures silent { SilentLinesChangeNothing }
{}

/// A line that asks for the size, a listing, the marks or the history, even one that is refused,
/// leaves the tile and the history as they were.
pub fn looking_changes_nothing()
    ensures { LookingChangesNothing }
{}

/// Once a strict run is over, no further line changes anything (`stop`). Where a run that is not
/// strict refuses no line, a strict one comes to the same result (`alike`).
pub fn strict_runs_stop()
    ensures stop { StrictRunsStop }
    ensures alike { AcceptedRunsAreAlike }
{}

/// After every script, at a depth of at least 1, the document is the tile read at the start with
/// the commands of the standing steps and then those of the open one, each of them accepted,
/// applied in order. The numbers and marks of the history are in order (`IsSound`).
pub fn standing_commands()
    ensures { StandingCommands }
{}

/// In a run that is not strict, the history after some lines is what their requests, one after the
/// other, make of the one before. So what a law says of histories holds of such a run.
pub fn lines_are_requests()
    ensures { LinesAreRequests }
{}

/// Each line that asks for a request on the history asks for a valid one: an id that it sets is
/// below 2^64.
pub fn requests_are_valid()
    ensures { RequestsAreValid }
{}

/// Where the tile at the start is a document that a file can hold, as every tile that opens is, so
/// is each tile of the history, each within the open step, and the one that stands: after every
/// script (`script`), and after any lines even if growths are refused (`on_the_way`). So no tile of
/// a run is too large to be written.
pub fn tiles_fit()
    ensures script { TilesFit }
    ensures on_the_way { TilesFitOnTheWay }
{}

/// Where no step is open and the run is not over, a line with an accepted command and a line with
/// an undo after it are both accepted, and the bytes of the tile are those before: in a sound
/// history (`progress`), and after every script that is empty or ends with a line feed, at a depth
/// of at least 1 (`script`).
pub fn undo_in_a_script()
    ensures progress { UndoInARun }
    ensures script { UndoInAScript }
{}

/// In a run that is not strict, where no step is open: a line that opens a step, any lines but
/// those that end or cancel one, and a line that cancels it leave the history as it was, and so the
/// tile (`cancelled`). With lines that end the step and undo it in place of the one that cancels
/// it, they leave the tile as it was, where a command was accepted within it and the history was
/// sound (`undone`).
pub fn steps_in_a_run()
    ensures cancelled { CancelInARun }
    ensures undone { StepUndoneInARun }
{}

/// In a run that is not strict and whose history is sound: where a line that sets a mark is
/// accepted, and so, after any lines that do not set it again, is one that goes back to it, the
/// tile is the one that stood when it was set.
pub fn back_in_a_run()
    ensures { BackInARun }
{}

/// Where growths may be refused and no reply says that one was, by 60 or 54, everything goes as
/// with all memory (`never_out_of_memory`), which is one of the ways that a run may go
/// (`with_memory`) and in which no reply says so (`never`).
pub fn out_of_memory_is_replied()
    ensures never_out_of_memory { WalksNeverOutOfMemoryAreRuns }
    ensures with_memory { RunsAreWalks }
    ensures never { NoRunIsOutOfMemory }
{}

/// Where the count of failures of a device has changed, the run ends with that device (`failed`).
/// Where more than 1,000 calls were interrupted over all devices, it ends with a device, if the
/// counts began at no more than 2^63 (`worn_out`).
pub fn failed_devices_are_named()
    ensures failed { FailedDevicesAreNamed }
    ensures worn_out { WornOutRunsNameADevice }
{}

/// A run ends with a device only where a call of it failed; or where one was interrupted, and over
/// all devices more than 1,000 were; or where it is the script, and too long as far as its device
/// tells. The counts began at no more than 2^63.
pub fn devices_are_named_for_cause()
    ensures { DevicesAreNamedForCause }
{}

/// Where a device ends a run, or a strict one stops, and no reply is 60 or 54: what was replied is
/// what is replied to the script as far as it was read (`read`). That is all of it if OUT fails,
/// which has a prefix of the tile then (`out`), and its whole lines if the script fails or is too
/// long (`script`); a strict run is over there (`strict`). If the replies fail, a prefix of them was
/// written, but that a last line that was cut short may be a beginning of 60 or 54 (`replies`); the
/// whole lines that were written are such a prefix (`whole`).
pub fn faults_cut_runs_short()
    ensures read { ScriptsAreReadByLines }
    ensures out { OutFailsLast }
    ensures script { ScriptFailsBetweenLines }
    ensures strict { StrictRunsReplyAlike }
    ensures replies { RepliesAreCutShort }
    ensures whole { WholeRepliesStand }
{}
