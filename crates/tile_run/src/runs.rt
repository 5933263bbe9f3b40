//! A whole run: a tile and a script are read, the replies and the edited tile are written.

ghost use Rattle.std.specs.Prelude.{◌≡◌, ◌≤◌, Ok, OnOk};
ghost use Rattle.mvt_document.specs.Opens.{IsDocument, OpensAs};
ghost use Rattle.mvt_document.specs.Settle.{settle};
ghost use Rattle.mvt_document.specs.Stands.{document_of};
ghost use Rattle.mvt_document.specs.Wire.{bytes_of};
ghost use Rattle.mvt_history_steps.specs.declared.TheConstants.{MAX_DEPTH};
ghost use Rattle.tile_device.specs.Seen.{Output, Seen, Writes, source_at, sink_at};
ghost use Rattle.tile_course.specs.Course.{start_of};
ghost use Rattle.tile_course.specs.Headline.{Headline, RefusesTile, Runs, WritesATile, LeavesOut, LeavesReplies, devices_at};
ghost use Rattle.tile_run.specs.Steps.{IsAt, Opening, WritesTile, devices_with, document_in, stop_for};

use crate::editor::Editor;
use mvt_document::{Document, MAX_FILE};
use mvt_wire::{ReadError, read_document, write_document_into};
use std::alloc::Global;
use std::mem;
use tile_course::{MAX_RETRIES, Options, Outcome, TileFault, Unopened, Unwritten};
use tile_device::{Retries, Sink, Source, read_to_limit, write_and_flush};

/// Edits the tile by the lines of the script, answers each line that asks for something, and
/// writes the edited tile.
///
/// What the run still holds at its end, the session with its document, is not freed: it is left to
/// the system. So this is for a program that ends after it; `run_and_free` is for one that goes on.
pub fn run<R1: Source, R2: Source, W1: Sink, W2: Sink>(
    alloc: Global,
    tile: &mut R1,
    script: &mut R2,
    replies: &mut W1,
    out: &mut W2,
    options: Options,
) -> Outcome
    requires some_depth { 1 ≤ options.depth }
    requires depth { options.depth ≤ MAX_DEPTH }

    // Where no device fails and memory does not run out: the script on the document.
    ensures headline { Headline options
        (devices_at R1.Source R2.Source W1.Sink W2.Sink tile.old script.old replies.old out.old)
        (devices_at R1.Source R2.Source W1.Sink W2.Sink tile.new script.new replies.new out.new)
        result }

    // What is written then opens again, as the standing document with the widths that were written.
    ensures writes_a_tile { WritesATile options
        (devices_at R1.Source R2.Source W1.Sink W2.Sink tile.old script.old replies.old out.old)
        (devices_at R1.Source R2.Source W1.Sink W2.Sink tile.new script.new replies.new out.new)
        result }

    // A tile that does not open as a document is refused for what is wrong with it.
    ensures refuses_tile { RefusesTile
        (devices_at R1.Source R2.Source W1.Sink W2.Sink tile.old script.old replies.old out.old)
        (devices_at R1.Source R2.Source W1.Sink W2.Sink tile.new script.new replies.new out.new)
        result }

    // In every other case too: what was read and written, by the outcome.
    ensures course { Runs options
        (devices_at R1.Source R2.Source W1.Sink W2.Sink tile.old script.old replies.old out.old)
        (devices_at R1.Source R2.Source W1.Sink W2.Sink tile.new script.new replies.new out.new)
        result }
    ensures out_as_it_was { LeavesOut result → out.new ≡ out.old }
    ensures script_as_it_was { LeavesReplies result → script.new ≡ script.old }
    ensures replies_as_they_were { LeavesReplies result → replies.new ≡ replies.old }
{
    let (outcome, held) = run_and_hold(alloc, tile, script, replies, out, options);
    mem::forget(held);
    outcome
}

/// Does what `run` does, and frees what that leaves to the system. What else `run` says follows from
/// `course`.
pub fn run_and_free<R1: Source, R2: Source, W1: Sink, W2: Sink>(
    alloc: Global,
    tile: &mut R1,
    script: &mut R2,
    replies: &mut W1,
    out: &mut W2,
    options: Options,
) -> Outcome
    requires some_depth { 1 ≤ options.depth }
    requires depth { options.depth ≤ MAX_DEPTH }
    ensures course { Runs options
        (devices_at R1.Source R2.Source W1.Sink W2.Sink tile.old script.old replies.old out.old)
        (devices_at R1.Source R2.Source W1.Sink W2.Sink tile.new script.new replies.new out.new)
        result }
    ensures out_as_it_was { LeavesOut result → out.new ≡ out.old }
    ensures script_as_it_was { LeavesReplies result → script.new ≡ script.old }
    ensures replies_as_they_were { LeavesReplies result → replies.new ≡ replies.old }
{
    run_and_hold(alloc, tile, script, replies, out, options).0
}

/// Does what `run` does, and returns what it still holds, with the outcome: the session with its
/// document, where the tile opened.
fn run_and_hold<R1: Source, R2: Source, W1: Sink, W2: Sink>(
    alloc: Global,
    tile: &mut R1,
    script: &mut R2,
    replies: &mut W1,
    out: &mut W2,
    options: Options,
) -> (Outcome, Option<Editor>)
    requires some_depth { 1 ≤ options.depth }
    requires depth { options.depth ≤ MAX_DEPTH }
    ensures course { Runs options
        (devices_at R1.Source R2.Source W1.Sink W2.Sink tile.old script.old replies.old out.old)
        (devices_at R1.Source R2.Source W1.Sink W2.Sink tile.new script.new replies.new out.new)
        result.0 }
    ensures out_as_it_was { LeavesOut result.0 → out.new ≡ out.old }
    ensures script_as_it_was { LeavesReplies result.0 → script.new ≡ script.old }
    ensures replies_as_they_were { LeavesReplies result.0 → replies.new ≡ replies.old }
{
    let mut retries = Retries::new(MAX_RETRIES);
    let (document, file) = match open(alloc, tile, &mut retries) {
        Ok(opened) => opened,
        Err(stop) => return (stop.into(), None),
    };
    let Some(mut editor) = Editor::start(alloc, document, options) else {
        return (Outcome::NoMemory, None);
    };
    let outcome = edit(alloc, &mut editor, file, script, replies, out, &mut retries);
    (outcome, Some(editor))
}

/// Carries the script out on a document that no line has edited, and writes what it has become. The
/// bytes are made in the memory of this vector.
fn edit<R: Source, W1: Sink, W2: Sink>(
    alloc: Global,
    editor: &mut Editor,
    room: Vec<u8>,
    script: &mut R,
    replies: &mut W1,
    out: &mut W2,
    retries: &mut Retries,
) -> Outcome
    requires { editor.old.lines ≡ 0 }

    // The rest of the run of a tile that was opened between two moments of its device.
    ensures course { (options : Options) (document : Document) (before : Seen) (after : Seen)
        → Opening before after MAX_RETRIES retries.old (Ok document)
        → IsAt editor.old options.strict (start_of options (document_of document))
        → Runs options
        (devices_with before R.Source W1.Sink W2.Sink script.old replies.old out.old)
        (devices_with after R.Source W1.Sink W2.Sink script.new replies.new out.new)
        result }
    ensures out_as_it_was { LeavesOut result → out.new ≡ out.old }
    ensures script_as_it_was { LeavesReplies result → script.new ≡ script.old }
    ensures replies_as_they_were { LeavesReplies result → replies.new ≡ replies.old }
{
    if let Err(stop) = editor.carry_out_script(alloc, script, replies, retries) {
        return stop.into();
    }
    if let Err(stop) = write_tile(alloc, editor.document(), room, out, retries) {
        return stop.into();
    }
    Outcome::edited(editor.any_refused())
}

/// Reads the tile to its end, or to the first byte that is too many, and opens it. With the
/// document comes the vector that the tile was read into.
fn open<R: Source>(
    alloc: Global,
    tile: &mut R,
    retries: &mut Retries,
) -> Result<(Document, Vec<u8>), Unopened>
    ensures { Opening (source_at R.Source tile.old) (source_at R.Source tile.new) retries.old retries.new (document_in result) }
{
    let file = read_to_limit(alloc, tile, MAX_FILE + 1, retries)?;
    match read_document(alloc, &file) {
        Ok(document) => Ok((document, file)),
        Err(error) => Err(stop_for(error)),
    }
}

/// Why a tile that is not a document is not opened.
fn stop_for(error: ReadError) -> Unopened
    ensures { result ≡ stop_for error }
{
    match error {
        ReadError::BadWire { place } => Unopened::Refused(TileFault::BadWire { place }),
        ReadError::FileTooLarge => Unopened::Refused(TileFault::FileTooLarge),
        ReadError::NoMemory => Unopened::NoMemory,
    }
}

/// Writes the bytes of the document. They are made in the memory of this vector.
fn write_tile<W: Sink>(
    alloc: Global,
    document: &Document,
    room: Vec<u8>,
    out: &mut W,
    retries: &mut Retries,
) -> Result<(), Unwritten>
    ensures writes { (output : Output) × WritesTile (bytes_of (document_of document.now)) output result
        × Writes (sink_at W.Sink out.old) (sink_at W.Sink out.new) retries.old retries.new output }
    ensures no_memory { result ≡ Err Unwritten.NoMemory → out.new ≡ out.old }
    ensures opens { IsDocument (document_of document.now) →
        OnOk result (OpensAs (bytes_of (document_of document.now)) (settle (document_of document.now))) }
{
    let Ok(file) = write_document_into(alloc, document, room) else {
        return Err(Unwritten::NoMemory);
    };
    write_and_flush(out, &file, retries).or(Err(Unwritten::Device))
}
