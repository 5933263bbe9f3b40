//! The changes of commands: what they weigh, their steps, and the way back.
//!
//! A command is given as a line of a script, and prepared on the tile.

use crate::calls::broken::{Answer, Broken};
use crate::calls::given::{Given, said};
use mvt_change::Step;
use mvt_meaning::Command;
use std::alloc::Global;
use test_fixtures::edits::{Edit, Seen};
use tile_arguments::Request;
use tile_script::parse_line;

pub fn answer(alloc: Global, call: &str, given: Given<'_>) -> Answer {
    let mut edit = prepared(alloc, given)?;
    of_change(alloc, call, given.tile, &mut edit)
}

/// What a call that looks at a change answers.
fn of_change(alloc: Global, call: &str, tile: &[u8], edit: &mut Edit) -> Answer {
    match call {
        "weights" => weights(alloc, edit),
        "steps" => steps(alloc, edit),
        "turned_steps" => {
            edit.flip(alloc)?;
            steps(alloc, edit)
        }
        "flips" => flips(alloc, tile, edit),
        _ => Err(Broken::NoCall),
    }
}

/// The tile and the change of the command, which is not carried out yet.
fn prepared(alloc: Global, given: Given<'_>) -> Result<Edit, Broken> {
    match parse_line(alloc, given.bytes) {
        Ok(Some(Request::Edit(command))) => prepared_on(alloc, given.tile, command),
        _ => Err(Broken::BadGiven),
    }
}

/// The tile and the change of the command on it.
fn prepared_on(alloc: Global, tile: &[u8], command: Command) -> Result<Edit, Broken> {
    with_change(alloc, tile, &command)
}

fn with_change(alloc: Global, tile: &[u8], command: &Command) -> Result<Edit, Broken> {
    let mut edit = Edit::read(alloc, tile)?;
    match edit.prepare(alloc, command) {
        Ok(()) => Ok(edit),
        Err(_) => Err(Broken::BadGiven),
    }
}

/// How much the change brings, and how much what leads back.
fn weights(alloc: Global, edit: &mut Edit) -> Answer {
    let there = edit.weight();
    edit.flip(alloc)?;
    let back = edit.weight();
    Ok(format!(in alloc; "{there:?} {back:?}")?.into_bytes())
}

/// How many steps there are, and for each on the tile's list its index, how many items it takes, and
/// how many it puts.
fn steps(alloc: Global, edit: &Edit) -> Answer {
    let steps = edit.change().steps.as_slice();
    if steps.len() > 10 {
        return Ok(format!(in alloc; "steps {}", steps.len())?.into_bytes());
    }
    let mut line = format!(in alloc; "steps {}", steps.len())?.into_bytes();
    for step in steps {
        let Step::InTile { index, take, put } = step else {
            return said(alloc, "a step on another list");
        };
        let shown = format!(in alloc; "; {index} {take} {}", put.len())?;
        line.extend_from_slice(shown.as_bytes())?;
    }
    Ok(line)
}

/// The tile that the change makes. The tile as it was has its own size, and so has what is made;
/// flipped once more, the change makes the tile and the change that were there first, and then the
/// same again.
fn flips(alloc: Global, tile: &[u8], edit: &mut Edit) -> Answer {
    let before = seen(alloc, edit)?;
    if before.tile.as_slice() == tile && has_its_size(&before) {
        flips_from(alloc, edit, &before)
    } else {
        said(alloc, "wrong size")
    }
}

fn flips_from(alloc: Global, edit: &mut Edit, before: &Seen) -> Answer {
    let after = flipped(alloc, edit)?;
    flips_between(alloc, edit, before, &after)
}

fn flips_between(alloc: Global, edit: &mut Edit, before: &Seen, after: &Seen) -> Answer {
    if !has_its_size(after) {
        return said(alloc, "wrong size");
    }
    if !becomes(alloc, edit, before)? || !becomes(alloc, edit, after)? {
        return said(alloc, "does not come back");
    }
    Ok(Vec::from_slice(alloc, &after.tile)?)
}

/// Whether the change makes what was seen.
fn becomes(alloc: Global, edit: &mut Edit, wanted: &Seen) -> Result<bool, Broken> {
    Ok(flipped(alloc, edit)? == *wanted)
}

fn seen(alloc: Global, edit: &Edit) -> Result<Seen, Broken> {
    edit.seen(alloc).map_err(|_| Broken::NoMemory)
}

fn flipped(alloc: Global, edit: &mut Edit) -> Result<Seen, Broken> {
    edit.flip(alloc)?;
    seen(alloc, edit)
}

fn has_its_size(seen: &Seen) -> bool {
    seen.size == Some(seen.tile.len() as u64)
}
