//! Calls to which a growth may be refused.
//!
//! At most one growth is refused in a run. Where it is one of `prepare` or `flip`, what they left is
//! looked at, and they are called again.

use crate::fault::Fault;
use mvt_edit::{Command, Refusal};
use std::alloc::Global;
use std::fmt;
use test_fixtures::edits::{Edit, Seen};

/// To which call a growth was refused.
#[derive(Clone, Copy, Debug, PartialEq, Eq)]
pub enum Refused {
    Nowhere,
    ToPrepare,
    ToFlip,
    Elsewhere,
}

impl fmt::Display for Refused {
    fn fmt<W: fmt::Write>(&self, f: &mut fmt::Formatter<W>) -> fmt::Result {
        f.write_str(match self {
            Refused::Nowhere => "nowhere",
            Refused::ToPrepare => "prepare",
            Refused::ToFlip => "flip",
            Refused::Elsewhere => "elsewhere",
        })
    }
}

impl Refused {
    /// What is to be said of two calls, one after the other.
    pub fn or(self, later: Refused) -> Refused {
        if self == Refused::Nowhere {
            later
        } else {
            self
        }
    }
}

/// The change is prepared. Where a growth was refused, nothing had changed.
pub fn prepare(alloc: Global, edit: &mut Edit, command: &Command) -> Result<Refused, Fault> {
    let before = edit.seen(alloc)?;
    prepare_from(alloc, edit, command, &before)
}

fn prepare_from(
    alloc: Global,
    edit: &mut Edit,
    command: &Command,
    before: &Seen,
) -> Result<Refused, Fault> {
    match edit.prepare(alloc, command) {
        Ok(()) => Ok(Refused::Nowhere),
        Err(Refusal::NoMemory) => prepare_again(alloc, edit, command, before),
        Err(_) => Err(Fault::OtherRefusal),
    }
}

/// A growth was refused, so all is as it was before, and the change is prepared now.
fn prepare_again(
    alloc: Global,
    edit: &mut Edit,
    command: &Command,
    before: &Seen,
) -> Result<Refused, Fault> {
    if !is_seen(alloc, edit, before)? {
        return Err(Fault::PrepareChanged);
    }
    match edit.prepare(alloc, command) {
        Ok(()) => Ok(Refused::ToPrepare),
        Err(_) => Err(Fault::RefusedAgain),
    }
}

/// Whether what is seen of the edit is what was seen before.
fn is_seen(alloc: Global, edit: &Edit, before: &Seen) -> Result<bool, Fault> {
    Ok(edit.seen(alloc)? == *before)
}

/// The change is carried out. Where a growth was refused, nothing had changed. The sizes that lists
/// keep are those of their items.
pub fn flip(alloc: Global, edit: &mut Edit) -> Result<Refused, Fault> {
    let before = edit.seen(alloc)?;
    flip_from(alloc, edit, &before)
}

fn flip_from(alloc: Global, edit: &mut Edit, before: &Seen) -> Result<Refused, Fault> {
    let refused = match edit.flip(alloc) {
        Ok(()) => Refused::Nowhere,
        Err(_) => flip_again(alloc, edit, before)?,
    };
    let after = edit.seen(alloc)?;
    compare(before, &after)?;
    Ok(refused)
}

/// A growth was refused, so all is as it was before, and the change is carried out now.
fn flip_again(alloc: Global, edit: &mut Edit, before: &Seen) -> Result<Refused, Fault> {
    if !is_seen(alloc, edit, before)? {
        return Err(Fault::FlipChanged);
    }
    match edit.flip(alloc) {
        Ok(()) => Ok(Refused::ToFlip),
        Err(_) => Err(Fault::RefusedAgain),
    }
}

/// The tile has become another one, of the size that its lists keep.
fn compare(before: &Seen, after: &Seen) -> Result<(), Fault> {
    if after.tile == before.tile {
        return Err(Fault::NothingFlipped);
    }
    if after.size != Some(after.tile.len() as u64) {
        return Err(Fault::WrongSize);
    }
    Ok(())
}

/// The change is flipped twice, and all is as it was.
pub fn flip_twice(alloc: Global, edit: &mut Edit) -> Result<Refused, Fault> {
    let before = edit.seen(alloc)?;
    flip_twice_from(alloc, edit, &before)
}

fn flip_twice_from(alloc: Global, edit: &mut Edit, before: &Seen) -> Result<Refused, Fault> {
    let there = flip(alloc, edit)?;
    let back = flip(alloc, edit)?;
    if !is_seen(alloc, edit, before)? {
        return Err(Fault::NotBack);
    }
    Ok(there.or(back))
}
