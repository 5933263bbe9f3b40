//! The trials: for each command one, and for `set` a second with a new key, one for a layer that comes
//! back to a full list, one for ids that go in two steps, three on tags in two fields, and two for the
//! changes of several commands as one.

use crate::fault::Fault;
use crate::refused::{Refused, flip, flip_twice, prepare};
use crate::scripts::{IDS_APART, TAGS_APART, UNUSED};
use mvt_edit::Command;
use std::alloc::{AllocError, Global};
use std::fmt;
use test_fixtures::asked::{
    clear_id, compact, compact_keys, compact_values, drop_feature, drop_layer, exclude,
    exclude_all, insert_polygon, keep, move_feature, move_layer, rename, rename_key, set, set_id,
    set_polygon, shift, unset,
};
use test_fixtures::bytes::joined;
use test_fixtures::edits::Edit;
use test_fixtures::series::Series;
use test_fixtures::tiles::{OTHER, T0, TWO_IDS};

/// A change that is prepared, flipped, and flipped again.
#[derive(Clone, Copy, Debug, PartialEq, Eq)]
pub enum Trial {
    RenameLayer,
    MoveLayer,
    DropLayer,
    /// A layer that comes back to a list with no room for it.
    LayerBack,
    KeepLayers,
    InsertFeature,
    MoveFeature,
    DropFeature,
    SetId,
    ClearId,
    /// Two ids that are not neighbours.
    ClearIds,
    Shift,
    SetGeometry,
    /// A value in place of another.
    Set,
    /// A value with a new key.
    SetNew,
    /// A value in place of another, where tags are in two fields.
    SetApart,
    Unset,
    UnsetApart,
    RenameKey,
    Exclude,
    ExcludeAll,
    ExcludeAllApart,
    CompactKeys,
    CompactValues,
    Compact,
    /// The changes of two commands on one field, as one change.
    SetTwice,
    /// The changes of seven steps of several commands, as one change.
    Series,
}

const TRIALS: [Trial; 27] = [
    Trial::RenameLayer,
    Trial::MoveLayer,
    Trial::DropLayer,
    Trial::LayerBack,
    Trial::KeepLayers,
    Trial::InsertFeature,
    Trial::MoveFeature,
    Trial::DropFeature,
    Trial::SetId,
    Trial::ClearId,
    Trial::ClearIds,
    Trial::Shift,
    Trial::SetGeometry,
    Trial::Set,
    Trial::SetNew,
    Trial::SetApart,
    Trial::Unset,
    Trial::UnsetApart,
    Trial::RenameKey,
    Trial::Exclude,
    Trial::ExcludeAll,
    Trial::ExcludeAllApart,
    Trial::CompactKeys,
    Trial::CompactValues,
    Trial::Compact,
    Trial::SetTwice,
    Trial::Series,
];

impl fmt::Display for Trial {
    fn fmt<W: fmt::Write>(&self, f: &mut fmt::Formatter<W>) -> fmt::Result {
        f.write_str(self.name())
    }
}

pub fn trial_named(name: &str) -> Option<Trial> {
    for trial in TRIALS {
        if trial.name() == name {
            return Some(trial);
        }
    }
    None
}

impl Trial {
    fn name(self) -> &'static str {
        match self {
            Trial::RenameLayer => "rename-layer",
            Trial::MoveLayer => "move-layer",
            Trial::DropLayer => "drop-layer",
            Trial::LayerBack => "layer-back",
            Trial::KeepLayers => "keep",
            Trial::InsertFeature => "insert",
            Trial::MoveFeature => "move-feature",
            Trial::DropFeature => "drop-feature",
            Trial::SetId => "set-id",
            Trial::ClearId => "clear-id",
            Trial::ClearIds => "clear-ids",
            Trial::Shift => "shift",
            Trial::SetGeometry => "set-geometry",
            Trial::Set => "set",
            Trial::SetNew => "set-new",
            Trial::SetApart => "set-apart",
            Trial::Unset => "unset",
            Trial::UnsetApart => "unset-apart",
            Trial::RenameKey => "rename-key",
            Trial::Exclude => "exclude",
            Trial::ExcludeAll => "exclude-all",
            Trial::ExcludeAllApart => "exclude-all-apart",
            Trial::CompactKeys => "compact-keys",
            Trial::CompactValues => "compact-values",
            Trial::Compact => "compact",
            Trial::SetTwice => "set-twice",
            Trial::Series => "series",
        }
    }

    /// To which call a growth was refused. Where the trial does not look at that call, it begins
    /// again.
    pub fn run(self, alloc: Global) -> Result<Refused, Fault> {
        match self.attempt(alloc) {
            Err(Fault::NoMemory) => {
                self.attempt(alloc)?;
                Ok(Refused::Elsewhere)
            }
            ended => ended,
        }
    }

    fn attempt(self, alloc: Global) -> Result<Refused, Fault> {
        match self {
            Trial::SetTwice => flip_twice(alloc, &mut set_twice(alloc)?),
            Trial::Series => flip_twice(alloc, &mut a_series(alloc)?),
            Trial::LayerBack => layer_back(alloc, &self.tile(alloc)?),
            _ => there_and_back(alloc, &self.tile(alloc)?, self.command(alloc)?),
        }
    }

    /// The tile of a trial of one command.
    fn tile(self, alloc: Global) -> Result<Vec<u8>, AllocError> {
        match self {
            Trial::MoveLayer
            | Trial::DropLayer
            | Trial::LayerBack
            | Trial::KeepLayers
            | Trial::Exclude
            | Trial::ExcludeAll => four_items(alloc),
            Trial::MoveFeature | Trial::DropFeature => joined(alloc, &[TWO_IDS]),
            Trial::ClearIds => joined(alloc, &[IDS_APART]),
            Trial::SetApart | Trial::UnsetApart | Trial::ExcludeAllApart => {
                joined(alloc, &[TAGS_APART])
            }
            Trial::CompactKeys | Trial::CompactValues | Trial::Compact => joined(alloc, &[UNUSED]),
            _ => joined(alloc, &[T0.as_slice()]),
        }
    }

    /// The command of a trial of one.
    fn command(self, alloc: Global) -> Result<Command, Fault> {
        Ok(match self {
            Trial::RenameLayer => rename(alloc, b"a", b"roads")?,
            Trial::MoveLayer => move_layer(1),
            Trial::DropLayer | Trial::LayerBack => drop_layer(),
            Trial::KeepLayers => keep(alloc, b"a")?,
            Trial::InsertFeature => polygon(alloc)?,
            Trial::MoveFeature => move_feature(1),
            Trial::DropFeature => drop_feature(),
            Trial::SetId => set_id(300),
            Trial::ClearId | Trial::ClearIds => clear_id(),
            Trial::Shift => shift(-30, 3),
            Trial::SetGeometry => another_polygon(alloc)?,
            Trial::Set => set(alloc, b"k", 6)?,
            Trial::SetNew | Trial::SetApart => set(alloc, b"m", 6)?,
            Trial::Unset => unset(alloc, b"k")?,
            Trial::UnsetApart => unset(alloc, b"m")?,
            Trial::RenameKey => rename_key(alloc, b"k", b"kind")?,
            Trial::Exclude => exclude(alloc, b"k")?,
            Trial::ExcludeAll | Trial::ExcludeAllApart => exclude_all(),
            Trial::CompactKeys => compact_keys(),
            Trial::CompactValues => compact_values(),
            Trial::Compact => compact(),
            Trial::SetTwice | Trial::Series => return Err(Fault::NoCommand),
        })
    }
}

/// The command is prepared on the tile, and carried out, and taken back. It is dropped on one way
/// out.
fn there_and_back(alloc: Global, tile: &[u8], command: Command) -> Result<Refused, Fault> {
    on_tile(alloc, tile, &command)
}

fn on_tile(alloc: Global, tile: &[u8], command: &Command) -> Result<Refused, Fault> {
    let mut edit = Edit::read(alloc, tile)?;
    on(alloc, &mut edit, command)
}

/// The same on what was read of the tile.
fn on(alloc: Global, edit: &mut Edit, command: &Command) -> Result<Refused, Fault> {
    let prepared = prepare(alloc, edit, command)?;
    Ok(prepared.or(flip_twice(alloc, edit)?))
}

/// A layer is dropped, and comes back to a list that has to grow for it.
fn layer_back(alloc: Global, tile: &[u8]) -> Result<Refused, Fault> {
    let mut edit = Edit::read(alloc, tile)?;
    let prepared = prepare(alloc, &mut edit, &drop_layer())?;
    let there = flip(alloc, &mut edit)?;
    if !edit.give_back() {
        return Err(Fault::NoMemory);
    }
    let back = flip(alloc, &mut edit)?;
    Ok(prepared.or(there).or(back))
}

/// A ring is inserted after the first feature.
fn polygon(alloc: Global) -> Result<Command, Fault> {
    insert_polygon(alloc, 1)?.ok_or(Fault::NoCommand)
}

/// The first feature becomes a ring.
fn another_polygon(alloc: Global) -> Result<Command, Fault> {
    set_polygon(alloc)?.ok_or(Fault::NoCommand)
}

/// A layer "a", a field that is not a layer, and two layers "b".
fn four_items(alloc: Global) -> Result<Vec<u8>, AllocError> {
    joined(alloc, &[&T0, b"\x80\x01\x07".as_slice(), OTHER, OTHER])
}

/// A layer "a" with two features, and three layers "b".
fn four_layers(alloc: Global) -> Result<Vec<u8>, AllocError> {
    joined(alloc, &[TWO_IDS, OTHER, OTHER, OTHER])
}

/// One change sets an id, and then sets it again.
fn set_twice(alloc: Global) -> Result<Edit, Fault> {
    let series = Series::read(alloc, &T0)?
        .then(alloc, set_id(300))?
        .then(alloc, set_id(7))?;
    with_steps(series.into_edit(), 2)
}

/// One change drops a feature, sets an id, and moves the layer between the others. Then it names the
/// layer, drops the others in two steps, and inserts a feature.
fn a_series(alloc: Global) -> Result<Edit, Fault> {
    let series = Series::read(alloc, &four_layers(alloc)?)?
        .then(alloc, drop_feature())?
        .then(alloc, set_id(300))?
        .then(alloc, move_layer(1))?
        .then(alloc, rename(alloc, b"a", b"roads")?)?
        .then(alloc, keep(alloc, b"roads")?)?
        .then(alloc, polygon(alloc)?)?;
    with_steps(series.into_edit(), 7)
}

/// The edit, where its change has `count` steps.
fn with_steps(edit: Edit, count: usize) -> Result<Edit, Fault> {
    if edit.change().steps.len() == count {
        Ok(edit)
    } else {
        Err(Fault::WrongSteps)
    }
}
