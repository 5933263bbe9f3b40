//! A document with a change that fits it, as tests of changes use it.

use crate::weights::known_weight;
use mvt_change::{Change, Step, flip, weight};
use mvt_edit::{Command, Refusal, prepare};
use mvt_wire::{
    Document, Layer, ReadError, TileItem, WriteError, read_document, size, write_document,
};
use std::alloc::{AllocError, Global};
use std::marker::Model;

/// A document, and a change that fits it.
#[derive(Debug, Drop)]
pub struct Edit {
    document: Document,
    change: Change,
}

/// What can be seen of an edit: the bytes of its tile, how many they are by the sizes that its lists
/// keep, its change, and what the layers that the change brings know of their items.
#[derive(Debug, Drop, PartialEq, Eq)]
pub struct Seen {
    pub tile: Vec<u8>,
    pub size: Option<u64>,
    pub change: String,
    pub known: Vec<String>,
}

impl Model for Edit {
    ghost use Rattle.std.specs.Coded.{codes};
    ghost use Rattle.mvt_wire.specs.Stands.{document_of};
    ghost use Rattle.mvt_change.specs.ChangeStands.{change_of};
    ghost use Rattle.mvt_change.specs.Codes.{coded_item};
    ghost use Rattle.test_fixtures.specs.Edits.{Edit as PlainEdit, CanFlip};

    ghost Value = { PlainEdit };

    ghost coded = { Prim.hlevel (codes, coded_item) };

    ghost view = { λ e. record { document = document_of e.document; change = change_of e.change } };

    ghost invariant = { λ e. CanFlip (record { document = document_of e.document; change = change_of e.change }) };
}

impl Edit {
    ghost use Rattle.mvt_wire.specs.Stands.{document_of};
    ghost use Rattle.mvt_change.specs.ChangeStands.{change_of};
    ghost use Rattle.test_fixtures.specs.Edits.{CanFlip};

    /// A document, and a change that is known to fit it.
    pub(crate) fn of(document: Document, change: Change) -> Edit
        requires { CanFlip (record { document = document_of document; change = change_of change }) }
    {
        Edit { document, change }
    }

    /// The document of a file, and a change of no steps.
    pub fn read(alloc: Global, file: &[u8]) -> Result<Edit, ReadError> {
        let steps = Vec::new(alloc);
        Ok(Edit {
            document: read_document(alloc, file)?,
            change: Change::new(steps),
        })
    }

    pub fn document(&self) -> &Document {
        &self.document
    }

    pub fn change(&self) -> &Change {
        &self.change
    }

    pub fn seen(&self, alloc: Global) -> Result<Seen, WriteError> {
        let change = &self.change;
        Ok(Seen {
            tile: write_document(alloc, &self.document)?,
            size: size(&self.document),
            change: format!(in alloc; "{change:?}")?,
            known: known_in(alloc, change)?,
        })
    }

    /// How much the change brings.
    pub fn weight(&self) -> Option<u64> {
        known_weight(&self.change)?;
        Some(weight(&self.change))
    }

    /// The change of the command takes the place of the one that there is.
    pub fn prepare(&mut self, alloc: Global, command: &Command) -> Result<(), Refusal> {
        self.change = prepare(alloc, &self.document, command)?;
        Ok(())
    }

    /// Gives back the room that the tile's list has beyond its items, so that it has to grow for one
    /// that comes back, and returns whether none is left.
    pub fn give_back(&mut self) -> bool {
        let items = &mut self.document.items;
        let size = items.known_size();
        let list = items.as_vec_mut();
        list.shrink_to_fit();
        let is_full = list.capacity() == list.len();
        items.know_size(size);
        is_full
    }

    /// Carries the change out, and turns it. Its steps are then in their order, so that the same
    /// change is always printed the same.
    pub fn flip(&mut self, alloc: Global) -> Result<(), AllocError> {
        let flipped = flip(alloc, &mut self.document, &mut self.change);
        self.change.in_order();
        flipped
    }
}

/// What each layer that a change brings knows of its items.
fn known_in(alloc: Global, change: &Change) -> Result<Vec<String>, AllocError> {
    let mut known = Vec::new(alloc);
    for step in change.steps.as_slice() {
        if let Step::InTile { put, .. } = step {
            push_known(alloc, put.as_slice(), &mut known)?;
        }
    }
    Ok(known)
}

fn push_known(
    alloc: Global,
    items: &[TileItem],
    known: &mut Vec<String>,
) -> Result<(), AllocError> {
    for item in items {
        if let TileItem::Layer(layer) = item {
            known.push(known_of(alloc, layer)?)?;
        }
    }
    Ok(())
}

/// How many bytes the items of a layer take, where those of each kind stand, and the hashes of their ids.
fn known_of(alloc: Global, layer: &Layer) -> Result<String, AllocError> {
    let (size, runs, hashes) = (
        layer.items.known_size(),
        layer.items.runs(),
        layer.items.id_hashes(),
    );
    let (names, features) = (runs.names, runs.messages);
    let (keys, values) = (runs.keys, runs.values);
    format!(in alloc; "{size:?} {names:?} {features:?} {keys:?} {values:?} {hashes:?}")
}
