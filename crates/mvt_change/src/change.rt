//! A place, a step and a change, as types.

ghost use Rattle.std.specs.Prelude.{◌≡◌, ◌+◌, false, length, map, vec_capacity};
ghost use Rattle.mvt_change.specs.ChangeStands.{change_of, step_of};

use mvt_document::{Field, Items, LayerItem, Put, TileItem};
use std::mem::size_of;

/// Which list of a document: that of the tile, of the layer at a position of the tile, or of the
/// feature at a position of that layer. Positions count all items of a list.
#[derive(Clone, Copy, Debug, PartialEq, Eq)]
pub enum Place {
    Tile,
    Layer { layer: usize },
    Feature { layer: usize, item: usize },
}

/// One step of a change. `take` items of a list from `index` are taken out, and the ones to put go
/// there; or the item at one position moves to another.
#[derive(Debug, Drop)]
pub enum Step {
    InTile {
        index: u32,
        take: usize,
        put: Put<TileItem>,
    },
    InLayer {
        layer: usize,
        index: usize,
        take: usize,
        put: Put<LayerItem>,
    },
    InFeature {
        layer: usize,
        item: usize,
        index: usize,
        take: usize,
        put: Put<Field>,
    },
    Move {
        place: Place,
        from: usize,
        to: usize,
    },
}

// A change may have half a million steps, which go through memory a dozen times, so the size of one
// is fixed here. The items that `InTile` puts are the largest of all, so its index is half a word;
// a file has at most `MAX_FILE` bytes, so no position in a tile's own list exceeds that.
const _: () = prove!(size_of::<Step>() == 80);

/// Steps, each on what the steps before it made. If they stand backwards, the last one comes first.
#[derive(Debug, Drop)]
pub struct Change {
    pub steps: Items<Step>,
    pub backwards: bool,
}

impl Change {
    /// The change of these steps, in the vector's own memory.
    pub fn new(steps: Vec<Step>) -> Change
        ensures change { change_of result ≡ map step_of steps.items }
        ensures order { result.backwards ≡ false }
        ensures room { length result.steps.items + result.steps.room ≡ vec_capacity steps }
    {
        Change {
            steps: Items::from_vec(steps),
            backwards: false,
        }
    }

    /// Puts the steps in their order.
    pub fn in_order(&mut self)
        ensures change { change_of self.new ≡ change_of self.old }
        ensures order { self.new.backwards ≡ false }
        ensures room { self.new.steps.room ≡ self.old.steps.room }
    {
        if self.backwards {
            self.steps.reverse();
            self.backwards = false;
        }
    }
}
