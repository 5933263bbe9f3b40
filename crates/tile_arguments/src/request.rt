//! What a line can ask for: a command, a move along the history, a mark, a step to open or to
//! close, or something to print; what a listing shows.

use mvt_document::Items;
use mvt_meaning::{Command, FeatureChoice, LayerChoice};

/// What a listing shows.
#[derive(Debug, Drop)]
pub enum What {
    /// The layers of the tile.
    Whole,
    /// A layer with its keys, its values and its features.
    OneLayer(LayerChoice),
    /// A feature of a layer with its attributes and its geometry.
    OneFeature(LayerChoice, FeatureChoice),
}

/// What a line of a script asks for.
#[derive(Debug, Drop)]
pub enum Request {
    /// A command, carried out on the tile.
    Edit(Command),
    /// Takes the last step back.
    Undo,
    /// Makes the step that was taken back last stand again.
    Redo,
    /// Makes the name mark the present point.
    Mark(Items<u8>),
    /// Makes the name mark nothing.
    Unmark(Items<u8>),
    /// Goes to the point that the name marks.
    Back(Items<u8>),
    /// Opens a step: the commands from now on are one step.
    Begin,
    /// Ends the open step.
    End,
    /// Takes the commands of the open step back, and closes it.
    Cancel,
    /// The marks, and how far each is from the present point.
    Marks,
    /// How far undo and redo reach.
    History,
    /// The length of the tile in bytes.
    Size,
    /// A listing of the tile, or of a part of it.
    List(What),
}
