//! Laws of selection and of commands. Each function does nothing: its contract is the law. Those of
//! the commands on attributes, of those that remove unused keys and values, and of those on geometry
//! are in modules: `attributes`, `compaction`, `geometry`.
#![tactic(auto)]

pub mod attributes;
pub mod compaction;
pub mod geometry;

ghost use Rattle.command_laws.specs.DocumentLaws.{CommandMakesDocument};
ghost use Rattle.command_laws.specs.FeatureLaws.{ClearIdClears, DropFeatureDrops, InsertFeatureInserts, MoveFeatureMoves, SetIdSets};
ghost use Rattle.command_laws.specs.LayerLaws.{DropLayerDrops, KeepLayersKeeps, MoveLayerMoves, RenameNames};
ghost use Rattle.command_laws.specs.SelectionLaws.{IdMeansTheOne, IdMeansNone, NameMeansTheOne, NameMeansNone};
ghost use Rattle.command_laws.specs.MemoryLaws.{NoCommandIsOutOfMemory};
ghost use Rattle.command_laws.specs.SizeLaws.{CommandFits, NeverLonger};
ghost use Rattle.command_laws.specs.WeightLaws.{PutWithin, TakenWithin};

/// An accepted rename names the selected layer, and no other layer has the name then; the other
/// layers, the other fields of the tile, and all of that layer but its names are as they were. By
/// this law all names of that layer might change; `applied` says which one does.
pub fn rename_names()
    ensures { RenameNames }
{}

/// An accepted move brings the selected layer to the ordinal asked for; the other layers, the other
/// fields of the tile, and both together keep their order.
pub fn move_layer_moves()
    ensures { MoveLayerMoves }
{}

/// An accepted drop removes the selected layer; everything else in the tile stays, in its order.
pub fn drop_layer_drops()
    ensures { DropLayerDrops }
{}

/// An accepted `keep` leaves those layers that have one of the names, at least one, in their order;
/// the other fields of the tile stay, in their order.
pub fn keep_layers_keeps()
    ensures { KeepLayersKeeps }
{}

/// An accepted insertion of a valid geometry puts a new feature at the ordinal asked for in the
/// selected layer, with the geometry, no id, no tags and no other field; everything else in the
/// layer stays, in its order, and no other layer or field of the tile differs.
pub fn insert_feature_inserts()
    ensures { InsertFeatureInserts }
{}

/// An accepted move brings the selected feature to the ordinal asked for in its layer; everything
/// else in the layer keeps its order, and no other layer or field of the tile differs.
pub fn move_feature_moves()
    ensures { MoveFeatureMoves }
{}

/// An accepted drop removes the selected feature from its layer; everything else in the layer
/// stays, in its order, and no other layer or field of the tile differs.
pub fn drop_feature_drops()
    ensures { DropFeatureDrops }
{}

/// An accepted id becomes that of the selected feature, in place of its last one; all of that
/// feature but its ids, and the other features, layers and fields of the tile are as they were. By
/// this law its ids might stand elsewhere among its fields or be spelled otherwise; `applied` says
/// how they are.
pub fn set_id_sets()
    ensures { SetIdSets }
{}

/// Where clearing the id is accepted, the selected feature has none; no other field of it, and no
/// other feature, layer or field of the tile differs.
pub fn clear_id_clears()
    ensures { ClearIdClears }
{}

/// A name selects the layer of an ordinal exactly where only that layer has it.
pub fn name_means_the_one()
    ensures { NameMeansTheOne }
{}

/// A name is refused as that of no layer exactly where no layer has it.
pub fn name_means_none()
    ensures { NameMeansNone }
{}

/// An id selects the feature of an ordinal in its layer exactly where only that feature of the
/// layer has it (`the_one`), and is refused as that of no feature exactly where none of the layer
/// has it (`none`).
pub fn id_means_a_feature()
    ensures the_one { IdMeansTheOne }
    ensures none { IdMeansNone }
{}

/// An accepted command makes a document of a document. A file has only numbers below 2^64, so a new
/// id has to be such a number, as each id of the program is.
pub fn command_makes_document()
    ensures { CommandMakesDocument }
{}

/// An accepted command on a document that a file can hold makes such a document.
pub fn command_fits()
    ensures { CommandFits }
{}

/// An accepted command makes no document longer, unless it is a rename of a layer or of a key, an
/// insertion, a new id, a value for a key, a shift or another geometry.
pub fn never_longer()
    ensures { NeverLonger }
{}

/// The items that a command takes out or replaces have, all together, no more bytes than the tile
/// that it meets, whatever the tile and the command, which may be refused (`taken`). Those that an
/// accepted command puts in have no more bytes than the tile that it makes (`put`).
#[tactic(auto, using(crate::proofs::TakenWithin::taken_within, crate::proofs::PutWithin::put_within))]
pub fn weights_within()
    ensures taken { TakenWithin }
    ensures put { PutWithin }
{}

/// With all memory no command is refused as out of memory.
pub fn no_command_is_out_of_memory()
    ensures { NoCommandIsOutOfMemory }
{}
