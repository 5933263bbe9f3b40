//! The commands with their arguments, and how layers and features are selected.

ghost use Rattle.mvt_meaning.specs.Command.{IsCommand};
ghost use Rattle.mvt_meaning.specs.CommandStands.{command_of};

use mvt_document::Items;
use mvt_geometry::Geometry;
use mvt_value::NewValue;

/// The selected layer.
#[derive(Debug, Drop)]
pub enum LayerChoice {
    /// The ordinal among the layers, from 0.
    Ordinal(u64),
    /// The bytes of the name.
    Name(Items<u8>),
}

/// The selected layers.
#[derive(Debug, Drop)]
pub enum LayersChoice {
    One(LayerChoice),
    All,
}

/// The selected feature of a layer.
#[derive(Debug, Drop)]
pub enum FeatureChoice {
    /// The ordinal among the features of the layer, from 0.
    Ordinal(u64),
    /// The id.
    Id(u64),
}

/// A change to the tile. An index is the ordinal at which the layer or feature is placed.
#[derive(Debug, Drop)]
pub enum Command {
    RenameLayer {
        layer: LayerChoice,
        name: Items<u8>,
    },
    MoveLayer {
        layer: LayerChoice,
        index: u64,
    },
    DropLayer {
        layer: LayerChoice,
    },
    /// Keeps the layers that have one of the names.
    KeepLayers {
        names: Items<Items<u8>>,
    },
    InsertFeature {
        layer: LayerChoice,
        index: u64,
        geometry: Geometry,
    },
    MoveFeature {
        layer: LayerChoice,
        feature: FeatureChoice,
        index: u64,
    },
    DropFeature {
        layer: LayerChoice,
        feature: FeatureChoice,
    },
    SetId {
        layer: LayerChoice,
        feature: FeatureChoice,
        id: u64,
    },
    ClearId {
        layer: LayerChoice,
        feature: FeatureChoice,
    },
    SetAttribute {
        layer: LayerChoice,
        feature: FeatureChoice,
        key: Items<u8>,
        value: NewValue,
    },
    UnsetAttribute {
        layer: LayerChoice,
        feature: FeatureChoice,
        key: Items<u8>,
    },
    RenameKey {
        layer: LayerChoice,
        old: Items<u8>,
        new: Items<u8>,
    },
    /// Removes the attributes of one key.
    Exclude {
        layers: LayersChoice,
        key: Items<u8>,
    },
    /// Removes all attributes.
    ExcludeAll {
        layers: LayersChoice,
    },
    /// Moves the geometry by these deltas.
    Shift {
        layer: LayerChoice,
        feature: FeatureChoice,
        dx: i64,
        dy: i64,
    },
    SetGeometry {
        layer: LayerChoice,
        feature: FeatureChoice,
        geometry: Geometry,
    },
    /// Removes the keys that no feature uses.
    CompactKeys {
        layers: LayersChoice,
    },
    /// Removes the values that no feature uses.
    CompactValues {
        layers: LayersChoice,
    },
    /// Removes the keys and the values that no feature uses.
    Compact {
        layers: LayersChoice,
    },
}

impl Command {
    /// Does nothing: a command of the program is always valid, since its numbers have 64 bits.
    pub fn known(&self)
        ensures { IsCommand (command_of self.now) }
    {
        if let Command::SetId { id, .. } = self {
            let _below = *id;
        }
    }
}
