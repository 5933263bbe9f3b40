//! Commands that tests carry out.

use mvt_edit::{Command, FeatureChoice, LayerChoice, LayersChoice};
use mvt_geometry::{Geometry, Kind, Part, Point};
use mvt_value::NewValue;
use mvt_wire::Items;
use std::alloc::{AllocError, Global};

/// The first layer.
const FIRST: LayerChoice = LayerChoice::Ordinal(0);

/// The first feature of a layer.
const FIRST_FEATURE: FeatureChoice = FeatureChoice::Ordinal(0);

fn text(alloc: Global, bytes: &[u8]) -> Result<Items<u8>, AllocError> {
    Ok(Items::from_vec(Vec::from_slice(alloc, bytes)?))
}

/// The layer with one name gets the other.
pub fn rename(alloc: Global, from: &[u8], to: &[u8]) -> Result<Command, AllocError> {
    Ok(Command::RenameLayer {
        layer: LayerChoice::Name(text(alloc, from)?),
        name: text(alloc, to)?,
    })
}

/// The first layer gets the name.
pub fn rename_first(alloc: Global, to: &[u8]) -> Result<Command, AllocError> {
    Ok(Command::RenameLayer {
        layer: FIRST,
        name: text(alloc, to)?,
    })
}

/// The layers that have this name stay.
pub fn keep(alloc: Global, name: &[u8]) -> Result<Command, AllocError> {
    let mut names = Vec::new(alloc);
    names.push(text(alloc, name)?)?;
    Ok(Command::KeepLayers {
        names: Items::from_vec(names),
    })
}

/// A ring of three points.
fn polygon(alloc: Global) -> Result<Option<Geometry>, AllocError> {
    let ring = [(3, 6), (8, 12), (20, 34)];
    let mut points = Vec::new(alloc);
    for (x, y) in ring {
        points.push(Point { x, y })?;
    }
    let mut parts = Vec::new(alloc);
    parts.push(Part {
        points: Items::from_vec(points),
    })?;
    Ok(Geometry::new(Kind::Areas, Items::from_vec(parts)).ok())
}

/// A ring of three points is inserted into the first layer.
pub fn insert_polygon(alloc: Global, index: u64) -> Result<Option<Command>, AllocError> {
    Ok(polygon(alloc)?.map(|geometry| Command::InsertFeature {
        layer: FIRST,
        index,
        geometry,
    }))
}

/// The first feature of the first layer moves by these deltas.
pub fn shift(dx: i64, dy: i64) -> Command {
    Command::Shift {
        layer: FIRST,
        feature: FIRST_FEATURE,
        dx,
        dy,
    }
}

/// The first feature of the first layer becomes a ring of three points.
pub fn set_polygon(alloc: Global) -> Result<Option<Command>, AllocError> {
    Ok(polygon(alloc)?.map(|geometry| Command::SetGeometry {
        layer: FIRST,
        feature: FIRST_FEATURE,
        geometry,
    }))
}

pub fn move_layer(index: u64) -> Command {
    Command::MoveLayer {
        layer: FIRST,
        index,
    }
}

pub fn drop_layer() -> Command {
    Command::DropLayer { layer: FIRST }
}

pub fn move_feature(index: u64) -> Command {
    Command::MoveFeature {
        layer: FIRST,
        feature: FIRST_FEATURE,
        index,
    }
}

pub fn drop_feature() -> Command {
    Command::DropFeature {
        layer: FIRST,
        feature: FIRST_FEATURE,
    }
}

pub fn set_id(id: u64) -> Command {
    Command::SetId {
        layer: FIRST,
        feature: FIRST_FEATURE,
        id,
    }
}

pub fn clear_id() -> Command {
    Command::ClearId {
        layer: FIRST,
        feature: FIRST_FEATURE,
    }
}

/// A key of the first layer gets other bytes.
pub fn rename_key(alloc: Global, from: &[u8], to: &[u8]) -> Result<Command, AllocError> {
    Ok(Command::RenameKey {
        layer: FIRST,
        old: text(alloc, from)?,
        new: text(alloc, to)?,
    })
}

/// The first feature of the first layer gets a number for a key.
pub fn set(alloc: Global, key: &[u8], number: i64) -> Result<Command, AllocError> {
    Ok(Command::SetAttribute {
        layer: FIRST,
        feature: FIRST_FEATURE,
        key: text(alloc, key)?,
        value: NewValue::Int(number),
    })
}

/// The first feature of the first layer loses its attributes of a key.
pub fn unset(alloc: Global, key: &[u8]) -> Result<Command, AllocError> {
    Ok(Command::UnsetAttribute {
        layer: FIRST,
        feature: FIRST_FEATURE,
        key: text(alloc, key)?,
    })
}

/// No feature of any layer keeps an attribute of a key.
pub fn exclude(alloc: Global, key: &[u8]) -> Result<Command, AllocError> {
    Ok(Command::Exclude {
        layers: LayersChoice::All,
        key: text(alloc, key)?,
    })
}

/// No feature of any layer keeps an attribute.
pub fn exclude_all() -> Command {
    Command::ExcludeAll {
        layers: LayersChoice::All,
    }
}

/// No layer keeps a key that none of its features has.
pub fn compact_keys() -> Command {
    Command::CompactKeys {
        layers: LayersChoice::All,
    }
}

/// No layer keeps a value that none of its features has.
pub fn compact_values() -> Command {
    Command::CompactValues {
        layers: LayersChoice::All,
    }
}

/// No layer keeps a key or a value that none of its features has.
pub fn compact() -> Command {
    Command::Compact {
        layers: LayersChoice::All,
    }
}
