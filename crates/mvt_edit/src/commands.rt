//! `prepare`: the change of a command.

ghost use Rattle.mvt_document.specs.Stands.{document_of};
ghost use Rattle.mvt_meaning.specs.CommandStands.{command_of};
ghost use Rattle.mvt_edit_steps.specs.Prepared.{Prepares};

use mvt_change::Change;
use mvt_document::Document;
use mvt_edit_attributes::exclude::exclude;
use mvt_edit_attributes::exclude_all::exclude_all;
use mvt_edit_attributes::rename_key::rename_key;
use mvt_edit_attributes::set_attribute::set_attribute;
use mvt_edit_attributes::unset::unset;
use mvt_edit_geometry::set_geometry::set_geometry;
use mvt_edit_geometry::shift::shift;
use mvt_edit_lists::clear_id::clear_id;
use mvt_edit_lists::drop_feature::drop_feature;
use mvt_edit_lists::drop_layer::drop_layer;
use mvt_edit_lists::insert_feature::insert_feature;
use mvt_edit_lists::keep_layers::keep_layers;
use mvt_edit_lists::move_feature::move_feature;
use mvt_edit_lists::move_layer::move_layer;
use mvt_edit_lists::rename_layer::rename_layer;
use mvt_edit_lists::set_id::set_id;
use mvt_edit_pools::compact::{Pools, compact};
use mvt_meaning::{Command, Refusal};
use std::alloc::Global;

/// The change that carries out the command on this document.
pub fn prepare(alloc: Global, document: &Document, command: &Command) -> Result<Change, Refusal>
    ensures { Prepares (command_of command.now) (document_of document.now) result }
{
    match command {
        Command::RenameLayer { layer, name } => rename_layer(
            alloc,
            document,
            layer,
            name.as_slice(),
        ),
        Command::MoveLayer { layer, index } => move_layer(alloc, document, layer, *index),
        Command::DropLayer { layer } => drop_layer(alloc, document, layer),
        Command::KeepLayers { names } => keep_layers(alloc, document, names.as_slice()),
        Command::InsertFeature {
            layer,
            index,
            geometry,
        } => insert_feature(alloc, document, layer, *index, geometry),
        Command::MoveFeature {
            layer,
            feature,
            index,
        } => move_feature(alloc, document, layer, feature, *index),
        Command::DropFeature { layer, feature } => drop_feature(alloc, document, layer, feature),
        Command::SetId { layer, feature, id } => set_id(alloc, document, layer, feature, *id),
        Command::ClearId { layer, feature } => clear_id(alloc, document, layer, feature),
        Command::SetAttribute {
            layer,
            feature,
            key,
            value,
        } => set_attribute(alloc, document, layer, feature, key.as_slice(), value),
        Command::UnsetAttribute {
            layer,
            feature,
            key,
        } => unset(alloc, document, layer, feature, key.as_slice()),
        Command::RenameKey { layer, old, new } => rename_key(
            alloc,
            document,
            layer,
            old.as_slice(),
            new.as_slice(),
        ),
        Command::Exclude { layers, key } => exclude(alloc, document, layers, key.as_slice()),
        Command::ExcludeAll { layers } => exclude_all(alloc, document, layers),
        Command::Shift {
            layer,
            feature,
            dx,
            dy,
        } => shift(alloc, document, layer, feature, *dx, *dy),
        Command::SetGeometry {
            layer,
            feature,
            geometry,
        } => set_geometry(alloc, document, layer, feature, geometry),
        Command::CompactKeys { layers } => compact(alloc, document, layers, Pools::Keys),
        Command::CompactValues { layers } => compact(alloc, document, layers, Pools::Values),
        Command::Compact { layers } => compact(alloc, document, layers, Pools::Both),
    }
}
