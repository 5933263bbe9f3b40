//! The position of the last name of a layer.

ghost use Rattle.std.specs.Prelude.{◌≡◌, None, map};
ghost use Rattle.std.specs.List.{last_or};
ghost use Rattle.mvt_document.specs.Stands.{layer_item_of};
ghost use Rattle.mvt_meaning.specs.Meaning.{is_name};
ghost use Rattle.mvt_meaning.specs.Ordinals.{positions_of};

use mvt_document::{LayerItem, Message};

/// The position of the last name field.
pub fn last_name(items: &Message<LayerItem>) -> Option<usize>
    ensures { result ≡ last_or None (positions_of is_name (map layer_item_of items.now.items)) }
{
    let found = mvt_layers::last_name(items)?;
    Some(found.position)
}
