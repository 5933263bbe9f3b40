//! A list inside a document, changed in place.

ghost use Rattle.std.specs.Prelude.{◌≡◌};
ghost use Rattle.std.specs.Option.{IsSomeAnd, option_and_then};
ghost use Rattle.mvt_document.specs.Made.{MakesThere, TakesList};
ghost use Rattle.mvt_document.specs.HeldPlaces.{change_held_at, change_held_fields, change_held_items, held_fields_at, held_fields_in, held_fields_in_at, held_items_at, held_items_in, in_held_feature, in_held_layer};

use crate::document::{Document, LayerItem, TileItem};
use crate::field::Field;
use crate::items::Items;
use crate::message::Message;

impl Document {
    /// Changes the items of the layer at this position, and the values beside them. The list becomes
    /// what `change` makes of it, and everything else is kept.
    pub fn change_items<W, R, F: FnOnce(&mut Message<LayerItem>, &mut [W]) -> R>(
        &mut self,
        layer: usize,
        beside: &mut [W],
        change: F,
    ) -> R
        requires { IsSomeAnd (held_items_at layer self.old) (λ list. TakesList F.FnOnce change list beside.old) }
        ensures { MakesThere F.FnOnce change (held_items_at layer self.old) beside.old result beside.new (λ made. self.new ≡ change_held_items (λ _. made) layer self.old) }
    {
        self.items.change_item(
            layer,
            beside,
            |item, beside|
                requires { IsSomeAnd (held_items_in item.old) (λ list. TakesList F.FnOnce change list beside.old) }
                ensures { MakesThere F.FnOnce change (held_items_in item.old) beside.old result beside.new (λ made. item.new ≡ in_held_layer (λ _. made) item.old) }
            { change_in_layer(item, beside, change) },
        )
    }

    /// Changes the fields of the feature at this position of that layer, and the values beside them.
    /// The list becomes what `change` makes of it, and everything else is kept.
    pub fn change_fields<W, R, F: FnOnce(&mut Items<Field>, &mut [W]) -> R>(
        &mut self,
        layer: usize,
        item: usize,
        beside: &mut [W],
        change: F,
    ) -> R
        requires { IsSomeAnd (held_fields_at layer item self.old) (λ list. TakesList F.FnOnce change list beside.old) }
        ensures { MakesThere F.FnOnce change (held_fields_at layer item self.old) beside.old result beside.new (λ made. self.new ≡ change_held_fields (λ _. made) layer item self.old) }
    {
        self.change_items(
            layer,
            beside,
            |items, beside|
                requires { IsSomeAnd (held_fields_in_at item items.old) (λ list. TakesList F.FnOnce change list beside.old) }
                ensures { MakesThere F.FnOnce change (held_fields_in_at item items.old) beside.old result beside.new (λ made. items.new ≡ change_held_at (in_held_feature (λ _. made)) item items.old) }
            { change_fields_in(items, item, beside, change) },
        )
    }
}

/// Changes the fields of the feature at this position of a layer, and the values beside them. The list
/// becomes what `change` makes of it, and everything else is kept.
pub fn change_fields_in<W, R, F: FnOnce(&mut Items<Field>, &mut [W]) -> R>(
    items: &mut Message<LayerItem>,
    item: usize,
    beside: &mut [W],
    change: F,
) -> R
    requires { IsSomeAnd (held_fields_in_at item items.old) (λ list. TakesList F.FnOnce change list beside.old) }
    ensures { MakesThere F.FnOnce change (held_fields_in_at item items.old) beside.old result beside.new (λ made. items.new ≡ change_held_at (in_held_feature (λ _. made)) item items.old) }
{
    items.change_item(
        item,
        beside,
        |item, beside|
            requires { IsSomeAnd (held_fields_in item.old) (λ list. TakesList F.FnOnce change list beside.old) }
            ensures { MakesThere F.FnOnce change (held_fields_in item.old) beside.old result beside.new (λ made. item.new ≡ in_held_feature (λ _. made) item.old) }
        { change_in_feature(item, beside, change) },
    )
}

/// Changes the fields of a feature.
fn change_in_feature<W, R, F: FnOnce(&mut Items<Field>, &mut [W]) -> R>(
    item: &mut LayerItem,
    beside: &mut [W],
    change: F,
) -> R
    requires { IsSomeAnd (held_fields_in item.old) (λ list. TakesList F.FnOnce change list beside.old) }
    ensures { MakesThere F.FnOnce change (held_fields_in item.old) beside.old result beside.new (λ made. item.new ≡ in_held_feature (λ _. made) item.old) }
{
    match item {
        LayerItem::Feature(feature) => feature.change(beside, change),
        LayerItem::Plain(_) => unreachable!(),
    }
}

/// Changes the items of a layer.
fn change_in_layer<W, R, F: FnOnce(&mut Message<LayerItem>, &mut [W]) -> R>(
    item: &mut TileItem,
    beside: &mut [W],
    change: F,
) -> R
    requires { IsSomeAnd (held_items_in item.old) (λ list. TakesList F.FnOnce change list beside.old) }
    ensures { MakesThere F.FnOnce change (held_items_in item.old) beside.old result beside.new (λ made. item.new ≡ in_held_layer (λ _. made) item.old) }
{
    match item {
        TileItem::Layer(layer) => change(&mut layer.items, beside),
        TileItem::Plain(_) => unreachable!(),
    }
}
