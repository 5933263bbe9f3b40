//! Layers with other names are removed.

ghost use Rattle.std.specs.Prelude.{◌≡◌, false, IfOk, map};
ghost use Rattle.std.specs.List.{list_any};
ghost use Rattle.std.specs.List.Sorted.{IsPermutation};
ghost use Rattle.std.specs.Option.{option_copied, option_map_or};
ghost use Rattle.std.specs.Str.{bytes_eq};
ghost use Rattle.mvt_document.specs.Stands.{document_of, tile_item_of};
ghost use Rattle.mvt_meaning.specs.Command.{KeepLayers};
ghost use Rattle.mvt_meaning.specs.Meaning.{is_kept};
ghost use Rattle.mvt_edit_lists.specs.Names.{AreInOrder};
ghost use Rattle.mvt_edit_steps.specs.Prepared.{Prepares};

use mvt_change::Change;
use mvt_document::{Document, Items, TileItem};
use mvt_edit_steps::{carry_out, goes_if};
use mvt_layers::{LayerView, layer_count};
use mvt_select::Refusal;
use std::alloc::{AllocError, Global};

/// Keeps the layers that have one of the names. The names are put in order once, and each layer's
/// name is looked up among them by binary search.
pub fn keep_layers(
    alloc: Global,
    document: &Document,
    names: &[Items<u8>],
) -> Result<Change, Refusal>
    ensures { Prepares (KeepLayers (map (λ name. name.items) names.now)) (document_of document.now) result }
{
    let ordered = in_order(alloc, names)?;
    let ordered = ordered.as_slice();
    let items = document.items.as_slice();
    let mut steps = Vec::new(alloc);
    let gone = carry_out(
        alloc,
        items,
        |item| Ok(goes_if(!is_kept(item, ordered))),
        |run| run.in_tile(),
        &mut steps,
    )?;
    // Only layers go, so none stays if as many go as there are.
    if gone == layer_count(document) {
        return Err(Refusal::NoLayer);
    }
    Ok(Change::new(steps))
}

/// The names, by their bytes.
fn in_order(alloc: Global, names: &[Items<u8>]) -> Result<Vec<&[u8]>, AllocError>
    ensures sorted { IfOk result (λ ordered. AreInOrder ordered.items) }
    ensures same { IfOk result (λ ordered. IsPermutation (map (λ name. name.items) names.now) (map (λ name. name.now) ordered.items)) }
{
    let mut ordered = Vec::with_capacity(alloc, names.len())?;
    for name in names {
        ordered.push(name.as_slice())?;
    }
    ordered.sort_unstable();
    Ok(ordered)
}

fn is_kept(item: &TileItem, names: &[&[u8]]) -> bool
    requires { AreInOrder names.now }
    ensures { result ≡ is_kept (map (λ name. name.now) names.now) (tile_item_of item.now) }
{
    match item {
        TileItem::Layer(layer) => is_one_of(LayerView::of(layer).name(), names),
        TileItem::Plain(_) => true,
    }
}

/// There is a text, and it is one of the names.
fn is_one_of(text: Option<&[u8]>, names: &[&[u8]]) -> bool
    requires { AreInOrder names.now }
    ensures { result ≡ list_any (λ name. option_map_or (bytes_eq name) (option_copied text.entry) false) (map (λ name. name.now) names.now) }
{
    match text {
        Some(text) => names.binary_search(&text).is_ok(),
        None => false,
    }
}
