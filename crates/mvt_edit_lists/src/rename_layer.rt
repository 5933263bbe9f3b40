//! A layer gets a name: its last one becomes that, or one is added at the end.

ghost use Rattle.std.specs.Prelude.{◌≡◌, Err, false, true, IfErr, IfOk, IfSome};
ghost use Rattle.std.specs.Option.{option_map_or};
ghost use Rattle.mvt_document.specs.Opens.{IsLayerItem};
ghost use Rattle.mvt_document.specs.Plain as plain;
ghost use Rattle.mvt_document.specs.Stands.{document_of, layer_item_of, layer_of};
ghost use Rattle.mvt_document.specs.Wire.{layer_item_bytes};
ghost use Rattle.mvt_change.specs.Changes.{LayerStep};
ghost use Rattle.mvt_change.specs.ChangeStands.{step_of};
ghost use Rattle.mvt_meaning.specs.Command.{RenameLayer};
ghost use Rattle.mvt_meaning.specs.CommandStands.{layer_choice_of};
ghost use Rattle.mvt_select.specs.Found.{IsFoundLayer};
ghost use Rattle.mvt_meaning.specs.Meaning.{applied, is_name, is_taken, named_items, new_content, with_text};
ghost use Rattle.mvt_edit_steps.specs.Prepared.{Prepares};
ghost use Rattle.mvt_edit_steps.specs.PutsLast.{PutsLast};

use mvt_change::{Change, Step};
use mvt_document::tags::NAME_TAG;
use mvt_document::{Body, BodyRef, Document, Field, FieldParts, Items, Layer, LayerItem, Put, Tag};
use mvt_edit_steps::{Spot, one_step_within_limit};
use mvt_select::{FoundLayer, LayerChoice, Refusal, find_and_taken, last_name};
use std::alloc::{AllocError, Global};

/// Gives the layer the name.
pub fn rename_layer(
    alloc: Global,
    document: &Document,
    choice: &LayerChoice,
    name: &[u8],
) -> Result<Change, Refusal>
    ensures { Prepares (RenameLayer (layer_choice_of choice.now) name.now) (document_of document.now) result }
{
    let found = layer_to_rename(document, choice, name)?;
    let step = naming(alloc, found.position, found.layer, name)?;
    one_step_within_limit(alloc, document, step)
}

/// The selected layer, if no other layer has the name.
fn layer_to_rename<'a>(
    document: &'a Document,
    choice: &LayerChoice,
    name: &[u8],
) -> Result<FoundLayer<'a>, Refusal>
    ensures found { IfOk result (IsFoundLayer (layer_choice_of choice.now) (document_of document.now)) }
    ensures free { IfOk result (λ found. is_taken name.now found.ordinal (document_of document.now) ≡ false) }
    ensures refused { IfErr result (λ refusal.
        applied (RenameLayer (layer_choice_of choice.now) name.now) (document_of document.now) ≡ Err refusal) }
{
    let (found, taken) = find_and_taken(document, choice, name)?;
    if taken {
        return Err(Refusal::NameTaken);
    }
    Ok(found)
}

/// The step that gives the name to the layer at this position of the tile.
fn naming(alloc: Global, position: usize, layer: &Layer, name: &[u8]) -> Result<Step, AllocError>
    ensures { IfOk result (λ step. PutsLast IsLayerItem layer_item_bytes is_name (LayerStep position)
        (layer_of layer.now).items (named_items name.now (layer_of layer.now).items) (step_of step)) }
{
    let items = layer.items.as_slice();
    let spot = Spot::of(last_name(&layer.items), items.len());
    let item = name_item(alloc, items.get(spot.index), name)?;
    Ok(Step::InLayer {
        layer: position,
        index: spot.index,
        take: spot.take,
        put: Put::of_one(alloc, item),
    })
}

/// A name field: one with the tag and the stored width of the old one, or one in its shortest
/// spelling.
fn name_item(alloc: Global, old: Option<&LayerItem>, name: &[u8]) -> Result<LayerItem, AllocError>
    requires { IfSome old (λ item. is_name (layer_item_of item.now) ≡ true) }
    ensures item { IfOk result (λ item. layer_item_of item ≡ option_map_or (λ old. with_text name.now (layer_item_of old.now)) old.entry (plain.PlainInLayer (new_content 10 name.now))) }
    ensures valid { IfOk result (λ item. IsLayerItem (layer_item_of item)) }
{
    let bytes = Items::from_vec(Vec::from_slice(alloc, name)?);
    if let Some(LayerItem::Plain(field)) = old {
        if let BodyRef::Bytes { width, .. } = field.body() {
            return Ok(LayerItem::Plain(Field::new(FieldParts {
                tag: field.tag(),
                body: Body::Bytes { width, bytes },
            })));
        }
    }
    Ok(LayerItem::Plain(Field::new(FieldParts {
        tag: Tag::minimal(NAME_TAG),
        body: Body::Bytes { width: 1, bytes },
    })))
}
