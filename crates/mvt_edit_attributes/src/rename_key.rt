//! The keys of a layer that have some bytes get other bytes.

ghost use Rattle.std.specs.Prelude.{◌≡◌, ℕ, ◌+◌, List, [], ◌∷◌, ◌++◌, IfOk, IfSome, Some, is_some, length, map, not, slice_get};
ghost use Rattle.std.specs.List.{filter, flat_map};
ghost use Rattle.mvt_document.specs.Plain as plain;
ghost use Rattle.mvt_document.specs.Bodies.{number_of};
ghost use Rattle.mvt_document.specs.Stands.{document_of, layer_item_of, layer_of};
ghost use Rattle.mvt_document.specs.Wire.{layer_item_bytes};
ghost use Rattle.mvt_change.specs.Changes.{LayerStep};
ghost use Rattle.mvt_change.specs.ChangeStands.{change_of};
ghost use Rattle.mvt_change.specs.FileSizes.{IsFileSize};
ghost use Rattle.mvt_meaning.specs.Command.{RenameKey};
ghost use Rattle.mvt_meaning.specs.CommandStands.{layer_choice_of};
ghost use Rattle.mvt_meaning.specs.Tagging.{is_key};
ghost use Rattle.mvt_renumber.specs.Fates.{fate_seen};
ghost use Rattle.mvt_edit_steps.specs.Fates.{splices_of};
ghost use Rattle.mvt_edit_steps.specs.Prepared.{Prepares};
ghost use Rattle.mvt_edit_attributes.specs.KeyFates.{FindsKeys, key_fate, may_rename};

use mvt_change::{Change, fits_with_items};
use mvt_document::tags::KEYS;
use mvt_document::{
    Body, BodyRef, Document, Field, FieldParts, Items, LayerItem, MAX_FILE, Measured, Message, Tag,
    message_size, sum_within,
};
use mvt_edit_steps::{Fate, carry_out};
use mvt_layers::FoundLayer;
use mvt_select::{LayerChoice, Refusal, find_layer};
use std::alloc::{AllocError, Global};

/// Each key of the layer that is the old one becomes the new one. If both are the same the change
/// has no step.
pub fn rename_key(
    alloc: Global,
    document: &Document,
    choice: &LayerChoice,
    old: &[u8],
    new: &[u8],
) -> Result<Change, Refusal>
    ensures prepares { Prepares (RenameKey (layer_choice_of choice.now) old.now new.now) (document_of document.now) result }
    ensures same { old.now ≡ new.now → IfOk result (λ change. change_of change ≡ []) }
{
    let found = find_layer(document, choice)?;
    check(document, found, old, new)?;
    if old == new {
        return Ok(Change::new(Vec::new(alloc)));
    }
    let items = found.layer.items.as_slice();
    Ok(renaming(alloc, found.position, items, old, new)?)
}

/// Whether the keys of the layer can be renamed: the old one is there, the new one is not, unless
/// both are the same, and a file can hold the tile that results.
fn check(document: &Document, found: FoundLayer<'_>, old: &[u8], new: &[u8]) -> Result<(), Refusal>
    requires { slice_get (document_of document.now) found.position ≡ Some (plain.OfLayer (layer_of found.layer.now)) }
    ensures { result ≡ may_rename old.now new.now found.entry.position (layer_of found.entry.layer.now).items (document_of document.now) }
{
    let items = &found.layer.items;
    let keys = look_for(items, old, new);
    if !keys.there {
        return Err(Refusal::NoKey);
    }
    if keys.is_taken(old, new) {
        return Err(Refusal::KeyTaken);
    }
    let size = and_size(size_of_others(items, old, keys.gone), keys.come);
    if !fits_with_items(document, found.position, size) {
        return Err(Refusal::TooLarge);
    }
    Ok(())
}

/// What a walk over the keys of a layer finds of an old key and of a new one: whether they are
/// there, how many bytes the keys that are the old one take, and how many these take with the bytes
/// of the new one, each if it is within the limit of a file.
#[derive(Clone, Copy)]
struct Keys {
    there: bool,
    taken: bool,
    gone: Option<usize>,
    come: Option<usize>,
}

impl Keys {
    ghost use Rattle.std.specs.Prelude.{◌≡◌, ◌&&◌, not};
    ghost use Rattle.std.specs.Str.{bytes_eq};

    /// Whether the new key is there, and is not the old one.
    fn is_taken(self, old: &[u8], new: &[u8]) -> bool
        ensures { result ≡ (self.taken && not (bytes_eq old.now new.now)) }
    {
        self.taken && old != new
    }
}

/// Only the items of the run of keys are gone through, and those of which no run is known.
fn look_for(items: &Message<LayerItem>, old: &[u8], new: &[u8]) -> Keys
    ensures { FindsKeys old.now new.now (map layer_item_of items.now.items) result }
{
    let run = items.runs().keys;
    let items = items.as_slice();
    let none = Keys {
        there: false,
        taken: false,
        gone: Some(0),
        come: Some(0),
    };
    let keys = and_items(none, &items[run.first..run.first + run.count], old, new);
    and_items(keys, &items[run.until..], old, new)
}

/// The same with more items.
fn and_items(mut keys: Keys, items: &[LayerItem], old: &[u8], new: &[u8]) -> Keys
    ensures { (before : List plain.LayerItem) → FindsKeys old.now new.now before keys → FindsKeys old.now new.now (before ++ map layer_item_of items.now) result }
{
    for item in items {
        keys = and_item(keys, item, old, new);
    }
    keys
}

/// The same with one more item.
fn and_item(keys: Keys, item: &LayerItem, old: &[u8], new: &[u8]) -> Keys
    ensures { (items : List plain.LayerItem) → FindsKeys old.now new.now items keys → FindsKeys old.now new.now (items ++ layer_item_of item.now ∷ []) result }
{
    let taken = keys.taken || key_field(item, new).is_some();
    match key_field(item, old) {
        Some((tag, width)) => Keys {
            there: true,
            taken,
            gone: and_size(keys.gone, item.size()),
            come: and_size(keys.come, message_size(tag, width, new.len(), MAX_FILE)),
        },
        None => Keys { taken, ..keys },
    }
}

/// The sum of both sizes, if that is within the limit of a file.
fn and_size(size: Option<usize>, more: Option<usize>) -> Option<usize>
    ensures { (first second : ℕ) → IsFileSize size first → IsFileSize more second → IsFileSize result (first + second) }
{
    sum_within(size?, more?, MAX_FILE)
}

/// How many bytes the items that are not the old key take, if that is within the limit of a file.
/// `gone` is what the old keys take. If the list keeps how many bytes all its items take, no item
/// is measured.
fn size_of_others(items: &Message<LayerItem>, old: &[u8], gone: Option<usize>) -> Option<usize>
    requires { IsFileSize gone (length (flat_map layer_item_bytes (filter (is_key old.now) (map layer_item_of items.now.items)))) }
    ensures { IsFileSize result (length (flat_map layer_item_bytes (filter (λ item. not (is_key old.now item)) (map layer_item_of items.now.items)))) }
{
    match (items.known_size(), gone) {
        (Some(sum), Some(gone)) => sum_within(sum - gone, 0, MAX_FILE),
        _ => measure_others(items.as_slice(), old),
    }
}

/// The same, where each of the others is measured.
fn measure_others(items: &[LayerItem], old: &[u8]) -> Option<usize>
    ensures { IsFileSize result (length (flat_map layer_item_bytes (filter (λ item. not (is_key old.now item)) (map layer_item_of items.now)))) }
{
    let mut size = Some(0);
    for item in items {
        if key_field(item, old).is_none() {
            size = and_size(size, item.size());
        }
    }
    size
}

/// The tag and the stored width of the item, if it is a key of these bytes.
fn key_field(item: &LayerItem, key: &[u8]) -> Option<(Tag, u8)>
    ensures there { is_some result ≡ is_key key.now (layer_item_of item.now) }
    ensures parts { IfSome result (λ parts. layer_item_of item.now ≡ plain.PlainInLayer (record { tag = number_of parts.0; body = plain.Delimited parts.1 key.now })) }
{
    let LayerItem::Plain(field) = item else {
        return None;
    };
    if field.number() != KEYS {
        return None;
    }
    match field.body() {
        BodyRef::Bytes { width, bytes } if bytes == key => Some((field.tag(), width)),
        _ => None,
    }
}

/// The steps that rename the keys of the layer at this position of the tile.
fn renaming(
    alloc: Global,
    layer: usize,
    items: &[LayerItem],
    old: &[u8],
    new: &[u8],
) -> Result<Change, AllocError>
    ensures { IfOk result (λ change. change_of change ≡ map (λ s. LayerStep layer s.index s.taken s.put) (splices_of (map (key_fate old.now new.now) (map layer_item_of items.now)))) }
{
    let mut steps = Vec::new(alloc);
    carry_out(
        alloc,
        items,
        |item| fate_of(alloc, item, old, new),
        |run| Ok(run.in_layer(layer)),
        &mut steps,
    )?;
    Ok(Change::new(steps))
}

/// A key that is the old one becomes the new one, with its tag and its stored width.
fn fate_of(
    alloc: Global,
    item: &LayerItem,
    old: &[u8],
    new: &[u8],
) -> Result<Fate<LayerItem>, AllocError>
    ensures { IfOk result (λ fate. fate_seen layer_item_of fate ≡ key_fate old.now new.now (layer_item_of item.now)) }
{
    Ok(match key_field(item, old) {
        Some((tag, width)) => Fate::Becomes(LayerItem::Plain(Field::new(FieldParts {
            tag,
            body: Body::Bytes {
                width,
                bytes: Items::from_vec(Vec::from_slice(alloc, new)?),
            },
        }))),
        None => Fate::Stays,
    })
}
