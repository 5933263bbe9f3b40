//! What a feature gets for an attribute: its last tags with one more pair, or with another number
//! in place of one of theirs; and how many bytes the fields take then.

ghost use Rattle.std.specs.Prelude.{◌≡◌, ◌+◌, ◌≤◌, None, true, [], ◌++◌, IfOk, IfSome, filter, length, map, option_map, is_some, if◌then◌else◌};
ghost use Rattle.std.specs.List.{cons_option, flat_map, last_or};
ghost use Rattle.std.specs.Option.{option_map_or};
ghost use Rattle.mvt_document.specs.Opens.{IsField};
ghost use Rattle.mvt_document.specs.Stands.{field_of};
ghost use Rattle.mvt_document.specs.Wire.{field_bytes, shortest};
ghost use Rattle.mvt_change.specs.FileSizes.{IsFileSize};
ghost use Rattle.mvt_renumber.specs.Fates.{changes, fate_seen};
ghost use Rattle.mvt_messages.specs.Views.{content_in};
ghost use Rattle.mvt_meaning.specs.Fields.{new_content};
ghost use Rattle.mvt_meaning.specs.Tagging.{is_packed_last, is_tags, with_more_content};
ghost use Rattle.mvt_meaning.specs.Ordinals.{positions_of};
ghost use Rattle.mvt_edit_steps.specs.Decided.{field_fates};
ghost use Rattle.mvt_edit_steps.specs.Fates.{seen, splice_of, splices_of};
ghost use Rattle.mvt_edit_attributes.specs.Attribute.{PutsPair, fields_with, run_for};

use mvt_document::tags::{LEN, TAGS};
use mvt_document::{
    Body, BodyRef, Field, FieldParts, Items, MAX_FILE, Tag, Varint, size_beside_part, size_of_all,
    sum_within,
};
use mvt_edit_steps::{Fate, Run, Spot, is_tags};
use mvt_renumber::renumber_field;
use std::alloc::{AllocError, Global};

const TAGS_TAG: u64 = 8 * TAGS + LEN;

/// The run that puts these two numbers after those of the last tags field, if that is packed, and
/// otherwise a new one with them at the end.
pub(crate) fn and_pair(
    alloc: Global,
    fields: &[Field],
    key: u64,
    value: u64,
) -> Result<Run<Field>, AllocError>
    ensures { IfOk result (λ run. PutsPair (shortest key ++ shortest value) (map field_of fields.now) (seen field_of (splice_of run))) }
{
    let spot = Spot::of(last_packed(fields), fields.len());
    let mut put = Vec::new(alloc);
    put.push(longer_tags(alloc, fields.get(spot.index), key, value)?)?;
    Ok(Run {
        index: spot.index,
        take: spot.take,
        put,
    })
}

/// The position of the last tags field, if that is packed.
fn last_packed(fields: &[Field]) -> Option<usize>
    ensures { result ≡ (if is_packed_last (map field_of fields.now) then last_or None (positions_of is_tags (map field_of fields.now)) else None) }
{
    let position = last_tags(fields)?;
    if is_packed(fields.get(position)?) {
        Some(position)
    } else {
        None
    }
}

/// A field of tags that is packed.
fn is_packed(field: &Field) -> bool
    ensures { result ≡ is_some (content_in 2 (field_of field.now)) }
{
    field.number() == TAGS && matches!(field.body(), BodyRef::Bytes { .. })
}

/// The position of the last tags field.
fn last_tags(fields: &[Field]) -> Option<usize>
    ensures { result ≡ last_or None (positions_of is_tags (map field_of fields.now)) }
{
    let mut last = None;
    for (position, field) in fields.iter().enumerate() {
        if is_tags(field) {
            last = Some(position);
        }
    }
    last
}

/// A tags field with these two numbers: after those of the old one, with its tag and its stored
/// width, or alone.
fn longer_tags(
    alloc: Global,
    old: Option<&Field>,
    key: u64,
    value: u64,
) -> Result<Field, AllocError>
    requires { IfSome old (λ field. is_some (content_in 2 (field_of field.now)) ≡ true) }
    ensures field { IfOk result (λ field. field_of field ≡ option_map_or (λ old. with_more_content (shortest key ++ shortest value) (field_of old.now)) old.entry (new_content 18 (shortest key ++ shortest value))) }
    ensures valid { IfOk result (λ field. IsField (field_of field)) }
{
    if let Some(field) = old {
        if let BodyRef::Bytes { width, bytes } = field.body() {
            let bytes = and_numbers(alloc, bytes, key, value)?;
            return Ok(Field::new(FieldParts {
                tag: field.tag(),
                body: Body::Bytes { width, bytes },
            }));
        }
    }
    let bytes = and_numbers(alloc, &[], key, value)?;
    Ok(Field::new(FieldParts {
        tag: Tag::minimal(TAGS_TAG),
        body: Body::Bytes { width: 1, bytes },
    }))
}

/// The bytes with both numbers after them, each in its shortest spelling.
fn and_numbers(
    alloc: Global,
    bytes: &[u8],
    first: u64,
    second: u64,
) -> Result<Items<u8>, AllocError>
    ensures { IfOk result (λ more. more.items ≡ bytes.now ++ (shortest first ++ shortest second)) }
{
    let (first, second) = (Varint::minimal(first), Varint::minimal(second));
    let more = usize::from(first.width) + usize::from(second.width);
    let mut made = Vec::with_capacity(alloc, bytes.len() + more)?;
    made.extend_from_slice(bytes)?;
    first.put(&mut made)?;
    second.put(&mut made)?;
    Ok(Items::from_vec(made))
}

/// The run that carries out what becomes of the fields by a decision for each number of their tags,
/// where at most one of them changes.
pub(crate) fn first_renumbered(
    alloc: Global,
    fields: &[Field],
    decisions: &[Option<u64>],
) -> Result<Option<Run<Field>>, AllocError>
    requires { length (filter changes (field_fates 2 decisions.now (map field_of fields.now))) ≤ 1 }
    ensures { IfOk result (λ run. splices_of (field_fates 2 decisions.now (map field_of fields.now)) ≡ cons_option (option_map (λ run. seen field_of (splice_of run)) run) []) }
{
    let mut left = decisions;
    for index in 0..fields.len() {
        let (fate, following) = renumber_field(alloc, &fields[index], TAGS, left)?;
        let run = run_for(alloc, index, fate)?;
        if run.is_some() {
            return Ok(run);
        }
        left = following;
    }
    Ok(None)
}

/// The run for a field of this fate at this index, if it changes.
fn run_for(alloc: Global, index: usize, fate: Fate<Field>) -> Result<Option<Run<Field>>, AllocError>
    ensures { IfOk result (λ run. option_map (λ run. seen field_of (splice_of run)) run ≡ run_for index (fate_seen field_of fate)) }
{
    let mut put = Vec::new(alloc);
    match fate {
        Fate::Stays => return Ok(None),
        Fate::Goes => {}
        Fate::Becomes(field) => put.push(field)?,
    }
    Ok(Some(Run {
        index,
        take: 1,
        put,
    }))
}

/// How many bytes the fields take once the run, if there is one, is carried out, if that is within
/// the limit of a file.
pub(crate) fn size_with(fields: &[Field], run: &Option<Run<Field>>) -> Option<usize>
    requires { IfSome run.now (λ run. run.index + run.take ≤ length fields.now) }
    ensures { IsFileSize result (length (flat_map field_bytes (fields_with (map field_of fields.now) (option_map (λ run. seen field_of (splice_of run)) run.now)))) }
{
    match run {
        None => size_of_all(fields, MAX_FILE),
        Some(run) => {
            let beside = size_beside_part(fields, run.index, run.take, MAX_FILE)?;
            let put = size_of_all(run.put.as_slice(), MAX_FILE)?;
            sum_within(beside, put, MAX_FILE)
        }
    }
}
