//! The field at the beginning of some bytes, with its body where it is.

ghost use Rattle.std.specs.Prelude.{◌≡◌, ℕ, ◌^◌, ◌<◌, ◌≤◌, length, take, IfSome, IfNone, OnOk, IfOk};
ghost use Rattle.mvt_document.specs.Wire.{spell, spelling, body_bytes, field_bytes};
ghost use Rattle.mvt_document.specs.Begins.{Begins};
ghost use Rattle.mvt_document.specs.Groups.{IsNumber, IsFlatBody, StoresField};
ghost use Rattle.mvt_document.specs.Opens.{IsField};
ghost use Rattle.mvt_document.specs.Parts.{IsWholeBody, IsWholeField};
ghost use Rattle.mvt_document.specs.Stands.{field_of};
ghost use Rattle.mvt_document.specs.Bodies.{body_seen};
ghost use Rattle.mvt_wire.specs.Fronts.{front_of};

use crate::groups::group_at_front;
use mvt_document::tags::{I32, I64, LEN, SGROUP, VARINT};
use mvt_document::{BodyRef, Field, Tag, Varint, read_varint};
use std::alloc::{AllocError, Global};

/// A field whose bytes are in the message that it was read from.
#[derive(Clone, Copy, Debug)]
pub struct FieldRef<'a> {
    pub tag: Varint,
    pub body: BodyRef<'a>,
}

/// The field at the front, and how many bytes it takes.
#[inline(always)]
pub fn field_at_front(bytes: &[u8]) -> Option<(FieldRef<'_>, usize)>
    ensures within { IfSome result (λ found. found.1 ≤ length bytes.now) }
    ensures spelled { IfSome result (λ found. take found.1 bytes.now ≡ field_bytes (front_of found.0)) }
    ensures valid { IfSome result (λ found. IsField (front_of found.0)) }
    ensures stored { IfSome result (λ found. StoresField (front_of found.0)) }
    ensures none { IfNone result (¬ Begins IsWholeField field_bytes bytes.now) }
{
    let tag = read_tag(bytes)?;
    let start = usize::from(tag.width);
    let (body, length) = body_at_front(tag.value, &bytes[start..])?;
    Some((FieldRef { tag, body }, start + length))
}

/// The tag at the front: a number of at most 32 bits, with a field number of at least 1.
#[inline(always)]
pub(crate) fn read_tag(bytes: &[u8]) -> Option<Varint>
    ensures within { IfSome result (λ tag. tag.width ≤ length bytes.now) }
    ensures found { IfSome result (λ tag. take tag.width bytes.now ≡ spell tag.value tag.width) }
    ensures low { IfSome result (λ tag. 8 ≤ tag.value) }
    ensures high { IfSome result (λ tag. tag.value < 2 ^ 32) }
    ensures none { IfNone result (¬ Begins (λ tag. IsNumber tag × (8 ≤ tag.value) × (tag.value < 2 ^ 32)) spelling bytes.now) }
{
    let tag = read_varint(bytes)?;
    if tag.value < 8 || tag.value > 0xffff_ffff {
        return None;
    }
    Some(tag)
}

/// The body after a tag of this value, and how many bytes it takes.
#[inline(always)]
fn body_at_front(tag: u64, bytes: &[u8]) -> Option<(BodyRef<'_>, usize)>
    requires { tag < 2 ^ 32 }
    ensures within { IfSome result (λ found. found.1 ≤ length bytes.now) }
    ensures spelled { IfSome result (λ found. take found.1 bytes.now ≡ body_bytes (body_seen found.0)) }
    ensures whole { IfSome result (λ found. IsWholeBody tag (body_seen found.0)) }
    ensures none { IfNone result (¬ Begins (IsWholeBody tag) body_bytes bytes.now) }
{
    match tag % 8 {
        SGROUP => {
            let length = group_at_front((tag / 8) as u32, bytes)?;
            Some((BodyRef::Group(&bytes[..length]), length))
        }
        wire_type => flat_body_at_front(wire_type, bytes),
    }
}

/// The body of this wire type at the front, if it is not a group, and how many bytes it takes.
#[inline(always)]
pub(crate) fn flat_body_at_front(wire_type: u64, bytes: &[u8]) -> Option<(BodyRef<'_>, usize)>
    ensures within { IfSome result (λ found. found.1 ≤ length bytes.now) }
    ensures spelled { IfSome result (λ found. take found.1 bytes.now ≡ body_bytes (body_seen found.0)) }
    ensures whole { IfSome result (λ found. IsFlatBody wire_type (body_seen found.0)) }
    ensures none { IfNone result (¬ Begins (IsFlatBody wire_type) body_bytes bytes.now) }
{
    match wire_type {
        VARINT => {
            let number = read_varint(bytes)?;
            Some((BodyRef::Number(number), usize::from(number.width)))
        }
        I64 => {
            let eight = bytes.first_chunk::<8>()?;
            Some((BodyRef::Eight(*eight), 8))
        }
        LEN => delimited_at_front(bytes),
        I32 => {
            let four = bytes.first_chunk::<4>()?;
            Some((BodyRef::Four(*four), 4))
        }
        _ => None,
    }
}

/// A length and that many bytes at the front, and how many bytes both take.
#[inline(always)]
fn delimited_at_front(bytes: &[u8]) -> Option<(BodyRef<'_>, usize)>
    ensures within { IfSome result (λ found. found.1 ≤ length bytes.now) }
    ensures spelled { IfSome result (λ found. take found.1 bytes.now ≡ body_bytes (body_seen found.0)) }
    ensures whole { IfSome result (λ found. IsFlatBody 2 (body_seen found.0)) }
    ensures none { IfNone result (¬ Begins (IsFlatBody 2) body_bytes bytes.now) }
{
    let length = read_varint(bytes)?;
    let start = usize::from(length.width);
    let rest = &bytes[start..];
    if length.value > rest.len() as u64 {
        return None;
    }
    let content = &rest[..length.value as usize];
    let body = BodyRef::Bytes {
        width: length.width,
        bytes: content,
    };
    Some((body, start + content.len()))
}

impl FieldRef<'_> {
    /// The same field with bytes of its own.
    #[inline(always)]
    pub(crate) fn to_field(self, alloc: Global) -> Result<Field, AllocError>
        requires { IsField (front_of self) }
        ensures { IfOk result (λ field. field_of field ≡ front_of self.entry) }
    {
        Field::copied(alloc, Tag::new(self.tag), self.body)
    }
}
