//! A field as it is held: its tag and its body share four words, which hold a body of few bytes
//! themselves.

ghost use Rattle.std.specs.Prelude.{◌≡◌, ◌/◌, IfOk, IsOk};
ghost use Rattle.mvt_document.specs.Bodies.{IsFew, body_of, body_seen, number_of};
ghost use Rattle.mvt_document.specs.BodyShape.{stored_width, EndsGroup};
ghost use Rattle.mvt_document.specs.FieldForms.{body_in, tag_in, tag_width_in};
ghost use Rattle.mvt_document.specs.Groups.{wire_type};
ghost use Rattle.mvt_document.specs.Shape.{IsSpelling, IsTag, IsWidth};

use crate::body::{Body, BodyRef};
use crate::few::Few;
use crate::items::Items;
use crate::tag::Tag;
use crate::varint::Varint;
use std::alloc::{AllocError, Global};
use std::fmt;
use std::marker::Model;

/// A tag and the body after it, which together make a field.
#[derive(Debug, Drop)]
pub struct FieldParts {
    pub tag: Tag,
    pub body: Body,
    pub ghost is_tag: { IsTag tag.value (wire_type (body_of body)) },
    pub ghost is_width: { IsWidth (stored_width (body_of body)) },
    pub ghost is_group: { ∥ EndsGroup (tag.value / 8) (body_of body) ∥₁ },
}

/// The forms in which a field is held. Each of them has the tag and its width where the form leaves room
/// before its body.
#[derive(Drop)]
enum Form {
    Number {
        tag_width: u8,
        tag: u32,
        number: Varint,
    },
    Eight {
        tag_width: u8,
        tag: u32,
        bytes: [u8; 8],
    },
    Four {
        tag_width: u8,
        tag: u32,
        bytes: [u8; 4],
    },
    Bytes {
        tag_width: u8,
        width: u8,
        tag: u32,
        bytes: Items<u8>,
    },
    FewBytes {
        tag_width: u8,
        width: u8,
        tag: u32,
        bytes: Few,
    },
    Group {
        tag_width: u8,
        tag: u32,
        bytes: Items<u8>,
    },
    FewOfGroup {
        tag_width: u8,
        tag: u32,
        bytes: Few,
    },
}

/// A tag and its body, in four words. Most values, names and points that are read have few bytes, which then
/// take no memory of their own. Contracts see the parts that it was made of.
#[derive(Drop)]
pub struct Field {
    form: Form,
    ghost spelled: { IsSpelling (tag_in form) (tag_width_in form) },
    ghost is_tag: { IsTag (tag_in form) (wire_type (body_of (body_in form))) },
    ghost is_width: { IsWidth (stored_width (body_of (body_in form))) },
    ghost is_group: { ∥ EndsGroup (tag_in form / 8) (body_of (body_in form)) ∥₁ },
}

impl Model for Field {
    ghost use Rattle.mvt_document.specs.declared.field.FieldParts.{FieldParts as TheParts};
    ghost use Rattle.mvt_document.specs.FieldForms.{body_in, tag_in, tag_width_in};

    ghost Value = { TheParts };

    ghost view = { λ f. record { tag = record { value = tag_in f.form; width = tag_width_in f.form; spelled = f.spelled }; body = body_in f.form; is_tag = f.is_tag; is_width = f.is_width; is_group = f.is_group } };
}

impl fmt::Debug for Field {
    fn fmt<W: fmt::Write>(&self, f: &mut fmt::Formatter<W>) -> fmt::Result {
        f.debug_struct("Field")
            .field("tag", &self.tag())
            .field("body", &self.body())
            .finish()
    }
}

impl Field {
    ghost use Rattle.mvt_document.specs.Opens.{IsField};
    ghost use Rattle.mvt_document.specs.FieldStands.{field_of};
    ghost use Rattle.mvt_document.specs.Plain.{Delimited};

    /// The field of these parts. The bytes of its body stay in their list.
    pub fn new(parts: FieldParts) -> Field
        ensures { result ≡ parts }
    {
        let FieldParts { tag, body } = parts;
        let (tag, tag_width) = (tag.to_u32(), tag.width());
        let form = match body {
            Body::Number(number) => Form::Number {
                tag_width,
                tag,
                number,
            },
            Body::Eight(bytes) => Form::Eight {
                tag_width,
                tag,
                bytes,
            },
            Body::Four(bytes) => Form::Four {
                tag_width,
                tag,
                bytes,
            },
            Body::Bytes { width, bytes } => Form::Bytes {
                tag_width,
                width,
                tag,
                bytes,
            },
            Body::Group(bytes) => Form::Group {
                tag_width,
                tag,
                bytes,
            },
        };
        Field { form }
    }

    /// The field of a tag and a body, with bytes of its own. Few bytes take no memory.
    #[inline(always)]
    pub fn copied(alloc: Global, tag: Tag, body: BodyRef<'_>) -> Result<Field, AllocError>
        requires { IsField (record { tag = number_of tag; body = body_seen body }) }
        ensures field { IfOk result (λ field. field_of field ≡ record { tag = number_of tag; body = body_seen body.entry }) }
        ensures few { IsFew (body_seen body.entry) → IsOk result }
    {
        let (tag, tag_width) = (tag.to_u32(), tag.width());
        let form = match body {
            BodyRef::Number(number) => Form::Number {
                tag_width,
                tag,
                number,
            },
            BodyRef::Eight(bytes) => Form::Eight {
                tag_width,
                tag,
                bytes,
            },
            BodyRef::Four(bytes) => Form::Four {
                tag_width,
                tag,
                bytes,
            },
            BodyRef::Bytes { width, bytes } => match Few::new(bytes) {
                Some(bytes) => Form::FewBytes {
                    tag_width,
                    width,
                    tag,
                    bytes,
                },
                None => Form::Bytes {
                    tag_width,
                    width,
                    tag,
                    bytes: list_of(alloc, bytes)?,
                },
            },
            BodyRef::Group(bytes) => match Few::new(bytes) {
                Some(bytes) => Form::FewOfGroup {
                    tag_width,
                    tag,
                    bytes,
                },
                None => Form::Group {
                    tag_width,
                    tag,
                    bytes: list_of(alloc, bytes)?,
                },
            },
        };
        Ok(Field { form })
    }

    /// The LEN field of these bytes. Few bytes are held in the field, and the memory of their vector is
    /// given back.
    pub fn delimited(tag: Tag, width: u8, bytes: Vec<u8>) -> Field
        requires tag { IsTag tag.value 2 }
        requires width { IsWidth width }
        ensures { field_of result ≡ record { tag = number_of tag; body = Delimited width bytes.items } }
    {
        let (tag, tag_width) = (tag.to_u32(), tag.width());
        let form = match Few::new(&bytes) {
            Some(bytes) => Form::FewBytes {
                tag_width,
                width,
                tag,
                bytes,
            },
            None => Form::Bytes {
                tag_width,
                width,
                tag,
                bytes: Items::from_vec(bytes),
            },
        };
        Field { form }
    }

    /// The tag of the field.
    #[inline(always)]
    pub fn tag(&self) -> Tag
        ensures { result ≡ self.now.tag }
    {
        let (value, width) = self.form.tag();
        Tag::new(Varint {
            value: u64::from(value),
            width,
        })
    }

    /// The number of the field.
    #[inline(always)]
    pub fn number(&self) -> u64
        ensures { result ≡ self.now.tag.value / 8 }
    {
        let (value, _) = self.form.tag();
        u64::from(value / 8)
    }

    /// The body, whose bytes stay here.
    #[inline(always)]
    pub fn body(&self) -> BodyRef<'_>
        ensures { body_seen result ≡ body_of self.now.body }
    {
        match &self.form {
            Form::Number { number, .. } => BodyRef::Number(*number),
            Form::Eight { bytes, .. } => BodyRef::Eight(*bytes),
            Form::Four { bytes, .. } => BodyRef::Four(*bytes),
            Form::Bytes { width, bytes, .. } => BodyRef::Bytes {
                width: *width,
                bytes: bytes.as_slice(),
            },
            Form::FewBytes { width, bytes, .. } => BodyRef::Bytes {
                width: *width,
                bytes: bytes.as_slice(),
            },
            Form::Group { bytes, .. } => BodyRef::Group(bytes.as_slice()),
            Form::FewOfGroup { bytes, .. } => BodyRef::Group(bytes.as_slice()),
        }
    }
}

impl Form {
    /// The value of the tag, and the width of its spelling.
    #[inline(always)]
    fn tag(&self) -> (u32, u8)
        ensures { result ≡ (tag_in self.now, tag_width_in self.now) }
    {
        match self {
            Form::Number { tag, tag_width, .. }
            | Form::Eight { tag, tag_width, .. }
            | Form::Four { tag, tag_width, .. }
            | Form::Bytes { tag, tag_width, .. }
            | Form::FewBytes { tag, tag_width, .. }
            | Form::Group { tag, tag_width, .. }
            | Form::FewOfGroup { tag, tag_width, .. } => (*tag, *tag_width),
        }
    }
}

/// A list of the same bytes.
fn list_of(alloc: Global, bytes: &[u8]) -> Result<Items<u8>, AllocError>
    ensures { IfOk result (λ list. list.items ≡ bytes.now) }
{
    Ok(Items::from_vec(Vec::from_slice(alloc, bytes)?))
}
