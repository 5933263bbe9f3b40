//! The tag of a layer or of a feature, in two bytes of memory.

ghost use Rattle.std.specs.Prelude.{◌≡◌, ◌^◌, ◌<◌};
ghost use Rattle.mvt_document.specs.Shape.{IsSpelling};

use crate::tag::Tag;
use crate::varint::Varint;
use std::marker::Model;

/// The tag of a layer or of a feature. Both are numbers of less than eight bits, so a byte is enough for the value,
/// and one for the width of its spelling. Contracts see it as a `Varint`.
#[derive(Debug, Drop)]
pub struct MessageTag {
    value: u8,
    width: u8,
    ghost spelled: { IsSpelling value width },
}

impl Model for MessageTag {
    ghost use Rattle.mvt_document.specs.declared.varint.Varint.{Varint as TheVarint};

    ghost Value = { TheVarint };

    ghost view = { λ tag. record { value = tag.value; width = tag.width; spelled = tag.spelled } };
}

impl MessageTag {
    /// The tag that a number is.
    pub fn new(number: Varint) -> MessageTag
        requires { number.value < 2 ^ 8 }
        ensures { result ≡ number }
    {
        MessageTag {
            value: number.value as u8,
            width: number.width,
        }
    }

    /// The number that the tag is.
    fn to_varint(&self) -> Varint
        ensures number { result ≡ self.now }
        ensures value { result.value < 2 ^ 8 }
    {
        Varint {
            value: u64::from(self.value),
            width: self.width,
        }
    }

    /// The same as a tag of any field.
    pub fn to_tag(&self) -> Tag
        ensures { result ≡ self.now }
    {
        Tag::new(self.to_varint())
    }
}
