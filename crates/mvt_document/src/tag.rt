//! The tag of a field, in eight bytes of memory.

ghost use Rattle.std.specs.Prelude.{◌≡◌, ◌/◌, ◌^◌, ◌<◌};
ghost use Rattle.mvt_document.specs.Shape.{IsSpelling};
ghost use Rattle.mvt_document.specs.Wire.{minimal_width};

use crate::varint::Varint;
use std::marker::Model;

/// The number of a field and its wire type, as one number of 32 bits, with the width of its spelling.
/// Contracts see it as a `Varint`, which takes twice the memory.
#[derive(Clone, Copy, Debug, PartialEq, Eq)]
pub struct Tag {
    value: u32,
    width: u8,
    ghost spelled: { IsSpelling value width },
}

impl Model for Tag {
    ghost use Rattle.mvt_document.specs.declared.varint.Varint.{Varint};

    ghost Value = { Varint };

    ghost view = { λ t. record { value = t.value; width = t.width; spelled = t.spelled } };

    ghost inverse = { λ n. record { value = n.value; width = n.width; spelled = n.spelled } };
}

impl Tag {
    /// The tag that a number is.
    #[inline(always)]
    pub fn new(number: Varint) -> Tag
        requires { number.value < 2 ^ 32 }
        ensures { result ≡ number }
    {
        Tag {
            value: number.value as u32,
            width: number.width,
        }
    }

    /// The tag of this value in its shortest spelling.
    pub fn minimal(value: u64) -> Tag
        requires { value < 2 ^ 32 }
        ensures value { result.value ≡ value }
        ensures width { result.width ≡ minimal_width value }
    {
        Tag::new(Varint::minimal(value))
    }

    /// Its value in 32 bits.
    #[inline(always)]
    pub(crate) fn to_u32(self) -> u32
        ensures { result ≡ self.value }
    {
        self.value
    }

    /// The number that the tag is.
    #[inline(always)]
    pub fn to_varint(self) -> Varint
        ensures { result ≡ self }
    {
        Varint {
            value: u64::from(self.value),
            width: self.width,
        }
    }

    /// The number of the field, and its wire type in the lowest three bits.
    #[inline(always)]
    pub fn value(&self) -> u64
        ensures { result ≡ self.now.value }
    {
        u64::from(self.value)
    }

    /// How many bytes its spelling takes.
    #[inline(always)]
    pub fn width(&self) -> u8
        ensures { result ≡ self.now.width }
    {
        self.width
    }

    /// The number of the field.
    #[inline(always)]
    pub fn number(&self) -> u64
        ensures { result ≡ self.now.value / 8 }
    {
        u64::from(self.value / 8)
    }
}
