//! A feature as it is held: its fields, with its id beside them.

ghost use Rattle.std.specs.Prelude.{◌≡◌};
ghost use Rattle.mvt_document.specs.Shape.{IsWidth};
ghost use Rattle.mvt_document.specs.Hashes.{hash_of};
ghost use Rattle.mvt_document.specs.StoredIds.{known_id, number_kept, stored_number};

use crate::field::Field;
use crate::items::Items;
use crate::message_tag::MessageTag;
use crate::tag::Tag;
use crate::tags::ID;
use crate::values::last_value;
use std::fmt;
use std::marker::Model;

/// What stands for an id that is not known: the largest number of five bytes.
const UNKNOWN: u64 = 0xff_ffff_ffff;

/// What stands for no id.
const NO_ID: u64 = 0xff_ffff_fffe;

/// The first number that four bytes do not hold.
const FOUR_BYTES: u64 = 0x1_0000_0000;

/// The tag of a feature, the least width in which its length is spelled, and its fields, which together make a
/// feature.
#[derive(Debug, Drop)]
pub struct FeatureParts {
    pub tag: MessageTag,
    pub width: u8,
    pub fields: Items<Field>,
    pub ghost is_feature: { tag.value ≡ 18 },
    pub ghost is_width: { IsWidth width },
}

/// The id of a feature, or that it has none, in five bytes. An id that takes more, or is one of the two numbers that
/// stand for something else, counts as not known.
#[derive(Clone, Copy)]
struct StoredId {
    high: u8,
    low: u32,
}

/// A feature of a layer, in four words. An id below 2^40 - 2 is kept, so that a feature is found by its id without
/// a look at the fields of any. Contracts see the parts that it was made of.
#[derive(Drop)]
pub struct Feature {
    tag: MessageTag,
    width: u8,
    id_high: u8,
    id_low: u32,
    fields: Items<Field>,
    ghost is_feature: { tag.value ≡ 18 },
    ghost is_width: { IsWidth width },
}

impl Model for Feature {
    ghost use Rattle.mvt_document.specs.declared.feature.FeatureParts.{FeatureParts as TheParts};
    ghost use Rattle.std.specs.Prelude.{◌≡◌, map};
    ghost use Rattle.mvt_document.specs.FieldStands.{field_of};
    ghost use Rattle.mvt_document.specs.StoredIds.{number_kept, stored_number};
    ghost use Rattle.mvt_document.specs.Values.{last_value};

    ghost Value = { TheParts };

    ghost view = { λ f. record { tag = f.tag; width = f.width; fields = f.fields; is_feature = f.is_feature; is_width = f.is_width } };

    ghost invariant = { λ f. stored_number (record { high = f.id_high; low = f.id_low }) ≡ number_kept (last_value 1 (map field_of f.fields.items)) };
}

impl fmt::Debug for Feature {
    fn fmt<W: fmt::Write>(&self, f: &mut fmt::Formatter<W>) -> fmt::Result {
        f.debug_struct("Feature")
            .field("tag", &self.tag)
            .field("width", &self.width)
            .field("fields", &self.fields)
            .finish()
    }
}

impl StoredId {
    fn new(id: Option<u64>) -> StoredId
        ensures { stored_number result ≡ number_kept id }
    {
        let number = match id {
            Some(id) if id < NO_ID => id,
            Some(_) => UNKNOWN,
            None => NO_ID,
        };
        StoredId {
            high: (number / FOUR_BYTES) as u8,
            low: (number % FOUR_BYTES) as u32,
        }
    }

    #[inline(always)]
    fn get(self) -> Option<Option<u64>>
        ensures { result ≡ known_id self }
    {
        let number = u64::from(self.high) * FOUR_BYTES + u64::from(self.low);
        if number == UNKNOWN {
            return None;
        }
        if number == NO_ID {
            return Some(None);
        }
        Some(Some(number))
    }
}

impl Feature {
    ghost use Rattle.std.specs.Prelude.{map};
    ghost use Rattle.mvt_document.specs.Made.{Makes, TakesList};
    ghost use Rattle.mvt_document.specs.FieldStands.{field_of};
    ghost use Rattle.mvt_document.specs.Values.{last_value};

    /// The feature of these parts. The fields stay in their list.
    pub fn new(parts: FeatureParts) -> Feature
        ensures { result ≡ parts }
    {
        let FeatureParts { tag, width, fields } = parts;
        let id = StoredId::new(last_value(fields.as_slice(), ID));
        Feature {
            tag,
            width,
            id_high: id.high,
            id_low: id.low,
            fields,
        }
    }

    /// The tag of the feature.
    pub fn tag(&self) -> Tag
        ensures { result ≡ self.now.tag }
    {
        self.tag.to_tag()
    }

    /// The least width in which its length is spelled.
    pub fn width(&self) -> u8
        ensures { result ≡ self.now.width }
    {
        self.width
    }

    pub fn fields(&self) -> &[Field]
        ensures { result.now ≡ self.now.fields.items }
    {
        self.fields.as_slice()
    }

    /// The value of the last id.
    #[inline(always)]
    pub fn id(&self) -> Option<u64>
        ensures { result ≡ last_value 1 (map field_of self.now.fields.items) }
    {
        let stored = StoredId {
            high: self.id_high,
            low: self.id_low,
        };
        match stored.get() {
            Some(id) => id,
            None => last_value(self.fields.as_slice(), ID),
        }
    }

    /// Changes the list of the fields, and the values beside it. Everything else is kept.
    pub(crate) fn change<W, R, F: FnOnce(&mut Items<Field>, &mut [W]) -> R>(
        &mut self,
        beside: &mut [W],
        change: F,
    ) -> R
        requires { TakesList F.FnOnce change self.old.fields beside.old }
        ensures made { Makes F.FnOnce change self.old.fields beside.old result self.new.fields beside.new }
        ensures kept { self.new ≡ record self.old { fields = self.new.fields } }
    {
        let result = change(&mut self.fields, beside);
        let id = StoredId::new(last_value(self.fields.as_slice(), ID));
        self.id_high = id.high;
        self.id_low = id.low;
        result
    }
}

/// The hash of an id: its last four bytes, or 0 if there is none. Ids with different hashes are
/// different.
pub fn hash_of(id: Option<u64>) -> u32
    ensures { result ≡ hash_of id }
{
    match id {
        Some(id) => (id % FOUR_BYTES) as u32,
        None => 0,
    }
}
