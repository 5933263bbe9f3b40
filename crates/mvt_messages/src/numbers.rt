//! The numbers in the fields of one number, as an iterator.

use crate::elements::{Elements, first_elements};
use crate::number::{BadChunk, Number};
use crate::packed::Packed;
use mvt_document::Field;
use std::marker::Model;

/// The numbers in the fields of one number, in order, packed or not. There is none after a bad chunk.
/// Contracts see those that are left.
#[derive(Clone, Debug, Drop)]
pub struct Numbers<'a> {
    fields: &'a [Field],
    number: u64,
    // Where the next field is.
    position: usize,
    // What is left of the field before it.
    packed: Packed<'a>,
}

impl<'a> Model for Numbers<'a> {
    ghost use Rattle.std.specs.Prelude.{ℕ, ◌≤◌, List, Result, length, map};
    ghost use Rattle.mvt_document.specs.Stands.{field_of};
    ghost use Rattle.mvt_messages.specs.Numbers.{Placed};
    ghost use Rattle.mvt_messages.specs.Left.{left};
    ghost use Rattle.mvt_messages.specs.Seen.{left_of};

    ghost Value = { List (Result Placed ℕ) };

    ghost view = { λ l. left (left_of l.packed) l.number l.position (map field_of l.fields.now) };

    ghost invariant = { λ l. l.position ≤ length l.fields.now };
}

impl<'a> Numbers<'a> {
    ghost use Rattle.std.specs.Prelude.{◌≡◌, map};
    ghost use Rattle.mvt_document.specs.Stands.{field_of};
    ghost use Rattle.mvt_messages.specs.Numbers.{numbers};

    pub fn of(fields: &'a [Field], number: u64) -> Numbers<'a>
        ensures { result ≡ numbers number (map field_of fields.now) }
    {
        Numbers {
            fields,
            number,
            position: 0,
            packed: Packed::none(),
        }
    }
}

impl<'a> Iterator for Numbers<'a> {
    ghost use Rattle.std.specs.Iterator.{YieldsFirstBy, item_count};
    ghost use Rattle.mvt_messages.specs.Seen.{number_seen};

    type Item = Result<Number, BadChunk>;

    ghost next_gives = { YieldsFirstBy number_seen (λ left. left) };

    ghost remaining = { item_count (λ left. left) };

    #[inline(always)]
    fn next(&mut self) -> Option<Result<Number, BadChunk>> {
        if self.packed.is_empty() {
            let (field, elements) = first_elements(self.fields, self.number, self.position)?;
            self.position = field + 1;
            match elements {
                Elements::One(varint) => {
                    return Some(Ok(Number {
                        varint,
                        field,
                        place: 0,
                    }));
                }
                Elements::Packed(bytes) => {
                    self.packed = Packed {
                        bytes,
                        field,
                        place: 0,
                    };
                }
            }
        }
        match self.packed.first() {
            Ok((number, following)) => {
                self.packed = following;
                Some(Ok(number))
            }
            Err(bad) => {
                self.position = self.fields.len();
                self.packed = Packed::none();
                Some(Err(bad))
            }
        }
    }
}
