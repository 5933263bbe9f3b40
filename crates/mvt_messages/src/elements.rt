//! Which field is the next one that has numbers, and whether they are packed.

ghost use Rattle.std.specs.Prelude.{◌≡◌, ℕ, ◌+◌, ◌<◌, ◌≤◌, ◌++◌, [], length, map, IfSome, MatchOption};
ghost use Rattle.mvt_document.specs.Bodies.{body_of};
ghost use Rattle.mvt_document.specs.Stands.{field_of};
ghost use Rattle.mvt_messages.specs.Numbers.{numbers_in};
ghost use Rattle.mvt_messages.specs.Left.{numbers_from};
ghost use Rattle.mvt_messages.specs.Seen.{elements_seen, HasNumbers};

use mvt_document::{BodyRef, Field, Varint};

/// The numbers that a field has.
#[derive(Clone, Copy, Debug)]
pub(crate) enum Elements<'a> {
    One(Varint),
    /// A packed body with at least one byte.
    Packed(&'a [u8]),
}

/// The numbers in a field, if it has this number.
fn elements_in(field: &Field, number: u64) -> Option<Elements<'_>>
    ensures numbers { (position : ℕ) → MatchOption result (numbers_in number (position, field_of field.now) ≡ []) (λ found. numbers_in number (position, field_of field.now) ≡ elements_seen position found) }
    ensures some { IfSome result HasNumbers }
{
    if field.number() != number {
        return None;
    }
    match field.body() {
        BodyRef::Number(varint) => Some(Elements::One(varint)),
        BodyRef::Bytes { bytes, .. } if bytes.len() > 0 => Some(Elements::Packed(bytes)),
        _ => None,
    }
}

/// The numbers in the first field from `start` on that has some, and its position.
pub(crate) fn first_elements(
    fields: &[Field],
    number: u64,
    start: usize,
) -> Option<(usize, Elements<'_>)>
    requires { start ≤ length fields.now }
    ensures numbers { MatchOption result (numbers_from number start (map field_of fields.now) ≡ []) (λ found. numbers_from number start (map field_of fields.now) ≡ elements_seen found.0 found.1 ++ numbers_from number (found.0 + 1) (map field_of fields.now)) }
    ensures within { IfSome result (λ found. found.0 < length fields.now) }
    ensures some { IfSome result (λ found. HasNumbers found.1) }
{
    for position in start..fields.len() {
        if let Some(elements) = elements_in(&fields[position], number) {
            return Some((position, elements));
        }
    }
    None
}
