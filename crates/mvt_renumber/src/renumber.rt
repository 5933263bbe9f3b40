//! What becomes of a field when each of its numbers is decided on.

ghost use Rattle.std.specs.Prelude.{◌≡◌, ℕ, true, ◌||◌, ◌+◌, ◌<◌, ◌≤◌, ◌++◌, List, [], ◌∷◌, length, take, drop, max, is_some, vec_capacity, IfOk, IfSome, IsErr, OnErr, OnOk, MatchOption};
ghost use Rattle.std.specs.List.{flat_map};
ghost use Rattle.std.specs.Option.{unwrap_or};
ghost use Rattle.mvt_document.specs.Plain as plain;
ghost use Rattle.mvt_document.specs.Shape.{IsTag, IsWidth};
ghost use Rattle.mvt_document.specs.Bodies.{number_of};
ghost use Rattle.mvt_document.specs.Stands.{field_of};
ghost use Rattle.mvt_document.specs.Wire.{spelling};
ghost use Rattle.mvt_messages.specs.Views.{content_in};
ghost use Rattle.mvt_renumber.specs.Deciding.{BeginsChanged, IsLeft, IsScanned, made_up_to, packed_field, packed_numbers, with_bytes};
ghost use Rattle.mvt_renumber.specs.Fates.{IsChange, changes, left_of_fate};
ghost use Rattle.mvt_renumber.specs.Renumbering.{field_numbers, renumbered, renumbered_field, some_changed, with_left};

use crate::fate::Fate;
use mvt_document::{Body, BodyRef, Field, FieldParts, Tag, Varint, read_varint};
use std::alloc::{AllocError, Global};

/// What becomes of a field, by a decision for each number in the fields of its number, in order:
/// the value that it gets, or none if it goes. Also the decisions that are left for the fields
/// after it. Memory is asked for only if a packed body has a number that does not stay, with nothing
/// but numbers before it, and once if no number gets longer.
#[inline(always)]
pub fn renumber_field<'a>(
    alloc: Global,
    field: &Field,
    number: u64,
    decisions: &'a [Option<u64>],
) -> Result<(Fate<Field>, &'a [Option<u64>]), AllocError>
    ensures fate { IfOk result (λ made. left_of_fate field_of (field_of field.now) made.0 ≡ renumbered_field number decisions.now (field_of field.now)) }
    ensures change { IfOk result (λ made. IsChange field_of (field_of field.now) made.0) }
    ensures changes { IfOk result (λ made. changes made.0 ≡ some_changed decisions.now (field_numbers number (field_of field.now))) }
    ensures left { IfOk result (λ made. made.1.now ≡ drop (length (field_numbers number (field_of field.now))) decisions.now) }
    ensures packed { IsErr result → is_some (content_in number (field_of field.now)) ≡ true }
    ensures no_memory { IsErr result → IfSome (content_in number (field_of field.now)) (λ bytes. BeginsChanged bytes decisions.now) }
{
    if field.number() != number {
        return Ok((Fate::Stays, decisions));
    }
    match field.body() {
        BodyRef::Number(old) => Ok(renumber_unpacked(field.tag(), old, decisions)),
        BodyRef::Bytes { width, bytes } => {
            renumber_packed(alloc, field.tag(), width, bytes, decisions)
        }
        _ => Ok((Fate::Stays, decisions)),
    }
}

/// What becomes of a field that is not packed.
fn renumber_unpacked<'a>(
    tag: Tag,
    old: Varint,
    decisions: &'a [Option<u64>],
) -> (Fate<Field>, &'a [Option<u64>])
    requires { IsTag tag.value 0 }
    ensures fate { left_of_fate field_of (record { tag = number_of tag; body = plain.Spelled (number_of old) }) result.0
        ≡ with_left (record { tag = number_of tag; body = plain.Spelled (number_of old) }) (number_of old ∷ []) (renumbered decisions.now (number_of old ∷ [])) }
    ensures change { IsChange field_of (record { tag = number_of tag; body = plain.Spelled (number_of old) }) result.0 }
    ensures changes { changes result.0 ≡ some_changed decisions.now (number_of old ∷ []) }
    ensures left { result.1.now ≡ drop 1 decisions.now }
{
    let (fate, left) = first_fate(old, decisions);
    let fate = match fate {
        Fate::Stays => Fate::Stays,
        Fate::Goes => Fate::Goes,
        Fate::Becomes(number) => Fate::Becomes(Field::new(FieldParts {
            tag,
            body: Body::Number(number),
        })),
    };
    (fate, left)
}

/// What becomes of a packed field.
#[inline(never)]
fn renumber_packed<'a>(
    alloc: Global,
    tag: Tag,
    width: u8,
    bytes: &[u8],
    decisions: &'a [Option<u64>],
) -> Result<(Fate<Field>, &'a [Option<u64>]), AllocError>
    requires tag { IsTag tag.value 2 }
    requires width { IsWidth width }
    ensures fate { IfOk result (λ made. left_of_fate field_of (packed_field (number_of tag) width bytes.now) made.0
        ≡ with_left (packed_field (number_of tag) width bytes.now) (unwrap_or (packed_numbers bytes.now) []) (renumbered decisions.now (unwrap_or (packed_numbers bytes.now) []))) }
    ensures change { IfOk result (λ made. IsChange field_of (packed_field (number_of tag) width bytes.now) made.0) }
    ensures changes { IfOk result (λ made. changes made.0 ≡ some_changed decisions.now (unwrap_or (packed_numbers bytes.now) [])) }
    ensures left { IfOk result (λ made. made.1.now ≡ drop (length (unwrap_or (packed_numbers bytes.now) [])) decisions.now) }
    ensures no_memory { IsErr result → BeginsChanged bytes.now decisions.now }
{
    let (place, from) = match first_change(bytes, decisions) {
        Scan::AllStay(left) => return Ok((Fate::Stays, left)),
        Scan::Changes {
            place,
            decisions: from,
        } => (place, from),
    };
    match changed_from(alloc, bytes, place, from)? {
        None => Ok((Fate::Stays, decisions)),
        Some((made, left)) => Ok((packed_fate(tag, width, made), left)),
    }
}

/// A packed field goes if nothing is left of it, and otherwise becomes one with what is left. If that is few
/// bytes, the memory in which they were made is given back.
fn packed_fate(tag: Tag, width: u8, left: Vec<u8>) -> Fate<Field>
    requires tag { IsTag tag.value 2 }
    requires width { IsWidth width }
    ensures fate { (old : plain.Field) → left_of_fate field_of old result ≡ with_bytes (number_of tag) width left.items }
    ensures changes { changes result ≡ true }
{
    if left.is_empty() {
        return Fate::Goes;
    }
    Fate::Becomes(Field::delimited(tag, width, left))
}

/// What was found in a packed body by decisions on its numbers.
#[derive(Clone, Copy)]
enum Scan<'a> {
    /// All its numbers stay, or it packs something else. These decisions are left after it.
    AllStay(&'a [Option<u64>]),
    /// The number at this place is the first that does not stay, by the first of these decisions.
    Changes {
        place: usize,
        decisions: &'a [Option<u64>],
    },
}

/// The first number of a packed body that does not stay.
fn first_change<'a>(bytes: &[u8], decisions: &'a [Option<u64>]) -> Scan<'a>
    ensures { IsScanned bytes.now decisions.now result }
{
    let mut place = 0;
    let mut left = decisions;
    while place < bytes.len() {
        let Some(number) = read_varint(&bytes[place..]) else {
            return Scan::AllStay(decisions);
        };
        let (fate, following) = first_fate(number, left);
        let Fate::Stays = fate else {
            return Scan::Changes {
                place,
                decisions: left,
            };
        };
        place += usize::from(number.width);
        left = following;
    }
    Scan::AllStay(left)
}

/// What is left of a packed body whose numbers stay up to this place, and the decisions that are
/// left after it; none if it packs anything but numbers.
fn changed_from<'a>(
    alloc: Global,
    bytes: &[u8],
    start: usize,
    decisions: &'a [Option<u64>],
) -> Result<Option<(Vec<u8>, &'a [Option<u64>])>, AllocError>
    requires { start ≤ length bytes.now }
    ensures { IfOk result (λ found. MatchOption found
        (packed_numbers (drop start bytes.now) ≡ None)
        (λ found. IsLeft (take start bytes.now) (drop start bytes.now) decisions.now found.0.items found.1.now)) }
{
    let mut making = Making {
        made: Vec::new(alloc),
        copied: 0,
    };
    let mut place = start;
    let mut left = decisions;
    while place < bytes.len() {
        let Some(number) = read_varint(&bytes[place..]) else {
            return Ok(None);
        };
        let (fate, following) = first_fate(number, left);
        making.pass(bytes, place, number, fate)?;
        place += usize::from(number.width);
        left = following;
    }
    let Making { mut made, copied } = making;
    made.extend_from_slice(&bytes[copied..])?;
    Ok(Some((made, left)))
}

/// What becomes of a number by the first of the decisions, and the others. It stays if there is
/// none.
fn first_fate<'a>(number: Varint, decisions: &'a [Option<u64>]) -> (Fate<Varint>, &'a [Option<u64>])
    ensures fate { (more : List plain.Number) → renumbered decisions.now (number_of number ∷ more) ≡ left_of_fate number_of (number_of number) result.0 ++ renumbered result.1.now more }
    ensures change { IsChange number_of (number_of number) result.0 }
    ensures changes { (more : List plain.Number) → some_changed decisions.now (number_of number ∷ more) ≡ changes result.0 || some_changed result.1.now more }
    ensures left { (more : ℕ) → drop (more + 1) decisions.now ≡ drop more result.1.now }
{
    let Some((decision, left)) = decisions.split_first() else {
        return (Fate::Stays, decisions);
    };
    let fate = match decision {
        None => Fate::Goes,
        Some(value) if *value == number.value => Fate::Stays,
        Some(value) => Fate::Becomes(Varint::minimal(*value)),
    };
    (fate, left)
}

/// A packed body that is made from another.
#[derive(Drop)]
struct Making {
    made: Vec<u8>,
    // The place in the other up to which its bytes are made or left out.
    copied: usize,
}

impl Making {
    /// Moves on past a number of the other at this place. The bytes that stay are copied before the
    /// first that do not.
    fn pass(
        &mut self,
        bytes: &[u8],
        place: usize,
        number: Varint,
        fate: Fate<Varint>,
    ) -> Result<(), AllocError>
        requires copied { self.old.copied ≤ place }
        requires within { place + number.width ≤ length bytes.now }
        requires number { take number.width (drop place bytes.now) ≡ spelling (number_of number) }
        ensures made { OnOk result (made_up_to bytes.now (place + number.width) self.new ≡ made_up_to bytes.now place self.old ++ flat_map spelling (left_of_fate number_of (number_of number) fate)) }
        ensures copied { OnOk result (self.new.copied ≤ place + number.width) }
        ensures stays { fate ≡ Fate.Stays → self.new ≡ self.old }
    {
        match fate {
            Fate::Stays => return Ok(()),
            Fate::Goes => self.copy(bytes, place)?,
            Fate::Becomes(other) => {
                self.make_room(bytes.len())?;
                self.copy(bytes, place)?;
                other.put(&mut self.made)?;
            }
        }
        self.copied = place + usize::from(number.width);
        Ok(())
    }

    /// Copies the bytes that stay, up to this place.
    #[inline(always)]
    fn copy(&mut self, bytes: &[u8], place: usize) -> Result<(), AllocError>
        requires copied { self.old.copied ≤ place }
        requires within { place ≤ length bytes.now }
        ensures made { OnOk result (self.new.made.items ≡ made_up_to bytes.now place self.old) }
        ensures copied { self.new.copied ≡ self.old.copied }
    {
        if self.copied == place {
            return Ok(());
        }
        self.make_room(bytes.len())?;
        put_bytes(&mut self.made, &bytes[self.copied..place])
    }

    /// Makes room for a body of this length, if it is not there yet.
    fn make_room(&mut self, whole: usize) -> Result<(), AllocError>
        ensures made { self.new.made.items ≡ self.old.made.items }
        ensures copied { self.new.copied ≡ self.old.copied }
        ensures room { OnOk result (vec_capacity self.new.made ≡ max (vec_capacity self.old.made) whole) }
        ensures full { OnErr result (vec_capacity self.old.made < whole) }
    {
        self.made
            .reserve_exact(whole.saturating_sub(self.made.len()))
    }
}

// At most `FEW` bytes are put one by one, which costs less than a call that copies any number of
// them.
const FEW: usize = 8;

/// Puts the bytes at the end.
#[inline(always)]
fn put_bytes(made: &mut Vec<u8>, bytes: &[u8]) -> Result<(), AllocError>
    ensures { OnOk result (made.new.items ≡ made.old.items ++ bytes.now) }
{
    if bytes.len() > FEW {
        return made.extend_from_slice(bytes);
    }
    for byte in bytes {
        made.push(*byte)?;
    }
    Ok(())
}
