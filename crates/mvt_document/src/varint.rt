//! Numbers in base 128, each with the width of its spelling: read and written.

ghost use Rattle.std.specs.Prelude.{◌≡◌, ℕ, ◌+◌, ◌*◌, ◌^◌, ◌<◌, ◌≤◌, ◌++◌, length, take, IfSome, IfNone, IsOk, OnOk, nat_lt, position, vec_len, vec_capacity};
ghost use Rattle.mvt_document.specs.Shape.{IsSpelling};
ghost use Rattle.mvt_document.specs.Wire.{spell, spelling, minimal_width};
ghost use Rattle.mvt_document.specs.Groups.{IsNumber};
ghost use Rattle.mvt_document.specs.Begins.{Begins};
ghost use Rattle.mvt_document.specs.Fills.{Fills};

use std::alloc::AllocError;

// The most bytes that a number takes.
const WIDEST: usize = 10;

// Nine bytes hold 63 of a number's 64 bits.
const TENTH_BYTE_MAX: u8 = 1;

/// A number and the width of its spelling, in bytes.
#[derive(Clone, Copy, Debug, PartialEq, Eq)]
pub struct Varint {
    pub value: u64,
    pub width: u8,
    pub ghost spelled: { IsSpelling value width },
}

impl Varint {
    /// The number in its shortest spelling.
    pub fn minimal(value: u64) -> Varint
        ensures value { result.value ≡ value }
        ensures width { result.width ≡ minimal_width value }
        ensures enough { value < 2 ^ (7 * result.width) }
        ensures least { (width : ℕ) → 1 ≤ width → value < 2 ^ (7 * width) → result.width ≤ width }
    {
        Varint {
            value,
            width: least_width(value),
        }
    }

    /// Adds the number at the end, in as many bytes as its width. An `Err` occurs only when the vector has to
    /// grow, and may leave the first of these bytes at the end.
    pub fn put(self, bytes: &mut Vec<u8>) -> Result<(), AllocError>
        ensures bytes { OnOk result (bytes.new.items ≡ bytes.old.items ++ spell self.value self.width) }
        ensures room { vec_capacity bytes.old ≤ vec_capacity bytes.new }
        ensures succeeds { vec_len bytes.old + self.width ≤ vec_capacity bytes.old → IsOk result }
    {
        if self.width == 1 {
            bytes.push(self.value as u8)?;
            return Ok(());
        }
        if self.width == 2 {
            bytes.push((self.value % 128) as u8 + 128)?;
            bytes.push((self.value / 128) as u8)?;
            return Ok(());
        }
        let mut room = [0; WIDEST];
        let start = put_number(self.value, self.width, &mut room);
        bytes.extend_from_slice(&room[start..])
    }
}

/// The width of the number's shortest spelling.
pub fn least_width(value: u64) -> u8
    ensures width { result ≡ minimal_width value }
    ensures some { 1 ≤ result }
    ensures short { result ≤ 10 }
{
    let mut width = 1;
    let mut rest = value;
    while rest >= 128 {
        rest /= 128;
        width += 1;
    }
    width
}

/// The number at the front, whose spelling is as many bytes as its width. There is none if no byte
/// without the top bit is among the first ten, or if the number takes more than 64 bits. Most
/// numbers are one byte or two.
#[inline(always)]
pub fn read_varint(bytes: &[u8]) -> Option<Varint>
    ensures within { IfSome result (λ n. n.width ≤ length bytes.now) }
    ensures found { IfSome result (λ n. take n.width bytes.now ≡ spell n.value n.width) }
    ensures none { IfNone result (¬ Begins IsNumber spelling bytes.now) }
{
    let (value, width) = match bytes {
        [only, ..] if *only < 128 => (u64::from(*only), 1),
        [first, last, ..] if *first >= 128 && *last < 128 => {
            (u64::from(*last) * 128 + u64::from(*first - 128), 2)
        }
        _ => number_of_any_width(bytes)?,
    };
    Some(Varint { value, width })
}

/// The value of the number at the front, and its width, byte by byte from the last. Few numbers get
/// here, so this stays out of the loops that read them.
#[inline(never)]
fn number_of_any_width(bytes: &[u8]) -> Option<(u64, u8)>
    ensures within { IfSome result (λ found. found.1 ≤ length bytes.now) }
    ensures found { IfSome result (λ found. take found.1 bytes.now ≡ spell found.0 found.1) }
    ensures valid { IfSome result (λ found. IsSpelling found.0 found.1) }
    ensures none { IfNone result (¬ Begins IsNumber spelling bytes.now) }
{
    let last = last_byte(bytes)?;
    if last == 9 && bytes[9] > TENTH_BYTE_MAX {
        return None;
    }
    let mut value = u64::from(bytes[last]);
    for index in (0..last).rev() {
        value = value * 128 + u64::from(bytes[index] - 128);
    }
    Some((value, last as u8 + 1))
}

/// The place of the first byte without the top bit, among the ten that a number may take.
fn last_byte(bytes: &[u8]) -> Option<usize>
    ensures { result ≡ position (λ byte. nat_lt byte 128) (take 10 bytes.now) }
{
    bytes.iter().take(10).position(|byte| *byte < 128)
}

/// Writes the number at the end of the room, in `width` bytes. If it does not fit into that many, only its last
/// seven bits for each byte are written.
pub fn put_number(value: u64, width: u8, room: &mut [u8]) -> usize
    requires some { 1 ≤ width }
    requires fits { width ≤ length room.old }
    ensures { Fills room.old room.new (spell value width) result }
{
    let start = room.len() - usize::from(width);
    let last = room.len() - 1;
    let mut rest = value;
    for index in start..last {
        room[index] = (rest % 128) as u8 + 128;
        rest /= 128;
    }
    room[last] = (rest % 128) as u8;
    start
}
