//! Numbers in decimal digits, with and without a sign, and coordinates.

ghost use Rattle.std.specs.Prelude.{◌≡◌, ◌+◌, ◌*◌, ◌^◌, ◌<◌, ◌≤◌, neg_ℤ, pos, IfSome};
ghost use Rattle.std.specs.Option.{SomeIff};
ghost use Rattle.tile_lines.specs.WordStands.{word_of};
ghost use Rattle.tile_arguments.specs.Arguments.{number_of, number_in, number_up_to, signed_of, delta_of, distance_of};

use crate::marks::after_mark;
use tile_lines::{ParseError, Word};

/// The farthest that points move or lie.
const FARTHEST: u64 = 2_147_483_647;

/// The number that the digits denote.
pub fn number(digits: &[u8]) -> Result<u64, ParseError>
    ensures { result ≡ number_of digits.now }
{
    if digits.is_empty() {
        return Err(ParseError::BadNumber);
    }
    let mut value: u64 = 0;
    for digit in digits {
        if !digit.is_ascii_digit() {
            return Err(ParseError::BadNumber);
        }
        let Some(next) = with_digit(value, *digit - b'0') else {
            return Err(ParseError::BadNumber);
        };
        value = next;
    }
    Ok(value)
}

/// The number that a word says.
#[tactic(auto, unfolding(crate::specs::Arguments::number_in))]
pub fn number_argument(word: Word<'_>) -> Result<u64, ParseError>
    ensures { result ≡ number_in (word_of word.entry) }
{
    match word {
        Word::Bare(digits) => number(digits),
        Word::Quoted(_) => Err(ParseError::BadNumber),
    }
}

fn with_digit(value: u64, digit: u8) -> Option<u64>
    ensures { SomeIff result (value * 10 + digit < 2 ^ 64) (value * 10 + digit) }
{
    value.checked_mul(10)?.checked_add(u64::from(digit))
}

/// The number that the digits denote, where it is at most this great.
#[tactic(auto, unfolding(crate::specs::Arguments::number_up_to))]
fn number_up_to(most: u64, digits: &[u8]) -> Option<u64>
    ensures value { result ≡ number_up_to most digits.now }
    ensures bound { IfSome result (λ n. n ≤ most) }
{
    match number(digits) {
        Ok(value) if value <= most => Some(value),
        _ => None,
    }
}

/// The number of an optional `-` and digits: from `-least` to `greatest`.
#[tactic(auto, unfolding(crate::specs::Arguments::signed_of))]
pub(crate) fn signed(least: u64, greatest: u64, bytes: &[u8]) -> Option<i64>
    requires least { least ≤ 2 ^ 63 }
    requires greatest { greatest < 2 ^ 63 }
    ensures { result ≡ signed_of least greatest bytes.now }
{
    match after_mark(b"-", bytes) {
        Some(digits) => Some(below_zero(number_up_to(least, digits)?)),
        None => Some(number_up_to(greatest, bytes)? as i64),
    }
}

/// The number that is this far below 0.
fn below_zero(distance: u64) -> i64
    requires { distance ≤ 2 ^ 63 }
    ensures { result ≡ neg_ℤ (pos distance) }
{
    0_i64.wrapping_sub_unsigned(distance)
}

/// How far a point moves or lies, from the bytes of a word.
pub(crate) fn delta(bytes: &[u8]) -> Option<i64>
    ensures { result ≡ delta_of bytes.now }
{
    signed(FARTHEST, FARTHEST, bytes)
}

/// How far a point moves or lies.
#[tactic(auto, unfolding(crate::specs::Arguments::distance_of))]
pub fn distance(word: Word<'_>) -> Result<i64, ParseError>
    ensures { result ≡ distance_of (word_of word.entry) }
{
    match word {
        Word::Bare(bytes) => delta(bytes).ok_or(ParseError::BadNumber),
        Word::Quoted(_) => Err(ParseError::BadNumber),
    }
}
