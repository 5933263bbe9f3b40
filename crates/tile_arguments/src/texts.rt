//! Texts: quoted, or in hexadecimal digits.

ghost use Rattle.std.specs.Prelude.{◌≡◌, ◌≤◌, is_ok, is_some, IfOk, IsErr, IsOk, IsSome, length, map, option_map};
ghost use Rattle.std.specs.List.{list_all};
ghost use Rattle.std.specs.Result.{IsErrOf};
ghost use Rattle.hex.specs.Hex.{is_hex_digit};
ghost use Rattle.tile_lines.specs.Answers.{Gives};
ghost use Rattle.tile_lines.specs.WordStands.{word_of};
ghost use Rattle.tile_arguments.specs.Arguments.{text_in, text_of, texts_of, bytes_in};

use crate::marks::after_mark;
use mvt_document::Items;
use std::alloc::{AllocError, Global};
use tile_lines::{ParseError, Word, text};

/// The text that a word says.
#[tactic(auto, unfolding(crate::specs::Arguments::text_of))]
pub fn text_argument(alloc: Global, word: Word<'_>) -> Result<Items<u8>, ParseError>
    ensures answer { Gives (λ text. text.items) result (text_of (word_of word.entry)) }
    ensures no_memory { IsErrOf result ParseError.NoMemory → IsSome (text_in (word_of word.entry)) }
{
    text_in(alloc, word)?.ok_or(ParseError::BadArguments)
}

/// The texts that words say.
#[tactic(auto, using(crate::proofs::Judged::texts_said))]
pub fn text_arguments(alloc: Global, words: &[Word<'_>]) -> Result<Items<Items<u8>>, ParseError>
    ensures answer { Gives (λ texts. map (λ text. text.items) texts.items) result (texts_of (map word_of words.now)) }
    ensures no_memory { IsErrOf result ParseError.NoMemory → (1 ≤ length words.now) × IsOk (texts_of (map word_of words.now)) }
{
    if !are_texts(words) {
        return Err(ParseError::BadArguments);
    }
    let mut texts = Vec::with_capacity(alloc, words.len())?;
    for word in words {
        texts.push(text_argument(alloc, *word)?)?;
    }
    Ok(Items::from_vec(texts))
}

/// Whether each word says a text.
fn are_texts(words: &[Word<'_>]) -> bool
    ensures { result ≡ list_all (λ word. is_ok (text_of (word_of word))) words.now }
{
    words.iter().all(|word| is_text(*word))
}

/// Whether a word says a text.
#[tactic(auto, unfolding(crate::specs::Arguments::text_of, crate::specs::Arguments::text_in))]
fn is_text(word: Word<'_>) -> bool
    ensures { result ≡ is_ok (text_of (word_of word.entry)) }
{
    match word {
        Word::Quoted(_) => true,
        Word::Bare(bytes) => match after_mark(b"x:", bytes) {
            Some(digits) => are_pairs(digits),
            None => false,
        },
    }
}

/// The text that a word says, where it is one.
#[tactic(auto, unfolding(crate::specs::Arguments::text_in))]
pub(crate) fn text_in(alloc: Global, word: Word<'_>) -> Result<Option<Items<u8>>, AllocError>
    ensures said { IfOk result (λ said. option_map (λ text. text.items) said ≡ text_in (word_of word.entry)) }
    ensures no_memory { IsErr result → IsSome (text_in (word_of word.entry)) }
{
    match word {
        Word::Quoted(bytes) => Ok(Some(Items::from_vec(text(alloc, bytes)?))),
        Word::Bare(bytes) => match after_mark(b"x:", bytes) {
            Some(digits) => bytes_in(alloc, digits),
            None => Ok(None),
        },
    }
}

/// The bytes of pairs of hexadecimal digits, where the digits are such pairs.
fn bytes_in(alloc: Global, digits: &[u8]) -> Result<Option<Items<u8>>, AllocError>
    ensures said { IfOk result (λ said. option_map (λ bytes. bytes.items) said ≡ bytes_in digits.now) }
    ensures no_memory { IsErr result → IsSome (bytes_in digits.now) }
{
    if !are_pairs(digits) {
        return Ok(None);
    }
    match hex::decode(alloc, digits) {
        Ok(bytes) => Ok(Some(Items::from_vec(bytes))),
        Err(_) => Err(AllocError),
    }
}

/// Whether the digits are pairs of hexadecimal digits.
fn are_pairs(digits: &[u8]) -> bool
    ensures { result ≡ is_some (bytes_in digits.now) }
{
    digits.len() % 2 == 0 && are_hex_digits(digits)
}

fn are_hex_digits(bytes: &[u8]) -> bool
    ensures { result ≡ list_all is_hex_digit bytes.now }
{
    bytes.iter().all(|byte| byte.is_ascii_hexdigit())
}
