//! The words of a line, each with the bytes where it is; the text of a quoted one.

ghost use Rattle.std.specs.Prelude.{◌≡◌, ◌<◌, ◌≤◌, [], ◌∷◌, not, length, map, option_map, ok_or, Some, IfOk, IfSome, IfNone, IsErr, IsSomeAnd};
ghost use Rattle.std.specs.List.{position, position_or_len};
ghost use Rattle.std.specs.Result.{IsErrOf};
ghost use Rattle.tile_lines.specs.Words.{is_blank, ends_bare, after_blanks, ends_word, hex_byte, byte_at, text_at, quoted_at, bare_at, word_at, words_of, IsLoneWord};
ghost use Rattle.tile_lines.specs.Answers.{Gives};
ghost use Rattle.tile_lines.specs.declared.parse_error.ParseError.TheVariants.{BadWord};
ghost use Rattle.tile_lines.specs.WordStands.{word_of};

use crate::parse_error::ParseError;
use std::alloc::{AllocError, Global};

/// A word of a line, which it borrows.
#[derive(Clone, Copy)]
pub enum Word<'a> {
    /// The bytes of a bare word.
    Bare(&'a [u8]),
    /// The line after the opening quote: the text goes up to the closing one.
    Quoted(&'a [u8]),
}

fn is_blank(byte: u8) -> bool
    ensures { result ≡ is_blank byte }
{
    matches!(byte, b' ' | b'\t' | b'\r')
}

fn ends_bare(byte: u8) -> bool
    ensures { result ≡ ends_bare byte }
{
    is_blank(byte) || byte == b'"'
}

fn word_start(bytes: &[u8]) -> Option<usize>
    ensures { result ≡ position (λ b. not (is_blank b)) bytes.now }
{
    bytes.iter().position(|byte| !is_blank(*byte))
}

fn word_end(bytes: &[u8]) -> Option<usize>
    ensures { result ≡ position ends_bare bytes.now }
{
    bytes.iter().position(|byte| ends_bare(*byte))
}

/// How many blanks are at the front.
fn count_blanks(bytes: &[u8]) -> usize
    ensures place { result ≡ position_or_len (λ b. not (is_blank b)) bytes.now }
    ensures within { result ≤ length bytes.now }
{
    word_start(bytes).unwrap_or(bytes.len())
}

/// How long the bare word at the front is.
fn bare_len(bytes: &[u8]) -> usize
    ensures place { result ≡ position_or_len ends_bare bytes.now }
    ensures within { result ≤ length bytes.now }
{
    word_end(bytes).unwrap_or(bytes.len())
}

/// The bytes after the blanks at the front.
pub fn after_blanks(bytes: &[u8]) -> &[u8]
    ensures { result.now ≡ after_blanks bytes.now }
{
    let (_, rest) = bytes.split_at(count_blanks(bytes));
    rest
}

fn ends_word(rest: &[u8]) -> bool
    ensures { result ≡ ends_word rest.now }
{
    match rest {
        [] => true,
        [byte, ..] => is_blank(*byte),
    }
}

fn hex_byte(high: u8, low: u8) -> Option<u8>
    ensures { result ≡ hex_byte high low }
{
    let high = char::from(high).to_digit(16)?;
    let low = char::from(low).to_digit(16)?;
    if high < 8 {
        Some((16 * high + low) as u8)
    } else {
        None
    }
}

/// The byte that is spelled at the front of a text, and the bytes after its spelling.
#[tactic(auto, unfolding(crate::specs::Words::byte_at))]
fn byte_at(bytes: &[u8]) -> Option<(u8, &[u8])>
    ensures value { option_map (λ found. (found.0, found.1.now)) result ≡ byte_at bytes.now }
    ensures shorter { IfSome result (λ found. length found.1.now < length bytes.now) }
{
    match bytes {
        [b'\\', b'x', high, low, rest @ ..] => Some((hex_byte(*high, *low)?, rest)),
        [b'\\', byte @ (b'"' | b'\\'), rest @ ..] => Some((*byte, rest)),
        [] | [b'"' | b'\\', ..] => None,
        [byte, rest @ ..] => Some((*byte, rest)),
    }
}

/// What follows the text at the front.
fn after_text(bytes: &[u8]) -> &[u8]
    ensures { result.now ≡ (text_at bytes.now).1 }
{
    let mut rest = bytes;
    while let Some((_, after)) = byte_at(rest) {
        rest = after;
    }
    rest
}

/// The text at the front, without its escapes.
pub fn text(alloc: Global, bytes: &[u8]) -> Result<Vec<u8>, AllocError>
    ensures said { IfOk result (λ text. text.items ≡ (text_at bytes.now).0) }
    ensures no_memory { IsErr result → 1 ≤ length (text_at bytes.now).0 }
{
    let mut text = Vec::new(alloc);
    let mut rest = bytes;
    while let Some((byte, after)) = byte_at(rest) {
        text.push(byte)?;
        rest = after;
    }
    Ok(text)
}

/// The word after an opening quote, and what follows it.
fn quoted_at(bytes: &[u8]) -> Option<(Word<'_>, &[u8])>
    ensures { option_map (λ found. (word_of found.0, found.1.now)) result ≡ quoted_at bytes.now }
{
    match after_text(bytes) {
        [b'"', rest @ ..] if ends_word(rest) => Some((Word::Quoted(bytes), rest)),
        _ => None,
    }
}

/// The bare word at the front, and what follows it.
fn bare_at(bytes: &[u8]) -> Option<(Word<'_>, &[u8])>
    ensures { option_map (λ found. (word_of found.0, found.1.now)) result ≡ bare_at bytes.now }
{
    let (word, rest) = bytes.split_at(bare_len(bytes));
    if ends_word(rest) {
        Some((Word::Bare(word), rest))
    } else {
        None
    }
}

/// The first word, and what follows it.
#[tactic(auto, unfolding(crate::specs::Words::word_at))]
fn word_at(bytes: &[u8]) -> Option<(Word<'_>, &[u8])>
    ensures value { option_map (λ found. (word_of found.0, found.1.now)) result ≡ word_at bytes.now }
    ensures shorter { IfSome result (λ found. length found.1.now < length bytes.now) }
{
    match after_blanks(bytes) {
        [] => None,
        [b'"', rest @ ..] => quoted_at(rest),
        word => bare_at(word),
    }
}

/// The word of a line of a single word. It takes no memory.
#[tactic(auto, using(crate::proofs::Lone::lone_found, crate::proofs::Lone::lone_rest))]
pub fn lone_word(line: &[u8]) -> Option<Word<'_>>
    ensures some { IfSome result (λ word. words_of line.now ≡ Some (word_of word ∷ [])) }
    ensures none { IfNone result (¬ IsLoneWord line.now) }
{
    let (word, rest) = word_at(line)?;
    if after_blanks(rest).is_empty() {
        Some(word)
    } else {
        None
    }
}

/// How many words a line has, where all that is in it are words.
fn count_words(line: &[u8]) -> Option<usize>
    ensures { result ≡ option_map length (words_of line.now) }
{
    let mut count = 0;
    let mut rest = line;
    while let Some((_, after)) = word_at(rest) {
        count += 1;
        rest = after;
    }
    after_blanks(rest).is_empty().then_some(count)
}

/// The words of a line.
pub fn words_of(alloc: Global, line: &[u8]) -> Result<Vec<Word<'_>>, ParseError>
    ensures answer { Gives (λ words. map word_of words.items) result (ok_or (words_of line.now) BadWord) }

    // Memory never runs out for a line without words, or in which something is not a word.
    ensures no_memory { IsErrOf result ParseError.NoMemory → IsSomeAnd (words_of line.now) (λ words. 1 ≤ length words) }
{
    let Some(count) = count_words(line) else {
        return Err(ParseError::BadWord);
    };
    let mut words = Vec::with_capacity(alloc, count)?;
    let mut rest = line;
    while let Some((word, after)) = word_at(rest) {
        words.push(word)?;
        rest = after;
    }
    Ok(words)
}
