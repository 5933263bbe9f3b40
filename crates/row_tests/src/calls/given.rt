//! What a call is given, as what it takes; and what it answers, as text.

use crate::calls::broken::{Answer, Broken};
use std::alloc::Global;
use std::fmt;
use tile_lines::{Word, words_of};

/// A tile, and bytes that stand for everything else.
#[derive(Clone, Copy)]
pub struct Given<'a> {
    pub tile: &'a [u8],
    pub bytes: &'a [u8],
}

impl<'a> Given<'a> {
    pub fn text(self) -> Result<&'a str, Broken> {
        str::from_utf8(self.bytes).map_err(|_| Broken::BadGiven)
    }

    pub fn number(self) -> Result<u64, Broken> {
        number_in(self.text()?)
    }

    /// A number, and what follows it.
    pub fn number_and_rest(self) -> Result<(u64, &'a str), Broken> {
        let text = self.text()?;
        let (number, rest) = text.split_once(' ').unwrap_or((text, ""));
        Ok((number_in(number)?, rest))
    }

    /// An ordinal, and what follows it.
    pub fn ordinal_and_rest(self) -> Result<(usize, &'a str), Broken> {
        let (number, rest) = self.number_and_rest()?;
        Ok((ordinal_of(number)?, rest))
    }

    pub fn ordinal(self) -> Result<usize, Broken> {
        ordinal_of(self.number()?)
    }

    /// The words of a line of a script.
    pub fn words(self, alloc: Global) -> Result<Vec<Word<'a>>, Broken> {
        words_of(alloc, self.bytes).map_err(|_| Broken::BadGiven)
    }

    /// The one word of a line of a script.
    pub fn word(self, alloc: Global) -> Result<Word<'a>, Broken> {
        match self.words(alloc)?.as_slice() {
            [word] => Ok(*word),
            _ => Err(Broken::BadGiven),
        }
    }
}

pub fn number_in(text: &str) -> Result<u64, Broken> {
    text.parse().map_err(|_| Broken::BadGiven)
}

fn ordinal_of(number: u64) -> Result<usize, Broken> {
    usize::try_from(number).map_err(|_| Broken::BadGiven)
}

/// The value as `Debug` prints it.
pub fn shown<T: fmt::Debug + Drop>(alloc: Global, value: T) -> Answer {
    Ok(format!(in alloc; "{value:?}")?.into_bytes())
}

/// The text as an answer.
pub fn said(alloc: Global, text: &str) -> Answer {
    Ok(Vec::from_slice(alloc, text.as_bytes())?)
}
