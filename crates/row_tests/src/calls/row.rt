//! A row: read from its lines, tried, and compared with what it should be.

use crate::calls::answers::answer;
use crate::calls::broken::Broken;
use crate::calls::given::Given;
use std::alloc::{AllocError, Global};
use std::io;
use test_fixtures::pieces::Pieces;

/// What the lines up to here say of a row.
#[derive(Drop)]
pub struct Row<'a> {
    call: &'a str,
    tile: Vec<u8>,
    given: Vec<u8>,
}

/// What a line of a table is.
#[derive(Drop)]
pub enum Line {
    Taken,
    Unknown,
    /// The call should answer this.
    Answers(Vec<u8>),
}

impl<'a> Row<'a> {
    /// A row of no call.
    pub fn new(alloc: Global) -> Self {
        Row {
            call: "",
            tile: Vec::new(alloc),
            given: Vec::new(alloc),
        }
    }

    /// Takes what the line says.
    pub fn read(
        &mut self,
        alloc: Global,
        pieces: &mut Pieces,
        line: &'a str,
    ) -> Result<Line, AllocError> {
        let (word, rest) = line.split_once(' ').unwrap_or((line, ""));
        match word {
            "" | "#" => Ok(Line::Taken),
            "piece" if pieces.name(alloc, rest)? => Ok(Line::Taken),
            "call" => {
                self.call = rest;
                self.tile = Vec::new(alloc);
                Ok(Line::Taken)
            }
            _ => self.read_bytes(alloc, pieces, word, rest),
        }
    }

    /// Takes what a line says whose word stands for bytes.
    fn read_bytes(
        &mut self,
        alloc: Global,
        pieces: &Pieces,
        word: &str,
        rest: &str,
    ) -> Result<Line, AllocError> {
        Ok(match bytes_in(alloc, pieces, word, rest)? {
            Some(bytes) => self.take(word, bytes),
            None => Line::Unknown,
        })
    }

    /// Takes the bytes that follow the word.
    fn take(&mut self, word: &str, bytes: Vec<u8>) -> Line {
        match word {
            "tile" => self.tile = bytes,
            ">" | ">>" => self.given = bytes,
            "<" | "<<" => return Line::Answers(bytes),
            _ => return Line::Unknown,
        }
        Line::Taken
    }

    /// Whether the call answers as it should. If it does not, that is printed.
    pub fn holds<R: Eprint + AllocGlobal>(&self, rt: &R, wanted: &[u8]) -> io::Result<bool> {
        let given = Given {
            tile: &self.tile,
            bytes: &self.given,
        };
        match answer(rt.alloc(), self.call, given) {
            Ok(answered) => self.is_met(rt, &answered, wanted),
            Err(broken) => self.print_broken(rt, broken),
        }
    }

    /// Whether this is what the call should answer. If it is not, that is printed.
    fn is_met<R: Eprint + AllocGlobal>(
        &self,
        rt: &R,
        answered: &[u8],
        wanted: &[u8],
    ) -> io::Result<bool> {
        if answered == wanted {
            return Ok(true);
        }
        self.print_given(rt)?;
        print_bytes(rt, "answers", answered)?;
        print_bytes(rt, "should answer", wanted)?;
        Ok(false)
    }

    /// Prints why the row cannot be tried.
    fn print_broken<R: Eprint + AllocGlobal>(&self, rt: &R, broken: Broken) -> io::Result<bool> {
        self.print_given(rt)?;
        eprintln!(rt; "{broken}")?;
        Ok(false)
    }

    /// Prints the call, and what it is given.
    fn print_given<R: Eprint + AllocGlobal>(&self, rt: &R) -> io::Result<()> {
        eprintln!(rt; "call {}", self.call)?;
        print_bytes(rt, "given", &self.given)
    }
}

/// The bytes that follow the word: those of the text, or of its pieces where each is one.
fn bytes_in(
    alloc: Global,
    pieces: &Pieces,
    word: &str,
    text: &str,
) -> Result<Option<Vec<u8>>, AllocError> {
    if matches!(word, ">" | "<") {
        return Ok(Some(Vec::from_slice(alloc, text.as_bytes())?));
    }
    let mut bytes = Vec::new(alloc);
    let is_well = pieces.put(alloc, text, &mut bytes)?;
    Ok(if is_well { Some(bytes) } else { None })
}

/// Prints bytes after the word: as a text where they are one, else in hexadecimal digits.
fn print_bytes<R: Eprint + AllocGlobal>(rt: &R, word: &str, bytes: &[u8]) -> io::Result<()> {
    match str::from_utf8(bytes) {
        Ok(text) => eprintln!(rt; "{word}: {text}"),
        Err(_) => eprintln!(rt; "{word}, in digits: {}", hex::encode(rt.alloc(), bytes)?),
    }
}
